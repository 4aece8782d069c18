//! Closing positions by opposite ones.
ghost use Rattle.std.specs.Prelude.{◌≡◌, ◌∷◌, ◌++◌, ◌<◌, ◌^◌, [], true, IfOk, OnOk, OnErr, All, pos, ◌<ℤ◌};
ghost use Rattle.market_types.specs.Ranges.{IsSpec};
ghost use Rattle.account.specs.Ranges.{IsHeld};
ghost use Rattle.account.specs.declared.deal.DealEntry.TheVariants as entry;
ghost use Rattle.positions.specs.Fills.{Leaves};
ghost use Rattle.positions.specs.Acts.{IsOpen};
ghost use Rattle.positions.specs.CloseBy.{against, deal_by, common, both_events, are_opposite, closed_by, IsPairOf, IsJudged};

use crate::fill::closed;
use crate::{Fill, FillFault};
use account::{
    Deal, DealEntry, Event, EventList, Position, apply_to_open, copy_deal, copy_text, look_up,
    same_side,
};
use fx8::{Fix8, OutOfMemory, Text};
use market_types::Specs;
use std::alloc::Global;

/// Whether two positions are of one symbol, one a buy and the other a sell.
pub fn are_opposite(one: &Position, other: &Position) -> bool
    ensures { result ≡ are_opposite one.now other.now }
{
    if one.symbol == other.symbol {
        !same_side(one.buy, other.buy)
    } else {
        false
    }
}

/// The smaller volume of both.
fn common(one: &Position, other: &Position) -> Fix8
    ensures { result ≡ common one.now other.now }
{
    if one.volume < other.volume {
        one.volume
    } else {
        other.volume
    }
}

/// A fill on the other side of a position, with that comment.
fn fill_against(
    at: &Fill,
    position: &Position,
    deal: u64,
    volume: Fix8,
    price: Fix8,
    comment: Text,
) -> Fill
    requires { comment ≡ at.now.comment }
    ensures { result ≡ against at.now position.now deal volume price }
{
    Fill {
        order: at.order,
        position: position.ticket,
        deal,
        time_ms: at.time_ms,
        symbol: position.symbol,
        buy: !position.buy,
        volume,
        price,
        sl: at.sl,
        tp: at.tp,
        magic: at.magic,
        reason: at.reason,
        comment,
    }
}

/// The deal, as one that closes by an opposite position.
fn by_opposite(deal: Deal) -> Deal
    ensures { result ≡ record deal { entry = entry.OutBy } }
{
    let mut deal = deal;
    deal.entry = DealEntry::OutBy;
    deal
}

/// The deal of a fill that closes by an opposite position.
fn deal_by(
    alloc: Global,
    specs: &Specs,
    fill: &Fill,
    position: &Position,
) -> Result<Deal, OutOfMemory>
    requires specs { All IsSpec specs.now }
    requires some { pos 0 <ℤ fill.now.volume }
    requires held { pos 0 <ℤ position.now.volume }
    ensures { IfOk result (λ deal. deal ≡ deal_by specs.now fill.now position.now) }
{
    let comment = copy_text(alloc, &fill.comment)?;
    Ok(by_opposite(closed(specs, fill, position, comment)))
}

/// The deal that closes so much of a position at a price.
fn deal_against(
    alloc: Global,
    specs: &Specs,
    at: &Fill,
    position: &Position,
    deal: u64,
    volume: Fix8,
    price: Fix8,
) -> Result<Deal, OutOfMemory>
    requires specs { All IsSpec specs.now }
    requires some { pos 0 <ℤ volume }
    requires held { pos 0 <ℤ position.now.volume }
    ensures { IfOk result (λ made. made
        ≡ deal_by specs.now (against at.now position.now deal volume price) position.now) }
{
    let comment = copy_text(alloc, &at.comment)?;
    let fill = fill_against(at, position, deal, volume, price, comment);
    deal_by(alloc, specs, &fill, position)
}

/// Both deals of a close-by.
#[derive(Debug, Drop)]
pub(crate) struct Pair {
    first: Deal,
    second: Deal,
}

/// Both deals of a close-by of two positions.
fn pair_of(
    alloc: Global,
    specs: &Specs,
    at: &Fill,
    one: &Position,
    other: &Position,
) -> Result<Pair, OutOfMemory>
    requires specs { All IsSpec specs.now }
    requires deal { at.now.deal < 2 ^ 63 }
    requires one { IsHeld one.now }
    requires other { IsHeld other.now }
    ensures { IfOk result (IsPairOf specs.now at.now one.now other.now) }
{
    let volume = common(one, other);
    let first = deal_against(alloc, specs, at, one, at.deal, volume, other.price)?;
    let second = deal_against(alloc, specs, at, other, at.deal + 1, volume, other.price)?;
    Ok(Pair { first, second })
}

/// Both deals of a close-by, or why it is refused.
fn judged(
    alloc: Global,
    specs: &Specs,
    positions: &[Position],
    one: u64,
    other: u64,
    at: &Fill,
) -> Result<Pair, FillFault>
    requires specs { All IsSpec specs.now }
    requires open { IsOpen positions.now }
    requires deal { at.now.deal < 2 ^ 63 }
    ensures { IsJudged (closed_by true specs.now positions.now one other at.now) result }
{
    let Some(first) = look_up(positions, one) else {
        return Err(FillFault::PositionClosed);
    };
    let Some(second) = look_up(positions, other) else {
        return Err(FillFault::PositionClosed);
    };
    if !are_opposite(first, second) {
        return Err(FillFault::WrongSide);
    }
    match pair_of(alloc, specs, at, first, second) {
        Ok(pair) => Ok(pair),
        Err(_) => Err(FillFault::OutOfMemory),
    }
}

/// Adds copies of both deals. A refused call adds none.
fn push_pair(alloc: Global, out: &mut EventList, pair: &Pair) -> Result<(), OutOfMemory>
    ensures ok { OnOk result (out.new ≡ out.old ++ both_events pair.now.first pair.now.second) }
    ensures err { OnErr result (out.new ≡ out.old) }
{
    let first = copy_deal(alloc, &pair.first)?;
    let second = copy_deal(alloc, &pair.second)?;
    let before = out.len();
    out.push(Event::Added(first))?;
    if out.push(Event::Added(second)).is_err() {
        out.truncate(before);
        return Err(OutOfMemory);
    }
    Ok(())
}

/// Closes the smaller volume of two opposite positions by each other. A refused call changes nothing.
pub(crate) fn close_both(
    alloc: Global,
    specs: &Specs,
    positions: &mut Vec<Position>,
    one: u64,
    other: u64,
    at: &Fill,
    out: &mut EventList,
) -> Result<(), FillFault>
    requires specs { All IsSpec specs.now }
    requires open { IsOpen positions.old.items }
    requires deal { at.now.deal < 2 ^ 63 }
    ensures closed { Leaves (closed_by true specs.now positions.old.items one other at.now) result
        positions.old.items positions.new.items out.old out.new }
    ensures open { IsOpen positions.new.items }
{
    let pair = judged(alloc, specs, positions, one, other, at)?;
    if push_pair(alloc, out, &pair).is_err() {
        return Err(FillFault::OutOfMemory);
    }
    apply_to_open(positions, &pair.first);
    apply_to_open(positions, &pair.second);
    Ok(())
}
