//! What a fill makes of open positions.
ghost use Rattle.std.specs.Prelude.{◌≡◌, ◌==◌, ◌∷◌, ◌++◌, [], IfSome, OnOk, OnErr, All, length, ◌≤◌, ◌<◌, ◌+◌, ◌^◌, slice_get, is_some, IfOk, pos, ◌<ℤ◌, FitsSigned};
ghost use Rattle.std.specs.List.{find, fold};
ghost use Rattle.std.specs.Int.{w64};
ghost use Rattle.std.specs.Option.{option_copied};
ghost use Rattle.std.specs.Vec.{vec_len, vec_capacity};
ghost use Rattle.market_types.specs.Ranges.{IsSpec};
ghost use Rattle.account.specs.Keyed.{item, Rising};
ghost use Rattle.account.specs.Positions.{position_ticket, after_deal, positions_after};
ghost use Rattle.account.specs.Ranges.{IsHeld, KeepsTypes};
ghost use Rattle.account.specs.Firing.{reaches_sl, reaches_tp, stop_reason, stops, stopped_positions};
ghost use Rattle.account.specs.declared.event.Event.TheVariants as event;
ghost use Rattle.positions.specs.Fills.{named, met, refusal, named_refusal, closing_refusal, levels_of, stops_event, filled, Leaves, IsFill, MayAdd};
ghost use Rattle.positions.specs.Acts.{IsOpen, IsActOf, change_events, differing};

use crate::fill::{deal_on, levels_of};
use crate::{Fill, FillFault, Levels};
use account::{
    Deal, DealReason, Event, EventList, Position, apply_deal, apply_stops, apply_swap, copy_deal,
    is_closed_by, look_up, same_side,
};
use fx8::{Fix8, Money, OutOfMemory, Tickets};
use market_types::{Quote, Specs};
use std::alloc::Global;

/// The first position of a symbol.
fn on_symbol(positions: &[Position], symbol: u8) -> Option<&Position>
    ensures { option_copied result ≡ find (λ p. p.symbol == symbol) positions.now }
{
    let mut rest = positions;
    while let Some((position, others)) = rest.split_first() {
        if position.symbol == symbol {
            return Some(position);
        }
        rest = others;
    }
    None
}

/// The position of a ticket that is named; `None` where none is, or where it is not open.
fn named(positions: &[Position], ticket: u64) -> Option<&Position>
    requires { Rising position_ticket positions.now }
    ensures { option_copied result ≡ named positions.now ticket }
{
    if ticket == 0 {
        return None;
    }
    look_up(positions, ticket)
}

/// The position that a fill meets.
pub(crate) fn met<'a>(hedging: bool, positions: &'a [Position], fill: &Fill) -> Option<&'a Position>
    requires { Rising position_ticket positions.now }
    ensures { option_copied result ≡ met hedging positions.now fill.now }
{
    if hedging {
        named(positions, fill.position)
    } else {
        on_symbol(positions, fill.symbol)
    }
}

/// Why a fill that names a position is refused under hedging.
fn closing_refusal(hedging: bool, fill: &Fill, position: &Position) -> Option<FillFault>
    ensures { result ≡ closing_refusal hedging fill.now position.now }
{
    if !hedging {
        return None;
    }
    if same_side(position.buy, fill.buy) {
        return Some(FillFault::WrongSide);
    }
    if position.volume < fill.volume {
        return Some(FillFault::TooMuch);
    }
    None
}

/// Why a fill that names a position is refused.
fn named_refusal(hedging: bool, fill: &Fill, on: Option<&Position>) -> Option<FillFault>
    ensures { result ≡ named_refusal hedging fill.now (option_copied on.entry) }
{
    match on {
        None => Some(FillFault::PositionClosed),
        Some(position) => {
            if position.symbol == fill.symbol {
                closing_refusal(hedging, fill, position)
            } else {
                Some(FillFault::PositionClosed)
            }
        }
    }
}

/// Why a fill is refused.
fn refusal(hedging: bool, positions: &[Position], fill: &Fill) -> Option<FillFault>
    requires { Rising position_ticket positions.now }
    ensures { result ≡ refusal hedging positions.now fill.now }
{
    if fill.position == 0 {
        return None;
    }
    named_refusal(hedging, fill, look_up(positions, fill.position))
}

/// Other stops of a position.
#[derive(Clone, Copy, Debug)]
pub(crate) struct Change {
    ticket: u64,
    sl: Fix8,
    tp: Fix8,
}

/// The change of stops from those that a position has, where they differ.
fn change_to(ticket: u64, sl: Fix8, tp: Fix8, levels: Levels) -> Option<Change>
    ensures { change_events result ≡ differing ticket sl tp levels }
{
    if sl == levels.sl && tp == levels.tp {
        None
    } else {
        Some(Change {
            ticket,
            sl: levels.sl,
            tp: levels.tp,
        })
    }
}

/// The change of stops that follows a deal.
fn stops_after(fill: &Fill, deal: &Deal, on: Option<&Position>) -> Option<Change>
    ensures { change_events result
        ≡ stops_event (after_deal deal.now (option_copied on.entry)) (levels_of fill.now (option_copied on.entry)) }
{
    let levels = levels_of(fill, on);
    match on {
        None => change_to(deal.position, Fix8::of_units(0), Fix8::of_units(0), levels),
        Some(position) => {
            if is_closed_by(position, deal) {
                None
            } else {
                change_to(position.ticket, position.sl, position.tp, levels)
            }
        }
    }
}

/// The event of a change of stops.
fn event_of(change: &Change) -> Event
    ensures { result ≡ event.Stops change.now.ticket change.now.sl change.now.tp }
{
    Event::Stops {
        ticket: change.ticket,
        sl: change.sl,
        tp: change.tp,
    }
}

/// Adds a deal and a change of stops. A refused call adds none.
fn push_act(out: &mut EventList, deal: Deal, stops: &Option<Change>) -> Result<(), OutOfMemory>
    ensures ok { OnOk result (out.new ≡ out.old ++ event.Added deal ∷ change_events stops.now) }
    ensures err { OnErr result (out.new ≡ out.old) }
{
    let before = out.len();
    out.push(Event::Added(deal))?;
    let Some(change) = stops else {
        return Ok(());
    };
    if out.push(event_of(change)).is_err() {
        out.truncate(before);
        return Err(OutOfMemory);
    }
    Ok(())
}

/// What a fill does: its deal, once for the events and once for the position that it may open, and the
/// change of stops that follows.
#[derive(Debug, Drop)]
pub(crate) struct Act {
    deal: Deal,
    opening: Deal,
    stops: Option<Change>,
}

/// What a fill does to the position that it meets.
fn act_of(
    hedging: bool,
    alloc: Global,
    specs: &Specs,
    positions: &[Position],
    fill: &Fill,
) -> Result<Act, OutOfMemory>
    requires specs { All IsSpec specs.now }
    requires some { pos 0 <ℤ fill.now.volume }
    requires rising { Rising position_ticket positions.now }
    requires held { IfSome (met hedging positions.now fill.now) IsHeld }
    ensures { IfOk result (IsActOf specs.now fill.now (met hedging positions.now fill.now)) }
{
    let on = met(hedging, positions, fill);
    let deal = deal_on(alloc, specs, fill, on)?;
    let opening = copy_deal(alloc, &deal)?;
    let stops = stops_after(fill, &deal, on);
    Ok(Act {
        deal,
        opening,
        stops,
    })
}

/// The volume and the price of a fill are doubles.
fn number_ranges(fill: &Fill)
    ensures volume { FitsSigned w64 fill.now.volume }
    ensures price { FitsSigned w64 fill.now.price }
{
    let _volume = fill.volume.units();
    let _price = fill.price.units();
}

/// Makes room for one more position, of fewer than 2^32.
fn make_room(positions: &mut Vec<Position>) -> Result<(), OutOfMemory>
    ensures items { positions.new.items ≡ positions.old.items }
    ensures few { OnOk result (length positions.old.items + 1 < 2 ^ 32) }
    ensures room { OnOk result (vec_len positions.new < vec_capacity positions.new) }
{
    if positions.len() >= u32::MAX as usize {
        return Err(OutOfMemory);
    }
    positions.reserve(1)?;
    Ok(())
}

/// What a fill makes of open positions, under hedging or under netting. A refused call changes nothing.
pub(crate) fn fill_on(
    hedging: bool,
    alloc: Global,
    specs: &Specs,
    positions: &mut Vec<Position>,
    fill: &Fill,
    out: &mut EventList,
) -> Result<(), FillFault>
    requires specs { All IsSpec specs.now }
    requires open { IsOpen positions.old.items }
    requires fill { IsFill hedging specs.now positions.old.items fill.now }
    requires volume { MayAdd fill.now (met hedging positions.old.items fill.now) }
    ensures filled { Leaves (filled hedging specs.now positions.old.items fill.now) result
        positions.old.items positions.new.items out.old out.new }
    ensures open { IsOpen positions.new.items }
{
    if let Some(fault) = refusal(hedging, positions, fill) {
        return Err(fault);
    }
    let Ok(act) = act_of(hedging, alloc, specs, positions, fill) else {
        return Err(FillFault::OutOfMemory);
    };
    number_ranges(fill);
    if make_room(positions).is_err() {
        return Err(FillFault::OutOfMemory);
    }
    let Act {
        deal,
        opening,
        stops,
    } = act;
    if push_act(out, deal, &stops).is_err() {
        return Err(FillFault::OutOfMemory);
    }
    apply_deal(positions, opening);
    apply_change(positions, &stops);
    Ok(())
}

/// What a change of stops makes of open positions.
fn apply_change(positions: &mut Vec<Position>, stops: &Option<Change>)
    requires rising { Rising position_ticket positions.old.items }
    ensures items { positions.new.items ≡ fold positions_after positions.old.items (change_events stops.now) }
    ensures rising { Rising position_ticket positions.new.items }
{
    let Some(change) = stops else {
        return;
    };
    let _open = apply_stops(positions, change.ticket, change.sl, change.tp);
}

/// Sets the stops of a position; `false` exactly where it is not open, and then nothing changes.
pub(crate) fn set_stops_of(positions: &mut Vec<Position>, ticket: u64, sl: Fix8, tp: Fix8) -> bool
    requires { IsOpen positions.old.items }
    ensures items { positions.new.items ≡ positions_after positions.old.items (event.Stops ticket sl tp) }
    ensures open { result ≡ is_some (item position_ticket ticket positions.old.items) }
    ensures kept { IsOpen positions.new.items }
{
    apply_stops(positions, ticket, sl, tp)
}

/// Adds to the accrued swap of a position; `false` exactly where it is not open, and then nothing changes.
pub(crate) fn add_swap_to(positions: &mut Vec<Position>, ticket: u64, amount: Money) -> bool
    requires open { IsOpen positions.old.items }
    requires types { KeepsTypes positions.old.items (event.Swap ticket amount) }
    ensures items { positions.new.items ≡ positions_after positions.old.items (event.Swap ticket amount) }
    ensures open { result ≡ is_some (item position_ticket ticket positions.old.items) }
    ensures kept { IsOpen positions.new.items }
{
    apply_swap(positions, ticket, amount)
}

/// How many positions there are.
pub(crate) fn count(positions: &[Position]) -> u32
    requires { length positions.now < 2 ^ 32 }
    ensures { result ≡ length positions.now }
{
    positions.len() as u32
}

/// The position at a place; `None` exactly where the place is not below their number.
pub(crate) fn at_place(positions: &[Position], i: u32) -> Option<&Position>
    ensures { option_copied result ≡ slice_get positions.now i }
{
    positions.get(i as usize)
}

/// Whether the quote closes a position by its stop loss.
fn reaches_sl(buy: bool, quote: &Quote, sl: Fix8) -> bool
    ensures { result ≡ reaches_sl buy quote.now sl }
{
    if sl == Fix8::of_units(0) {
        return false;
    }
    if buy {
        quote.bid <= sl
    } else {
        sl <= quote.ask
    }
}

/// Whether the quote closes a position by its take profit.
fn reaches_tp(buy: bool, quote: &Quote, tp: Fix8) -> bool
    ensures { result ≡ reaches_tp buy quote.now tp }
{
    if tp == Fix8::of_units(0) {
        return false;
    }
    if buy {
        tp <= quote.bid
    } else {
        quote.ask <= tp
    }
}

/// Why a quote closes a position, where it does: the stop loss comes first.
#[tactic(auto, unfolding(account::specs::Firing::stop_reason))]
pub fn stop_reason(quote: &Quote, position: &Position) -> Option<DealReason>
    ensures { result ≡ stop_reason quote.now position.now }
{
    if reaches_sl(position.buy, quote, position.sl) {
        return Some(DealReason::StopLoss);
    }
    if reaches_tp(position.buy, quote, position.tp) {
        return Some(DealReason::TakeProfit);
    }
    None
}

/// Whether a quote closes a position.
#[tactic(auto, unfolding(account::specs::Firing::stops))]
fn stops(quote: &Quote, position: &Position) -> bool
    ensures { result ≡ stops quote.now position.now }
{
    if position.symbol == quote.symbol {
        stop_reason(quote, position).is_some()
    } else {
        false
    }
}

/// Adds the tickets of the positions that a quote closes.
pub(crate) fn fired_of(positions: &[Position], quote: &Quote, out: &mut Tickets)
    requires room { length positions.now ≤ out.old.spare }
    ensures { out.new.items ≡ out.old.items ++ stopped_positions quote.now positions.now }
{
    let mut rest = positions;
    while let Some((position, others)) = rest.split_first() {
        if stops(quote, position) {
            out.push(position.ticket);
        }
        rest = others;
    }
}
