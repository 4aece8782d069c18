//! Whether there is money for a fill.
ghost use Rattle.std.specs.Prelude.{◌≡◌, ◌^◌, [], IfOk, OnOk, All, FitsSigned, is_some, true, pos, ◌+ℤ◌, ◌≤ℤ◌, int_lt};
ghost use Rattle.std.specs.Int.{w64, w128, int_wrap};
ghost use Rattle.std.specs.List.{fold};
ghost use Rattle.market_types.specs.Ranges.{IsSpec};
ghost use Rattle.account.specs.Deals.{total, balance};
ghost use Rattle.account.specs.Positions.{open_positions, positions_after};
ghost use Rattle.account.specs.StopOut.{prices_at};
ghost use Rattle.positions.specs.Fills.{filled, met, IsFill, MayAdd};
ghost use Rattle.positions.specs.Acts.{IsOpen};
ghost use Rattle.positions.specs.Money.{has_money, added_by, has_money_for, event_net, HasRoom, IsCountable};

use crate::acts::fill_on;
use crate::{Fill, FillFault};
use account::{Event, EventList, Ledger, Position, Prices, copy_text, equity_of, margin_by, net};
use fx8::{Money, OutOfMemory, Text};
use market_types::Specs;
use std::alloc::Global;

/// The position with another comment.
fn position_with(position: &Position, comment: Text) -> Position
    ensures { result ≡ record position.now { comment = comment } }
{
    Position {
        ticket: position.ticket,
        symbol: position.symbol,
        buy: position.buy,
        volume: position.volume,
        price: position.price,
        sl: position.sl,
        tp: position.tp,
        swap: position.swap,
        time_ms: position.time_ms,
        magic: position.magic,
        comment,
    }
}

/// An equal position.
fn copy_position(alloc: Global, position: &Position) -> Result<Position, OutOfMemory>
    ensures { IfOk result (λ copy. copy ≡ position.now) }
{
    let comment = copy_text(alloc, &position.comment)?;
    Ok(position_with(position, comment))
}

/// Equal positions.
fn copy_positions(alloc: Global, positions: &[Position]) -> Result<Vec<Position>, OutOfMemory>
    ensures { IfOk result (λ copy. copy.items ≡ positions.now) }
{
    let mut copy: Vec<Position> = Vec::new(alloc);
    let mut rest = positions;
    while let Some((position, others)) = rest.split_first() {
        copy.push(copy_position(alloc, position)?)?;
        rest = others;
    }
    Ok(copy)
}

/// Fills open positions, where the fill is not refused.
fn try_fill(
    hedging: bool,
    alloc: Global,
    specs: &Specs,
    positions: &mut Vec<Position>,
    fill: &Fill,
    out: &mut EventList,
) -> Result<(), OutOfMemory>
    requires specs { All IsSpec specs.now }
    requires open { IsOpen positions.old.items }
    requires fill { IsFill hedging specs.now positions.old.items fill.now }
    requires volume { MayAdd fill.now (met hedging positions.old.items fill.now) }
    requires none { out.old ≡ [] }
    ensures added { OnOk result (out.new ≡ added_by (filled hedging specs.now positions.old.items fill.now)) }
    ensures positions { OnOk result (positions.new.items ≡ fold positions_after positions.old.items
        (added_by (filled hedging specs.now positions.old.items fill.now))) }
{
    match fill_on(hedging, alloc, specs, positions, fill, out) {
        Ok(()) => Ok(()),
        Err(FillFault::OutOfMemory) => Err(OutOfMemory),
        Err(FillFault::PositionClosed) => Ok(()),
        Err(FillFault::WrongSide) => Ok(()),
        Err(FillFault::TooMuch) => Ok(()),
    }
}

/// What an event adds to the balance.
fn event_net(event: &Event) -> Money
    requires { FitsSigned w128 (event_net event.now) }
    ensures { result ≡ event_net event.now }
{
    match event {
        Event::Added(deal) => net(deal),
        Event::Placed(_) | Event::Modified(_) | Event::Removed { .. } | Event::Triggered(_) => {
            Money::of_cents(0)
        }
        Event::Stops { .. } | Event::Swap { .. } => Money::of_cents(0),
    }
}

/// A sum of two amounts, of which 128 bits are kept.
fn wrapped_sum(one: Money, other: Money) -> Money
    ensures { result ≡ int_wrap w128 (one +ℤ other) }
{
    Money::of_cents(one.cents().wrapping_add(other.cents()))
}

/// What events add to the balance together, of which 128 bits are kept.
fn nets(events: &[Event]) -> Money
    requires { All (λ e. FitsSigned w128 (event_net e)) events.now }
    ensures { result ≡ int_wrap w128 (total event_net events.now) }
{
    let mut sum = Money::of_cents(0);
    let mut rest = events;
    while let Some((event, others)) = rest.split_first() {
        sum = wrapped_sum(sum, event_net(event));
        rest = others;
    }
    sum
}

/// A balance with what events add to it.
fn balance_with(balance: Money, events: &[Event]) -> Money
    requires nets { All (λ e. FitsSigned w128 (event_net e)) events.now }
    requires fits { FitsSigned w128 (balance +ℤ total event_net events.now) }
    ensures { result ≡ balance +ℤ total event_net events.now }
{
    wrapped_sum(balance, nets(events))
}

/// Whether an amount exceeds another.
fn exceeds(amount: Money, other: Money) -> bool
    ensures { result ≡ int_lt other amount }
{
    other < amount
}

/// Whether there is money for further events, which leave these positions.
fn is_enough(ledger: &Ledger, prices: &Prices, left: &[Position], events: &[Event]) -> bool
    requires left { left.now ≡ fold positions_after (open_positions ledger.now.events) events.now }
    requires countable { IsCountable ledger.now.spec prices.now (balance ledger.now.events) left.now
        events.now }
    ensures { result ≡ has_money ledger.now.spec prices.now ledger.now.events events.now }
{
    let spec = ledger.spec();
    let margin = margin_by(spec, left);
    let before = ledger.margin();
    if !exceeds(margin, before) {
        return true;
    }
    let balance = balance_with(ledger.balance(), events);
    let equity = equity_of(&spec.specs, prices, balance, left);
    !exceeds(margin, equity)
}

/// The volume and the price of a fill are doubles.
fn number_ranges(fill: &Fill)
    ensures volume { FitsSigned w64 fill.now.volume }
    ensures price { FitsSigned w64 fill.now.price }
{
    let _volume = fill.volume.units();
    let _price = fill.price.units();
}

/// Whether there is money for a fill: there is none where the margin with its events exceeds both the margin
/// without them and the equity with them, at these prices (MetaTrader 5 Help, Margin Calculation). Under netting
/// a reversal, and under hedging a closing fill, count as the positions after them say. A fill that is refused
/// adds nothing, and there is money for it. It takes memory for copies of the positions.
pub fn has_money(
    alloc: Global,
    ledger: &Ledger,
    prices: &Prices,
    fill: &Fill,
) -> Result<bool, OutOfMemory>
    requires room { HasRoom ledger.now.spec prices.now ledger.now.events }
    requires fill { IsFill ledger.now.spec.hedging ledger.now.spec.specs (open_positions ledger.now.events)
        fill.now }
    requires volume { fill.now.volume ≤ℤ pos (2 ^ 61) }
    requires priced { is_some (prices_at prices.now fill.now.symbol) ≡ true }
    ensures { IfOk result (λ enough. enough
        ≡ has_money_for ledger.now.spec prices.now ledger.now.events fill.now) }
{
    let spec = ledger.spec();
    let mut left = copy_positions(alloc, ledger.positions())?;
    let mut events = EventList::new(alloc);
    number_ranges(fill);
    prices.ranges();
    try_fill(
        spec.hedging,
        alloc,
        &spec.specs,
        &mut left,
        fill,
        &mut events,
    )?;
    Ok(is_enough(ledger, prices, left.as_slice(), events.as_slice()))
}
