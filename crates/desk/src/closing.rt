//! Closing positions, as stops, stop-out and the end of a pass do.
ghost use Rattle.std.specs.Prelude.{◌≡◌, ◌<◌, false, length, IfOk};
ghost use Rattle.account.specs.Keyed.{item};
ghost use Rattle.account.specs.Positions.{position_ticket, open_positions};
ghost use Rattle.account.specs.StopOut.{closing_price};
ghost use Rattle.desk.specs.Books.{IsFillable, fill_events};
ghost use Rattle.desk.specs.Effect.{act, closing_fill, closing_of, fill_of_closing, last_prices};
ghost use Rattle.desk.specs.Runs.{Runs};

use crate::DeskFault;
use crate::books::Books;
use crate::requests::{close, is_full};
use account::{DealReason, Position, Prices, copy_text};
use fx8::{Fix8, OutOfMemory, Text};
use positions::{Fill, PositionRule};
use std::alloc::Global;

/// The last loud Bid and Ask of a symbol, 0 before the first.
pub(crate) fn last_prices(prices: &Prices, symbol: u8) -> (Fix8, Fix8)
    requires { symbol < length prices.now }
    ensures { result ≡ last_prices prices.now symbol }
{
    match prices.at(symbol) {
        Some(pair) => pair,
        None => (Fix8::of_units(0), Fix8::of_units(0)),
    }
}

/// What a position is closed at: Bid for a buy, Ask for a sell.
pub(crate) fn closing_price(buy: bool, pair: (Fix8, Fix8)) -> Fix8
    ensures { result ≡ closing_price buy pair }
{
    if buy { pair.0 } else { pair.1 }
}

/// The fill that closes a position, with that comment.
fn fill_with(
    deal: u64,
    time_ms: i64,
    pair: (Fix8, Fix8),
    reason: DealReason,
    position: &Position,
    comment: Text,
) -> Fill
    requires { comment ≡ position.now.comment }
    ensures { result ≡ fill_of_closing deal time_ms pair reason position.now }
{
    Fill {
        order: 0,
        position: position.ticket,
        deal,
        time_ms,
        symbol: position.symbol,
        buy: !position.buy,
        volume: position.volume,
        price: closing_price(position.buy, pair),
        sl: Fix8::of_units(0),
        tp: Fix8::of_units(0),
        magic: position.magic,
        reason,
        comment,
    }
}

/// The fill that closes a position.
fn fill_of_closing(
    alloc: Global,
    deal: u64,
    time_ms: i64,
    pair: (Fix8, Fix8),
    reason: DealReason,
    position: &Position,
) -> Result<Fill, OutOfMemory>
    ensures { IfOk result (λ fill. fill ≡ fill_of_closing deal time_ms pair reason position.now) }
{
    let comment = copy_text(alloc, &position.comment)?;
    Ok(fill_with(deal, time_ms, pair, reason, position, comment))
}

/// The fill that closes the position of a ticket, where it is open.
#[tactic(auto, using(crate::proofs::Closed::is_symbol))]
fn closing_fill<P: PositionRule + Drop>(
    books: &Books<P>,
    time_ms: i64,
    reason: DealReason,
    ticket: u64,
) -> Result<Option<Fill>, OutOfMemory>
    requires { books.now.broken ≡ false }
    ensures { IfOk result (λ fill. fill ≡ closing_fill books.now.quoted time_ms reason
        (item position_ticket ticket (open_positions books.now.quoted.events))) }
{
    books.is_sound();
    let Some(position) = books.rule().get(ticket) else {
        return Ok(None);
    };
    let pair = last_prices(books.prices(), position.symbol);
    let deal = books.deals() + 1;
    let fill = fill_of_closing(books.alloc(), deal, time_ms, pair, reason, position)?;
    Ok(Some(fill))
}

/// Deals as an act does, where there is room for one more deal.
#[tactic(auto, using(crate::proofs::Closed::fill_runs, crate::proofs::Closed::fill_exhausts))]
pub(crate) fn fill_run<P: PositionRule + Drop>(
    books: &mut Books<P>,
    fill: &Fill,
) -> Result<(), DeskFault>
    requires whole { books.old.broken ≡ false }
    requires fill { IsFillable books.old.quoted fill.now }
    ensures { Runs books.old (act (λ events. fill_events fill.now books.old.quoted)
        (record { events = books.old.quoted.events; full = false })) result books.new }
{
    if is_full(books) {
        return Err(DeskFault::DealsExhausted);
    }
    if books.deal(fill).is_err() {
        return Err(DeskFault::OutOfMemory);
    }
    Ok(())
}

/// Closes the position of a ticket at the last loud prices of its symbol, where it is open.
#[tactic(auto, using(crate::proofs::Closed::fillable, crate::proofs::Closed::closing_runs, crate::proofs::Closed::none_runs))]
pub(crate) fn close_position<P: PositionRule + Drop>(
    books: &mut Books<P>,
    time_ms: i64,
    reason: DealReason,
    ticket: u64,
) -> Result<(), DeskFault>
    requires { books.old.broken ≡ false }
    ensures { Runs books.old (act (closing_of books.old.quoted.spec books.old.quoted.prices time_ms reason
        ticket) (record { events = books.old.quoted.events; full = false })) result books.new }
{
    books.is_sound();
    let Ok(found) = closing_fill(books, time_ms, reason, ticket) else {
        return Err(close(books));
    };
    let Some(fill) = found else {
        return Ok(());
    };
    fill_run(books, &fill)
}
