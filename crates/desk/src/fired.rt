//! Which orders and stops a quote fires.
ghost use Rattle.std.specs.Prelude.{◌≡◌, ◌<◌, ◌++◌, false, length, drop, IfOk, OnOk};
ghost use Rattle.std.specs.List.{filter_map};
ghost use Rattle.account.specs.Firing.{fired_orders};
ghost use Rattle.desk.specs.Effect.{stop_of, earlier, merged, triggers};

use crate::Trigger;
use crate::books::Books;
use account::Position;
use fx8::{OutOfMemory, Tickets};
use market_types::Quote;
use order_book::{Orders, Steps};
use positions::{PositionRule, stop_reason};
use std::alloc::Global;
use std::marker::Brand;
use std::sync::ledger::{Blank, Ledger};

/// The tickets of the orders that a quote fires, by rising ticket, with a counter of looks.
fn fired_orders<L: Ledger>(
    alloc: Global,
    blank: Blank,
    orders: &Orders,
    quote: &Quote,
) -> Result<Tickets, OutOfMemory>
    requires name { blank.name ≡ L.name }
    requires parts { blank.parts ≡ L.parts }
    requires some { 0 < blank.parts }
    ensures { IfOk result (λ fired. fired.items ≡ fired_orders quote.now orders.now) }
{
    let mut steps = Steps::<L>::start(blank);
    let mut fired = Tickets::new(alloc);
    fired.reserve(1_000)?;
    orders.fired(quote, &mut fired, &mut steps);
    Ok(fired)
}

/// The stop of a position of the quote's symbol that the quote reaches.
fn stop_of(quote: &Quote, position: &Position) -> Option<Trigger>
    ensures { result ≡ stop_of quote.now position.now }
{
    if position.symbol != quote.symbol {
        return None;
    }
    match stop_reason(quote, position) {
        Some(reason) => Some(Trigger::Stop {
            ticket: position.ticket,
            buy: position.buy,
            reason,
        }),
        None => None,
    }
}

/// The stops that a quote reaches, in the order of the positions.
fn stops(alloc: Global, quote: &Quote, positions: &[Position]) -> Result<Vec<Trigger>, OutOfMemory>
    ensures { IfOk result (λ stops. stops.items ≡ filter_map (stop_of quote.now) positions.now) }
{
    let mut stops: Vec<Trigger> = Vec::new(alloc);
    let mut rest = positions;
    while let Some((position, others)) = rest.split_first() {
        if let Some(stop) = stop_of(quote, position) {
            stops.push(stop)?;
        }
        rest = others;
    }
    Ok(stops)
}

/// Adds the stops of lower tickets than this, and gives back the others.
#[tactic(auto, using(crate::proofs::FiringLists::between_begins, crate::proofs::FiringLists::between_goes, crate::proofs::FiringLists::between_stops, crate::proofs::FiringLists::between_ends))]
fn push_earlier<'a>(
    out: &mut Vec<Trigger>,
    ticket: u64,
    stops: &'a [Trigger],
) -> Result<&'a [Trigger], OutOfMemory>
    ensures pushed { OnOk result (out.new.items ≡ out.old.items ++ earlier ticket stops.now) }
    ensures rest { IfOk result (λ rest.
        rest.now ≡ drop (length (earlier ticket stops.now)) stops.now) }
{
    let mut rest = stops;
    while let Some((stop, others)) = rest.split_first() {
        if stop.ticket() >= ticket {
            return Ok(rest);
        }
        out.push(*stop)?;
        rest = others;
    }
    Ok(rest)
}

/// Orders and stops together, by rising ticket.
#[tactic(auto, using(crate::proofs::FiringLists::merge_goes, crate::proofs::FiringLists::merge_ends))]
fn merged(alloc: Global, orders: &[u64], stops: &[Trigger]) -> Result<Vec<Trigger>, OutOfMemory>
    ensures { IfOk result (λ all. all.items ≡ merged orders.now stops.now) }
{
    let mut all: Vec<Trigger> = Vec::new(alloc);
    let mut late = stops;
    let mut rest = orders;
    while let Some((ticket, others)) = rest.split_first() {
        late = push_earlier(&mut all, *ticket, late)?;
        all.push(Trigger::Order(*ticket))?;
        rest = others;
    }
    all.extend_from_slice(late)?;
    Ok(all)
}

/// What a quote fires: orders in force and stops of open positions, by rising ticket.
pub(crate) fn triggers<P: PositionRule + Drop>(
    books: &Books<P>,
    quote: &Quote,
) -> Result<Vec<Trigger>, OutOfMemory>
    requires { books.now.broken ≡ false }
    ensures { IfOk result (λ all. all.items ≡ triggers quote.now books.now.quoted.events) }
{
    let alloc = books.alloc();
    let orders = fired_orders::<Brand>(alloc, Blank::new(1), books.orders(), quote)?;
    let stops = stops(alloc, quote, books.ledger().positions())?;
    merged(alloc, orders.as_slice(), stops.as_slice())
}
