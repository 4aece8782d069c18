//! What fired orders and stops do.
ghost use Rattle.std.specs.Prelude.{◌≡◌, ◌<◌, ◌∷◌, [], false, true, length, is_some, IfOk, OnOk, OnErr};
ghost use Rattle.account.specs.declared.event.Event.TheVariants as event;
ghost use Rattle.account.specs.declared.event.RemovalCause.TheVariants as cause;
ghost use Rattle.account.specs.Deals.{deals};
ghost use Rattle.account.specs.Keyed.{item};
ghost use Rattle.account.specs.Orders.{is_stop_limit, order_ticket, orders_in_force};
ghost use Rattle.account.specs.Positions.{position_ticket, open_positions};
ghost use Rattle.judgement.specs.Rules.{kind_buys};
ghost use Rattle.positions.specs.Money.{has_money_for};
ghost use Rattle.desk.specs.Books.{fill_events, gained};
ghost use Rattle.desk.specs.Effect.{act, acts, fill_of_order, last_prices, on_side, order_filled, order_fired, position_closed, triggered_by, triggered_run};
ghost use Rattle.desk.specs.Firing.{IsOrderFill};
ghost use Rattle.desk.specs.Runs.{Runs};
ghost use Rattle.desk.specs.State.{most_deals};
ghost use Rattle.desk.specs.Tickets.{next_of};

use crate::books::Books;
use crate::closing::{close_position, closing_price, last_prices};
use crate::fired::triggers;
use crate::requests::{close, is_full};
use crate::{DeskFault, Trigger};
use account::{DealReason, Order, OrderKind, RemovalCause, copy_text, same_side};
use fx8::{Fix8, OutOfMemory, Text};
use judgement::kind_buys;
use market_types::Quote;
use positions::{Fill, PositionRule, has_money};
use std::alloc::Global;

/// Whether an order becomes a limit order where it fires.
fn is_stop_limit(kind: OrderKind) -> bool
    ensures { result ≡ is_stop_limit kind }
{
    match kind {
        OrderKind::BuyStopLimit | OrderKind::SellStopLimit => true,
        OrderKind::BuyLimit | OrderKind::BuyStop => false,
        OrderKind::SellLimit | OrderKind::SellStop => false,
    }
}

/// A fired order as a fill, with that comment.
fn fill_with(deal: u64, time_ms: i64, pair: (Fix8, Fix8), order: &Order, comment: Text) -> Fill
    requires { comment ≡ order.now.comment }
    ensures { result ≡ fill_of_order deal time_ms pair order.now }
{
    let buy = kind_buys(order.kind);
    let price = closing_price(!buy, pair);
    Fill {
        order: order.ticket,
        position: 0,
        deal,
        time_ms,
        symbol: order.symbol,
        buy,
        volume: order.volume,
        price,
        sl: order.sl,
        tp: order.tp,
        magic: order.magic,
        reason: DealReason::Expert,
        comment,
    }
}

/// A fired order as a fill.
fn fill_of_order(
    alloc: Global,
    deal: u64,
    time_ms: i64,
    pair: (Fix8, Fix8),
    order: &Order,
) -> Result<Fill, OutOfMemory>
    ensures { IfOk result (λ fill. fill ≡ fill_of_order deal time_ms pair order.now) }
{
    let comment = copy_text(alloc, &order.comment)?;
    Ok(fill_with(deal, time_ms, pair, order, comment))
}

/// A fired order as the next fill, at the last loud prices.
fn next_fill<P: PositionRule + Drop>(
    books: &Books<P>,
    time_ms: i64,
    order: &Order,
) -> Result<Fill, OutOfMemory>
    requires { order.now.symbol < length books.now.quoted.prices }
    ensures { IfOk result (λ fill. fill ≡ fill_of_order (next_of books.now.quoted.events).deal time_ms
        (last_prices books.now.quoted.prices order.now.symbol) order.now) }
{
    books.is_sound();
    let pair = last_prices(books.prices(), order.symbol);
    let deal = books.deals() + 1;
    fill_of_order(books.alloc(), deal, time_ms, pair, order)
}

/// Whether there is money for the fill of an order.
#[tactic(auto, using(crate::proofs::FiringOrders::is_fill))]
fn has_money_for<P: PositionRule + Drop>(books: &Books<P>, fill: &Fill) -> Result<bool, OutOfMemory>
    requires { IsOrderFill books.now.quoted fill.now }
    ensures { IfOk result (λ enough. enough ≡ has_money_for books.now.quoted.spec books.now.quoted.prices
        books.now.quoted.events fill.now) }
{
    books.is_sound();
    has_money(books.alloc(), books.ledger(), books.prices(), fill)
}

/// Removes an order and deals as its fill says.
#[tactic(auto, using(crate::proofs::FiringOrders::is_fillable))]
fn deal_order<P: PositionRule + Drop>(books: &mut Books<P>, fill: &Fill) -> Result<(), OutOfMemory>
    requires whole { books.old.broken ≡ false }
    requires fill { IsOrderFill books.old.quoted fill.now }
    requires room { length (deals books.old.quoted.events) < most_deals }
    ensures ok { OnOk result (books.new ≡ gained
        (event.Removed fill.now.order cause.Filled ∷ fill_events fill.now books.old.quoted) books.old) }
    ensures err { OnErr result (books.new.broken ≡ true) }
{
    books.remove(fill.order, RemovalCause::Filled)?;
    books.deal(fill)
}

/// Removes an order for whose deal there is no money.
#[tactic(auto, using(crate::proofs::FiringRuns::quiet_runs))]
fn refuse_order<P: PositionRule + Drop>(books: &mut Books<P>, ticket: u64) -> Result<(), DeskFault>
    requires { books.old.broken ≡ false }
    ensures { Runs books.old (act (λ events. event.Removed ticket cause.NoMoney ∷ [])
        (record { events = books.old.quoted.events; full = false })) result books.new }
{
    books.is_sound();
    if books.remove(ticket, RemovalCause::NoMoney).is_err() {
        return Err(DeskFault::OutOfMemory);
    }
    Ok(())
}

/// Makes a stop-limit order a limit order.
#[tactic(auto, using(crate::proofs::FiringRuns::quiet_runs))]
fn trigger_order<P: PositionRule + Drop>(books: &mut Books<P>, ticket: u64) -> Result<(), DeskFault>
    requires { books.old.broken ≡ false }
    ensures { Runs books.old (act (λ events. event.Triggered ticket ∷ [])
        (record { events = books.old.quoted.events; full = false })) result books.new }
{
    books.is_sound();
    if books.trigger(ticket).is_err() {
        return Err(DeskFault::OutOfMemory);
    }
    Ok(())
}

/// Fills an order where there is money for its deal, and removes it otherwise.
#[tactic(auto, using(crate::proofs::FiringOrders::filled_runs, crate::proofs::FiringOrders::refused_runs, crate::proofs::FiringOrders::filled_exhausts))]
fn fill_order<P: PositionRule + Drop>(books: &mut Books<P>, fill: &Fill) -> Result<(), DeskFault>
    requires whole { books.old.broken ≡ false }
    requires fill { IsOrderFill books.old.quoted fill.now }
    ensures { Runs books.old (act (order_filled books.old.quoted.spec books.old.quoted.prices fill.now)
        (record { events = books.old.quoted.events; full = false })) result books.new }
{
    let Ok(enough) = has_money_for(books, fill) else {
        return Err(close(books));
    };
    if !enough {
        return refuse_order(books, fill.order);
    }
    if is_full(books) {
        return Err(DeskFault::DealsExhausted);
    }
    if deal_order(books, fill).is_err() {
        return Err(DeskFault::OutOfMemory);
    }
    Ok(())
}

/// Fires the order of a ticket, where it still stands: a stop-limit order becomes a limit order, any other is
/// filled.
#[tactic(auto, using(crate::proofs::FiringOrders::is_symbol, crate::proofs::FiringOrders::is_order_fill, crate::proofs::FiringOrders::gone_runs, crate::proofs::FiringOrders::limit_runs, crate::proofs::FiringOrders::order_runs))]
fn fire_order<P: PositionRule + Drop>(
    books: &mut Books<P>,
    time_ms: i64,
    ticket: u64,
) -> Result<(), DeskFault>
    requires { books.old.broken ≡ false }
    ensures { Runs books.old
        (act (λ events. order_fired books.old.quoted.spec books.old.quoted.prices time_ms events
        (item order_ticket ticket (orders_in_force events)))
        (record { events = books.old.quoted.events; full = false })) result books.new }
{
    books.is_sound();
    let Some(order) = books.orders().get(ticket) else {
        return Ok(());
    };
    if is_stop_limit(order.kind) {
        return trigger_order(books, ticket);
    }
    let Ok(fill) = next_fill(books, time_ms, order) else {
        return Err(close(books));
    };
    fill_order(books, &fill)
}

/// Whether the position of a ticket is open on a side.
fn is_open_on<P: PositionRule + Drop>(books: &Books<P>, ticket: u64, buy: bool) -> bool
    requires { books.now.broken ≡ false }
    ensures { result
        ≡ is_some (on_side buy (item position_ticket ticket (open_positions books.now.quoted.events))) }
{
    match books.rule().get(ticket) {
        Some(position) => same_side(position.buy, buy),
        None => false,
    }
}

/// Closes the position of a ticket by its stop, where it is still open on its side.
#[tactic(auto, using(crate::proofs::FiringOrders::stop_runs, crate::proofs::FiringOrders::no_stop_runs))]
fn fire_stop<P: PositionRule + Drop>(
    books: &mut Books<P>,
    time_ms: i64,
    ticket: u64,
    buy: bool,
    reason: DealReason,
) -> Result<(), DeskFault>
    requires { books.old.broken ≡ false }
    ensures { Runs books.old
        (act (λ events. position_closed books.old.quoted.spec books.old.quoted.prices time_ms reason events
        (on_side buy (item position_ticket ticket (open_positions events))))
        (record { events = books.old.quoted.events; full = false })) result books.new }
{
    books.is_sound();
    if !is_open_on(books, ticket, buy) {
        return Ok(());
    }
    close_position(books, time_ms, reason, ticket)
}

/// Does what fired.
fn fire<P: PositionRule + Drop>(
    books: &mut Books<P>,
    time_ms: i64,
    trigger: &Trigger,
) -> Result<(), DeskFault>
    requires { books.old.broken ≡ false }
    ensures { Runs books.old
        (act (triggered_by books.old.quoted.spec books.old.quoted.prices time_ms trigger.now)
        (record { events = books.old.quoted.events; full = false })) result books.new }
{
    match trigger {
        Trigger::Order(ticket) => fire_order(books, time_ms, *ticket),
        Trigger::Stop {
            ticket,
            buy,
            reason,
        } => fire_stop(books, time_ms, *ticket, *buy, *reason),
    }
}

/// Does what fired, one after another.
#[tactic(auto, using(crate::proofs::FiringRuns::begins, crate::proofs::FiringRuns::goes, crate::proofs::FiringRuns::stops, crate::proofs::FiringRuns::ends))]
fn fire_each<P: PositionRule + Drop>(
    books: &mut Books<P>,
    time_ms: i64,
    triggers: &[Trigger],
) -> Result<(), DeskFault>
    requires { books.old.broken ≡ false }
    ensures { Runs books.old
        (acts (triggered_by books.old.quoted.spec books.old.quoted.prices time_ms)
        (record { events = books.old.quoted.events; full = false }) triggers.now) result books.new }
{
    let mut rest = triggers;
    while let Some((trigger, others)) = rest.split_first() {
        fire(books, time_ms, trigger)?;
        rest = others;
    }
    Ok(())
}

/// Does what a quote fires, by rising ticket, where the order still stands or the position is still open on
/// its side. What fires is told by the books as they are before any of it is done.
pub(crate) fn fire_all<P: PositionRule + Drop>(
    books: &mut Books<P>,
    quote: &Quote,
) -> Result<(), DeskFault>
    requires { books.old.broken ≡ false }
    ensures { Runs books.old (triggered_run books.old.quoted.spec books.old.quoted.prices quote.now
        (record { events = books.old.quoted.events; full = false })) result books.new }
{
    let Ok(all) = triggers(books, quote) else {
        return Err(close(books));
    };
    fire_each(books, quote.time_ms, all.as_slice())
}
