//! What is to be done for a request that is not refused.
ghost use Rattle.std.specs.Prelude.{◌≡◌, ◌≤◌, ◌==◌, length, IfOk};
ghost use Rattle.std.specs.Option.{option_copied};
ghost use Rattle.account.specs.declared.deal.DealReason.TheVariants as reason;
ghost use Rattle.judgement.specs.Acts.{fill_of, placed_order, changed_order, deal_act, pending_act, modify_act, sltp_act, close_by_act, act_of};

use crate::judge::{order_of, place_of, prices_at, stops_target};
use crate::rules::second_of;
use crate::tables::{buys, closing_price, expires_of};
use crate::words::{pending_kind_of, time_of};
use crate::{Action, Request};
use account::{AccountSpec, DealReason, Order, OrderKind, OrderTime, Position, Prices, copy_text};
use fx8::{Fix8, OutOfMemory, Text};
use order_book::Orders;
use positions::{Fill, PositionRule};
use std::alloc::Global;

/// What is to be done for a request.
#[derive(Debug, Drop)]
pub enum Act {
    /// A deal at the present prices.
    Deal(Fill),
    /// A pending order is placed.
    Place(Order),
    /// The order of this ticket becomes this one.
    Change(Order),
    /// The order of the ticket is removed.
    Remove(u64),
    /// The position of a ticket gets these stops, 0 for none.
    SetStops { ticket: u64, sl: Fix8, tp: Fix8 },
    /// Two positions close each other; order, time, number of the first deal, magic and comment are those of
    /// `at`.
    CloseBy { one: u64, other: u64, at: Fill },
}

/// The tickets that an accepted request may take.
#[derive(Clone, Copy, Debug, PartialEq, Eq)]
pub struct Next {
    /// The next ticket of an order.
    pub order: u64,
    /// The number of the next deal.
    pub deal: u64,
}

/// A deal as a fill, with that comment.
fn fill_with(
    next: Next,
    time_ms: i64,
    place: u8,
    price: Fix8,
    comment: Text,
    request: &Request,
) -> Fill
    ensures { result ≡ record {
      order = next.order;
      position = request.now.position;
      deal = next.deal;
      time_ms = time_ms;
      symbol = place;
      buy = request.now.kind == 0;
      volume = request.now.volume;
      price = price;
      sl = request.now.sl;
      tp = request.now.tp;
      magic = request.now.magic;
      reason = reason.Expert;
      comment = comment;
    } }
{
    Fill {
        order: next.order,
        position: request.position,
        deal: next.deal,
        time_ms,
        symbol: place,
        buy: buys(request.kind),
        volume: request.volume,
        price,
        sl: request.sl,
        tp: request.tp,
        magic: request.magic,
        reason: DealReason::Expert,
        comment,
    }
}

/// A deal on the symbol at a place, as a fill.
fn fill_of(
    alloc: Global,
    next: Next,
    time_ms: i64,
    place: u8,
    pair: (Fix8, Fix8),
    request: &Request,
) -> Result<Fill, OutOfMemory>
    ensures { IfOk result (λ fill. fill ≡ fill_of next.order next.deal time_ms place pair request.now) }
{
    let comment = copy_text(alloc, &request.comment)?;
    let price = closing_price(!buys(request.kind), pair);
    Ok(fill_with(next, time_ms, place, price, comment, request))
}

/// The order that is placed, with that comment.
fn order_with(
    ticket: u64,
    time_ms: i64,
    place: u8,
    kind: OrderKind,
    type_time: OrderTime,
    comment: Text,
    request: &Request,
) -> Order
    requires { comment ≡ request.now.comment }
    ensures { result ≡ placed_order ticket time_ms place kind type_time request.now }
{
    let expires = expires_of(second_of(time_ms), request);
    Order {
        ticket,
        symbol: place,
        kind,
        volume: request.volume,
        price: request.price,
        stoplimit: request.stoplimit,
        sl: request.sl,
        tp: request.tp,
        time_ms,
        expires,
        type_time,
        magic: request.magic,
        comment,
    }
}

/// The order with the terms of the request and that comment.
fn changed_with(
    time_ms: i64,
    type_time: OrderTime,
    comment: Text,
    request: &Request,
    order: &Order,
) -> Order
    requires { comment ≡ order.now.comment }
    ensures { result ≡ changed_order time_ms type_time request.now order.now }
{
    let expires = expires_of(second_of(time_ms), request);
    Order {
        ticket: order.ticket,
        symbol: order.symbol,
        kind: order.kind,
        volume: order.volume,
        price: request.price,
        stoplimit: request.stoplimit,
        sl: request.sl,
        tp: request.tp,
        time_ms: order.time_ms,
        expires,
        type_time,
        magic: order.magic,
        comment,
    }
}

/// A deal, where there are prices.
fn deal_act(
    alloc: Global,
    next: Next,
    time_ms: i64,
    place: u8,
    prices: Option<(Fix8, Fix8)>,
    request: &Request,
) -> Result<Option<Act>, OutOfMemory>
    ensures { IfOk result (λ act. act ≡ deal_act next.order next.deal time_ms place prices request.now) }
{
    let Some(pair) = prices else {
        return Ok(None);
    };
    let fill = fill_of(alloc, next, time_ms, place, pair, request)?;
    Ok(Some(Act::Deal(fill)))
}

/// A pending order, where kind and kind of time are known.
fn pending_act(
    alloc: Global,
    ticket: u64,
    time_ms: i64,
    place: u8,
    kind: Option<OrderKind>,
    type_time: Option<OrderTime>,
    request: &Request,
) -> Result<Option<Act>, OutOfMemory>
    ensures { IfOk result (λ act. act ≡ pending_act ticket time_ms place kind type_time request.now) }
{
    let Some(kind) = kind else {
        return Ok(None);
    };
    let Some(type_time) = type_time else {
        return Ok(None);
    };
    let comment = copy_text(alloc, &request.comment)?;
    let order = order_with(ticket, time_ms, place, kind, type_time, comment, request);
    Ok(Some(Act::Place(order)))
}

/// A change of an order, where it stands and the kind of time is known.
fn modify_act(
    alloc: Global,
    time_ms: i64,
    type_time: Option<OrderTime>,
    order: Option<&Order>,
    request: &Request,
) -> Result<Option<Act>, OutOfMemory>
    ensures { IfOk result (λ act. act
        ≡ modify_act time_ms type_time (option_copied order.entry) request.now) }
{
    let Some(type_time) = type_time else {
        return Ok(None);
    };
    let Some(order) = order else {
        return Ok(None);
    };
    let comment = copy_text(alloc, &order.comment)?;
    let changed = changed_with(time_ms, type_time, comment, request, order);
    Ok(Some(Act::Change(changed)))
}

/// A change of stops, where the position is open.
fn sltp_act(position: Option<&Position>, request: &Request) -> Option<Act>
    ensures { result ≡ sltp_act (option_copied position.entry) request.now }
{
    match position {
        None => None,
        Some(position) => Some(Act::SetStops {
            ticket: position.ticket,
            sl: request.sl,
            tp: request.tp,
        }),
    }
}

/// A close-by.
fn close_by_act(
    alloc: Global,
    next: Next,
    time_ms: i64,
    request: &Request,
) -> Result<Act, OutOfMemory>
    ensures { IfOk result (λ act. act ≡ close_by_act next.order next.deal time_ms request.now) }
{
    let none = Fix8::of_units(0);
    let at = fill_of(alloc, next, time_ms, 0, (none, none), request)?;
    Ok(Act::CloseBy {
        one: request.position,
        other: request.position_by,
        at,
    })
}

/// What is to be done for a request that `refusal` does not refuse, with the tickets that it takes; `None`
/// exactly where something that its rules ask for is missing. It takes memory for comments alone.
pub fn act_of<P: PositionRule>(
    alloc: Global,
    spec: &AccountSpec,
    orders: &Orders,
    rule: &P,
    prices: &Prices,
    time_ms: i64,
    next: Next,
    request: &Request,
) -> Result<Option<Act>, OutOfMemory>
    requires few { length spec.now.specs ≤ 255 }
    requires prices { length prices.now ≡ length spec.now.specs }
    requires kind { P.hedging rule.now ≡ spec.now.hedging }
    ensures { IfOk result (λ act. act ≡ act_of spec.now orders.now (P.positions rule.now) prices.now time_ms
        next request.now) }
{
    let Some(action) = Action::of_number(request.action) else {
        return Ok(None);
    };
    let place = place_of(&spec.specs, &request.symbol);
    match action {
        Action::Deal => {
            let pair = prices_at(prices, &spec.specs, place);
            deal_act(alloc, next, time_ms, place, pair, request)
        }
        Action::Pending => {
            let kind = pending_kind_of(request.kind);
            let type_time = time_of(request.type_time);
            pending_act(alloc, next.order, time_ms, place, kind, type_time, request)
        }
        Action::Sltp => Ok(sltp_act(stops_target(alloc, rule, place, request), request)),
        Action::Modify => {
            let type_time = time_of(request.type_time);
            modify_act(
                alloc,
                time_ms,
                type_time,
                order_of(orders, request),
                request,
            )
        }
        Action::Remove => Ok(Some(Act::Remove(request.order))),
        Action::CloseBy => Ok(Some(close_by_act(alloc, next, time_ms, request)?)),
    }
}
