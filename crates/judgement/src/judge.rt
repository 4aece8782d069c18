//! Why a request is refused.
ghost use Rattle.std.specs.Prelude.{◌≡◌, ◌≤◌, ◌==◌, length, slice_get, All, IfSome};
ghost use Rattle.std.specs.Cmp.Lexicographic.{pointwise};
ghost use Rattle.std.specs.Option.{option_copied};
ghost use Rattle.market_types.specs.Ranges.{IsSpec};
ghost use Rattle.account.specs.Keyed.{item};
ghost use Rattle.account.specs.Positions.{position_ticket};
ghost use Rattle.account.specs.StopOut.{prices_at};
ghost use Rattle.judgement.specs.Judge.{place_of, symbol_of, prices_of, place_of_order, place_of_position, order_of, netted, stops_target, pending_refusal, modify_refusal, sltp_refusal, close_by_refusal, deal_refusal, refusal_by, refusal};
ghost use Rattle.judgement.specs.Tables.{first_failing, remove_rules};

use crate::rules::second_of;
use crate::tables::{
    close_by_fault, deal_fault, modify_fault, pending_fault, remove_fault, sltp_fault,
};
use crate::{Action, Request, ReturnCode};
use account::{AccountSpec, DealReason, Order, Position, Prices};
use fx8::{Fix8, ItemList, Text};
use market_types::{Specs, SymbolSpec};
use order_book::Orders;
use positions::{Fill, PositionRule, spec_at};
use std::alloc::Global;

/// Whether a name is that of a symbol.
fn is_name(word: &[u8], name: &[u16]) -> bool
    ensures { result ≡ pointwise (λ a b. a == b) word.now name.now }
{
    let mut left = word;
    let mut rest = name;
    while let Some((byte, bytes)) = left.split_first() {
        let Some((unit, units)) = rest.split_first() else {
            return false;
        };
        if *byte as u16 != *unit {
            return false;
        }
        left = bytes;
        rest = units;
    }
    rest.is_empty()
}

/// The place of the symbol of a name; one past the last where there is none.
#[tactic(auto, unfolding(crate::specs::Judge::place_of))]
pub fn place_of(specs: &Specs, name: &Text) -> u8
    requires { length specs.now ≤ 255 }
    ensures { result ≡ place_of specs.now name.now }
{
    let mut place = 0u8;
    let mut rest = specs.as_slice();
    while let Some((spec, others)) = rest.split_first() {
        if is_name(spec.name.as_slice(), name.as_slice()) {
            return place;
        }
        place += 1;
        rest = others;
    }
    place
}

/// The numbers of the symbol at a place.
fn symbol_at(specs: &Specs, place: u8) -> Option<&SymbolSpec>
    requires { All IsSpec specs.now }
    ensures value { option_copied result ≡ slice_get specs.now place }
    ensures range { IfSome (option_copied result) IsSpec }
{
    spec_at(specs, place)
}

/// The last loud Bid and Ask of the symbol at a place.
pub fn prices_at(prices: &Prices, specs: &Specs, place: u8) -> Option<(Fix8, Fix8)>
    requires { length prices.now ≡ length specs.now }
    ensures { result ≡ prices_at prices.now place }
{
    if place as u64 >= specs.len() {
        return None;
    }
    prices.at(place)
}

/// The numbers of a symbol that stands.
fn symbol_of(specs: &Specs, place: Option<u8>) -> Option<&SymbolSpec>
    requires { All IsSpec specs.now }
    ensures value { option_copied result ≡ symbol_of specs.now place }
    ensures range { IfSome (option_copied result) IsSpec }
{
    match place {
        None => None,
        Some(place) => symbol_at(specs, place),
    }
}

/// The last loud Bid and Ask of a symbol that stands.
fn prices_of(prices: &Prices, specs: &Specs, place: Option<u8>) -> Option<(Fix8, Fix8)>
    requires { length prices.now ≡ length specs.now }
    ensures { result ≡ prices_of prices.now place }
{
    match place {
        None => None,
        Some(place) => prices_at(prices, specs, place),
    }
}

fn place_of_order(order: Option<&Order>) -> Option<u8>
    ensures { result ≡ place_of_order (option_copied order.entry) }
{
    match order {
        None => None,
        Some(order) => Some(order.symbol),
    }
}

fn place_of_position(position: Option<&Position>) -> Option<u8>
    ensures { result ≡ place_of_position (option_copied position.entry) }
{
    match position {
        None => None,
        Some(position) => Some(position.symbol),
    }
}

/// Why a pending order is refused.
fn pending_refusal(
    specs: &Specs,
    orders: &Orders,
    prices: &Prices,
    time_ms: i64,
    request: &Request,
) -> Option<ReturnCode>
    requires specs { All IsSpec specs.now }
    requires few { length specs.now ≤ 255 }
    requires prices { length prices.now ≡ length specs.now }
    ensures { result ≡ pending_refusal specs.now orders.now prices.now time_ms request.now }
{
    let place = place_of(specs, &request.symbol);
    let symbol = symbol_at(specs, place);
    let pair = prices_at(prices, specs, place);
    pending_fault(symbol, pair, orders.len(), second_of(time_ms), request)
}

/// Why a change of an order is refused.
fn modify_refusal(
    specs: &Specs,
    order: Option<&Order>,
    prices: &Prices,
    time_ms: i64,
    request: &Request,
) -> Option<ReturnCode>
    requires specs { All IsSpec specs.now }
    requires prices { length prices.now ≡ length specs.now }
    ensures { result ≡ modify_refusal specs.now (option_copied order.entry) prices.now time_ms request.now }
{
    let place = place_of_order(order);
    let symbol = symbol_of(specs, place);
    let pair = prices_of(prices, specs, place);
    modify_fault(order, symbol, pair, second_of(time_ms), request)
}

/// Why a change of stops is refused.
fn sltp_refusal(
    specs: &Specs,
    position: Option<&Position>,
    prices: &Prices,
    request: &Request,
) -> Option<ReturnCode>
    requires specs { All IsSpec specs.now }
    requires prices { length prices.now ≡ length specs.now }
    ensures { result ≡ sltp_refusal specs.now (option_copied position.entry) prices.now request.now }
{
    let place = place_of_position(position);
    let symbol = symbol_of(specs, place);
    let pair = prices_of(prices, specs, place);
    sltp_fault(position, symbol, pair, request)
}

/// The order that a request names.
pub fn order_of<'a>(orders: &'a Orders, request: &Request) -> Option<&'a Order>
    ensures { option_copied result ≡ order_of orders.now request.now }
{
    orders.get(request.order)
}

/// A fill on a symbol that names no position.
fn plain_fill(alloc: Global, symbol: u8) -> Fill
    ensures symbol { result.symbol ≡ symbol }
    ensures position { result.position ≡ 0 }
{
    let none = Fix8::of_units(0);
    Fill {
        order: 0,
        position: 0,
        deal: 0,
        time_ms: 0,
        symbol,
        buy: true,
        volume: none,
        price: none,
        sl: none,
        tp: none,
        magic: 0,
        reason: DealReason::Expert,
        comment: ItemList::new(alloc),
    }
}

/// The position that is open on a symbol under netting.
fn netted<'a, P: PositionRule>(alloc: Global, rule: &'a P, place: u8) -> Option<&'a Position>
    ensures { option_copied result ≡ netted (P.hedging rule.now) (P.positions rule.now) place }
{
    rule.met(&plain_fill(alloc, place))
}

/// The position whose stops are to change.
pub fn stops_target<'a, P: PositionRule>(
    alloc: Global,
    rule: &'a P,
    place: u8,
    request: &Request,
) -> Option<&'a Position>
    ensures { option_copied result
        ≡ stops_target (P.hedging rule.now) (P.positions rule.now) place request.now }
{
    if request.position == 0 {
        netted(alloc, rule, place)
    } else {
        rule.get(request.position)
    }
}

/// Why a close-by is refused.
fn close_by_refusal<P: PositionRule>(
    hedging: bool,
    rule: &P,
    request: &Request,
) -> Option<ReturnCode>
    ensures { result ≡ close_by_refusal hedging (P.positions rule.now) request.now }
{
    let one = rule.get(request.position);
    let other = rule.get(request.position_by);
    close_by_fault(hedging, one, other)
}

/// Why a deal is refused, where it is told whether there is money for it.
fn deal_refusal<P: PositionRule>(
    spec: &AccountSpec,
    rule: &P,
    prices: &Prices,
    money: bool,
    request: &Request,
) -> Option<ReturnCode>
    requires specs { All IsSpec spec.now.specs }
    requires few { length spec.now.specs ≤ 255 }
    requires prices { length prices.now ≡ length spec.now.specs }
    ensures { result ≡ deal_refusal spec.now (P.positions rule.now) prices.now money request.now }
{
    let place = place_of(&spec.specs, &request.symbol);
    let symbol = symbol_at(&spec.specs, place);
    let pair = prices_at(prices, &spec.specs, place);
    let named = rule.get(request.position);
    deal_fault(spec.hedging, place, symbol, pair, named, money, request)
}

/// Why a request is refused: the code of the first rule of its action that fails, `None` exactly where all
/// hold (MQL5 Reference, OrderSend). The rule of money of a deal is the last, and is told by `money`. It takes
/// no memory.
pub fn refusal<P: PositionRule>(
    alloc: Global,
    spec: &AccountSpec,
    orders: &Orders,
    rule: &P,
    prices: &Prices,
    time_ms: i64,
    money: bool,
    request: &Request,
) -> Option<ReturnCode>
    requires specs { All IsSpec spec.now.specs }
    requires few { length spec.now.specs ≤ 255 }
    requires prices { length prices.now ≡ length spec.now.specs }
    requires kind { P.hedging rule.now ≡ spec.now.hedging }
    ensures { result ≡ refusal spec.now orders.now (P.positions rule.now) prices.now time_ms money
        request.now }
{
    let Some(action) = Action::of_number(request.action) else {
        return Some(ReturnCode::Invalid);
    };
    match action {
        Action::Deal => deal_refusal(spec, rule, prices, money, request),
        Action::Pending => pending_refusal(&spec.specs, orders, prices, time_ms, request),
        Action::Sltp => {
            let place = place_of(&spec.specs, &request.symbol);
            let position = stops_target(alloc, rule, place, request);
            sltp_refusal(&spec.specs, position, prices, request)
        }
        Action::Modify => {
            let order = order_of(orders, request);
            modify_refusal(&spec.specs, order, prices, time_ms, request)
        }
        Action::Remove => remove_fault(order_of(orders, request)),
        Action::CloseBy => close_by_refusal(spec.hedging, rule, request),
    }
}
