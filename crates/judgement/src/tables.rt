//! The rules of each action in their order.
ghost use Rattle.std.specs.Prelude.{◌≡◌, ◌==◌, ◌&&◌, ◌||◌, ◌≤◌, IfSome, is_some, int_le, int_lt, not, nat_lt, pos};
ghost use Rattle.std.specs.Ordering.{int_eq};
ghost use Rattle.std.specs.Option.{option_copied};
ghost use Rattle.market_types.specs.Ranges.{IsSpec};
ghost use Rattle.account.specs.StopOut.{closing_price};
ghost use Rattle.order_book.specs.Book.{most_orders, time_number};
ghost use Rattle.judgement.specs.Numbers.{side_of, pending_kind_of, filling_of, time_of};
ghost use Rattle.judgement.specs.Tables.{first_failing, has_volume, has_price, has_order_stops, has_stops, may_expire_so, has_time, expiry_so, expires_of, has_terms, changes_order, changes_stops, has_position_stops, names_open, names_other_side, names_enough, oppose, kind_of, deal_rules, pending_rules, modify_rules, remove_rules, sltp_rules, close_by_rules};

use crate::rules::{
    are_stops, both, either, expiry, is_at_most, is_order_price, is_same, is_volume, kind_buys,
    may_expire, stops_reference,
};
use crate::words::{pending_kind_of, side_of, time_of};
use crate::{Filling, Request, ReturnCode};
use account::{Order, OrderKind, OrderTime, Position, same_side};
use fx8::Fix8;
use market_types::SymbolSpec;
use positions::are_opposite;

/// Whether a volume is one of the symbol's.
#[tactic(auto, unfolding(crate::specs::Tables::has_volume))]
fn has_volume(symbol: Option<&SymbolSpec>, volume: Fix8) -> bool
    requires { IfSome (option_copied symbol) IsSpec }
    ensures { result ≡ has_volume (option_copied symbol.entry) volume }
{
    match symbol {
        None => false,
        Some(spec) => is_volume(spec, volume),
    }
}

/// Whether price and stop-limit price are ones that an order of the kind may wait for.
#[tactic(auto, unfolding(crate::specs::Tables::has_price))]
fn has_price(
    symbol: Option<&SymbolSpec>,
    prices: Option<(Fix8, Fix8)>,
    kind: Option<OrderKind>,
    request: &Request,
) -> bool
    requires { IfSome (option_copied symbol) IsSpec }
    ensures { result ≡ has_price (option_copied symbol.entry) prices kind request.now }
{
    let Some(spec) = symbol else {
        return false;
    };
    let Some(pair) = prices else {
        return false;
    };
    let Some(kind) = kind else {
        return false;
    };
    is_order_price(spec, kind, pair, request.price, request.stoplimit)
}

/// Whether the stops lie about what an order of the kind is filled at.
#[tactic(auto, unfolding(crate::specs::Tables::has_order_stops))]
fn has_order_stops(symbol: Option<&SymbolSpec>, kind: Option<OrderKind>, request: &Request) -> bool
    requires { IfSome (option_copied symbol) IsSpec }
    ensures { result ≡ has_order_stops (option_copied symbol.entry) kind request.now }
{
    let Some(spec) = symbol else {
        return false;
    };
    let Some(kind) = kind else {
        return false;
    };
    let reference = stops_reference(kind, request.price, request.stoplimit);
    are_stops(spec, kind_buys(kind), request.sl, request.tp, reference)
}

/// What a position is closed at: Bid for a buy, Ask for a sell.
pub fn closing_price(buy: bool, prices: (Fix8, Fix8)) -> Fix8
    ensures { result ≡ closing_price buy prices }
{
    if buy { prices.0 } else { prices.1 }
}

/// Whether the stops lie about Bid for a buy, about Ask for a sell.
#[tactic(auto, unfolding(crate::specs::Tables::has_stops))]
fn has_stops(
    symbol: Option<&SymbolSpec>,
    prices: Option<(Fix8, Fix8)>,
    buy: bool,
    request: &Request,
) -> bool
    requires { IfSome (option_copied symbol) IsSpec }
    ensures { result ≡ has_stops (option_copied symbol.entry) prices buy request.now }
{
    let Some(spec) = symbol else {
        return false;
    };
    let Some(pair) = prices else {
        return false;
    };
    let reference = closing_price(buy, pair);
    are_stops(spec, buy, request.sl, request.tp, reference)
}

fn may_expire_so(now: i64, expiration: i64, time: Option<OrderTime>) -> bool
    ensures { result ≡ may_expire_so now expiration time }
{
    match time {
        None => false,
        Some(time) => may_expire(now, expiration, time),
    }
}

/// Whether an order may expire as the request says.
#[tactic(auto, unfolding(crate::specs::Tables::has_time))]
fn has_time(now: i64, request: &Request) -> bool
    ensures { result ≡ has_time now request.now }
{
    may_expire_so(now, request.expiration, time_of(request.type_time))
}

fn expiry_so(now: i64, expiration: i64, time: Option<OrderTime>) -> i64
    ensures { result ≡ expiry_so now expiration time }
{
    match time {
        None => expiration,
        Some(time) => expiry(now, expiration, time),
    }
}

/// The second at which an order of the request would expire.
#[tactic(auto, unfolding(crate::specs::Tables::expires_of))]
pub fn expires_of(now: i64, request: &Request) -> i64
    ensures { result ≡ expires_of now request.now }
{
    expiry_so(now, request.expiration, time_of(request.type_time))
}

fn time_number(time: OrderTime) -> u32
    ensures { result ≡ time_number time }
{
    match time {
        OrderTime::Gtc => 0,
        OrderTime::Day => 1,
        OrderTime::Specified => 2,
        OrderTime::SpecifiedDay => 3,
    }
}

/// Whether an order is already what the request would change it to.
#[tactic(auto, unfolding(crate::specs::Tables::has_terms))]
fn has_terms(now: i64, request: &Request, order: &Order) -> bool
    ensures { result ≡ has_terms now request.now order.now }
{
    order.price == request.price
        && order.stoplimit == request.stoplimit
        && order.sl == request.sl
        && order.tp == request.tp
        && time_number(order.type_time) == request.type_time
        && order.expires == expires_of(now, request)
}

#[tactic(auto, unfolding(crate::specs::Tables::changes_order))]
fn changes_order(now: i64, request: &Request, order: Option<&Order>) -> bool
    ensures { result ≡ changes_order now request.now (option_copied order.entry) }
{
    match order {
        None => false,
        Some(order) => !has_terms(now, request, order),
    }
}

#[tactic(auto, unfolding(crate::specs::Tables::changes_stops))]
fn changes_stops(request: &Request, position: Option<&Position>) -> bool
    ensures { result ≡ changes_stops request.now (option_copied position.entry) }
{
    match position {
        None => false,
        Some(position) => !both(
            is_same(position.sl, request.sl),
            is_same(position.tp, request.tp),
        ),
    }
}

#[tactic(auto, unfolding(crate::specs::Tables::has_position_stops))]
fn has_position_stops(
    symbol: Option<&SymbolSpec>,
    prices: Option<(Fix8, Fix8)>,
    position: Option<&Position>,
    request: &Request,
) -> bool
    requires { IfSome (option_copied symbol) IsSpec }
    ensures { result ≡ has_position_stops (option_copied symbol.entry) prices
        (option_copied position.entry) request.now }
{
    match position {
        None => false,
        Some(position) => has_stops(symbol, prices, position.buy, request),
    }
}

fn is_zero(ticket: u64) -> bool
    ensures { result ≡ (ticket == 0) }
{
    ticket == 0
}

fn is_place(symbol: u8, place: u8) -> bool
    ensures { result ≡ (symbol == place) }
{
    symbol == place
}

#[tactic(auto, unfolding(crate::specs::Tables::names_open))]
fn names_open(place: u8, named: Option<&Position>, request: &Request) -> bool
    ensures { result ≡ names_open place (option_copied named.entry) request.now }
{
    match named {
        None => is_zero(request.position),
        Some(position) => either(is_zero(request.position), is_place(position.symbol, place)),
    }
}

pub fn buys(kind: u32) -> bool
    ensures { result ≡ (kind == 0) }
{
    kind == 0
}

#[tactic(auto, unfolding(crate::specs::Tables::names_other_side))]
fn names_other_side(hedging: bool, named: Option<&Position>, request: &Request) -> bool
    ensures { result ≡ names_other_side hedging (option_copied named.entry) request.now }
{
    match named {
        None => true,
        Some(position) => either(
            either(!hedging, is_zero(request.position)),
            !same_side(position.buy, buys(request.kind)),
        ),
    }
}

#[tactic(auto, unfolding(crate::specs::Tables::names_enough))]
fn names_enough(hedging: bool, named: Option<&Position>, request: &Request) -> bool
    ensures { result ≡ names_enough hedging (option_copied named.entry) request.now }
{
    match named {
        None => true,
        Some(position) => either(
            either(!hedging, is_zero(request.position)),
            is_at_most(request.volume, position.volume),
        ),
    }
}

#[tactic(auto, unfolding(crate::specs::Tables::oppose))]
fn oppose(one: Option<&Position>, other: Option<&Position>) -> bool
    ensures { result ≡ oppose (option_copied one.entry) (option_copied other.entry) }
{
    let Some(first) = one else {
        return false;
    };
    let Some(second) = other else {
        return false;
    };
    are_opposite(first, second)
}

/// The code of the first rule of a deal that fails.
pub fn deal_fault(
    hedging: bool,
    place: u8,
    symbol: Option<&SymbolSpec>,
    prices: Option<(Fix8, Fix8)>,
    named: Option<&Position>,
    money: bool,
    request: &Request,
) -> Option<ReturnCode>
    requires { IfSome (option_copied symbol) IsSpec }
    ensures { result ≡ first_failing (deal_rules hedging place (option_copied symbol.entry) prices
        (option_copied named.entry) money request.now) }
{
    if symbol.is_none() {
        return Some(ReturnCode::Invalid);
    }
    if side_of(request.kind).is_none() {
        return Some(ReturnCode::InvalidOrder);
    }
    if Filling::of_number(request.filling).is_none() {
        return Some(ReturnCode::InvalidFill);
    }
    if !has_volume(symbol, request.volume) {
        return Some(ReturnCode::InvalidVolume);
    }
    if prices.is_none() {
        return Some(ReturnCode::PriceOff);
    }
    if !names_open(place, named, request) {
        return Some(ReturnCode::PositionClosed);
    }
    if !names_other_side(hedging, named, request) {
        return Some(ReturnCode::Invalid);
    }
    if !names_enough(hedging, named, request) {
        return Some(ReturnCode::InvalidCloseVolume);
    }
    if !has_stops(symbol, prices, buys(request.kind), request) {
        return Some(ReturnCode::InvalidStops);
    }
    if !money {
        return Some(ReturnCode::NoMoney);
    }
    None
}

/// The code of the first rule of a pending order that fails, where so many stand.
pub fn pending_fault(
    symbol: Option<&SymbolSpec>,
    prices: Option<(Fix8, Fix8)>,
    standing: u32,
    now: i64,
    request: &Request,
) -> Option<ReturnCode>
    requires { IfSome (option_copied symbol) IsSpec }
    ensures { result ≡ first_failing (pending_rules (option_copied symbol.entry) prices standing now
        request.now) }
{
    if symbol.is_none() {
        return Some(ReturnCode::Invalid);
    }
    if pending_kind_of(request.kind).is_none() {
        return Some(ReturnCode::InvalidOrder);
    }
    if Filling::of_number(request.filling).is_none() {
        return Some(ReturnCode::InvalidFill);
    }
    if !has_volume(symbol, request.volume) {
        return Some(ReturnCode::InvalidVolume);
    }
    if prices.is_none() {
        return Some(ReturnCode::PriceOff);
    }
    if !has_price(symbol, prices, pending_kind_of(request.kind), request) {
        return Some(ReturnCode::InvalidPrice);
    }
    if !has_order_stops(symbol, pending_kind_of(request.kind), request) {
        return Some(ReturnCode::InvalidStops);
    }
    if !has_time(now, request) {
        return Some(ReturnCode::InvalidExpiration);
    }
    if standing >= 1_000 {
        return Some(ReturnCode::LimitOrders);
    }
    None
}

fn kind_of(order: Option<&Order>) -> Option<OrderKind>
    ensures { result ≡ kind_of (option_copied order.entry) }
{
    match order {
        None => None,
        Some(order) => Some(order.kind),
    }
}

/// The code of the first rule of a change of an order that fails.
pub fn modify_fault(
    order: Option<&Order>,
    symbol: Option<&SymbolSpec>,
    prices: Option<(Fix8, Fix8)>,
    now: i64,
    request: &Request,
) -> Option<ReturnCode>
    requires { IfSome (option_copied symbol) IsSpec }
    ensures { result ≡ first_failing (modify_rules (option_copied order.entry)
        (option_copied symbol.entry) prices now request.now) }
{
    if order.is_none() {
        return Some(ReturnCode::InvalidOrder);
    }
    if !changes_order(now, request, order) {
        return Some(ReturnCode::NoChanges);
    }
    if !has_price(symbol, prices, kind_of(order), request) {
        return Some(ReturnCode::InvalidPrice);
    }
    if !has_order_stops(symbol, kind_of(order), request) {
        return Some(ReturnCode::InvalidStops);
    }
    if !has_time(now, request) {
        return Some(ReturnCode::InvalidExpiration);
    }
    None
}

/// The code of the rule of a removal where it fails.
pub fn remove_fault(order: Option<&Order>) -> Option<ReturnCode>
    ensures { result ≡ first_failing (remove_rules (option_copied order.entry)) }
{
    if order.is_none() {
        return Some(ReturnCode::InvalidOrder);
    }
    None
}

/// The code of the first rule of a change of stops that fails.
pub fn sltp_fault(
    position: Option<&Position>,
    symbol: Option<&SymbolSpec>,
    prices: Option<(Fix8, Fix8)>,
    request: &Request,
) -> Option<ReturnCode>
    requires { IfSome (option_copied symbol) IsSpec }
    ensures { result ≡ first_failing (sltp_rules (option_copied position.entry)
        (option_copied symbol.entry) prices request.now) }
{
    if position.is_none() {
        return Some(ReturnCode::PositionClosed);
    }
    if !changes_stops(request, position) {
        return Some(ReturnCode::NoChanges);
    }
    if !has_position_stops(symbol, prices, position, request) {
        return Some(ReturnCode::InvalidStops);
    }
    None
}

/// The code of the first rule of a close-by that fails.
pub fn close_by_fault(
    hedging: bool,
    one: Option<&Position>,
    other: Option<&Position>,
) -> Option<ReturnCode>
    ensures { result ≡ first_failing (close_by_rules hedging (option_copied one.entry)
        (option_copied other.entry)) }
{
    if !hedging {
        return Some(ReturnCode::Invalid);
    }
    if one.is_none() {
        return Some(ReturnCode::PositionClosed);
    }
    if other.is_none() {
        return Some(ReturnCode::PositionClosed);
    }
    if !oppose(one, other) {
        return Some(ReturnCode::Invalid);
    }
    None
}
