//! The rules of requests, each a test.
ghost use Rattle.std.specs.Prelude.{◌≡◌, ◌≤◌, ◌<◌, ◌*◌, ◌^◌, ◌+ℤ◌, ◌-ℤ◌, ◌≤ℤ◌, ◌<ℤ◌, pos, neg_ℤ, int_lt, int_le, ◌&&◌, ◌||◌};
ghost use Rattle.std.specs.Int.{int_rem_euclid};
ghost use Rattle.std.specs.Ordering.{int_eq};
ghost use Rattle.fx8.specs.Doubles.{unit_of_place};
ghost use Rattle.market_types.specs.Ranges.{IsSpec};
ghost use Rattle.judgement.specs.Rules.{is_multiple, is_volume, point_of, distance_of, keeps_below, is_stop_below, is_stop_above, are_stops, kind_buys, keeps_side, keeps_limit, is_order_price, stops_reference, second_of, day_begin, not_past, day_end, may_expire, expiry};

use account::{OrderKind, OrderTime};
use fx8::{Fix8, unit_of_place};
use market_types::SymbolSpec;

/// A point of a symbol.
fn point_of(spec: &SymbolSpec) -> Fix8
    requires { IsSpec spec.now }
    ensures value { result ≡ point_of spec.now }
    ensures some { pos 0 <ℤ result }
{
    Fix8::of_units(unit_of_place(spec.digits) as i64)
}

/// How far prices stay from their reference, in units.
fn distance_of(spec: &SymbolSpec) -> i128
    requires { IsSpec spec.now }
    ensures value { result ≡ distance_of spec.now }
    ensures from { pos 0 ≤ℤ result }
    ensures most { result ≤ℤ pos (10 ^ 14) }
{
    (spec.stops_level as u64 * unit_of_place(spec.digits)) as i128
}

/// Whether a number is a multiple of another.
#[tactic(auto, unfolding(crate::specs::Rules::is_multiple))]
fn is_multiple(units: Fix8, step: Fix8) -> bool
    requires { pos 0 <ℤ step }
    ensures { result ≡ is_multiple units step }
{
    units.units() % step.units() == 0
}

pub fn both(a: bool, b: bool) -> bool
    ensures { result ≡ (a && b) }
{
    a && b
}

pub fn either(a: bool, b: bool) -> bool
    ensures { result ≡ (a || b) }
{
    a || b
}

fn is_less(a: Fix8, b: Fix8) -> bool
    ensures { result ≡ int_lt a b }
{
    a < b
}

pub fn is_at_most(a: Fix8, b: Fix8) -> bool
    ensures { result ≡ int_le a b }
{
    a <= b
}

pub fn is_same(a: Fix8, b: Fix8) -> bool
    ensures { result ≡ int_eq a b }
{
    a == b
}

fn is_none(a: Fix8) -> bool
    ensures { result ≡ int_eq a (pos 0) }
{
    a == Fix8::of_units(0)
}

/// Whether a volume is one of the symbol's.
#[tactic(auto, unfolding(crate::specs::Rules::is_volume))]
pub fn is_volume(spec: &SymbolSpec, volume: Fix8) -> bool
    requires { IsSpec spec.now }
    ensures { result ≡ is_volume spec.now volume }
{
    both(
        both(
            is_at_most(spec.volume_min, volume),
            is_at_most(volume, spec.volume_max),
        ),
        is_multiple(volume, spec.volume_step),
    )
}

/// Whether a price and a distance are together at most another price.
fn is_within(low: Fix8, distance: i128, high: Fix8) -> bool
    requires from { pos 0 ≤ℤ distance }
    requires most { distance ≤ℤ pos (10 ^ 14) }
    ensures { result ≡ int_le (low +ℤ distance) high }
{
    low.units() as i128 + distance <= high.units() as i128
}

/// Whether a price lies strictly below another, and at least the distance away.
#[tactic(auto, unfolding(crate::specs::Rules::keeps_below))]
fn keeps_below(spec: &SymbolSpec, low: Fix8, high: Fix8) -> bool
    requires { IsSpec spec.now }
    ensures { result ≡ keeps_below spec.now low high }
{
    both(is_less(low, high), is_within(low, distance_of(spec), high))
}

/// Whether a stop is none, or lies below a reference.
#[tactic(auto, unfolding(crate::specs::Rules::is_stop_below))]
fn is_stop_below(spec: &SymbolSpec, stop: Fix8, reference: Fix8) -> bool
    requires { IsSpec spec.now }
    ensures { result ≡ is_stop_below spec.now stop reference }
{
    either(
        is_none(stop),
        both(
            is_multiple(stop, point_of(spec)),
            keeps_below(spec, stop, reference),
        ),
    )
}

/// Whether a stop is none, or lies above a reference.
#[tactic(auto, unfolding(crate::specs::Rules::is_stop_above))]
fn is_stop_above(spec: &SymbolSpec, stop: Fix8, reference: Fix8) -> bool
    requires { IsSpec spec.now }
    ensures { result ≡ is_stop_above spec.now stop reference }
{
    either(
        is_none(stop),
        both(
            is_multiple(stop, point_of(spec)),
            keeps_below(spec, reference, stop),
        ),
    )
}

/// Whether stop loss and take profit lie on their sides of a reference.
#[tactic(auto, unfolding(crate::specs::Rules::are_stops))]
pub fn are_stops(spec: &SymbolSpec, buy: bool, sl: Fix8, tp: Fix8, reference: Fix8) -> bool
    requires { IsSpec spec.now }
    ensures { result ≡ are_stops spec.now buy sl tp reference }
{
    if buy {
        both(
            is_stop_below(spec, sl, reference),
            is_stop_above(spec, tp, reference),
        )
    } else {
        both(
            is_stop_above(spec, sl, reference),
            is_stop_below(spec, tp, reference),
        )
    }
}

/// Whether an order of the kind buys.
pub fn kind_buys(kind: OrderKind) -> bool
    ensures { result ≡ kind_buys kind }
{
    matches!(
        kind,
        OrderKind::BuyLimit | OrderKind::BuyStop | OrderKind::BuyStopLimit
    )
}

/// Whether a price keeps its side of Bid and Ask.
fn keeps_side(spec: &SymbolSpec, kind: OrderKind, prices: (Fix8, Fix8), price: Fix8) -> bool
    requires { IsSpec spec.now }
    ensures { result ≡ keeps_side spec.now kind prices price }
{
    match kind {
        OrderKind::BuyLimit => keeps_below(spec, price, prices.1),
        OrderKind::SellLimit => keeps_below(spec, prices.0, price),
        OrderKind::BuyStop | OrderKind::BuyStopLimit => keeps_below(spec, prices.1, price),
        OrderKind::SellStop | OrderKind::SellStopLimit => keeps_below(spec, price, prices.0),
    }
}

/// Whether a stop-limit price keeps its side of the price.
fn keeps_limit(spec: &SymbolSpec, kind: OrderKind, price: Fix8, limit: Fix8) -> bool
    requires { IsSpec spec.now }
    ensures { result ≡ keeps_limit spec.now kind price limit }
{
    match kind {
        OrderKind::BuyStopLimit => both(
            both(
                is_multiple(limit, point_of(spec)),
                is_less(Fix8::of_units(0), limit),
            ),
            is_less(limit, price),
        ),
        OrderKind::SellStopLimit => {
            both(is_multiple(limit, point_of(spec)), is_less(price, limit))
        }
        _ => true,
    }
}

/// Whether an order of the kind may wait for a price.
#[tactic(auto, unfolding(crate::specs::Rules::is_order_price))]
pub fn is_order_price(
    spec: &SymbolSpec,
    kind: OrderKind,
    prices: (Fix8, Fix8),
    price: Fix8,
    limit: Fix8,
) -> bool
    requires { IsSpec spec.now }
    ensures { result ≡ is_order_price spec.now kind prices price limit }
{
    both(
        both(
            is_multiple(price, point_of(spec)),
            keeps_side(spec, kind, prices, price),
        ),
        keeps_limit(spec, kind, price, limit),
    )
}

/// What the stops of an order lie about.
pub fn stops_reference(kind: OrderKind, price: Fix8, limit: Fix8) -> Fix8
    ensures { result ≡ stops_reference kind price limit }
{
    match kind {
        OrderKind::BuyStopLimit | OrderKind::SellStopLimit => limit,
        _ => price,
    }
}

/// The second of a time in milliseconds.
#[tactic(auto, unfolding(crate::specs::Rules::second_of))]
pub fn second_of(time_ms: i64) -> i64
    ensures { result ≡ second_of time_ms }
{
    time_ms.div_euclid(1_000)
}

/// What has passed of the day of a second.
fn day_second(second: i64) -> i64
    ensures value { result ≡ int_rem_euclid second (pos 86400) }
    ensures from { pos 0 ≤ℤ result }
    ensures below { result <ℤ pos 86400 }
{
    second.rem_euclid(86_400)
}

/// The midnight at which the day of a second begins.
#[tactic(auto, unfolding(crate::specs::Rules::day_begin))]
fn day_begin(second: i64) -> i128
    ensures value { result ≡ day_begin second }
    ensures near { second <ℤ (result +ℤ pos 86400) }
    ensures past { result ≤ℤ second }
{
    second as i128 - day_second(second) as i128
}

/// The second, or the last that there is.
fn not_past(second: i128) -> i64
    requires { neg_ℤ (pos (2 ^ 63)) ≤ℤ second }
    ensures { result ≡ not_past second }
{
    if second <= 0x7fff_ffff_ffff_ffff {
        second as i64
    } else {
        i64::MAX
    }
}

/// The next midnight after the day of a second.
#[tactic(auto, unfolding(crate::specs::Rules::day_end))]
fn day_end(second: i64) -> i64
    ensures { result ≡ day_end second }
{
    not_past(day_begin(second) + 86_400)
}

/// Whether an order may expire so.
pub fn may_expire(now: i64, expiration: i64, time: OrderTime) -> bool
    ensures { result ≡ may_expire now expiration time }
{
    match time {
        OrderTime::Gtc | OrderTime::Day => true,
        OrderTime::Specified => now < expiration,
        OrderTime::SpecifiedDay => day_begin(now) <= day_begin(expiration),
    }
}

/// The second at which an order expires that is placed or changed now.
pub fn expiry(now: i64, expiration: i64, time: OrderTime) -> i64
    ensures { result ≡ expiry now expiration time }
{
    match time {
        OrderTime::Gtc | OrderTime::Specified => expiration,
        OrderTime::Day => day_end(now),
        OrderTime::SpecifiedDay => day_end(expiration),
    }
}
