//! What an indicator takes of bars.
ghost use Rattle.std.specs.Prelude.{◌≡◌, ◌<◌, ◌≤◌, ◌*◌, ◌^◌, ℕ, map, length, All, IfOk, unsigned_abs};
ghost use Rattle.market_types.specs.Ordered.{greatest_price};
ghost use Rattle.indicators.specs.Prices.{IsPriced, applied_price, opening, high, low, closing, true_range, ranges, change, each_but_first};

use crate::kinds::{AppliedPrice, Way};
use crate::rounding::quotient;
use fx8::{Fix8, OutOfMemory};
use market_types::Bar;
use std::alloc::Global;

/// A price in units of 10^-8.
fn units(price: Fix8) -> u64
    ensures { result ≡ unsigned_abs price }
{
    price.units().unsigned_abs()
}

/// The price that is taken of a bar, in units of 10^-8.
fn applied_price(price: AppliedPrice, bar: &Bar) -> u64
    requires { IsPriced bar.now }
    ensures value { result ≡ applied_price price bar.now }
    ensures most { result ≤ greatest_price }
{
    let high = units(bar.h) as u128;
    let low = units(bar.l) as u128;
    let close = units(bar.c) as u128;
    match price {
        AppliedPrice::Close => units(bar.c),
        AppliedPrice::Open => units(bar.o),
        AppliedPrice::High => units(bar.h),
        AppliedPrice::Low => units(bar.l),
        AppliedPrice::Median => quotient(high + low, 2) as u64,
        AppliedPrice::Typical => quotient(high + low + close, 3) as u64,
        AppliedPrice::Weighted => quotient(high + low + 2 * close, 4) as u64,
    }
}

/// The prices that are taken of bars.
pub(crate) fn applied_prices(
    alloc: Global,
    price: AppliedPrice,
    bars: &[Bar],
) -> Result<Vec<u64>, OutOfMemory>
    requires { All IsPriced bars.now }
    ensures value { IfOk result (λ v. v.items ≡ map (applied_price price) bars.now) }
    ensures most { IfOk result (λ v. All (λ x. x ≤ greatest_price) v.items) }
{
    let mut prices = Vec::new(alloc);
    for bar in bars {
        prices.push(applied_price(price, bar))?;
    }
    Ok(prices)
}

/// The true range of a bar after another.
fn true_range(before: &Bar, bar: &Bar) -> u64
    requires before { IsPriced before.now }
    requires bar { IsPriced bar.now }
    ensures value { result ≡ true_range before.now bar.now }
    ensures most { result ≤ greatest_price }
{
    let close = units(before.c);
    let top = units(bar.h).max(close);
    let bottom = units(bar.l).min(close);
    top.saturating_sub(bottom)
}

/// The ranges of bars.
#[tactic(auto, unfolding(crate::specs::Prices::ranges))]
pub(crate) fn ranges(alloc: Global, bars: &[Bar]) -> Result<Vec<u64>, OutOfMemory>
    requires { All IsPriced bars.now }
    ensures value { IfOk result (λ v. v.items ≡ ranges bars.now) }
    ensures most { IfOk result (λ v. All (λ x. x ≤ greatest_price) v.items) }
{
    let mut ranges = Vec::new(alloc);
    if bars.is_empty() {
        return Ok(ranges);
    }
    let mut before = bars[0];
    ranges.push(units(before.h).saturating_sub(units(before.l)))?;
    let (_, rest) = bars.split_at(1);
    for bar in rest {
        ranges.push(true_range(&before, bar))?;
        before = *bar;
    }
    Ok(ranges)
}

/// How far a price is from the one before, one way.
fn change(way: Way, before: u64, price: u64) -> u64
    requires before { before ≤ greatest_price }
    requires price { price ≤ greatest_price }
    ensures value { result ≡ change way before price }
    ensures most { result ≤ greatest_price }
{
    match way {
        Way::Up => price.saturating_sub(before),
        Way::Down => before.saturating_sub(price),
    }
}

/// How far each price but the first is from the one before, one way.
pub(crate) fn changes(alloc: Global, way: Way, prices: &[u64]) -> Result<Vec<u64>, OutOfMemory>
    requires { All (λ x. x ≤ greatest_price) prices.now }
    ensures value { IfOk result (λ v. v.items ≡ each_but_first (change way) prices.now) }
    ensures most { IfOk result (λ v. All (λ x. x ≤ greatest_price) v.items) }
{
    let mut changes = Vec::new(alloc);
    if prices.is_empty() {
        return Ok(changes);
    }
    let mut before = prices[0];
    let (_, rest) = prices.split_at(1);
    for price in rest {
        changes.push(change(way, before, *price))?;
        before = *price;
    }
    Ok(changes)
}
