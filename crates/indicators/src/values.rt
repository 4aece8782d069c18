//! The values of indicators.
ghost use Rattle.std.specs.Prelude.{◌≡◌, ◌<◌, ◌≤◌, ◌*◌, ◌^◌, ℕ, map, length, All, IfOk, pos};
ghost use Rattle.market_types.specs.Ordered.{greatest_price};
ghost use Rattle.indicators.specs.Prices.{IsPriced, applied_price, ranges, each_but_first, change};
ghost use Rattle.indicators.specs.Averages.{average, simple, smoothed, newest};
ghost use Rattle.indicators.specs.Values.{strength, smoothed_changes, relative_strength, value_of, told, IsIndicator};

use crate::averages::{average, simple, smoothed};
use crate::kinds::{AppliedPrice, Indicator, Kind, Method, Way};
use crate::prices::{applied_prices, changes, ranges};
use crate::rounding::quotient;
use fx8::{Fix8, OutOfMemory};
use market_types::Bar;
use std::alloc::Global;

/// The last n bars, or all where there are fewer.
fn newest(n: u32, bars: &[Bar]) -> &[Bar]
    ensures { result.now ≡ newest n bars.now }
{
    let (_, last) = bars.split_at(bars.len().saturating_sub(n as usize));
    last
}

/// The bars on which the average of their newest n prices rests.
#[tactic(auto, using(crate::proofs::Windows::simple_newest, crate::proofs::Windows::linear_newest))]
fn averaged(method: Method, n: u32, bars: &[Bar]) -> &[Bar]
    requires { All IsPriced bars.now }
    ensures value { (price : AppliedPrice) → average method n (map (applied_price price) result.now)
        ≡ average method n (map (applied_price price) bars.now) }
    ensures priced { All IsPriced result.now }
{
    match method {
        Method::Simple | Method::LinearWeighted => newest(n, bars),
        Method::Exponential | Method::Smoothed => bars,
    }
}

/// A moving average at the newest bar.
fn moving_average(
    alloc: Global,
    method: Method,
    price: AppliedPrice,
    n: u32,
    bars: &[Bar],
) -> Result<u64, OutOfMemory>
    requires from { 1 ≤ n }
    requires to { n ≤ 10000 }
    requires bars { All IsPriced bars.now }
    ensures value { IfOk result (λ v. v ≡ average method n (map (applied_price price) bars.now)) }
    ensures most { IfOk result (λ v. v ≤ greatest_price) }
{
    let prices = applied_prices(alloc, price, averaged(method, n, bars))?;
    Ok(average(method, n, prices.as_slice()))
}

/// The average true range at the newest bar.
fn average_true_range(alloc: Global, n: u32, bars: &[Bar]) -> Result<u64, OutOfMemory>
    requires from { 1 ≤ n }
    requires bars { All IsPriced bars.now }
    ensures value { IfOk result (λ v. v ≡ simple n (ranges bars.now)) }
    ensures most { IfOk result (λ v. v ≤ greatest_price) }
{
    let ranges = ranges(alloc, bars)?;
    Ok(simple(n, ranges.as_slice()))
}

/// 100 times the rises over rises and falls; 50 where there are neither.
fn strength(rises: u64, falls: u64) -> u64
    requires rises { rises ≤ greatest_price }
    requires falls { falls ≤ greatest_price }
    ensures value { result ≡ strength rises falls }
    ensures most { result ≤ 10 ^ 10 }
{
    let both = rises as u128 + falls as u128;
    if both == 0 {
        return 5_000_000_000;
    }
    quotient(10_000_000_000 * rises as u128, both) as u64
}

/// The smoothed mean of the changes of prices one way.
fn smoothed_changes(alloc: Global, way: Way, n: u32, prices: &[u64]) -> Result<u64, OutOfMemory>
    requires from { 1 ≤ n }
    requires prices { All (λ x. x ≤ greatest_price) prices.now }
    ensures value { IfOk result (λ v. v ≡ smoothed_changes way n prices.now) }
    ensures most { IfOk result (λ v. v ≤ greatest_price) }
{
    let changes = changes(alloc, way, prices)?;
    Ok(smoothed(n, changes.as_slice()))
}

/// The relative strength of prices.
#[tactic(auto, unfolding(crate::specs::Values::relative_strength))]
fn relative_strength(alloc: Global, n: u32, prices: &[u64]) -> Result<u64, OutOfMemory>
    requires from { 1 ≤ n }
    requires prices { All (λ x. x ≤ greatest_price) prices.now }
    ensures value { IfOk result (λ v. v ≡ relative_strength n prices.now) }
    ensures most { IfOk result (λ v. v ≤ 10 ^ 15) }
{
    if prices.len() <= n as usize {
        return Ok(0);
    }
    let rises = smoothed_changes(alloc, Way::Up, n, prices)?;
    let falls = smoothed_changes(alloc, Way::Down, n, prices)?;
    Ok(strength(rises, falls))
}

/// The value at the newest bar.
fn value_of(alloc: Global, kind: Kind, n: u32, bars: &[Bar]) -> Result<u64, OutOfMemory>
    requires from { 1 ≤ n }
    requires to { n ≤ 10000 }
    requires bars { All IsPriced bars.now }
    ensures value { IfOk result (λ v. v ≡ value_of kind n bars.now) }
    ensures most { IfOk result (λ v. v ≤ 10 ^ 15) }
{
    match kind {
        Kind::MovingAverage(method, price) => moving_average(alloc, method, price, n, bars),
        Kind::AverageTrueRange => average_true_range(alloc, n, bars),
        Kind::RelativeStrength(price) => {
            let prices = applied_prices(alloc, price, bars)?;
            relative_strength(alloc, n, prices.as_slice())
        }
    }
}

/// What an indicator tells at the newest of the bars from its bar 0 on.
#[tactic(auto, unfolding(crate::specs::Values::told))]
pub fn told(alloc: Global, indicator: &Indicator, bars: &[Bar]) -> Result<Fix8, OutOfMemory>
    requires indicator { IsIndicator indicator.now }
    requires bars { All IsPriced bars.now }
    ensures { IfOk result (λ v. v ≡ pos (told indicator.now bars.now)) }
{
    let (seen, _) = bars.split_at(bars.len().saturating_sub(indicator.shift as usize));
    let units = value_of(alloc, indicator.kind, indicator.length, seen)?;
    Ok(Fix8::of_units(units as i64))
}
