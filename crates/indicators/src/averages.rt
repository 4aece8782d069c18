//! Averages of numbers.
ghost use Rattle.std.specs.Prelude.{◌≡◌, ◌<◌, ◌≤◌, ◌*◌, ◌^◌, ℕ, length, All, sum};
ghost use Rattle.market_types.specs.Ordered.{greatest_price};
ghost use Rattle.indicators.specs.Averages.{mean, simple, exponential, exponential_next, smoothed, smoothed_next, linear_weighted, weighted_mean, average};

use crate::kinds::Method;
use crate::rounding::quotient;

/// The sum of numbers.
fn total(numbers: &[u64]) -> u128
    requires { All (λ x. x ≤ greatest_price) numbers.now }
    ensures value { result ≡ sum numbers.now }
    ensures most { result ≤ length numbers.now * greatest_price }
{
    let mut total = 0;
    for number in numbers {
        total += *number as u128;
    }
    total
}

/// The mean of n numbers.
pub(crate) fn mean(n: u32, numbers: &[u64]) -> u64
    requires from { 1 ≤ n }
    requires numbers { length numbers.now ≡ n }
    requires most { All (λ x. x ≤ greatest_price) numbers.now }
    ensures value { result ≡ mean n numbers.now }
    ensures most { result ≤ greatest_price }
{
    quotient(total(numbers), n as u128) as u64
}

/// The simple average of the last n numbers, 0 where there are fewer.
#[tactic(auto, unfolding(crate::specs::Averages::simple))]
pub(crate) fn simple(n: u32, numbers: &[u64]) -> u64
    requires from { 1 ≤ n }
    requires most { All (λ x. x ≤ greatest_price) numbers.now }
    ensures value { result ≡ simple n numbers.now }
    ensures most { result ≤ greatest_price }
{
    if numbers.len() < n as usize {
        return 0;
    }
    let (_, last) = numbers.split_at(numbers.len() - n as usize);
    mean(n, last)
}

/// The value of an exponential average after another.
fn exponential_next(n: u32, before: u64, number: u64) -> u64
    requires from { 1 ≤ n }
    requires before { before ≤ greatest_price }
    requires number { number ≤ greatest_price }
    ensures value { result ≡ exponential_next n before number }
    ensures most { result ≤ greatest_price }
{
    let n = n as u128;
    quotient(2 * number as u128 + (n - 1) * before as u128, n + 1) as u64
}

/// The exponential average of numbers, 0 where there is none.
#[tactic(auto, unfolding(crate::specs::Averages::exponential))]
pub(crate) fn exponential(n: u32, numbers: &[u64]) -> u64
    requires from { 1 ≤ n }
    requires most { All (λ x. x ≤ greatest_price) numbers.now }
    ensures value { result ≡ exponential n numbers.now }
    ensures most { result ≤ greatest_price }
{
    if numbers.is_empty() {
        return 0;
    }
    let mut value = numbers[0];
    let (_, rest) = numbers.split_at(1);
    for number in rest {
        value = exponential_next(n, value, *number);
    }
    value
}

/// The value of a smoothed average after another.
fn smoothed_next(n: u32, before: u64, number: u64) -> u64
    requires from { 1 ≤ n }
    requires before { before ≤ greatest_price }
    requires number { number ≤ greatest_price }
    ensures value { result ≡ smoothed_next n before number }
    ensures most { result ≤ greatest_price }
{
    let n = n as u128;
    quotient((n - 1) * before as u128 + number as u128, n) as u64
}

/// The smoothed average of numbers, 0 where there are fewer than n.
#[tactic(auto, unfolding(crate::specs::Averages::smoothed))]
pub(crate) fn smoothed(n: u32, numbers: &[u64]) -> u64
    requires from { 1 ≤ n }
    requires most { All (λ x. x ≤ greatest_price) numbers.now }
    ensures value { result ≡ smoothed n numbers.now }
    ensures most { result ≤ greatest_price }
{
    if numbers.len() < n as usize {
        return 0;
    }
    let (head, rest) = numbers.split_at(n as usize);
    let mut value = mean(n, head);
    for number in rest {
        value = smoothed_next(n, value, *number);
    }
    value
}

/// The mean of numbers with the weights 1, 2 and so on.
fn weighted_mean(numbers: &[u64]) -> u64
    requires some { 1 ≤ length numbers.now }
    requires few { length numbers.now ≤ 10000 }
    requires most { All (λ x. x ≤ greatest_price) numbers.now }
    ensures value { result ≡ weighted_mean (length numbers.now) numbers.now }
    ensures most { result ≤ greatest_price }
{
    let mut weight = 0u128;
    let mut weights = 0u128;
    let mut total = 0u128;
    for number in numbers {
        weight += 1;
        weights += weight;
        total += weight * *number as u128;
    }
    quotient(total, weights) as u64
}

/// The linear-weighted average of the last n numbers, 0 where there are fewer.
#[tactic(auto, unfolding(crate::specs::Averages::linear_weighted))]
pub(crate) fn linear_weighted(n: u32, numbers: &[u64]) -> u64
    requires from { 1 ≤ n }
    requires to { n ≤ 10000 }
    requires most { All (λ x. x ≤ greatest_price) numbers.now }
    ensures value { result ≡ linear_weighted n numbers.now }
    ensures most { result ≤ greatest_price }
{
    if numbers.len() < n as usize {
        return 0;
    }
    let (_, last) = numbers.split_at(numbers.len() - n as usize);
    weighted_mean(last)
}

/// The average of numbers by a method.
pub(crate) fn average(method: Method, n: u32, numbers: &[u64]) -> u64
    requires from { 1 ≤ n }
    requires to { n ≤ 10000 }
    requires most { All (λ x. x ≤ greatest_price) numbers.now }
    ensures value { result ≡ average method n numbers.now }
    ensures most { result ≤ greatest_price }
{
    match method {
        Method::Simple => simple(n, numbers),
        Method::Exponential => exponential(n, numbers),
        Method::Smoothed => smoothed(n, numbers),
        Method::LinearWeighted => linear_weighted(n, numbers),
    }
}
