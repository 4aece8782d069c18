//! Amounts of money and the price of two parts together.
ghost use Rattle.std.specs.Prelude.{◌≡◌, ◌<◌, ◌≤◌, ◌^◌, ◌*◌, ◌+◌, pos, ◌*ℤ◌, ◌-ℤ◌, ◌+ℤ◌, ◌≤ℤ◌, ◌<ℤ◌, neg_ℤ, true, false, FitsSigned, unsigned_abs};
ghost use Rattle.std.specs.Int.{w64, w128};
ghost use Rattle.fx8.specs.Integers.{is_zero};
ghost use Rattle.fx8.specs.Rounding.{nearest, rounded, signed, is_below_zero};
ghost use Rattle.account.specs.Money.{for_side, profit, margin, commission, weighted_price, portion};

use fx8::{Fix8, Money, rounded};

/// The whole number nearest to `n / q`, the greater one at a tie.
fn nearest(n: u128, q: u128) -> u128
    requires some { 0 < q }
    requires divisor { q < 2 ^ 64 }
    requires small { n < 2 ^ 126 }
    ensures { result ≡ nearest n q }
{
    (2 * n + q) / (2 * q)
}

/// A product that 128 bits hold.
fn product(a: u128, b: u64) -> u128
    requires { a * b ≤ 2 ^ 127 }
    ensures { result ≡ a * b }
{
    a * b as u128
}

/// The whole number nearest to `n * part / whole`, the greater one at a tie.
fn scaled_size(n: u128, part: u64, whole: u64) -> u128
    requires some { 0 < whole }
    requires within { part ≤ whole }
    requires room { whole < 2 ^ 63 }
    requires small { n ≤ 2 ^ 127 }
    ensures value { result ≡ nearest (n * part) whole }
    ensures at_most { result ≤ n }
{
    let count = n / whole as u128;
    let rest = n % whole as u128;
    product(count, part) + nearest(product(rest, part), whole as u128)
}

/// Whether a number is below zero.
fn is_below_zero(z: i128) -> bool
    ensures { result ≡ is_below_zero z }
{
    z < 0
}

/// So many, or so many below zero.
fn signed(below_zero: bool, size: u128) -> i128
    requires small { size ≤ 2 ^ 127 }
    requires fits { below_zero ≡ false → size < 2 ^ 127 }
    ensures { result ≡ signed below_zero size }
{
    if !below_zero {
        return size as i128;
    }
    if size == 0x8000_0000_0000_0000_0000_0000_0000_0000 {
        i128::MIN
    } else {
        -(size as i128)
    }
}

/// `amount * part / whole`, rounded half away from zero.
fn scaled(amount: i128, part: u64, whole: u64) -> i128
    requires some { 0 < whole }
    requires within { part ≤ whole }
    requires room { whole < 2 ^ 63 }
    ensures { result ≡ rounded (amount *ℤ pos part) (pos whole) }
{
    let size = scaled_size(amount.unsigned_abs(), part, whole);
    signed(is_below_zero(amount), size)
}

/// A product that 128 bits hold.
fn times(a: i128, b: i128) -> i128
    requires { unsigned_abs a * unsigned_abs b < 2 ^ 127 }
    ensures value { result ≡ a *ℤ b }
    ensures size { unsigned_abs result ≡ unsigned_abs a * unsigned_abs b }
{
    a * b
}

/// The same number in more bits.
fn wide(units: i64) -> i128
    ensures value { result ≡ units }
    ensures at_most { unsigned_abs result ≤ 2 ^ 63 }
{
    units as i128
}

/// How far a price is above another.
fn rise(opening: Fix8, closing: Fix8) -> i128
    ensures value { result ≡ closing -ℤ opening }
    ensures at_most { unsigned_abs result < 2 ^ 64 }
{
    closing.units() as i128 - opening.units() as i128
}

/// As it is for a buy, negated for a sell.
fn for_side(buy: bool, amount: i128) -> i128
    requires { unsigned_abs amount < 2 ^ 127 }
    ensures { result ≡ for_side buy amount }
{
    if buy { amount } else { -amount }
}

/// What a volume gains by the rise of a price, for a lot of one unit and in units of 10^-16.
fn gain(buy: bool, opening: Fix8, closing: Fix8, volume: Fix8) -> i128
    requires { pos 0 ≤ℤ volume }
    ensures { result ≡ for_side buy ((closing -ℤ opening) *ℤ volume) }
{
    for_side(buy, times(rise(opening, closing), wide(volume.units())))
}

/// What a bought, or sold, volume gains between two prices (MQL5 Reference, OrderCalcProfit), rounded to
/// hundredths, half away from zero.
#[tactic(auto, unfolding(crate::specs::Money::profit))]
pub fn profit(buy: bool, opening: Fix8, closing: Fix8, contract: u32, volume: Fix8) -> Money
    requires contract { contract ≤ 10 ^ 6 }
    requires volume { pos 0 ≤ℤ volume }
    ensures { result ≡ profit buy opening closing contract volume }
{
    Money::of_cents(scaled(
        gain(buy, opening, closing, volume),
        contract as u64,
        100_000_000_000_000,
    ))
}

/// What is bound by a volume (MQL5 Reference, OrderCalcMargin), rounded to hundredths, half away from zero.
#[tactic(auto, unfolding(crate::specs::Money::margin))]
pub fn margin(leverage: u32, price: Fix8, contract: u32, volume: Fix8) -> Money
    requires leverage_from { 1 ≤ leverage }
    requires leverage_to { leverage ≤ 10000 }
    requires contract { contract ≤ 10 ^ 6 }
    ensures { result ≡ margin leverage price contract volume }
{
    Money::of_cents(scaled(
        worth(volume, price),
        contract as u64,
        100_000_000_000_000 * leverage as u64,
    ))
}

/// The amount below zero, or above.
fn negated(amount: i128) -> i128
    requires { unsigned_abs amount < 2 ^ 127 }
    ensures { result ≡ neg_ℤ amount }
{
    -amount
}

/// What a deal costs at a rate for a lot, 0 or below, rounded to hundredths, half away from zero.
#[tactic(auto, unfolding(crate::specs::Money::commission))]
pub fn commission(rate: Money, volume: Fix8) -> Money
    requires from { pos 0 ≤ℤ rate }
    requires to { rate ≤ℤ pos (10 ^ 8) }
    ensures { result ≡ commission rate volume }
{
    let cost = rounded(times(rate.cents(), wide(volume.units())), 100_000_000);
    Money::of_cents(negated(cost))
}

/// A volume times a price.
fn worth(volume: Fix8, price: Fix8) -> i128
    ensures value { result ≡ volume *ℤ price }
    ensures at_most { unsigned_abs result ≤ 2 ^ 126 }
{
    times(wide(volume.units()), wide(price.units()))
}

/// The worth of two parts, of which one is not the greatest that there is.
fn joined_worth(one: i128, other: i128) -> i128
    requires one { unsigned_abs one < 2 ^ 126 }
    requires other { unsigned_abs other ≤ 2 ^ 126 }
    ensures value { result ≡ one +ℤ other }
    ensures small { unsigned_abs result < 2 ^ 127 }
{
    one + other
}

/// Two volumes together.
fn whole(volume: Fix8, more: Fix8) -> i128
    requires { pos 0 <ℤ (volume +ℤ more) }
    ensures value { result ≡ volume +ℤ more }
    ensures some { is_zero result ≡ false }
{
    volume.units() as i128 + more.units() as i128
}

/// The same number in fewer bits.
fn narrow(units: i128) -> Fix8
    requires { FitsSigned w64 units }
    ensures { result ≡ units }
{
    Fix8::of_units(units as i64)
}

/// The volume-weighted price of two parts, rounded half away from zero.
#[tactic(auto, unfolding(crate::specs::Money::weighted_price))]
pub fn weighted_price(volume: Fix8, price: Fix8, more: Fix8, at: Fix8) -> Fix8
    requires some { pos 0 <ℤ volume }
    requires together { pos 0 <ℤ (volume +ℤ more) }
    requires fits { FitsSigned w64 (weighted_price volume price more at) }
    ensures { result ≡ weighted_price volume price more at }
{
    let part = worth(volume, price);
    let other = worth(more, at);
    narrow(rounded(joined_worth(part, other), whole(volume, more)))
}

/// The part of an amount that goes with a part of a volume, rounded to hundredths, half away from zero.
#[tactic(auto, unfolding(crate::specs::Money::portion))]
pub fn portion(amount: Money, part: Fix8, whole: Fix8) -> Money
    requires some { pos 0 <ℤ part }
    requires within { part ≤ℤ whole }
    ensures { result ≡ portion amount part whole }
{
    Money::of_cents(scaled(amount.cents(), part.units() as u64, whole.units() as u64))
}
