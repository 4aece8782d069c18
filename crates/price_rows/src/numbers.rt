//! Numbers as a price file writes them.
ghost use Rattle.std.specs.Prelude.{◌≡◌, ◌≤◌, ◌-◌, ◌^◌, pos, IfSome};
ghost use Rattle.price_rows.specs.Numbers.{whole_of, price, last_price, tick_volume};
ghost use Rattle.decimals.specs.Texts.{whole};
ghost use Rattle.price_rows.specs.Ranges.{IsPriceNumber};
ghost use Rattle.market_types.specs.Ordered.{greatest_price};

use decimals::{unsigned, whole};
use fx8::Fix8;

/// The greatest price, 10,000,000, in units of 10^-8.
const GREATEST_PRICE: u64 = 1_000_000_000_000_000;

/// A whole number of so many digits, up to a limit.
#[tactic(auto, unfolding(crate::specs::Numbers::whole_of))]
pub(crate) fn whole_of(digits: usize, limit: u64, text: &[u8]) -> Option<u64>
    ensures value { result ≡ whole_of digits limit text.now }
    ensures most { IfSome result (λ number. number ≤ limit) }
{
    if text.len() == digits {
        whole(limit, text)
    } else {
        None
    }
}

/// A price in units of 10^-8: above 0 and at most 10,000,000, with up to 8 decimals.
pub(crate) fn price(text: &[u8]) -> Option<u64>
    ensures value { result ≡ price text.now }
    ensures range { IfSome result IsPriceNumber }
{
    let units = unsigned(8, 10_000_000, text)?;
    if 0 < units && units <= GREATEST_PRICE {
        Some(units)
    } else {
        None
    }
}

/// A last price, which may be 0.
pub(crate) fn last_price(text: &[u8]) -> Option<u64>
    ensures value { result ≡ last_price text.now }
    ensures most { IfSome result (λ units. units ≤ greatest_price) }
{
    let units = unsigned(8, 10_000_000, text)?;
    if units <= GREATEST_PRICE {
        Some(units)
    } else {
        None
    }
}

/// The volume of a tick: as much as 64 bits hold.
pub(crate) fn tick_volume(text: &[u8]) -> Option<u64>
    ensures value { result ≡ tick_volume text.now }
    ensures most { IfSome result (λ units. units ≤ 2 ^ 63 - 1) }
{
    let units = unsigned(8, 92_233_720_368, text)?;
    if units <= i64::MAX as u64 {
        Some(units)
    } else {
        None
    }
}

/// A count of units of 10^-8 as a number.
pub(crate) fn fixed(units: u64) -> Fix8
    requires { units ≤ 2 ^ 63 - 1 }
    ensures { result ≡ pos units }
{
    Fix8::of_units(units as i64)
}
