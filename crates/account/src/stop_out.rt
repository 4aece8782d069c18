//! When a stop-out is due, and which position it closes.
ghost use Rattle.std.specs.Prelude.{◌≡◌, ◌≤◌, ◌<◌, ◌+◌, ◌*◌, ◌/◌, ◌^◌, All, Some, pos, ◌*ℤ◌, int_lt};
ghost use Rattle.std.specs.Option.{option_copied};
ghost use Rattle.market_types.specs.Ranges.{IsSpec};
ghost use Rattle.account.specs.StopOut.{floating, is_due, lesser, least};
ghost use Rattle.account.specs.Ranges.{Floats};

use crate::floating::floating;
use crate::{Position, Prices};
use fx8::Money;
use market_types::Specs;

/// A percentage of an amount, rounded up.
fn percentage(amount: u128, percent: u32) -> u128
    requires percent { percent ≤ 100 }
    requires small { amount < 2 ^ 127 }
    ensures { result ≡ (amount * percent + 99) / 100 }
{
    amount / 100 * percent as u128 + (amount % 100 * percent as u128 + 99) / 100
}

/// Whether an amount is below a size.
fn is_below(amount: i128, size: u128) -> bool
    ensures { result ≡ int_lt amount (pos size) }
{
    if amount < 0 {
        return true;
    }
    amount.unsigned_abs() < size
}

/// Whether a stop-out is due: there is margin, and the equity is below a percentage of it (MetaTrader 5
/// Help, Stop Out).
#[tactic(auto, unfolding(crate::specs::StopOut::is_due))]
pub(crate) fn is_due(stop_out: u32, equity: Money, margin: Money) -> bool
    requires { stop_out ≤ 100 }
    ensures { result ≡ is_due stop_out equity margin }
{
    if margin.cents() <= 0 {
        return false;
    }
    let bound = percentage(margin.cents().unsigned_abs(), stop_out);
    is_below(equity.cents(), bound)
}

/// Of two positions the one of less floating profit, at a tie the first.
fn lesser<'a>(
    specs: &Specs,
    prices: &Prices,
    one: &'a Position,
    other: &'a Position,
) -> &'a Position
    requires specs { All IsSpec specs.now }
    requires one { Floats specs.now prices.now one.now }
    requires other { Floats specs.now prices.now other.now }
    ensures { result.now ≡ lesser (floating specs.now prices.now) one.now (Some other.now) }
{
    if floating(specs, prices, other) < floating(specs, prices, one) {
        other
    } else {
        one
    }
}

/// The position of least floating profit, at a tie the first; `None` exactly where there is none.
pub(crate) fn least<'a>(
    specs: &Specs,
    prices: &Prices,
    positions: &'a [Position],
) -> Option<&'a Position>
    requires specs { All IsSpec specs.now }
    requires floats { All (Floats specs.now prices.now) positions.now }
    ensures { option_copied result ≡ least (floating specs.now prices.now) positions.now }
{
    let (first, others) = positions.split_first()?;
    let mut best = first;
    let mut rest = others;
    while let Some((position, others)) = rest.split_first() {
        best = lesser(specs, prices, best, position);
        rest = others;
    }
    Some(best)
}
