//! What open positions gain at the last loud prices, and the equity.
ghost use Rattle.std.specs.Prelude.{◌≡◌, ◌≤◌, ◌^◌, All, FitsSigned, unwrap_or, pos, ◌+ℤ◌};
ghost use Rattle.std.specs.Int.{w128, int_wrap};
ghost use Rattle.market_types.specs.Ranges.{IsSpec};
ghost use Rattle.account.specs.Deals.{total};
ghost use Rattle.account.specs.StopOut.{contract_of, closing_price, prices_at, floating, equity_of};
ghost use Rattle.account.specs.Ranges.{HasPrices, Floats};

use crate::money::profit;
use crate::totals::plus;
use crate::{Position, Prices};
use fx8::{Fix8, Money};
use market_types::Specs;

/// A sum of two amounts, of which 128 bits are kept. What wraps on the way comes back where the whole sum
/// fits.
pub(crate) fn wrapped_sum(one: Money, other: Money) -> Money
    ensures { result ≡ int_wrap w128 (one +ℤ other) }
{
    Money::of_cents(one.cents().wrapping_add(other.cents()))
}

/// How many units of the base currency a lot of a symbol has; 0 where there is no such symbol.
pub(crate) fn contract_of(specs: &Specs, symbol: u8) -> u32
    requires { All IsSpec specs.now }
    ensures value { result ≡ contract_of specs.now symbol }
    ensures most { result ≤ 10 ^ 6 }
{
    match specs.at(symbol as u64) {
        Some(spec) => spec.contract,
        None => 0,
    }
}

/// What a position is closed at: Bid for a buy, Ask for a sell.
fn closing_price(buy: bool, prices: (Fix8, Fix8)) -> Fix8
    ensures { result ≡ closing_price buy prices }
{
    if buy { prices.0 } else { prices.1 }
}

/// Bid and Ask of a position's symbol.
fn prices_of(prices: &Prices, position: &Position) -> (Fix8, Fix8)
    requires { HasPrices prices.now position.now }
    ensures { result ≡ unwrap_or (prices_at prices.now position.now.symbol) (pos 0, pos 0) }
{
    match prices.at(position.symbol) {
        Some(pair) => pair,
        None => (Fix8::of_units(0), Fix8::of_units(0)),
    }
}

/// The floating profit of a position: what it would gain, and its accrued swap.
#[tactic(auto, unfolding(crate::specs::StopOut::floating))]
pub(crate) fn floating(specs: &Specs, prices: &Prices, position: &Position) -> Money
    requires specs { All IsSpec specs.now }
    requires floats { Floats specs.now prices.now position.now }
    ensures { result ≡ floating specs.now prices.now position.now }
{
    let contract = contract_of(specs, position.symbol);
    let closing = closing_price(position.buy, prices_of(prices, position));
    plus(
        profit(
            position.buy,
            position.price,
            closing,
            contract,
            position.volume,
        ),
        position.swap,
    )
}

/// All floating profits together.
fn floating_sum(specs: &Specs, prices: &Prices, positions: &[Position]) -> Money
    requires specs { All IsSpec specs.now }
    requires floats { All (Floats specs.now prices.now) positions.now }
    ensures { result ≡ int_wrap w128 (total (floating specs.now prices.now) positions.now) }
{
    let mut sum = Money::of_cents(0);
    let mut rest = positions;
    while let Some((position, others)) = rest.split_first() {
        sum = wrapped_sum(sum, floating(specs, prices, position));
        rest = others;
    }
    sum
}

/// The equity: a balance and the floating profits of positions, at the last loud Bid for a buy and Ask for a sell
/// (MetaTrader 5 Help, Margin Calculation). Sum and parts are to fit 128 bits.
pub fn equity_of(specs: &Specs, prices: &Prices, balance: Money, positions: &[Position]) -> Money
    requires specs { All IsSpec specs.now }
    requires floats { All (Floats specs.now prices.now) positions.now }
    requires fits { FitsSigned w128 (equity_of specs.now prices.now balance positions.now) }
    ensures { result ≡ equity_of specs.now prices.now balance positions.now }
{
    wrapped_sum(balance, floating_sum(specs, prices, positions))
}
