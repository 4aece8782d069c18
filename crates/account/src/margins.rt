//! What open positions bind.
ghost use Rattle.std.specs.Prelude.{◌≡◌, ◌≤◌, All, FitsSigned, length};
ghost use Rattle.std.specs.Int.{w128, int_wrap};
ghost use Rattle.account.specs.Deals.{total};
ghost use Rattle.account.specs.StopOut.{position_margin, is_on, side_margin, symbol_margin, total_below, margin_by};
ghost use Rattle.account.specs.Ranges.{IsAccount, IsHeld};

use crate::floating::{contract_of, wrapped_sum};
use crate::money::margin;
use crate::open_positions::same_side;
use crate::totals::greater;
use crate::{AccountSpec, Position};
use fx8::Money;

/// What a position binds, at its own price.
#[tactic(auto, unfolding(crate::specs::StopOut::position_margin))]
fn position_margin(spec: &AccountSpec, position: &Position) -> Money
    requires { IsAccount spec.now }
    ensures { result ≡ position_margin spec.now.specs spec.now.leverage position.now }
{
    let contract = contract_of(&spec.specs, position.symbol);
    margin(spec.leverage, position.price, contract, position.volume)
}

/// Whether a position is one of a symbol on a side.
fn is_on(symbol: u64, buy: bool, position: &Position) -> bool
    ensures { result ≡ is_on symbol buy position.now }
{
    if position.symbol as u64 == symbol {
        same_side(position.buy, buy)
    } else {
        false
    }
}

/// What all positions bind together.
fn margin_sum(spec: &AccountSpec, positions: &[Position]) -> Money
    requires { IsAccount spec.now }
    ensures { result ≡ int_wrap w128
        (total (position_margin spec.now.specs spec.now.leverage) positions.now) }
{
    let mut sum = Money::of_cents(0);
    let mut rest = positions;
    while let Some((position, others)) = rest.split_first() {
        sum = wrapped_sum(sum, position_margin(spec, position));
        rest = others;
    }
    sum
}

/// What the positions of a symbol on a side bind.
fn side_margin(spec: &AccountSpec, positions: &[Position], buy: bool, symbol: u64) -> Money
    requires account { IsAccount spec.now }
    requires held { All IsHeld positions.now }
    requires few { length positions.now ≤ 65536 }
    ensures { result ≡ side_margin spec.now.specs spec.now.leverage positions.now buy symbol }
{
    let mut sum = Money::of_cents(0);
    let mut rest = positions;
    while let Some((position, others)) = rest.split_first() {
        if is_on(symbol, buy, position) {
            sum = wrapped_sum(sum, position_margin(spec, position));
        }
        rest = others;
    }
    sum
}

/// What the positions of a symbol bind under hedging: the greater of the sums of both sides.
fn symbol_margin(spec: &AccountSpec, positions: &[Position], symbol: u64) -> Money
    requires account { IsAccount spec.now }
    requires held { All IsHeld positions.now }
    requires few { length positions.now ≤ 65536 }
    ensures { result ≡ symbol_margin spec.now.specs spec.now.leverage positions.now symbol }
{
    greater(
        side_margin(spec, positions, true, symbol),
        side_margin(spec, positions, false, symbol),
    )
}

/// What the positions of all symbols bind under hedging.
fn hedged_margin(spec: &AccountSpec, positions: &[Position]) -> Money
    requires account { IsAccount spec.now }
    requires held { All IsHeld positions.now }
    requires few { length positions.now ≤ 65536 }
    ensures { result ≡ int_wrap w128 (total_below
        (symbol_margin spec.now.specs spec.now.leverage positions.now) (length spec.now.specs)) }
{
    let mut sum = Money::of_cents(0);
    for symbol in 0..spec.specs.len() {
        sum = wrapped_sum(sum, symbol_margin(spec, positions, symbol));
    }
    sum
}

/// What open positions bind: under hedging, of each symbol the greater of the sums of both sides (MetaTrader 5
/// Help, Margin Calculation). At most 65,536 positions may be handed in, and what they bind is to fit 128 bits.
pub fn margin_by(spec: &AccountSpec, positions: &[Position]) -> Money
    requires account { IsAccount spec.now }
    requires held { All IsHeld positions.now }
    requires few { length positions.now ≤ 65536 }
    requires fits { FitsSigned w128
        (margin_by spec.now.hedging spec.now.specs spec.now.leverage positions.now) }
    ensures { result ≡ margin_by spec.now.hedging spec.now.specs spec.now.leverage positions.now }
{
    if spec.hedging {
        hedged_margin(spec, positions)
    } else {
        margin_sum(spec, positions)
    }
}
