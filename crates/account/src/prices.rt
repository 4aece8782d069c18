//! The prices that an account sees.
ghost use Rattle.std.specs.Prelude.{◌≡◌, ◌<◌, length, slice_get, slice_set, Some, None, IfOk, All};
ghost use Rattle.account.specs.Doubles.{IsPair};

use fx8::{Fix8, OutOfMemory};
use std::alloc::Global;
use std::marker::Model;

/// The last loud Bid and Ask of each symbol. Contracts see, for each symbol, the pair of both, none before
/// the first.
#[derive(Debug, Drop)]
pub struct Prices {
    pairs: Vec<Option<(Fix8, Fix8)>>,
}

impl Model for Prices {
    ghost use Rattle.std.specs.Prelude.{List, Option, ℤ};

    ghost Value = { List (Option (ℤ × ℤ)) };

    ghost view = { λ prices. prices.pairs.items };
}

impl Prices {
    /// No prices yet of so many symbols.
    pub fn new(alloc: Global, symbols: u8) -> Result<Prices, OutOfMemory>
        ensures { IfOk result (λ prices. (length prices ≡ symbols) × All (λ pair. pair ≡ None) prices) }
    {
        let mut pairs = Vec::new(alloc);
        pairs.resize(symbols as usize, None)?;
        Ok(Prices { pairs })
    }

    /// Sets the prices of a symbol.
    pub fn set(&mut self, symbol: u8, bid: Fix8, ask: Fix8)
        requires { symbol < length self.old }
        ensures { self.new ≡ slice_set self.old symbol (Some (bid, ask)) }
    {
        self.pairs[symbol as usize] = Some((bid, ask));
    }

    /// Bid and Ask of a symbol; `None` exactly before the first `set`.
    pub fn at(&self, symbol: u8) -> Option<(Fix8, Fix8)>
        requires { symbol < length self.now }
        ensures { slice_get self.now symbol ≡ Some result }
    {
        self.pairs[symbol as usize]
    }

    /// Each Bid and Ask is a double, so the whole number that contracts see fits 64 bits.
    pub fn ranges(&self)
        ensures { All IsPair self.now }
    {
        all_ranges(self.pairs.as_slice());
    }
}

/// Bid and Ask, where there are some, are doubles.
fn range(pair: &Option<(Fix8, Fix8)>)
    ensures { IsPair pair.now }
{
    if let Some((bid, ask)) = pair {
        let _bid = bid.units();
        let _ask = ask.units();
    }
}

/// Each Bid and Ask is a double.
fn all_ranges(pairs: &[Option<(Fix8, Fix8)>])
    ensures { All IsPair pairs.now }
{
    let mut rest = pairs;
    while let Some((pair, others)) = rest.split_first() {
        range(pair);
        rest = others;
    }
}
