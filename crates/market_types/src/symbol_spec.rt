//! The numbers of a symbol.
ghost use Rattle.std.specs.Prelude.{◌≡◌, None, pos};
ghost use Rattle.market_types.specs.Ranges.{IsSymbolName, IsSpec};

use fx8::{Fix8, ItemList, Money, Text8};

/// What a test takes a symbol to be (MQL5 Reference, Symbol Properties).
#[derive(Debug, Drop)]
pub struct SymbolSpec {
    /// The symbol's name: 1 to 32 printable ASCII characters without a blank.
    pub name: Text8,
    /// The price file.
    pub file: Text8,
    /// How many decimals prices show, 0 to 8. A point is the last of them.
    pub digits: u8,
    /// The units of the base currency that a lot has, 1 to 1,000,000.
    pub contract: u32,
    /// The least volume of an order, in lots.
    pub volume_min: Fix8,
    /// The greatest volume of an order, in lots.
    pub volume_max: Fix8,
    /// What volumes are multiples of, in lots.
    pub volume_step: Fix8,
    /// How many points stops and prices of pending orders keep from the market, 0 to 1,000,000.
    pub stops_level: u32,
    /// Ask less Bid in points, 0 to 1,000,000, where it is not taken from the rows of a bars file.
    pub spread: Option<u32>,
    /// What a deal costs for each lot, 0 to 1,000,000.
    pub commission: Money,
    /// What a bought lot earns or costs a night, -1,000,000 to 1,000,000.
    pub swap_long: Money,
    /// What a sold lot earns or costs a night, -1,000,000 to 1,000,000.
    pub swap_short: Money,
    /// The weekday after which a night counts three times, 0 for Sunday to 6.
    pub swap_day: u8,
}

impl SymbolSpec {
    /// A symbol whose other numbers are those that settings take where they name none: 5 digits, 100,000
    /// units a lot, volumes from 0.01 to 100 in steps of 0.01, no distance of stops, the spread of the rows,
    /// no commission and no swap, which counts three times after Wednesday.
    pub fn with_defaults(name: Text8, file: Text8) -> SymbolSpec
        requires { IsSymbolName name }
        ensures value { result ≡ record {
          name = name;
          file = file;
          digits = 5;
          contract =
              100000;
          volume_min = pos 1000000;
          volume_max = pos 10000000000;
          volume_step = pos 1000000;
          stops_level = 0;
          spread = None;
          commission = pos 0;
          swap_long = pos 0;
          swap_short = pos 0;
          swap_day = 3;
        } }
        ensures ranges { IsSpec result }
    {
        SymbolSpec {
            name,
            file,
            digits: 5,
            contract: 100_000,
            volume_min: Fix8::of_units(1_000_000),
            volume_max: Fix8::of_units(10_000_000_000),
            volume_step: Fix8::of_units(1_000_000),
            stops_level: 0,
            spread: None,
            commission: Money::of_cents(0),
            swap_long: Money::of_cents(0),
            swap_short: Money::of_cents(0),
            swap_day: 3,
        }
    }
}

/// The numbers of symbols, in the order of a market.
pub type Specs = ItemList<SymbolSpec>;
