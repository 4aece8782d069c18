//! Hedging: a position for each opening deal.
ghost use Rattle.std.specs.Prelude.{◌≡◌, [], All, true};
ghost use Rattle.market_types.specs.Ranges.{IsSpec};

use crate::acts::{add_swap_to, at_place, count, fill_on, fired_of, met, set_stops_of};
use crate::by_opposite::close_both;
use crate::rule::PositionRule;
use crate::{Fill, FillFault};
use account::{EventList, Position, look_up};
use fx8::{Fix8, Money, Tickets};
use market_types::{Quote, Specs};
use std::alloc::Global;
use std::marker::Model;

/// Any number of positions a symbol, on both sides: a fill that names no position opens one, and one that
/// names a position closes that much of it (MetaTrader 5 Help, Hedging System).
#[derive(Debug, Drop)]
pub struct Hedging {
    alloc: Global,
    specs: Specs,
    positions: Vec<Position>,
}

impl Model for Hedging {
    ghost use Rattle.std.specs.Prelude.{List, All};
    ghost use Rattle.market_types.specs.declared.symbol_spec.SymbolSpec.{SymbolSpec as SpecValue};
    ghost use Rattle.market_types.specs.Ranges.{IsSpec};
    ghost use Rattle.account.specs.declared.position.Position.{Position as PositionValue};
    ghost use Rattle.positions.specs.Acts.{IsOpen, Held};

    ghost Value = { Held };

    ghost view = { λ rule. record { specs = rule.specs; positions = rule.positions.items } };

    ghost invariant = { λ rule. All IsSpec rule.specs × IsOpen rule.positions.items };
}

impl Hedging {
    /// No position yet, of these symbols. It takes no memory.
    pub fn new(alloc: Global, specs: Specs) -> Hedging
        requires { All IsSpec specs }
        ensures specs { result.specs ≡ specs }
        ensures positions { result.positions ≡ [] }
    {
        Hedging {
            alloc,
            specs,
            positions: Vec::new(alloc),
        }
    }
}

impl PositionRule for Hedging {
    ghost positions = { λ rule. rule.positions };

    ghost specs = { λ rule. rule.specs };

    ghost hedging = { λ rule. true };

    fn fill(&mut self, fill: &Fill, out: &mut EventList) -> Result<(), FillFault> {
        fill_on(
            true,
            self.alloc,
            &self.specs,
            &mut self.positions,
            fill,
            out,
        )
    }

    fn close_by(
        &mut self,
        one: u64,
        other: u64,
        at: &Fill,
        out: &mut EventList,
    ) -> Result<(), FillFault> {
        close_both(
            self.alloc,
            &self.specs,
            &mut self.positions,
            one,
            other,
            at,
            out,
        )
    }

    fn set_stops(&mut self, ticket: u64, sl: Fix8, tp: Fix8) -> bool {
        set_stops_of(&mut self.positions, ticket, sl, tp)
    }

    fn add_swap(&mut self, ticket: u64, amount: Money) -> bool {
        add_swap_to(&mut self.positions, ticket, amount)
    }

    fn met(&self, fill: &Fill) -> Option<&Position> {
        met(true, &self.positions, fill)
    }

    fn get(&self, ticket: u64) -> Option<&Position> {
        look_up(&self.positions, ticket)
    }

    fn len(&self) -> u32 {
        count(&self.positions)
    }

    fn at(&self, i: u32) -> Option<&Position> {
        at_place(&self.positions, i)
    }

    fn fired(&self, quote: &Quote, out: &mut Tickets) {
        fired_of(&self.positions, quote, out)
    }
}
