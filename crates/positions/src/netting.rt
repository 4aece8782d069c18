//! Netting: at most one position a symbol.
ghost use Rattle.std.specs.Prelude.{◌≡◌, [], All, false};
ghost use Rattle.market_types.specs.Ranges.{IsSpec};

use crate::acts::{add_swap_to, at_place, count, fill_on, fired_of, met, set_stops_of};
use crate::rule::PositionRule;
use crate::{Fill, FillFault};
use account::{EventList, Position, look_up};
use fx8::{Fix8, Money, Tickets};
use market_types::{Quote, Specs};
use std::alloc::Global;
use std::marker::Model;

/// At most one position a symbol: a fill meets the one that is open (MetaTrader 5 Help, Netting System).
#[derive(Debug, Drop)]
pub struct Netting {
    alloc: Global,
    specs: Specs,
    positions: Vec<Position>,
}

impl Model for Netting {
    ghost use Rattle.std.specs.Prelude.{List, All};
    ghost use Rattle.market_types.specs.declared.symbol_spec.SymbolSpec.{SymbolSpec as SpecValue};
    ghost use Rattle.market_types.specs.Ranges.{IsSpec};
    ghost use Rattle.account.specs.declared.position.Position.{Position as PositionValue};
    ghost use Rattle.positions.specs.Acts.{IsOpen, Held};

    ghost Value = { Held };

    ghost view = { λ rule. record { specs = rule.specs; positions = rule.positions.items } };

    ghost invariant = { λ rule. All IsSpec rule.specs × IsOpen rule.positions.items };
}

impl Netting {
    /// No position yet, of these symbols. It takes no memory.
    pub fn new(alloc: Global, specs: Specs) -> Netting
        requires { All IsSpec specs }
        ensures specs { result.specs ≡ specs }
        ensures positions { result.positions ≡ [] }
    {
        Netting {
            alloc,
            specs,
            positions: Vec::new(alloc),
        }
    }
}

impl PositionRule for Netting {
    ghost positions = { λ rule. rule.positions };

    ghost specs = { λ rule. rule.specs };

    ghost hedging = { λ rule. false };

    fn fill(&mut self, fill: &Fill, out: &mut EventList) -> Result<(), FillFault> {
        fill_on(
            false,
            self.alloc,
            &self.specs,
            &mut self.positions,
            fill,
            out,
        )
    }

    fn close_by(
        &mut self,
        _one: u64,
        _other: u64,
        _at: &Fill,
        _out: &mut EventList,
    ) -> Result<(), FillFault> {
        Err(FillFault::WrongSide)
    }

    fn set_stops(&mut self, ticket: u64, sl: Fix8, tp: Fix8) -> bool {
        set_stops_of(&mut self.positions, ticket, sl, tp)
    }

    fn add_swap(&mut self, ticket: u64, amount: Money) -> bool {
        add_swap_to(&mut self.positions, ticket, amount)
    }

    fn met(&self, fill: &Fill) -> Option<&Position> {
        met(false, &self.positions, fill)
    }

    fn get(&self, ticket: u64) -> Option<&Position> {
        look_up(&self.positions, ticket)
    }

    fn len(&self) -> u32 {
        count(&self.positions)
    }

    fn at(&self, i: u32) -> Option<&Position> {
        at_place(&self.positions, i)
    }

    fn fired(&self, quote: &Quote, out: &mut Tickets) {
        fired_of(&self.positions, quote, out)
    }
}
