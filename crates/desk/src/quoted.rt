//! A ledger with the last loud quotes, whose numbers stay within their types.
ghost use Rattle.std.specs.Prelude.{◌≡◌, ◌++◌, ◌∷◌, ◌≤◌, ◌<◌, [], length, slice_get, slice_set, All, Some, None, OnOk, OnErr, IfOk, IfSome, ⊤};
ghost use Rattle.market_types.specs.Ordered.{IsMoment};
ghost use Rattle.account.specs.Deals.{deals};
ghost use Rattle.account.specs.Ranges.{IsAccount};
ghost use Rattle.account.specs.Journal.{deposit_deal};
ghost use Rattle.account.specs.declared.event.Event.TheVariants as event;
ghost use Rattle.desk.specs.Effect.{later, last_time, with_quote};
ghost use Rattle.desk.specs.State.{Quoted, journal_of};
ghost use Rattle.desk.specs.Sound.{IsSound, AreQuoted, MayEnter, MayFollow};
ghost use Rattle.desk.specs.Quotes.{MayQuote};

use account::{AccountSpec, Event, EventList, Ledger, Prices};
use fx8::OutOfMemory;
use market_types::Quote;
use std::alloc::Global;
use std::marker::Model;

/// The later of a time and one that may not be.
#[tactic(auto, unfolding(account::specs::Statistics::greater))]
fn later(time: i64, other: Option<i64>) -> i64
    ensures { result ≡ later time other }
{
    match other {
        Some(other) => if time < other { other } else { time },
        None => time,
    }
}

/// A ledger with the last loud Bid and Ask of each symbol and when they came.
#[derive(Debug, Drop)]
pub(crate) struct QuotedLedger {
    ledger: Ledger,
    prices: Prices,
    times: Vec<Option<i64>>,
}

impl Model for QuotedLedger {
    ghost use Rattle.desk.specs.State.{Quoted};
    ghost use Rattle.desk.specs.Sound.{IsSound, AreQuoted};

    ghost Value = { Quoted };

    ghost view = { λ q. record {
      spec = q.ledger.spec;
      events = q.ledger.events;
      prices = q.prices;
      times = q.times.items;
    } };

    ghost invariant = { λ q. IsSound q.ledger.spec q.prices q.times.items q.ledger.events
        × AreQuoted q.ledger.spec q.prices q.times.items };
}

impl QuotedLedger {
    /// The account with its deposit, before any quote.
    #[tactic(auto, using(crate::proofs::Tidy::begun_tidy))]
    pub(crate) fn start(alloc: Global, spec: AccountSpec) -> Result<QuotedLedger, OutOfMemory>
        requires account { IsAccount spec }
        requires symbols { length spec.specs ≤ 255 }
        ensures spec { IfOk result (λ q. q.spec ≡ spec) }
        ensures events { IfOk result (λ q. q.events ≡ event.Added (deposit_deal spec) ∷ []) }
        ensures prices { IfOk result (λ q. All (λ pair. pair ≡ None) q.prices) }
        ensures times { IfOk result (λ q. All (λ time. time ≡ None) q.times) }
    {
        let symbols = spec.specs.len() as u8;
        let prices = Prices::new(alloc, symbols)?;
        let mut times = Vec::new(alloc);
        times.resize(symbols as usize, None)?;
        let ledger = Ledger::start(alloc, spec)?;
        Ok(QuotedLedger {
            ledger,
            prices,
            times,
        })
    }

    /// The numbers of the journal stay within their types.
    pub(crate) fn is_sound(&self)
        ensures sound { IsSound self.now.spec self.now.prices self.now.times self.now.events }
        ensures quoted { AreQuoted self.now.spec self.now.prices self.now.times }
    {
        let _ledger = &self.ledger;
    }

    pub(crate) fn ledger(&self) -> &Ledger
        ensures { result.now ≡ journal_of self.now }
    {
        &self.ledger
    }

    pub(crate) fn prices(&self) -> &Prices
        ensures { result.now ≡ self.now.prices }
    {
        &self.prices
    }

    /// When the last loud quote of a symbol came.
    pub(crate) fn time_of(&self, symbol: u8) -> Option<i64>
        requires { symbol < length self.now.spec.specs }
        ensures { slice_get self.now.times symbol ≡ Some result }
    {
        self.times[symbol as usize]
    }

    /// When the last loud quote came, 0 before the first.
    pub(crate) fn last_time(&self) -> i64
        ensures { result ≡ last_time self.now.times }
    {
        let mut last = 0;
        let mut rest = self.times.as_slice();
        while let Some((time, others)) = rest.split_first() {
            last = later(last, *time);
            rest = others;
        }
        last
    }

    /// The prices and the time of a loud quote stand from then on.
    #[tactic(auto, using(crate::proofs::Quoting::quoted_on))]
    pub(crate) fn set_quote(&mut self, quote: &Quote)
        requires { MayQuote self.old quote.now }
        ensures { self.new ≡ with_quote quote.now self.old }
    {
        self.prices.set(quote.symbol, quote.bid, quote.ask);
        self.times[quote.symbol as usize] = Some(quote.time_ms);
    }

    /// Adds an event. A refused call adds none.
    pub(crate) fn enter(&mut self, event: Event) -> Result<(), OutOfMemory>
        requires { MayEnter self.old.spec self.old.prices self.old.times self.old.events event }
        ensures ok { OnOk result (self.new ≡ record self.old { events = self.old.events ++ event ∷ [] }) }
        ensures err { OnErr result (self.new ≡ self.old) }
    {
        if self.ledger.add(event).is_err() {
            return Err(OutOfMemory);
        }
        Ok(())
    }

    /// Adds events one after another.
    pub(crate) fn enter_all(&mut self, events: EventList) -> Result<(), OutOfMemory>
        requires { MayFollow self.old.spec self.old.prices self.old.times self.old.events events }
        ensures { OnOk result (self.new ≡ record self.old { events = self.old.events ++ events }) }
    {
        let mut rest = events.into_vec();
        while !rest.is_empty() {
            let event = rest.remove(0);
            self.enter(event)?;
        }
        Ok(())
    }
}
