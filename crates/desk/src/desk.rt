//! The desk.
ghost use Rattle.std.specs.Prelude.{◌≡◌, ◌≤◌, ◌<◌, ◌+◌, ◌∷◌, [], length, false, IfOk, OnOk, All, None};
ghost use Rattle.market_types.specs.Ordered.{IsMoment};
ghost use Rattle.account.specs.declared.event.Event.TheVariants as event;
ghost use Rattle.account.specs.Journal.{deposit_deal};
ghost use Rattle.account.specs.Orders.{orders_in_force};
ghost use Rattle.account.specs.Positions.{open_positions};
ghost use Rattle.account.specs.Ranges.{IsAccount};
ghost use Rattle.account.specs.StopOut.{equity, worst};
ghost use Rattle.desk.specs.Effect.{last_time};
ghost use Rattle.desk.specs.Quotes.{MayQuote, Quotes, Closes};
ghost use Rattle.desk.specs.Requests.{judged, Sends};
ghost use Rattle.desk.specs.State.{DeskState};

use crate::DeskFault;
use crate::books::Books;
use crate::effect::effect;
use crate::ending::end;
use crate::requests::answer;
use account::{AccountSpec, Ledger, Prices};
use fx8::{Money, OutOfMemory};
use judgement::{Answer, Request};
use market_types::Quote;
use order_book::Orders;
use positions::PositionRule;
use std::alloc::Global;
use std::marker::Model;

/// Judges requests and does the work of quotes on an account, of one kind or the other. Contracts see the
/// account with its journal, the last loud quotes, how many requests were answered, and whether the desk is
/// closed.
#[derive(Debug, Drop)]
pub struct Desk<P: PositionRule> {
    books: Books<P>,
    requests: u32,
}

impl<P: PositionRule> Model for Desk<P> {
    ghost use Rattle.std.specs.Prelude.{◌≤◌, ◌≡◌, false};
    ghost use Rattle.desk.specs.State.{DeskState, most_requests};
    ghost use Rattle.desk.specs.Tickets.{last_order};

    ghost Value = { DeskState };

    ghost view = { λ d. record {
      quoted = d.books.quoted;
      requests = d.requests;
      closed = d.books.broken;
    } };

    ghost invariant = { λ d. (d.requests ≤ most_requests)
        × (d.books.broken ≡ false → last_order d.books.quoted.events ≤ d.requests) };
}

impl<P: PositionRule + Drop> Desk<P> {
    /// A desk of an account to which nothing happened but the deposit, before any quote.
    pub fn start(alloc: Global, spec: AccountSpec, rule: P) -> Result<Desk<P>, OutOfMemory>
        requires account { IsAccount spec }
        requires symbols { length spec.specs ≤ 255 }
        requires kind { P.hedging rule ≡ spec.hedging }
        requires specs { P.specs rule ≡ spec.specs }
        requires none { P.positions rule ≡ [] }
        ensures open { IfOk result (λ desk. desk.closed ≡ false) }
        ensures spec { IfOk result (λ desk. desk.quoted.spec ≡ spec) }
        ensures events { IfOk result (λ desk. desk.quoted.events ≡ event.Added (deposit_deal spec) ∷ []) }
        ensures prices { IfOk result (λ desk. All (λ pair. pair ≡ None) desk.quoted.prices) }
        ensures times { IfOk result (λ desk. All (λ time. time ≡ None) desk.quoted.times) }
        ensures requests { IfOk result (λ desk. desk.requests ≡ 0) }
    {
        let books = Books::start(alloc, spec, rule)?;
        Ok(Desk { books, requests: 0 })
    }

    /// Judges a request at a time in milliseconds, and does it where no rule of its action fails (MQL5
    /// Reference, OrderSend). `RequestsExhausted` exactly at the 100,001st request, `DealsExhausted` exactly
    /// where a deal of another request would be the 50,001st; nothing changes then. After `OutOfMemory` the
    /// desk is closed.
    #[tactic(auto, using(crate::proofs::Lasting::judged_last))]
    pub fn send(&mut self, request: &Request, time_ms: i64) -> Result<Answer, DeskFault>
        requires open { self.old.closed ≡ false }
        ensures { Sends self.old (judged self.old.quoted time_ms request.now) result self.new }
    {
        if self.requests >= 100_000 {
            return Err(DeskFault::RequestsExhausted);
        }
        self.books.is_sound();
        let done = answer(&mut self.books, time_ms, request)?;
        self.requests += 1;
        Ok(done)
    }

    /// A loud quote comes: its prices and its time stand from then on, and what it does to the account is
    /// done before an expert sees it: swap, expiry, what fires, stop-out (MetaTrader 5 Help, Types of Orders,
    /// Stop Loss and Take Profit, Stop Out). After `Ok` no stop-out is due. `DealsExhausted` exactly where a
    /// deal of that would be the 50,001st; what was done before stands. After `OutOfMemory` the desk is
    /// closed.
    #[tactic(auto, using(crate::proofs::Answered::desk_leaves, crate::proofs::Answered::few_taken, crate::proofs::Unticketed::effect_last))]
    pub fn quote(&mut self, quote: &Quote) -> Result<(), DeskFault>
        requires open { self.old.closed ≡ false }
        requires quote { MayQuote self.old.quoted quote.now }
        ensures effect { Quotes self.old quote.now result self.new }
        ensures done { OnOk result (worst self.new.quoted.spec self.new.quoted.prices
            self.new.quoted.events ≡ None) }
    {
        effect(&mut self.books, quote)
    }

    /// Removes all orders, and then closes all positions at the last loud prices, by rising ticket, at the
    /// time of the last loud quote, as at the end of a test. `DealsExhausted` exactly where a deal of that
    /// would be the 50,001st; what was done before stands. After `OutOfMemory` the desk is closed.
    #[tactic(auto, using(crate::proofs::Answered::desk_leaves, crate::proofs::Answered::few_taken, crate::proofs::Unticketed::closing_last))]
    pub fn close_all(&mut self) -> Result<(), DeskFault>
        requires open { self.old.closed ≡ false }
        ensures { Closes self.old result self.new }
    {
        end(&mut self.books)
    }

    /// The account and its journal.
    pub fn ledger(&self) -> &Ledger
        ensures spec { result.now.spec ≡ self.now.quoted.spec }
        ensures events { result.now.events ≡ self.now.quoted.events }
    {
        self.books.ledger()
    }

    /// The orders in force.
    pub fn orders(&self) -> &Orders
        requires open { self.now.closed ≡ false }
        ensures { result.now ≡ orders_in_force self.now.quoted.events }
    {
        self.books.orders()
    }

    /// The open positions.
    pub fn positions(&self) -> &P
        requires open { self.now.closed ≡ false }
        ensures { P.positions result.now ≡ open_positions self.now.quoted.events }
    {
        self.books.rule()
    }

    /// The equity: the balance and all floating profits, at the last loud Bid for a buy and Ask for a sell
    /// (MetaTrader 5 Help, Margin Calculation).
    #[tactic(auto, using(crate::proofs::StopOutDue::is_priced))]
    pub fn equity(&self) -> Money
        ensures { result ≡ equity self.now.quoted.spec.specs self.now.quoted.prices self.now.quoted.events }
    {
        self.books.is_sound();
        let prices = self.books.prices();
        prices.ranges();
        self.books.ledger().equity(prices)
    }

    /// When the last loud quote of any symbol came, in milliseconds; 0 before the first.
    pub fn last_time(&self) -> i64
        ensures { result ≡ last_time self.now.quoted.times }
    {
        self.books.last_time()
    }

    /// The last loud Bid and Ask of each symbol.
    pub fn prices(&self) -> &Prices
        ensures { result.now ≡ self.now.quoted.prices }
    {
        self.books.prices()
    }
}
