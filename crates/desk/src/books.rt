//! A ledger, its positions and its orders, in step.
ghost use Rattle.std.specs.Prelude.{◌≡◌, ◌++◌, ◌∷◌, ◌≤◌, ◌<◌, ◌+◌, ◌^◌, [], length, slice_get, OnOk, OnErr, IfOk, All, None, Some, true, false};
ghost use Rattle.account.specs.declared.event.Event.TheVariants as event;
ghost use Rattle.account.specs.Deals.{deals};
ghost use Rattle.account.specs.Journal.{deposit_deal};
ghost use Rattle.account.specs.Orders.{orders_in_force};
ghost use Rattle.account.specs.Ranges.{IsAccount};
ghost use Rattle.desk.specs.Books.{IsRuleOf, IsFillable, IsPlaceable, IsChangeable, IsPairable, with_more, fill_events, pair_events, gained, Kept};
ghost use Rattle.desk.specs.Effect.{last_time, with_quote};
ghost use Rattle.desk.specs.Quotes.{MayQuote};
ghost use Rattle.desk.specs.State.{most_deals, journal_of};
ghost use Rattle.desk.specs.Sound.{IsSound, AreQuoted, MayEnter};
ghost use Rattle.desk.specs.Tickets.{greater_number, last_order, next_of};

use crate::copies::copy_order;
use crate::quoted::QuotedLedger;
use account::{AccountSpec, Event, Ledger, Order, Prices, RemovalCause};
use fx8::{Fix8, ItemList, Money, OutOfMemory};
use judgement::Next;
use market_types::Quote;
use order_book::Orders;
use positions::{Fill, PositionRule};
use std::alloc::Global;
use std::marker::Model;

/// Fills, and adds the events of that to the journal.
#[tactic(auto, using(crate::proofs::Filling::is_fill, crate::proofs::Filling::may_add_at, crate::proofs::Filling::out_is, crate::proofs::Filling::out_follows, crate::proofs::Filling::goes_on))]
fn fill_into<P: PositionRule>(
    alloc: Global,
    quoted: &mut QuotedLedger,
    rule: &mut P,
    fill: &Fill,
) -> Result<(), OutOfMemory>
    requires rule { IsRuleOf (P.hedging rule.old) (P.specs rule.old) (P.positions rule.old) quoted.old }
    requires fill { IsFillable quoted.old fill.now }
    requires room { length (deals quoted.old.events) < most_deals }
    ensures events { OnOk result (quoted.new ≡ with_more (fill_events fill.now quoted.old) quoted.old) }
    ensures rule { OnOk result
        (IsRuleOf (P.hedging rule.new) (P.specs rule.new) (P.positions rule.new) quoted.new) }
{
    quoted.is_sound();
    let mut out = ItemList::new(alloc);
    if rule.fill(fill, &mut out).is_err() {
        return Err(OutOfMemory);
    }
    quoted.enter_all(out)
}

/// Closes two positions by each other, and adds the deals of that to the journal.
#[tactic(auto, using(crate::proofs::Paired::pair_deal, crate::proofs::Paired::out_is, crate::proofs::Paired::out_follows, crate::proofs::Paired::goes_on))]
fn close_into<P: PositionRule>(
    alloc: Global,
    quoted: &mut QuotedLedger,
    rule: &mut P,
    one: u64,
    other: u64,
    at: &Fill,
) -> Result<(), OutOfMemory>
    requires rule { IsRuleOf (P.hedging rule.old) (P.specs rule.old) (P.positions rule.old) quoted.old }
    requires pair { IsPairable quoted.old one other at.now }
    requires room { length (deals quoted.old.events) + 1 < most_deals }
    ensures events { OnOk result
        (quoted.new ≡ with_more (pair_events one other at.now quoted.old) quoted.old) }
    ensures rule { OnOk result
        (IsRuleOf (P.hedging rule.new) (P.specs rule.new) (P.positions rule.new) quoted.new) }
{
    quoted.is_sound();
    let mut out = ItemList::new(alloc);
    if rule.close_by(one, other, at, &mut out).is_err() {
        return Err(OutOfMemory);
    }
    quoted.enter_all(out)
}

/// The greater of two numbers.
#[tactic(auto, unfolding(crate::specs::Tickets::greater_number))]
fn greater_number(a: u64, b: u64) -> u64
    ensures { result ≡ greater_number a b }
{
    if a < b { b } else { a }
}

/// A ledger, the open positions and the orders in force of it, and the last order ticket. After want of
/// memory they may be out of step: then they are broken for good.
#[derive(Debug, Drop)]
pub(crate) struct Books<P: PositionRule> {
    alloc: Global,
    quoted: QuotedLedger,
    rule: P,
    orders: Orders,
    last: u64,
    broken: bool,
}

impl<P: PositionRule> Model for Books<P> {
    ghost use Rattle.std.specs.Prelude.{◌≡◌, false};
    ghost use Rattle.desk.specs.Books.{IsInStep, Kept};

    ghost Value = { Kept };

    ghost view = { λ b. record { quoted = b.quoted; broken = b.broken } };

    ghost invariant = { λ b. b.broken ≡ false → IsInStep (P.hedging b.rule) (P.specs b.rule)
        (P.positions b.rule) b.orders b.last b.quoted };
}

impl<P: PositionRule + Drop> Books<P> {
    /// The account with its deposit, before any quote.
    #[tactic(auto, using(crate::proofs::Stepping::step_begun))]
    pub(crate) fn start(alloc: Global, spec: AccountSpec, rule: P) -> Result<Books<P>, OutOfMemory>
        requires account { IsAccount spec }
        requires symbols { length spec.specs ≤ 255 }
        requires kind { P.hedging rule ≡ spec.hedging }
        requires specs { P.specs rule ≡ spec.specs }
        requires none { P.positions rule ≡ [] }
        ensures whole { IfOk result (λ b. b.broken ≡ false) }
        ensures spec { IfOk result (λ b. b.quoted.spec ≡ spec) }
        ensures events { IfOk result (λ b. b.quoted.events ≡ event.Added (deposit_deal spec) ∷ []) }
        ensures prices { IfOk result (λ b. All (λ pair. pair ≡ None) b.quoted.prices) }
        ensures times { IfOk result (λ b. All (λ time. time ≡ None) b.quoted.times) }
    {
        let quoted = QuotedLedger::start(alloc, spec)?;
        Ok(Books {
            alloc,
            quoted,
            rule,
            orders: Orders::new(alloc),
            last: 0,
            broken: false,
        })
    }

    /// The numbers of the journal stay within their types.
    pub(crate) fn is_sound(&self)
        ensures sound { IsSound self.now.quoted.spec self.now.quoted.prices self.now.quoted.times
            self.now.quoted.events }
        ensures quoted { AreQuoted self.now.quoted.spec self.now.quoted.prices self.now.quoted.times }
    {
        self.quoted.is_sound()
    }

    pub(crate) fn alloc(&self) -> Global {
        self.alloc
    }

    pub(crate) fn ledger(&self) -> &Ledger
        ensures { result.now ≡ journal_of self.now.quoted }
    {
        self.quoted.ledger()
    }

    pub(crate) fn prices(&self) -> &Prices
        ensures { result.now ≡ self.now.quoted.prices }
    {
        self.quoted.prices()
    }

    /// The orders in force.
    pub(crate) fn orders(&self) -> &Orders
        requires { self.now.broken ≡ false }
        ensures { result.now ≡ orders_in_force self.now.quoted.events }
    {
        &self.orders
    }

    /// The open positions.
    pub(crate) fn rule(&self) -> &P
        requires { self.now.broken ≡ false }
        ensures { IsRuleOf (P.hedging result.now) (P.specs result.now) (P.positions result.now)
            self.now.quoted }
    {
        &self.rule
    }

    /// When the last loud quote of a symbol came.
    pub(crate) fn time_of(&self, symbol: u8) -> Option<i64>
        requires { symbol < length self.now.quoted.spec.specs }
        ensures { slice_get self.now.quoted.times symbol ≡ Some result }
    {
        self.quoted.time_of(symbol)
    }

    /// When the last loud quote came, 0 before the first.
    pub(crate) fn last_time(&self) -> i64
        ensures { result ≡ last_time self.now.quoted.times }
    {
        self.quoted.last_time()
    }

    /// The prices and the time of a loud quote stand from then on.
    #[tactic(auto, using(crate::proofs::Stepping::step_quoted))]
    pub(crate) fn set_quote(&mut self, quote: &Quote)
        requires { MayQuote self.old.quoted quote.now }
        ensures { self.new ≡ record self.old { quoted = with_quote quote.now self.old.quoted } }
    {
        self.quoted.set_quote(quote);
    }

    /// How many deals there are.
    pub(crate) fn deals(&self) -> u64
        ensures { result ≡ length (deals self.now.quoted.events) }
    {
        self.quoted.ledger().deals().len()
    }

    /// The tickets that come next.
    pub(crate) fn next(&self) -> Next
        requires whole { self.now.broken ≡ false }
        requires small { last_order self.now.quoted.events < 2 ^ 63 }
        ensures { result ≡ next_of self.now.quoted.events }
    {
        self.quoted.is_sound();
        Next {
            order: self.last + 1,
            deal: self.deals() + 1,
        }
    }

    /// Fills.
    #[tactic(auto, using(crate::proofs::Stepping::step_filled))]
    pub(crate) fn deal(&mut self, fill: &Fill) -> Result<(), OutOfMemory>
        requires whole { self.old.broken ≡ false }
        requires fill { IsFillable self.old.quoted fill.now }
        requires room { length (deals self.old.quoted.events) < most_deals }
        ensures ok { OnOk result (self.new ≡ gained (fill_events fill.now self.old.quoted) self.old) }
        ensures err { OnErr result (self.new.broken ≡ true) }
    {
        self.broken = true;
        fill_into(self.alloc, &mut self.quoted, &mut self.rule, fill)?;
        self.last = greater_number(self.last, fill.order);
        self.broken = false;
        Ok(())
    }

    /// Closes two positions by each other.
    #[tactic(auto, using(crate::proofs::Paired::step_paired))]
    pub(crate) fn close_by(&mut self, one: u64, other: u64, at: &Fill) -> Result<(), OutOfMemory>
        requires whole { self.old.broken ≡ false }
        requires pair { IsPairable self.old.quoted one other at.now }
        requires room { length (deals self.old.quoted.events) + 1 < most_deals }
        ensures ok { OnOk result (self.new ≡ gained (pair_events one other at.now self.old.quoted) self.old) }
        ensures err { OnErr result (self.new.broken ≡ true) }
    {
        self.broken = true;
        close_into(self.alloc, &mut self.quoted, &mut self.rule, one, other, at)?;
        self.last = greater_number(self.last, at.order);
        self.broken = false;
        Ok(())
    }

    /// There is no memory: nothing more is done.
    pub(crate) fn close(&mut self)
        ensures { self.new ≡ record self.old { broken = true } }
    {
        self.broken = true;
    }

    /// Places an order of a new ticket.
    #[tactic(auto, using(crate::proofs::Stepping::step_one))]
    pub(crate) fn place(&mut self, order: Order) -> Result<(), OutOfMemory>
        requires whole { self.old.broken ≡ false }
        requires order { IsPlaceable self.old.quoted order }
        ensures ok { OnOk result (self.new ≡ gained (event.Placed order ∷ []) self.old) }
        ensures err { OnErr result (self.new.broken ≡ true) }
    {
        self.broken = true;
        let ticket = order.ticket;
        let copy = copy_order(self.alloc, &order)?;
        if self.orders.place(copy).is_err() {
            return Err(OutOfMemory);
        }
        self.quoted.enter(Event::Placed(order))?;
        self.last = greater_number(self.last, ticket);
        self.broken = false;
        Ok(())
    }

    /// Changes an order.
    #[tactic(auto, using(crate::proofs::Stepping::step_quiet))]
    pub(crate) fn change(&mut self, order: Order) -> Result<(), OutOfMemory>
        requires whole { self.old.broken ≡ false }
        requires order { IsChangeable self.old.quoted order }
        ensures ok { OnOk result (self.new ≡ gained (event.Modified order ∷ []) self.old) }
        ensures err { OnErr result (self.new.broken ≡ true) }
    {
        self.broken = true;
        if self.orders.modify(&order).is_err() {
            return Err(OutOfMemory);
        }
        self.quoted.enter(Event::Modified(order))?;
        self.broken = false;
        Ok(())
    }

    /// Removes an order.
    #[tactic(auto, using(crate::proofs::Stepping::step_quiet))]
    pub(crate) fn remove(&mut self, ticket: u64, cause: RemovalCause) -> Result<(), OutOfMemory>
        requires whole { self.old.broken ≡ false }
        ensures ok { OnOk result (self.new ≡ gained (event.Removed ticket cause ∷ []) self.old) }
        ensures err { OnErr result (self.new.broken ≡ true) }
    {
        self.broken = true;
        let _order = self.orders.remove(ticket);
        self.quoted.enter(Event::Removed { ticket, cause })?;
        self.broken = false;
        Ok(())
    }

    /// Makes a stop-limit order a limit order.
    #[tactic(auto, using(crate::proofs::Stepping::step_quiet))]
    pub(crate) fn trigger(&mut self, ticket: u64) -> Result<(), OutOfMemory>
        requires whole { self.old.broken ≡ false }
        ensures ok { OnOk result (self.new ≡ gained (event.Triggered ticket ∷ []) self.old) }
        ensures err { OnErr result (self.new.broken ≡ true) }
    {
        self.broken = true;
        let _stands = self.orders.trigger(ticket);
        self.quoted.enter(Event::Triggered(ticket))?;
        self.broken = false;
        Ok(())
    }

    /// Sets the stops of a position.
    #[tactic(auto, using(crate::proofs::Stepping::step_quiet))]
    pub(crate) fn set_stops(&mut self, ticket: u64, sl: Fix8, tp: Fix8) -> Result<(), OutOfMemory>
        requires whole { self.old.broken ≡ false }
        ensures ok { OnOk result (self.new ≡ gained (event.Stops ticket sl tp ∷ []) self.old) }
        ensures err { OnErr result (self.new.broken ≡ true) }
    {
        self.broken = true;
        let _open = self.rule.set_stops(ticket, sl, tp);
        self.quoted.enter(Event::Stops { ticket, sl, tp })?;
        self.broken = false;
        Ok(())
    }

    /// A position accrues swap.
    #[tactic(auto, using(crate::proofs::Stepping::step_quiet, crate::proofs::Accrued::may_accrue))]
    pub(crate) fn add_swap(&mut self, ticket: u64, amount: Money) -> Result<(), OutOfMemory>
        requires whole { self.old.broken ≡ false }
        requires may { MayEnter self.old.quoted.spec self.old.quoted.prices self.old.quoted.times
            self.old.quoted.events (event.Swap ticket amount) }
        ensures ok { OnOk result (self.new ≡ gained (event.Swap ticket amount ∷ []) self.old) }
        ensures err { OnErr result (self.new.broken ≡ true) }
    {
        self.broken = true;
        self.quoted.is_sound();
        let _open = self.rule.add_swap(ticket, amount);
        self.quoted.enter(Event::Swap { ticket, amount })?;
        self.broken = false;
        Ok(())
    }
}
