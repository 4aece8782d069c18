//! The ledger.
ghost use Rattle.std.specs.Prelude.{◌≡◌, ◌<◌, ◌≤◌, ◌++◌, ◌∷◌, [], true, false, None, OnOk, OnErr, IfOk, Result, List, pos, ◌+ℤ◌, FitsSigned, nat_le, length, All};
ghost use Rattle.std.specs.Int.{w128};
ghost use Rattle.std.specs.Vec.{vec_len, vec_capacity};
ghost use Rattle.account.specs.Deals.{deal_of, deals, trading_deals, balance, total, profit_of, swap_of, commission_of};
ghost use Rattle.account.specs.Positions.{open_positions, positions_after, position_ticket};
ghost use Rattle.account.specs.Keyed.{Rising};
ghost use Rattle.account.specs.Statistics.{stats};
ghost use Rattle.account.specs.Totals.{FitsAfter};
ghost use Rattle.account.specs.Ranges.{IsAccount, IsHeld, IsEventOf, IsPriced, IsWithin, KeepsTypes};
ghost use Rattle.account.specs.StopOut.{equity, margin_of, worst};
ghost use Rattle.account.specs.Journal.{deposit_deal};
ghost use Rattle.account.specs.Books.{IsBooks, Answers, is_full};
ghost use Rattle.account.specs.declared.event.Event.TheVariants as event;

use crate::copies::copy_deal;
use crate::floating::equity_of;
use crate::margins::margin_by;
use crate::open_positions::{apply_deal, apply_stops, apply_swap};
use crate::stop_out::{is_due, least};
use crate::totals::{Totals, totals_after, totals_of_deposit};
use crate::{
    AccountSpec, Deal, DealEntry, DealKind, DealList, DealReason, Event, Position, Prices, Stats,
};
use fx8::{Fix8, ItemList, Money, OutOfMemory};
use std::alloc::Global;
use std::marker::Model;

/// Why an event is not added.
#[derive(Clone, Copy, Debug, PartialEq, Eq)]
pub enum LedgerFault {
    /// The event is a deal, and 50,000 deals stand.
    DealsExhausted,
    /// There is no memory.
    OutOfMemory,
}

impl From<OutOfMemory> for LedgerFault {
    fn from(_error: OutOfMemory) -> LedgerFault {
        LedgerFault::OutOfMemory
    }
}

/// What the ledger keeps of the events.
#[derive(Debug, Drop)]
pub(crate) struct Books {
    events: Vec<Event>,
    deals: DealList,
    positions: Vec<Position>,
    totals: Totals,
}

/// The deposit.
fn deposit_deal(alloc: Global, spec: &AccountSpec) -> Deal
    ensures { result ≡ deposit_deal spec.now }
{
    let none = Fix8::of_units(0);
    let nothing = Money::of_cents(0);
    Deal {
        ticket: 1,
        order: 0,
        position: 0,
        time_ms: 0,
        symbol: 0,
        kind: DealKind::Balance,
        entry: DealEntry::In,
        volume: none,
        price: none,
        profit: spec.deposit,
        swap: nothing,
        commission: nothing,
        magic: 0,
        reason: DealReason::Client,
        comment: ItemList::new(alloc),
    }
}

/// Adds an event where there is room.
fn push_event(events: &mut Vec<Event>, event: Event)
    requires { vec_len events.old < vec_capacity events.old }
    ensures { events.new.items ≡ events.old.items ++ event ∷ [] }
{
    let _done = events.push(event);
}

/// Whether the deal may not be added, since 50,000 stand.
#[tactic(auto, unfolding(crate::specs::Books::is_full))]
fn is_full(books: &Books, spec: &AccountSpec, deal: &Deal) -> bool
    requires { IsBooks spec.now books.now }
    ensures value { result ≡ is_full books.now.events.items (event.Added deal.now) }
    ensures room { result ≡ false → length (deals books.now.events.items) < 50000 }
{
    books.deals.len() >= 50_000
}

/// Adds a deal to what is kept. A refused call changes no list.
fn add_deal(
    books: &mut Books,
    spec: &AccountSpec,
    alloc: Global,
    deal: Deal,
) -> Result<(), LedgerFault>
    requires books { IsBooks spec.now books.old }
    requires types { KeepsTypes (open_positions books.old.events.items) (event.Added deal) }
    requires within { IsWithin spec.now (books.old.events.items ++ event.Added deal ∷ []) }
    ensures answers { Answers books.old.events.items (event.Added deal) result }
    ensures ok { OnOk result (books.new.events.items ≡ books.old.events.items ++ event.Added deal ∷ []) }
    ensures err { OnErr result (books.new.events.items ≡ books.old.events.items) }
    ensures books { IsBooks spec.now books.new }
{
    if is_full(books, spec, &deal) {
        return Err(LedgerFault::DealsExhausted);
    }
    let Ok(listed) = copy_deal(alloc, &deal) else {
        return Err(LedgerFault::OutOfMemory);
    };
    let Ok(opening) = copy_deal(alloc, &deal) else {
        return Err(LedgerFault::OutOfMemory);
    };
    if books.events.reserve(1).is_err() {
        return Err(LedgerFault::OutOfMemory);
    }
    if books.positions.reserve(1).is_err() {
        return Err(LedgerFault::OutOfMemory);
    }
    if books.deals.push(listed).is_err() {
        return Err(LedgerFault::OutOfMemory);
    }
    books.totals = totals_after(&books.totals, &deal);
    apply_deal(&mut books.positions, opening);
    push_event(&mut books.events, Event::Added(deal));
    Ok(())
}

/// Adds an event that is no deal to what is kept. A refused call changes nothing.
fn add_other(books: &mut Books, spec: &AccountSpec, event: Event) -> Result<(), LedgerFault>
    requires books { IsBooks spec.now books.old }
    requires other { deal_of event ≡ None }
    requires types { KeepsTypes (open_positions books.old.events.items) event }
    requires within { IsWithin spec.now (books.old.events.items ++ event ∷ []) }
    ensures answers { Answers books.old.events.items event result }
    ensures ok { OnOk result (books.new.events.items ≡ books.old.events.items ++ event ∷ []) }
    ensures err { OnErr result (books.new.events.items ≡ books.old.events.items) }
    ensures books { IsBooks spec.now books.new }
{
    if books.events.reserve(1).is_err() {
        return Err(LedgerFault::OutOfMemory);
    }
    apply_other(&mut books.positions, &event);
    push_event(&mut books.events, event);
    Ok(())
}

/// What an event that is no deal makes of open positions.
fn apply_other(positions: &mut Vec<Position>, event: &Event)
    requires rising { Rising position_ticket positions.old.items }
    requires other { deal_of event.now ≡ None }
    requires types { KeepsTypes positions.old.items event.now }
    ensures { positions.new.items ≡ positions_after positions.old.items event.now }
{
    match event {
        Event::Stops { ticket, sl, tp } => {
            let _open = apply_stops(positions, *ticket, *sl, *tp);
        }
        Event::Swap { ticket, amount } => {
            let _open = apply_swap(positions, *ticket, *amount);
        }
        Event::Added(_) => {}
        Event::Placed(_) | Event::Modified(_) | Event::Removed { .. } | Event::Triggered(_) => {}
    }
}

/// Adds an event to what is kept. A refused call changes no list.
fn add(
    books: &mut Books,
    spec: &AccountSpec,
    alloc: Global,
    event: Event,
) -> Result<(), LedgerFault>
    requires books { IsBooks spec.now books.old }
    requires types { KeepsTypes (open_positions books.old.events.items) event }
    requires within { IsWithin spec.now (books.old.events.items ++ event ∷ []) }
    ensures answers { Answers books.old.events.items event result }
    ensures ok { OnOk result (books.new.events.items ≡ books.old.events.items ++ event ∷ []) }
    ensures err { OnErr result (books.new.events.items ≡ books.old.events.items) }
    ensures books { IsBooks spec.now books.new }
{
    match event {
        Event::Added(deal) => add_deal(books, spec, alloc, deal),
        other => add_other(books, spec, other),
    }
}

/// The equity: the balance and all floating profits.
fn equity(books: &Books, spec: &AccountSpec, prices: &Prices) -> Money
    requires account { IsAccount spec.now }
    requires books { IsBooks spec.now books.now }
    requires priced { IsPriced spec.now prices.now books.now.events.items }
    ensures { result ≡ equity spec.now.specs prices.now books.now.events.items }
{
    equity_of(
        &spec.specs,
        prices,
        books.totals.balance,
        books.positions.as_slice(),
    )
}

/// What the open positions bind.
fn margin(books: &Books, spec: &AccountSpec) -> Money
    requires account { IsAccount spec.now }
    requires books { IsBooks spec.now books.now }
    ensures { result ≡ margin_of spec.now books.now.events.items }
{
    margin_by(spec, books.positions.as_slice())
}

/// The position that stop-out closes, where one is due.
fn worst(books: &Books, spec: &AccountSpec, prices: &Prices) -> Option<u64>
    requires account { IsAccount spec.now }
    requires books { IsBooks spec.now books.now }
    requires priced { IsPriced spec.now prices.now books.now.events.items }
    ensures { result ≡ worst spec.now prices.now books.now.events.items }
{
    let equity = equity(books, spec, prices);
    if !is_due(spec.stop_out, equity, margin(books, spec)) {
        return None;
    }
    match least(&spec.specs, prices, books.positions.as_slice()) {
        Some(position) => Some(position.ticket),
        None => None,
    }
}

/// What a ledger keeps of the deposit alone.
fn books_of_deposit(alloc: Global, spec: &AccountSpec) -> Result<Books, OutOfMemory>
    ensures { IfOk result (λ books. IsBooks spec.now books
        × (books.events.items ≡ event.Added (deposit_deal spec.now) ∷ [])) }
{
    let mut events = Vec::new(alloc);
    let mut deals = ItemList::new(alloc);
    events.push(Event::Added(deposit_deal(alloc, spec)))?;
    deals.push(deposit_deal(alloc, spec))?;
    Ok(Books {
        events,
        deals,
        positions: Vec::new(alloc),
        totals: totals_of_deposit(spec.deposit),
    })
}

/// The list of what happened to an account. Contracts see what the account is and its events, of which the
/// first is the deposit; every reading is one of that list.
#[derive(Debug, Drop)]
pub struct Ledger {
    alloc: Global,
    spec: AccountSpec,
    books: Books,
}

impl Model for Ledger {
    ghost use Rattle.account.specs.Journal.{Journal};
    ghost use Rattle.account.specs.Books.{IsBooks};
    ghost use Rattle.account.specs.Ranges.{IsAccount};

    ghost Value = { Journal };

    ghost view = { λ ledger. record { spec = ledger.spec; events = ledger.books.events.items } };

    ghost invariant = { λ ledger. IsAccount ledger.spec × IsBooks ledger.spec ledger.books };
}

impl Ledger {
    /// The ledger of an account to which nothing happened but the deposit, deal 1.
    pub fn start(alloc: Global, spec: AccountSpec) -> Result<Ledger, OutOfMemory>
        requires { IsAccount spec }
        ensures { IfOk result (λ ledger. ledger
            ≡ record { spec = spec; events = event.Added (deposit_deal spec) ∷ [] }) }
    {
        let books = books_of_deposit(alloc, &spec)?;
        Ok(Ledger { alloc, spec, books })
    }

    /// Adds an event: `DealsExhausted` exactly where it is a deal and 50,000 deals stand. A refused call adds
    /// no event.
    pub fn add(&mut self, event: Event) -> Result<(), LedgerFault>
        requires symbols { IsEventOf self.old.spec (open_positions self.old.events) event }
        requires types { KeepsTypes (open_positions self.old.events) event }
        requires within { IsWithin self.old.spec (self.old.events ++ event ∷ []) }
        ensures answers { Answers self.old.events event result }
        ensures same_account { self.new.spec ≡ self.old.spec }
        ensures ok { OnOk result (self.new.events ≡ self.old.events ++ event ∷ []) }
        ensures refused_adds_none { OnErr result (self.new.events ≡ self.old.events) }
    {
        add(&mut self.books, &self.spec, self.alloc, event)
    }

    /// What the account is: its numbers are within their ranges.
    pub fn spec(&self) -> &AccountSpec
        ensures value { result.now ≡ self.now.spec }
        ensures ranges { IsAccount self.now.spec }
    {
        &self.spec
    }

    /// The open positions, by rising ticket.
    pub fn positions(&self) -> &[Position]
        ensures value { result.now ≡ open_positions self.now.events }
        ensures rising { Rising position_ticket (open_positions self.now.events) }
        ensures held { All IsHeld (open_positions self.now.events) }
        ensures few { length (open_positions self.now.events) ≤ 50000 }
    {
        self.books.positions.as_slice()
    }

    /// The deals, of which the first is the deposit.
    pub fn deals(&self) -> &DealList
        ensures { result.now ≡ deals self.now.events }
    {
        &self.books.deals
    }

    /// The balance: the deposit and all profits, swaps and commissions, exactly.
    pub fn balance(&self) -> Money
        ensures value { result ≡ balance self.now.events }
        ensures deposit_and_sums { result ≡ self.now.spec.deposit
            +ℤ (total profit_of (trading_deals self.now.events)
            +ℤ total swap_of (trading_deals self.now.events)
            +ℤ total commission_of (trading_deals self.now.events)) }
    {
        self.books.totals.balance
    }

    /// The equity: the balance and all floating profits, at the last loud Bid for a buy and Ask for a sell
    /// (MetaTrader 5 Help, Margin Calculation).
    pub fn equity(&self, prices: &Prices) -> Money
        requires { IsPriced self.now.spec prices.now self.now.events }
        ensures { result ≡ equity self.now.spec.specs prices.now self.now.events }
    {
        equity(&self.books, &self.spec, prices)
    }

    /// What the open positions bind: under hedging, of each symbol the greater of the sums of both sides
    /// (MetaTrader 5 Help, Margin Calculation).
    pub fn margin(&self) -> Money
        ensures { result ≡ margin_of self.now.spec self.now.events }
    {
        margin(&self.books, &self.spec)
    }

    /// The ticket of the position that stop-out closes, that of least floating profit and at a tie of the
    /// lowest ticket; `None` exactly where stop-out closes nothing (MetaTrader 5 Help, Stop Out).
    pub fn worst(&self, prices: &Prices) -> Option<u64>
        requires { IsPriced self.now.spec prices.now self.now.events }
        ensures { result ≡ worst self.now.spec prices.now self.now.events }
    {
        worst(&self.books, &self.spec, prices)
    }

    /// The statistics (MQL5 Reference, ENUM_STATISTICS), with this greatest fall of the equity.
    pub fn stats(&self, equity_dd: Money) -> Stats
        ensures { result ≡ stats self.now.spec.deposit self.now.events equity_dd }
    {
        with_equity_dd(self.books.totals.stats, equity_dd)
    }
}

/// The statistics with another greatest fall of the equity.
fn with_equity_dd(stats: Stats, equity_dd: Money) -> Stats
    ensures { result ≡ record stats { equity_dd = equity_dd } }
{
    let mut stats = stats;
    stats.equity_dd = equity_dd;
    stats
}
