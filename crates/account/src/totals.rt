//! The totals that a ledger keeps.
ghost use Rattle.std.specs.Prelude.{◌≡◌, ◌<◌, ◌^◌, [], pos, ◌+ℤ◌, ◌-ℤ◌, FitsSigned};
ghost use Rattle.std.specs.Int.{w128};
ghost use Rattle.account.specs.Deals.{net};
ghost use Rattle.account.specs.Statistics.{gain, loss, closes, is_trade, is_profit_trade, is_loss_trade, greater, statistics};
ghost use Rattle.account.specs.Totals.{totals_of, counted, balance_after, highest_after, fall_after, stats_after, totals_after, FitsAfter};

use crate::{Deal, DealEntry, Stats};
use fx8::Money;

/// Totals of the deals so far.
#[derive(Clone, Copy, Debug)]
pub(crate) struct Totals {
    /// The balance.
    pub(crate) balance: Money,
    /// The highest balance so far, from the deposit on.
    pub(crate) highest: Money,
    /// The statistics, with an `equity_dd` of 0.
    pub(crate) stats: Stats,
}

/// The totals of no deals after a deposit.
pub(crate) fn totals_of_deposit(deposit: Money) -> Totals
    ensures { result ≡ totals_of deposit [] }
{
    let none = Money::of_cents(0);
    Totals {
        balance: deposit,
        highest: deposit,
        stats: Stats {
            initial_deposit: deposit,
            profit: none,
            gross_profit: none,
            gross_loss: none,
            deals: 0,
            trades: 0,
            profit_trades: 0,
            loss_trades: 0,
            balance_dd: none,
            equity_dd: none,
        },
    }
}

/// What a deal adds to the balance: profit, swap and commission. The sum is to fit 128 bits; what wraps on the way
/// comes back.
#[tactic(auto, unfolding(crate::specs::Deals::net))]
pub fn net(deal: &Deal) -> Money
    requires { FitsSigned w128 (net deal.now) }
    ensures { result ≡ net deal.now }
{
    let sum = deal.profit.cents().wrapping_add(deal.swap.cents());
    Money::of_cents(sum.wrapping_add(deal.commission.cents()))
}

/// A sum of amounts.
pub(crate) fn plus(one: Money, other: Money) -> Money
    requires { FitsSigned w128 (one +ℤ other) }
    ensures { result ≡ one +ℤ other }
{
    Money::of_cents(one.cents() + other.cents())
}

/// An amount less another.
fn less(one: Money, other: Money) -> Money
    requires { FitsSigned w128 (one -ℤ other) }
    ensures { result ≡ one -ℤ other }
{
    Money::of_cents(one.cents() - other.cents())
}

/// The greater of two amounts.
#[tactic(auto, unfolding(crate::specs::Statistics::greater))]
pub(crate) fn greater(one: Money, other: Money) -> Money
    ensures { result ≡ greater one other }
{
    if one < other { other } else { one }
}

/// The net of a deal where it is above 0, else 0.
#[tactic(auto, unfolding(crate::specs::Statistics::gain))]
fn gain(deal: &Deal) -> Money
    requires { FitsSigned w128 (net deal.now) }
    ensures { result ≡ gain deal.now }
{
    let net = net(deal);
    let none = Money::of_cents(0);
    if none < net { net } else { none }
}

/// The net of a deal where it is below 0, else 0.
#[tactic(auto, unfolding(crate::specs::Statistics::loss))]
fn loss(deal: &Deal) -> Money
    requires { FitsSigned w128 (net deal.now) }
    ensures { result ≡ loss deal.now }
{
    let net = net(deal);
    let none = Money::of_cents(0);
    if net < none { net } else { none }
}

/// Whether a deal closed a position, or a part of it.
fn closes(entry: DealEntry) -> bool
    ensures { result ≡ closes entry }
{
    match entry {
        DealEntry::In => false,
        DealEntry::Out | DealEntry::InOut | DealEntry::OutBy => true,
    }
}

/// Whether a deal is a trade with a net above 0.
#[tactic(auto, unfolding(crate::specs::Statistics::is_profit_trade))]
fn is_profit_trade(deal: &Deal) -> bool
    requires { FitsSigned w128 (net deal.now) }
    ensures { result ≡ is_profit_trade deal.now }
{
    if closes(deal.entry) {
        Money::of_cents(0) < net(deal)
    } else {
        false
    }
}

/// Whether a deal is a trade with a net below 0.
#[tactic(auto, unfolding(crate::specs::Statistics::is_loss_trade))]
fn is_loss_trade(deal: &Deal) -> bool
    requires { FitsSigned w128 (net deal.now) }
    ensures { result ≡ is_loss_trade deal.now }
{
    if closes(deal.entry) {
        net(deal) < Money::of_cents(0)
    } else {
        false
    }
}

/// One more where the test holds.
fn counted(test: bool, n: u32) -> u32
    requires { n < 2 ^ 31 }
    ensures { result ≡ counted test n }
{
    if test { n + 1 } else { n }
}

/// The balance after a deal.
fn balance_after(totals: &Totals, deal: &Deal) -> Money
    requires { FitsAfter totals.now deal.now }
    ensures { result ≡ balance_after totals.now deal.now }
{
    plus(totals.balance, net(deal))
}

/// The highest balance so far, after a deal.
fn highest_after(totals: &Totals, deal: &Deal) -> Money
    requires { FitsAfter totals.now deal.now }
    ensures { result ≡ highest_after totals.now deal.now }
{
    greater(totals.highest, balance_after(totals, deal))
}

/// How far the balance is below its highest after a deal.
fn fall_after(totals: &Totals, deal: &Deal) -> Money
    requires { FitsAfter totals.now deal.now }
    ensures { result ≡ fall_after totals.now deal.now }
{
    less(highest_after(totals, deal), balance_after(totals, deal))
}

/// The statistics after a deal.
fn stats_after(totals: &Totals, deal: &Deal) -> Stats
    requires { FitsAfter totals.now deal.now }
    ensures { result ≡ stats_after totals.now deal.now }
{
    let mut stats = totals.stats;
    stats.profit = plus(totals.stats.profit, net(deal));
    stats.gross_profit = plus(totals.stats.gross_profit, gain(deal));
    stats.gross_loss = plus(totals.stats.gross_loss, loss(deal));
    stats.deals = totals.stats.deals + 1;
    stats.trades = counted(closes(deal.entry), totals.stats.trades);
    stats.profit_trades = counted(is_profit_trade(deal), totals.stats.profit_trades);
    stats.loss_trades = counted(is_loss_trade(deal), totals.stats.loss_trades);
    stats.balance_dd = greater(totals.stats.balance_dd, fall_after(totals, deal));
    stats
}

/// The totals after a deal.
pub(crate) fn totals_after(totals: &Totals, deal: &Deal) -> Totals
    requires { FitsAfter totals.now deal.now }
    ensures { result ≡ totals_after totals.now deal.now }
{
    let balance = balance_after(totals, deal);
    let highest = highest_after(totals, deal);
    let stats = stats_after(totals, deal);
    Totals {
        balance,
        highest,
        stats,
    }
}
