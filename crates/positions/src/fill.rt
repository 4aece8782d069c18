//! Fills, and the deals that they make.

ghost use Rattle.std.specs.Prelude.{◌≡◌, ◌<◌, ◌≤◌, ◌^◌, length, slice_get, Some, IfSome, IfOk, All, pos, ◌≤ℤ◌, ◌<ℤ◌};
ghost use Rattle.std.specs.Option.{option_copied};
ghost use Rattle.market_types.specs.Ranges.{IsSpec};
ghost use Rattle.account.specs.Ranges.{IsHeld};
ghost use Rattle.account.specs.StopOut.{contract_of};
ghost use Rattle.positions.specs.Fills.{rate_of, kind_of, plain, closing, swap_paid, entry_of, closed, deal_on, given_or, levels_at, levels_of};

use account::{
    Deal, DealEntry, DealKind, DealReason, Position, commission, copy_text, portion, profit,
    same_side,
};
use fx8::{Fix8, Money, OutOfMemory, Text};
use market_types::{Specs, SymbolSpec};
use std::alloc::Global;

/// An order that is filled, or a request to deal.
#[derive(Debug, Drop)]
pub struct Fill {
    /// The order's ticket, 0 where there is none.
    pub order: u64,
    /// The ticket of the position that is named, 0 where none is.
    pub position: u64,
    /// The number of its deal.
    pub deal: u64,
    /// When it is filled, in milliseconds since 1970-01-01 00:00.
    pub time_ms: i64,
    /// The symbol's place in the account's list.
    pub symbol: u8,
    /// Whether it buys; otherwise it sells.
    pub buy: bool,
    /// How much is dealt, in lots: above 0.
    pub volume: Fix8,
    pub price: Fix8,
    /// The stop loss, 0 for none.
    pub sl: Fix8,
    /// The take profit, 0 for none.
    pub tp: Fix8,
    /// The expert's number.
    pub magic: u64,
    pub reason: DealReason,
    pub comment: Text,
}

/// Why a fill is refused (MQL5 Reference, Trade Server Return Codes).
#[derive(Clone, Copy, Debug, PartialEq, Eq)]
pub enum FillFault {
    /// The named position is not open on the symbol (TRADE_RETCODE_POSITION_CLOSED).
    PositionClosed,
    /// Under hedging, the named position is on the side of the fill; or a close-by is asked for two positions
    /// that are not opposite, or under netting (TRADE_RETCODE_INVALID).
    WrongSide,
    /// Under hedging, the volume is above that of the named position (TRADE_RETCODE_INVALID_CLOSE_VOLUME).
    TooMuch,
    /// There is no memory.
    OutOfMemory,
}

/// The prices at which a position is to be closed, 0 for none.
#[derive(Clone, Copy, Debug, PartialEq, Eq)]
pub struct Levels {
    pub sl: Fix8,
    pub tp: Fix8,
}

/// The kind of a deal that buys, or sells.
fn kind_of(buy: bool) -> DealKind
    ensures { result ≡ kind_of buy }
{
    if buy { DealKind::Buy } else { DealKind::Sell }
}

/// The numbers of a symbol; `None` where it is not one of the list.
pub fn spec_at(specs: &Specs, symbol: u8) -> Option<&SymbolSpec>
    ensures { option_copied result ≡ slice_get specs.now symbol }
{
    specs.as_slice().get(symbol as usize)
}

/// What a deal of a lot of a symbol costs.
fn rate_of(specs: &Specs, symbol: u8) -> Money
    requires specs { All IsSpec specs.now }
    ensures value { result ≡ rate_of specs.now symbol }
    ensures from { pos 0 ≤ℤ result }
    ensures to { result ≤ℤ pos (10 ^ 8) }
{
    match spec_at(specs, symbol) {
        Some(spec) => spec.commission,
        None => Money::of_cents(0),
    }
}

/// How many units of the base currency a lot of a symbol has.
fn contract_of(specs: &Specs, symbol: u8) -> u32
    requires specs { All IsSpec specs.now }
    ensures value { result ≡ contract_of specs.now symbol }
    ensures most { result ≤ 10 ^ 6 }
{
    match spec_at(specs, symbol) {
        Some(spec) => spec.contract,
        None => 0,
    }
}

/// A deal of a fill, which gains and pays nothing.
fn deal_of(
    fill: &Fill,
    position: u64,
    kind: DealKind,
    entry: DealEntry,
    commission: Money,
    comment: Text,
) -> Deal
    ensures { result ≡ record {
      ticket = fill.now.deal;
      order = fill.now.order;
      position = position;
      time_ms = fill.now.time_ms;
      symbol = fill.now.symbol;
      kind = kind;
      entry = entry;
      volume = fill.now.volume;
      price = fill.now.price;
      profit = pos 0;
      swap = pos 0;
      commission = commission;
      magic = fill.now.magic;
      reason = fill.now.reason;
      comment = comment;
    } }
{
    let nothing = Money::of_cents(0);
    Deal {
        ticket: fill.deal,
        order: fill.order,
        position,
        time_ms: fill.time_ms,
        symbol: fill.symbol,
        kind,
        entry,
        volume: fill.volume,
        price: fill.price,
        profit: nothing,
        swap: nothing,
        commission,
        magic: fill.magic,
        reason: fill.reason,
        comment,
    }
}

/// A deal that closes nothing.
fn plain(specs: &Specs, fill: &Fill, position: u64, entry: DealEntry, comment: Text) -> Deal
    requires specs { All IsSpec specs.now }
    requires comment { comment ≡ fill.now.comment }
    ensures { result ≡ plain specs.now fill.now position entry }
{
    let rate = rate_of(specs, fill.symbol);
    let cost = commission(rate, fill.volume);
    deal_of(fill, position, kind_of(fill.buy), entry, cost, comment)
}

/// How much of a position a fill on the other side closes.
fn closing(fill: &Fill, position: &Position) -> Fix8
    requires some { pos 0 <ℤ fill.now.volume }
    requires held { pos 0 <ℤ position.now.volume }
    ensures value { result ≡ closing fill.now position.now }
    ensures some { pos 0 ≤ℤ result }
{
    if fill.volume < position.volume {
        fill.volume
    } else {
        position.volume
    }
}

/// The accrued swap that a fill on the other side pays.
fn swap_paid(fill: &Fill, position: &Position) -> Money
    requires some { pos 0 <ℤ fill.now.volume }
    ensures { result ≡ swap_paid fill.now position.now }
{
    if fill.volume < position.volume {
        portion(position.swap, fill.volume, position.volume)
    } else {
        position.swap
    }
}

/// What a fill on the other side does to a position.
fn entry_of(fill: &Fill, position: &Position) -> DealEntry
    ensures { result ≡ entry_of fill.now position.now }
{
    if position.volume < fill.volume {
        DealEntry::InOut
    } else {
        DealEntry::Out
    }
}

/// The deal with a profit and paid swap.
fn paying(deal: Deal, profit: Money, swap: Money) -> Deal
    ensures { result ≡ record deal { profit = profit; swap = swap } }
{
    let mut deal = deal;
    deal.profit = profit;
    deal.swap = swap;
    deal
}

/// A deal that closes a position, a part of it, or reverses it.
pub fn closed(specs: &Specs, fill: &Fill, position: &Position, comment: Text) -> Deal
    requires specs { All IsSpec specs.now }
    requires some { pos 0 <ℤ fill.now.volume }
    requires held { pos 0 <ℤ position.now.volume }
    requires comment { comment ≡ fill.now.comment }
    ensures { result ≡ closed specs.now fill.now position.now }
{
    let contract = contract_of(specs, fill.symbol);
    let volume = closing(fill, position);
    let profit = profit(position.buy, position.price, fill.price, contract, volume);
    let swap = swap_paid(fill, position);
    let entry = entry_of(fill, position);
    paying(
        plain(specs, fill, position.ticket, entry, comment),
        profit,
        swap,
    )
}

/// The deal of a fill that meets a position, or none.
pub fn deal_on(
    alloc: Global,
    specs: &Specs,
    fill: &Fill,
    on: Option<&Position>,
) -> Result<Deal, OutOfMemory>
    requires specs { All IsSpec specs.now }
    requires some { pos 0 <ℤ fill.now.volume }
    requires held { IfSome (option_copied on) IsHeld }
    ensures { IfOk result (λ deal. deal ≡ deal_on specs.now fill.now (option_copied on.entry)) }
{
    let comment = copy_text(alloc, &fill.comment)?;
    match on {
        None => Ok(plain(specs, fill, fill.order, DealEntry::In, comment)),
        Some(position) => {
            if same_side(position.buy, fill.buy) {
                Ok(plain(specs, fill, position.ticket, DealEntry::In, comment))
            } else {
                Ok(closed(specs, fill, position, comment))
            }
        }
    }
}

/// A stop that is given, or where it is 0 the one before.
#[tactic(auto, unfolding(crate::specs::Fills::given_or))]
fn given_or(given: Fix8, before: Fix8) -> Fix8
    ensures { result ≡ given_or given before }
{
    if given == Fix8::of_units(0) {
        before
    } else {
        given
    }
}

fn levels_at(sl: Fix8, tp: Fix8) -> Levels
    ensures { result ≡ levels_at sl tp }
{
    Levels { sl, tp }
}

/// The stops of the position that a fill leaves.
pub fn levels_of(fill: &Fill, on: Option<&Position>) -> Levels
    ensures { result ≡ levels_of fill.now (option_copied on.entry) }
{
    match on {
        None => levels_at(fill.sl, fill.tp),
        Some(position) => {
            if same_side(position.buy, fill.buy) {
                levels_at(
                    given_or(fill.sl, position.sl),
                    given_or(fill.tp, position.tp),
                )
            } else if position.volume < fill.volume {
                levels_at(fill.sl, fill.tp)
            } else {
                levels_at(position.sl, position.tp)
            }
        }
    }
}
