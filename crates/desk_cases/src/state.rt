//! What an act leaves of a desk, in the lines of a script.
ghost use Rattle.std.specs.Prelude.{◌≡◌, false};

use crate::trial::Trial;
use account::{Deal, DealEntry, DealKind, DealReason, Order, OrderKind, Position};
use desk::Desk;
use fx8::{Money, OutOfMemory};
use positions::PositionRule;

/// The number of a type of deals (MQL5 Reference, ENUM_DEAL_TYPE).
fn kind_number(kind: DealKind) -> i128 {
    match kind {
        DealKind::Buy => 0,
        DealKind::Sell => 1,
        DealKind::Balance => 2,
    }
}

/// The number of what a deal does to its position (MQL5 Reference, ENUM_DEAL_ENTRY).
fn entry_number(entry: DealEntry) -> i128 {
    match entry {
        DealEntry::In => 0,
        DealEntry::Out => 1,
        DealEntry::InOut => 2,
        DealEntry::OutBy => 3,
    }
}

/// The number of the reason of a deal (MQL5 Reference, ENUM_DEAL_REASON).
fn reason_number(reason: DealReason) -> i128 {
    match reason {
        DealReason::Client => 0,
        DealReason::Expert => 3,
        DealReason::StopLoss => 4,
        DealReason::TakeProfit => 5,
        DealReason::StopOut => 6,
    }
}

/// The number of a type of orders (MQL5 Reference, ENUM_ORDER_TYPE).
fn order_number(kind: OrderKind) -> i128 {
    match kind {
        OrderKind::BuyLimit => 2,
        OrderKind::SellLimit => 3,
        OrderKind::BuyStop => 4,
        OrderKind::SellStop => 5,
        OrderKind::BuyStopLimit => 6,
        OrderKind::SellStopLimit => 7,
    }
}

/// Tells a deal.
fn tell_deal(trial: &mut Trial, deal: &Deal) -> Result<(), OutOfMemory> {
    let numbers = [
        i128::from(deal.ticket),
        i128::from(deal.order),
        i128::from(deal.position),
        i128::from(deal.time_ms),
        kind_number(deal.kind),
        entry_number(deal.entry),
        i128::from(deal.volume.units()),
        i128::from(deal.price.units()),
        deal.profit.cents(),
        deal.swap.cents(),
        deal.commission.cents(),
        i128::from(deal.magic),
        reason_number(deal.reason),
    ];
    trial.give_numbers("deal", numbers.as_slice())?;
    trial.give(" ")?;
    trial.give_units(deal.comment.as_slice())?;
    trial.give("\n")
}

/// Tells a position.
fn tell_position(trial: &mut Trial, position: &Position) -> Result<(), OutOfMemory> {
    let numbers = [
        i128::from(position.ticket),
        if position.buy { 0 } else { 1 },
        i128::from(position.volume.units()),
        i128::from(position.price.units()),
        i128::from(position.sl.units()),
        i128::from(position.tp.units()),
        position.swap.cents(),
        i128::from(position.magic),
    ];
    trial.give_line("position", numbers.as_slice())
}

/// Tells an order.
fn tell_order(trial: &mut Trial, order: &Order) -> Result<(), OutOfMemory> {
    let numbers = [
        i128::from(order.ticket),
        order_number(order.kind),
        i128::from(order.volume.units()),
        i128::from(order.price.units()),
        i128::from(order.stoplimit.units()),
        i128::from(order.sl.units()),
        i128::from(order.tp.units()),
        i128::from(order.expires),
    ];
    trial.give_line("order", numbers.as_slice())
}

/// Tells the deals from a place on.
fn tell_deals<P: PositionRule + Drop>(
    trial: &mut Trial,
    desk: &Desk<P>,
    from: u64,
) -> Result<(), OutOfMemory> {
    let deals = desk.ledger().deals();
    for i in from..deals.len() {
        if let Some(deal) = deals.at(i) {
            tell_deal(trial, deal)?;
        }
    }
    Ok(())
}

/// Tells balance, margin and equity.
fn tell_money<P: PositionRule + Drop>(trial: &mut Trial, desk: &Desk<P>) -> Result<(), OutOfMemory>
    requires { desk.now.closed ≡ false }
{
    let ledger = desk.ledger();
    let numbers = [
        ledger.balance().cents(),
        ledger.margin().cents(),
        desk.equity().cents(),
    ];
    trial.give_line("state", numbers.as_slice())
}

/// Tells the open positions.
fn tell_positions<P: PositionRule + Drop>(
    trial: &mut Trial,
    desk: &Desk<P>,
) -> Result<(), OutOfMemory>
    requires { desk.now.closed ≡ false }
{
    let rule = desk.positions();
    for i in 0..rule.len() {
        if let Some(position) = rule.at(i) {
            tell_position(trial, position)?;
        }
    }
    Ok(())
}

/// Tells the orders in force.
fn tell_orders<P: PositionRule + Drop>(trial: &mut Trial, desk: &Desk<P>) -> Result<(), OutOfMemory>
    requires { desk.now.closed ≡ false }
{
    let orders = desk.orders();
    for i in 0..orders.len() {
        if let Some(order) = orders.at(i) {
            tell_order(trial, order)?;
        }
    }
    Ok(())
}

/// Tells what an act left: the deals from a place on, what the account is worth, and all that stands.
pub fn tell_state<P: PositionRule + Drop>(
    trial: &mut Trial,
    desk: &Desk<P>,
    from: u64,
) -> Result<(), OutOfMemory>
    requires { desk.now.closed ≡ false }
{
    tell_deals(trial, desk, from)?;
    tell_money(trial, desk)?;
    tell_positions(trial, desk)?;
    tell_orders(trial, desk)
}

/// Tells a number of the statistics under its name.
fn tell_named(trial: &mut Trial, name: &str, number: i128) -> Result<(), OutOfMemory> {
    trial.give(" ")?;
    trial.give(name)?;
    trial.give("=")?;
    trial.give_digits(number)
}

/// Tells the statistics.
pub fn tell_stats<P: PositionRule + Drop>(
    trial: &mut Trial,
    desk: &Desk<P>,
) -> Result<(), OutOfMemory> {
    let stats = desk.ledger().stats(Money::of_cents(0));
    let table = [
        ("initial", stats.initial_deposit.cents()),
        ("profit", stats.profit.cents()),
        ("gross_profit", stats.gross_profit.cents()),
        ("gross_loss", stats.gross_loss.cents()),
        ("deals", i128::from(stats.deals)),
        ("trades", i128::from(stats.trades)),
        ("profit_trades", i128::from(stats.profit_trades)),
        ("loss_trades", i128::from(stats.loss_trades)),
        ("balance_dd", stats.balance_dd.cents()),
    ];
    trial.give("stats")?;
    for (name, number) in &table {
        tell_named(trial, name, *number)?;
    }
    trial.give("\n")
}
