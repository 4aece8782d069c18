//! What is told to a request.
ghost use Rattle.std.specs.Prelude.{◌≡◌, ◌<◌, length, true, None, IfOk};
ghost use Rattle.account.specs.Keyed.{item};
ghost use Rattle.account.specs.Positions.{open_positions, position_ticket};
ghost use Rattle.positions.specs.Money.{HasRoom};
ghost use Rattle.judgement.specs.Judge.{refusal};
ghost use Rattle.judgement.specs.Accept.{has_money_to, IsJudged, IsPayable};

use crate::act::act_of;
use crate::judge::refusal;
use crate::{Act, Next, Request, ReturnCode};
use account::{Ledger, Prices};
use fx8::OutOfMemory;
use order_book::Orders;
use positions::{PositionRule, has_money};
use std::alloc::Global;

/// What is told to a request.
#[derive(Debug, Drop)]
pub enum Judged {
    /// It is refused, by the code of the first rule that fails.
    Refused(ReturnCode),
    /// No rule fails, and this is to be done.
    Accepted(Act),
}

/// Whether there is money for what is to be done: a deal alone asks for some.
fn has_money_to(
    alloc: Global,
    ledger: &Ledger,
    prices: &Prices,
    act: &Act,
) -> Result<bool, OutOfMemory>
    requires room { HasRoom ledger.now.spec prices.now ledger.now.events }
    requires payable { IsPayable ledger.now prices.now act.now }
    ensures { IfOk result (λ enough. enough ≡ has_money_to ledger.now prices.now act.now) }
{
    match act {
        Act::Deal(fill) => has_money(alloc, ledger, prices, fill),
        Act::Place(_) | Act::Change(_) | Act::Remove(_) => Ok(true),
        Act::SetStops { .. } | Act::CloseBy { .. } => Ok(true),
    }
}

/// What is told to a request that no rule refuses but maybe that of money.
fn judge_money<P: PositionRule>(
    alloc: Global,
    ledger: &Ledger,
    orders: &Orders,
    rule: &P,
    prices: &Prices,
    time_ms: i64,
    next: Next,
    request: &Request,
) -> Result<Judged, OutOfMemory>
    requires room { HasRoom ledger.now.spec prices.now ledger.now.events }
    requires prices { length prices.now ≡ length ledger.now.spec.specs }
    requires kind { P.hedging rule.now ≡ ledger.now.spec.hedging }
    requires positions { P.positions rule.now ≡ open_positions ledger.now.events }
    requires order { 0 < next.order }
    requires fresh { item position_ticket next.order (open_positions ledger.now.events) ≡ None }
    requires others { refusal ledger.now.spec orders.now (open_positions ledger.now.events) prices.now time_ms
        true request.now ≡ None }
    ensures { IfOk result (IsJudged ledger.now orders.now prices.now time_ms next request.now) }
{
    let spec = ledger.spec();
    let act = match act_of(alloc, spec, orders, rule, prices, time_ms, next, request)? {
        Some(act) => act,
        None => return Ok(Judged::Refused(ReturnCode::Invalid)),
    };
    if !has_money_to(alloc, ledger, prices, &act)? {
        return Ok(Judged::Refused(ReturnCode::NoMoney));
    }
    Ok(Judged::Accepted(act))
}

/// What is told to a request (MQL5 Reference, OrderSend): it is refused by the code of the first rule of its
/// action that fails, that of money included; where none fails, what is to be done is told, with the tickets that
/// come next. It takes memory for comments and, where a deal comes to the rule of money, for copies of the
/// positions.
pub fn judge_request<P: PositionRule>(
    alloc: Global,
    ledger: &Ledger,
    orders: &Orders,
    rule: &P,
    prices: &Prices,
    time_ms: i64,
    next: Next,
    request: &Request,
) -> Result<Judged, OutOfMemory>
    requires room { HasRoom ledger.now.spec prices.now ledger.now.events }
    requires prices { length prices.now ≡ length ledger.now.spec.specs }
    requires kind { P.hedging rule.now ≡ ledger.now.spec.hedging }
    requires positions { P.positions rule.now ≡ open_positions ledger.now.events }
    requires order { 0 < next.order }
    requires fresh { item position_ticket next.order (open_positions ledger.now.events) ≡ None }
    ensures { IfOk result (IsJudged ledger.now orders.now prices.now time_ms next request.now) }
{
    let spec = ledger.spec();
    match refusal(alloc, spec, orders, rule, prices, time_ms, true, request) {
        Some(code) => Ok(Judged::Refused(code)),
        None => judge_money(alloc, ledger, orders, rule, prices, time_ms, next, request),
    }
}
