//! What is asked of one order, and the changes of one.
ghost use Rattle.std.specs.Prelude.{◌≡◌};
ghost use Rattle.account.specs.Firing.{meets, fires, is_gtc, is_over};
ghost use Rattle.account.specs.Orders.{changed, triggered, triggered_kind, is_stop_limit};
ghost use Rattle.order_book.specs.Book.{same_terms, time_number};

use account::{Order, OrderKind, OrderTime};
use fx8::Fix8;
use market_types::Quote;

fn time_number(time: OrderTime) -> u8
    ensures { result ≡ time_number time }
{
    match time {
        OrderTime::Gtc => 0,
        OrderTime::Day => 1,
        OrderTime::Specified => 2,
        OrderTime::SpecifiedDay => 3,
    }
}

/// Whether price, stop-limit price, stops and time of two orders are the same.
#[tactic(auto, unfolding(crate::specs::Book::same_terms))]
pub fn same_terms(a: &Order, b: &Order) -> bool
    ensures { result ≡ same_terms a.now b.now }
{
    a.price == b.price
        && a.stoplimit == b.stoplimit
        && a.sl == b.sl
        && a.tp == b.tp
        && time_number(a.type_time) == time_number(b.type_time)
        && a.expires == b.expires
}

/// Writes price, stop-limit price, stops and time of another order into one.
pub fn change(order: &mut Order, new: &Order)
    ensures { order.new ≡ changed new.now order.old }
{
    order.price = new.price;
    order.stoplimit = new.stoplimit;
    order.sl = new.sl;
    order.tp = new.tp;
    order.type_time = new.type_time;
    order.expires = new.expires;
}

/// Makes a stop-limit order a limit order at its stop-limit price.
pub fn trigger(order: &mut Order)
    ensures { order.new ≡ triggered order.old }
{
    let kind = match order.kind {
        OrderKind::BuyStopLimit => OrderKind::BuyLimit,
        OrderKind::SellStopLimit => OrderKind::SellLimit,
        _ => return,
    };
    order.kind = kind;
    order.price = order.stoplimit;
    order.stoplimit = Fix8::of_units(0);
}

fn meets(kind: OrderKind, quote: &Quote, price: Fix8) -> bool
    ensures { result ≡ meets kind quote.now price }
{
    match kind {
        OrderKind::BuyLimit => quote.ask <= price,
        OrderKind::BuyStop | OrderKind::BuyStopLimit => price <= quote.ask,
        OrderKind::SellLimit => price <= quote.bid,
        OrderKind::SellStop | OrderKind::SellStopLimit => quote.bid <= price,
    }
}

/// Whether a quote fires an order.
#[tactic(auto, unfolding(account::specs::Firing::fires))]
pub fn fires(quote: &Quote, order: &Order) -> bool
    ensures { result ≡ fires quote.now order.now }
{
    order.symbol == quote.symbol && meets(order.kind, quote, order.price)
}

fn is_gtc(time: OrderTime) -> bool
    ensures { result ≡ is_gtc time }
{
    matches!(time, OrderTime::Gtc)
}

/// Whether the time of an order is over at a second.
#[tactic(auto, unfolding(account::specs::Firing::is_over))]
pub fn is_over(second: i64, order: &Order) -> bool
    ensures { result ≡ is_over second order.now }
{
    !is_gtc(order.type_time) && order.expires <= second
}
