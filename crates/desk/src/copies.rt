//! Copies of orders.
ghost use Rattle.std.specs.Prelude.{◌≡◌, IfOk};

use account::{Order, copy_text};
use fx8::{OutOfMemory, Text};
use std::alloc::Global;

/// The order with another comment.
fn order_with(order: &Order, comment: Text) -> Order
    ensures { result ≡ record order.now { comment = comment } }
{
    Order {
        ticket: order.ticket,
        symbol: order.symbol,
        kind: order.kind,
        volume: order.volume,
        price: order.price,
        stoplimit: order.stoplimit,
        sl: order.sl,
        tp: order.tp,
        time_ms: order.time_ms,
        expires: order.expires,
        type_time: order.type_time,
        magic: order.magic,
        comment,
    }
}

/// An equal order.
pub(crate) fn copy_order(alloc: Global, order: &Order) -> Result<Order, OutOfMemory>
    ensures { IfOk result (λ copy. copy ≡ order.now) }
{
    let comment = copy_text(alloc, &order.comment)?;
    Ok(order_with(order, comment))
}
