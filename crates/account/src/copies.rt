//! Copies of what has texts.
ghost use Rattle.std.specs.Prelude.{◌≡◌, IfOk};

use crate::Deal;
use fx8::{OutOfMemory, Text};
use std::alloc::Global;

/// A text with the same units.
pub fn copy_text(alloc: Global, text: &Text) -> Result<Text, OutOfMemory>
    ensures { IfOk result (λ copy. copy ≡ text.now) }
{
    Text::from_slice(alloc, text.as_slice())
}

/// The deal with another comment.
fn deal_with(deal: &Deal, comment: Text) -> Deal
    ensures { result ≡ record deal.now { comment = comment } }
{
    Deal {
        ticket: deal.ticket,
        order: deal.order,
        position: deal.position,
        time_ms: deal.time_ms,
        symbol: deal.symbol,
        kind: deal.kind,
        entry: deal.entry,
        volume: deal.volume,
        price: deal.price,
        profit: deal.profit,
        swap: deal.swap,
        commission: deal.commission,
        magic: deal.magic,
        reason: deal.reason,
        comment,
    }
}

/// An equal deal.
pub fn copy_deal(alloc: Global, deal: &Deal) -> Result<Deal, OutOfMemory>
    ensures { IfOk result (λ copy. copy ≡ deal.now) }
{
    let comment = copy_text(alloc, &deal.comment)?;
    Ok(deal_with(deal, comment))
}
