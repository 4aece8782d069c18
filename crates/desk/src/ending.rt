//! The end of a pass: all orders are removed, and all positions closed.
ghost use Rattle.std.specs.Prelude.{◌≡◌, false, true, map, OnOk, OnErr, IfOk};
ghost use Rattle.account.specs.declared.deal.DealReason.TheVariants as reason;
ghost use Rattle.account.specs.Orders.{orders_in_force};
ghost use Rattle.account.specs.Positions.{position_ticket};
ghost use Rattle.desk.specs.Books.{gained};
ghost use Rattle.desk.specs.Effect.{acts, closing, closing_of, removals};
ghost use Rattle.desk.specs.Runs.{Runs};

use crate::DeskFault;
use crate::books::Books;
use crate::closing::close_position;
use crate::requests::close;
use account::{DealReason, Position, RemovalCause};
use fx8::OutOfMemory;
use positions::PositionRule;
use std::alloc::Global;

/// Removes all orders, in the order of their tickets.
#[tactic(auto, using(crate::proofs::Ended::first_less))]
fn remove_orders<P: PositionRule + Drop>(books: &mut Books<P>) -> Result<(), OutOfMemory>
    requires { books.old.broken ≡ false }
    ensures ok { OnOk result
        (books.new ≡ gained (removals (orders_in_force books.old.quoted.events)) books.old) }
    ensures err { OnErr result (books.new.broken ≡ true) }
{
    while let Some(order) = books.orders().at(0) {
        let ticket = order.ticket;
        books.remove(ticket, RemovalCause::Ended)?;
    }
    Ok(())
}

/// The tickets of positions.
fn tickets_of(alloc: Global, positions: &[Position]) -> Result<Vec<u64>, OutOfMemory>
    ensures { IfOk result (λ list. list.items ≡ map position_ticket positions.now) }
{
    let mut out = Vec::new(alloc);
    let mut rest = positions;
    while let Some((position, others)) = rest.split_first() {
        out.push(position.ticket)?;
        rest = others;
    }
    Ok(out)
}

/// Closes positions one after another.
#[tactic(auto, using(crate::proofs::Ended::acts_go_on, crate::proofs::Ended::acts_stop, crate::proofs::Ended::acts_end, crate::proofs::Ended::after_like))]
fn close_each<P: PositionRule + Drop>(
    books: &mut Books<P>,
    time_ms: i64,
    tickets: &[u64],
) -> Result<(), DeskFault>
    requires { books.old.broken ≡ false }
    ensures { Runs books.old (acts (closing_of books.old.quoted.spec books.old.quoted.prices time_ms
        reason.Client) (record { events = books.old.quoted.events; full = false }) tickets.now) result
        books.new }
{
    let mut rest = tickets;
    while let Some((ticket, others)) = rest.split_first() {
        let done = close_position(books, time_ms, DealReason::Client, *ticket);
        if done.is_err() {
            return done;
        }
        rest = others;
    }
    Ok(())
}

/// Removes all orders, and then closes all positions at the last loud prices, by rising ticket.
pub(crate) fn end<P: PositionRule + Drop>(books: &mut Books<P>) -> Result<(), DeskFault>
    requires { books.old.broken ≡ false }
    ensures { Runs books.old (closing books.old.quoted) result books.new }
{
    let time_ms = books.last_time();
    let Ok(tickets) = tickets_of(books.alloc(), books.ledger().positions()) else {
        return Err(close(books));
    };
    if remove_orders(books).is_err() {
        return Err(DeskFault::OutOfMemory);
    }
    close_each(books, time_ms, tickets.as_slice())
}
