//! Expiry: the orders whose time is over are removed.
ghost use Rattle.std.specs.Prelude.{◌≡◌, false, true, map, OnOk, OnErr, IfOk};
ghost use Rattle.account.specs.declared.event.Event.TheVariants as event;
ghost use Rattle.account.specs.declared.event.RemovalCause.TheVariants as cause;
ghost use Rattle.account.specs.Firing.{expired_orders};
ghost use Rattle.account.specs.Orders.{orders_in_force};
ghost use Rattle.judgement.specs.Rules.{second_of};
ghost use Rattle.desk.specs.Books.{gained};
ghost use Rattle.desk.specs.Effect.{expiries};

use crate::books::Books;
use account::RemovalCause;
use fx8::{OutOfMemory, Tickets};
use judgement::second_of;
use market_types::Quote;
use positions::PositionRule;

/// The tickets of the orders whose time is over at a quote.
fn expired<P: PositionRule + Drop>(books: &Books<P>, quote: &Quote) -> Result<Tickets, OutOfMemory>
    requires { books.now.broken ≡ false }
    ensures { IfOk result (λ list. list.items
        ≡ expired_orders (second_of quote.now.time_ms) (orders_in_force books.now.quoted.events)) }
{
    let mut out = Tickets::new(books.alloc());
    out.reserve(1000)?;
    books.orders().expired(second_of(quote.time_ms), &mut out);
    Ok(out)
}

/// Removes orders whose time is over, one after another.
fn remove_each<P: PositionRule + Drop>(
    books: &mut Books<P>,
    tickets: &[u64],
) -> Result<(), OutOfMemory>
    requires { books.old.broken ≡ false }
    ensures ok { OnOk result
        (books.new ≡ gained (map (λ t. event.Removed t cause.Expired) tickets.now) books.old) }
    ensures err { OnErr result (books.new.broken ≡ true) }
{
    let mut rest = tickets;
    while let Some((ticket, others)) = rest.split_first() {
        books.remove(*ticket, RemovalCause::Expired)?;
        rest = others;
    }
    Ok(())
}

/// Removes the orders of all symbols whose time is over at a quote.
pub(crate) fn expire<P: PositionRule + Drop>(
    books: &mut Books<P>,
    quote: &Quote,
) -> Result<(), OutOfMemory>
    requires { books.old.broken ≡ false }
    ensures ok { OnOk result
        (books.new ≡ gained (expiries quote.now (orders_in_force books.old.quoted.events)) books.old) }
    ensures err { OnErr result (books.new.broken ≡ true) }
{
    let Ok(list) = expired(books, quote) else {
        books.close();
        return Err(OutOfMemory);
    };
    remove_each(books, list.as_slice())
}
