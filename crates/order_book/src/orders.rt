//! The orders in force.
ghost use Rattle.std.specs.Prelude.{◌≡◌, ◌≤◌, ◌+◌, ◌++◌, [], length, slice_get, None, IfNone, is_some, false};
ghost use Rattle.std.specs.Option.{option_copied};
ghost use Rattle.account.specs.declared.event.Event.TheVariants as event;
ghost use Rattle.account.specs.declared.event.RemovalCause.{RemovalCause};
ghost use Rattle.account.specs.Firing.{fired_orders, expired_orders};
ghost use Rattle.account.specs.Keyed.{item, Rising};
ghost use Rattle.account.specs.Orders.{order_ticket, orders_after};
ghost use Rattle.order_book.specs.Book.{most_orders, IsPlaced, IsModified};

use crate::book_fault::BookFault;
use crate::sorted;
use crate::steps::Steps;
use crate::terms::{fires, is_over};
use account::Order;
use fx8::Tickets;
use market_types::Quote;
use std::alloc::Global;
use std::marker::Model;
use std::sync::ledger::Ledger;

/// The pending orders in force. Contracts see the list of them by rising ticket.
#[derive(Debug, Drop)]
pub struct Orders {
    orders: Vec<Order>,
}

impl Model for Orders {
    ghost use Rattle.std.specs.Prelude.{List};
    ghost use Rattle.account.specs.declared.order.Order.{Order as OrderValue};
    ghost use Rattle.order_book.specs.Book.{IsBook};

    ghost Value = { List OrderValue };

    ghost view = { λ book. book.orders.items };

    ghost invariant = { λ book. IsBook book.orders.items };
}

impl Orders {
    /// The book without an order, which takes no memory.
    pub fn new(alloc: Global) -> Orders
        ensures { result ≡ [] }
    {
        Orders {
            orders: Vec::new(alloc),
        }
    }

    /// The number of orders, 1,000 at most.
    pub fn len(&self) -> u32
        ensures value { result ≡ length self.now }
        ensures few { length self.now ≤ most_orders }
    {
        self.orders.len() as u32
    }

    /// The order at a place, by rising ticket; `None` exactly where the place is not below the length.
    pub fn at(&self, i: u32) -> Option<&Order>
        ensures value { option_copied result ≡ slice_get self.now i }
        ensures rising { Rising order_ticket self.now }
    {
        self.orders.get(i as usize)
    }

    /// The order of a ticket; `None` exactly where it does not stand.
    pub fn get(&self, ticket: u64) -> Option<&Order>
        ensures { option_copied result ≡ item order_ticket ticket self.now }
    {
        sorted::get(&self.orders, ticket)
    }

    /// Adds an order of a new ticket, with all the memory that it needs while it stands.
    pub fn place(&mut self, order: Order) -> Result<(), BookFault>
        requires { item order_ticket order.ticket self.old ≡ None }
        ensures { IsPlaced self.old order result self.new }
    {
        sorted::place(&mut self.orders, order)
    }

    /// Writes price, stop-limit price, stops and time of `order` into the order of its ticket. It takes no
    /// memory.
    pub fn modify(&mut self, order: &Order) -> Result<(), BookFault>
        ensures { IsModified self.old order.now result self.new }
    {
        sorted::modify(&mut self.orders, order)
    }

    /// Takes the order of a ticket away; `None` exactly where it does not stand. It takes no memory.
    pub fn remove(&mut self, ticket: u64) -> Option<Order>
        ensures value { result ≡ item order_ticket ticket self.old }
        ensures rest { (cause : RemovalCause) →
            self.new ≡ orders_after self.old (event.Removed ticket cause) }
        ensures missing { IfNone result (self.new ≡ self.old) }
    {
        sorted::remove(&mut self.orders, ticket)
    }

    /// Makes the stop-limit order of a ticket a limit order at its stop-limit price; an order of another kind
    /// stays. False exactly where the ticket does not stand. It takes no memory.
    pub fn trigger(&mut self, ticket: u64) -> bool
        ensures value { result ≡ is_some (item order_ticket ticket self.old) }
        ensures rest { self.new ≡ orders_after self.old (event.Triggered ticket) }
        ensures missing { result ≡ false → self.new ≡ self.old }
    {
        sorted::trigger(&mut self.orders, ticket)
    }

    /// Adds the tickets of the orders whose time is over at a second, in the order of the tickets, into the
    /// room.
    pub fn expired(&self, time: i64, out: &mut Tickets)
        requires room { most_orders ≤ out.old.spare }
        ensures items { out.new.items ≡ out.old.items ++ expired_orders time self.now }
        ensures room { out.new.spare + length out.new.items ≡ out.old.spare + length out.old.items }
    {
        let mut rest = self.orders.as_slice();
        while let Some((order, others)) = rest.split_first() {
            if is_over(time, order) {
                out.push(order.ticket);
            }
            rest = others;
        }
    }

    /// Adds the tickets of the orders that a quote fires, in the order of the tickets, into the room. It
    /// counts a step for each order that it looks at.
    pub fn fired<L: Ledger>(&self, quote: &Quote, out: &mut Tickets, steps: &mut Steps<L>)
        requires room { most_orders ≤ out.old.spare }
        ensures items { out.new.items ≡ out.old.items ++ fired_orders quote.now self.now }
        ensures room { out.new.spare + length out.new.items ≡ out.old.spare + length out.old.items }
        ensures counted { steps.old ≤ steps.new }
    {
        let mut rest = self.orders.as_slice();
        while let Some((order, others)) = rest.split_first() {
            steps.tick();
            if fires(quote, order) {
                out.push(order.ticket);
            }
            rest = others;
        }
    }
}
