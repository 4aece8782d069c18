//! Orders in a list by rising ticket.
ghost use Rattle.std.specs.Prelude.{◌≡◌, ◌≤◌, ◌<◌, length, slice_get, Some, None, IfSome, IfNone, is_some, false};
ghost use Rattle.std.specs.Vec.{vec_len, vec_capacity};
ghost use Rattle.std.specs.List.{insert};
ghost use Rattle.std.specs.Option.{option_copied};
ghost use Rattle.account.specs.declared.event.Event.TheVariants as event;
ghost use Rattle.account.specs.Keyed.{item, put, lower, found, Rising};
ghost use Rattle.account.specs.Orders.{order_ticket, changed, triggered, orders_after};
ghost use Rattle.order_book.specs.Book.{most_orders, IsBook, IsPlaced, IsModified, ChangesAt};

use crate::book_fault::BookFault;
use crate::terms::{self, same_terms};
use account::Order;

/// How many orders stand at most.
const MOST_ORDERS: usize = 1_000;

/// How many orders have lower tickets.
fn lower(orders: &[Order], ticket: u64) -> usize
    requires { Rising order_ticket orders.now }
    ensures value { result ≡ lower order_ticket ticket orders.now }
    ensures within { result ≤ length orders.now }
{
    orders.partition_point(|order| order.ticket < ticket)
}

/// The order at a place.
fn nth(orders: &[Order], i: usize) -> &Order
    requires { i < length orders.now }
    ensures { slice_get orders.now i ≡ Some result.now }
{
    &orders[i]
}

/// Where the order of a ticket stands.
fn found(orders: &[Order], ticket: u64) -> Option<usize>
    requires { Rising order_ticket orders.now }
    ensures value { result ≡ found order_ticket ticket orders.now }
    ensures within { IfSome result (λ i. i < length orders.now) }
{
    let i = lower(orders, ticket);
    if i >= orders.len() {
        return None;
    }
    if nth(orders, i).ticket == ticket {
        Some(i)
    } else {
        None
    }
}

/// The order of a ticket.
pub fn get(orders: &[Order], ticket: u64) -> Option<&Order>
    requires { Rising order_ticket orders.now }
    ensures { option_copied result ≡ item order_ticket ticket orders.now }
{
    match found(orders, ticket) {
        Some(i) => Some(nth(orders, i)),
        None => None,
    }
}

/// Puts an order at a place, into the room.
fn insert(orders: &mut Vec<Order>, i: usize, order: Order)
    requires place { i ≤ vec_len orders.old }
    requires room { vec_len orders.old < vec_capacity orders.old }
    ensures { orders.new.items ≡ insert orders.old.items i order }
{
    let _done = orders.insert(i, order);
}

/// Adds an order of a new ticket, into the room.
fn add(orders: &mut Vec<Order>, order: Order)
    requires book { IsBook orders.old.items }
    requires fresh { item order_ticket order.ticket orders.old.items ≡ None }
    requires few { length orders.old.items < most_orders }
    requires room { vec_len orders.old < vec_capacity orders.old }
    ensures items { orders.new.items ≡ orders_after orders.old.items (event.Placed order) }
    ensures book { IsBook orders.new.items }
{
    let i = lower(orders, order.ticket);
    insert(orders, i, order);
}

/// Adds an order of a new ticket.
pub fn place(orders: &mut Vec<Order>, order: Order) -> Result<(), BookFault>
    requires book { IsBook orders.old.items }
    requires fresh { item order_ticket order.ticket orders.old.items ≡ None }
    ensures answer { IsPlaced orders.old.items order result orders.new.items }
    ensures book { IsBook orders.new.items }
{
    if orders.len() >= MOST_ORDERS {
        return Err(BookFault::Full);
    }
    if orders.reserve(1).is_err() {
        return Err(BookFault::OutOfMemory);
    }
    add(orders, order);
    Ok(())
}

/// Takes the order of a ticket away.
pub fn remove(orders: &mut Vec<Order>, ticket: u64) -> Option<Order>
    requires { IsBook orders.old.items }
    ensures value { result ≡ item order_ticket ticket orders.old.items }
    ensures items { orders.new.items ≡ put order_ticket ticket None orders.old.items }
    ensures missing { IfNone result (orders.new.items ≡ orders.old.items) }
    ensures book { IsBook orders.new.items }
{
    match found(orders, ticket) {
        Some(i) => Some(orders.remove(i)),
        None => None,
    }
}

fn change_at(orders: &mut Vec<Order>, i: usize, new: &Order)
    requires { i < length orders.old.items }
    ensures { ChangesAt (changed new.now) i orders.old.items orders.new.items }
{
    terms::change(&mut orders[i], new);
}

/// Writes price, stop-limit price, stops and time of an order.
pub fn modify(orders: &mut Vec<Order>, order: &Order) -> Result<(), BookFault>
    requires { IsBook orders.old.items }
    ensures answer { IsModified orders.old.items order.now result orders.new.items }
    ensures book { IsBook orders.new.items }
{
    match found(orders, order.ticket) {
        None => Err(BookFault::NoOrder),
        Some(i) => {
            if same_terms(nth(orders, i), order) {
                return Err(BookFault::NoChanges);
            }
            change_at(orders, i, order);
            Ok(())
        }
    }
}

fn trigger_at(orders: &mut Vec<Order>, i: usize)
    requires { i < length orders.old.items }
    ensures { ChangesAt triggered i orders.old.items orders.new.items }
{
    terms::trigger(&mut orders[i]);
}

/// Makes a stop-limit order a limit order.
pub fn trigger(orders: &mut Vec<Order>, ticket: u64) -> bool
    requires { IsBook orders.old.items }
    ensures value { result ≡ is_some (item order_ticket ticket orders.old.items) }
    ensures items { orders.new.items ≡ orders_after orders.old.items (event.Triggered ticket) }
    ensures missing { result ≡ false → orders.new.items ≡ orders.old.items }
    ensures book { IsBook orders.new.items }
{
    match found(orders, ticket) {
        Some(i) => {
            trigger_at(orders, i);
            true
        }
        None => false,
    }
}
