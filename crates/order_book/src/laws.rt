//! The law of the orders in force.
ghost use Rattle.order_book.specs.Book.{GoesOn};

/// The orders in force after one more event are the step of that event on those before it, whatever the
/// events are. So a book that made the step of each event holds the orders in force.
pub fn orders_go_on()
    ensures { GoesOn }
{}
