//! The book of pending orders: those in force, which of them a quote fires, and which expire.
#![tactic(auto)]

mod book_fault;
mod laws;
mod orders;
mod sorted;
mod steps;
mod terms;

pub use book_fault::BookFault;
pub use laws::orders_go_on;
pub use orders::Orders;
pub use steps::Steps;
