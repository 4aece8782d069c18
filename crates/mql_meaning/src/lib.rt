//! What a checked program of the whole language is, and what it means: its typed tree, its store, and the
//! definitions of expressions, statements, calls, objects and native functions.
#![tactic(auto)]

mod cell;
mod law;
mod operator;
mod place;
mod shared;
mod store;
mod tree;
mod types;

pub use cell::Cell;
pub use law::is_talk;
pub use operator::{Bump, Operator, UnaryOperator};
pub use place::{Place, Root};
pub use shared::meanings_may_be_shared;
pub use store::{Frame, Object, SetInput, Slot, Store};
pub use tree::{
    Callee, Checked, Class, Cleanup, Entries, Entry, Expression, Function, Input, Member, Method,
    Statement,
};
pub use types::{Base, Sort, VarType};
