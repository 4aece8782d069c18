//! Objects of the store: they begin, with the objects that are their fields.
#![tactic(auto)]

mod classes;
mod fresh;
mod made;

pub use classes::object_class;
pub use made::{new_object, object_for};
