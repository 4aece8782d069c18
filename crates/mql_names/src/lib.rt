//! What the names of a program mean, and the rules that names, types and event functions must keep.
#![tactic(auto)]

mod event;
mod fault;
mod items;
mod program;
mod rules;
mod scope;
mod types;
mod walk;

pub use event::{EVENTS, Event, event_of};
pub use fault::{Broken, break_if, sooner};
pub use items::body_parts;
pub use program::{first_broken, meanings_of, told_with};
pub use rules::{has_default, is_unknown, type_place};
pub use scope::Named;
pub use types::{
    Meaning, Meanings, Sort, form_of, is_defined, meaning_of, named_sort, param_keys, type_key,
    type_name, type_sort,
};
pub use walk::{own_locals, shares};
