//! Arguments of calls of the program's functions: the rules that they keep, and the function that is chosen.
#![tactic(auto)]

mod rules;

pub use rules::{ArgumentRule, chosen_in, is_equal, is_nothing, some_pair};
