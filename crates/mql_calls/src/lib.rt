//! Calls of the program's functions and of native functions: what they take, and what is told of them.
#![tactic(auto)]

mod handed;
mod made;
mod native_calls;
mod native_rules;
mod nodes;

pub use made::{call_info, chosen};
pub use native_calls::native_info;
pub use native_rules::{element, flags_no_line, lends_native, wrong_arguments};
pub use nodes::{
    are_told, argument, arguments, arguments_of, is_constant, is_of_input, is_void, is_whole_array,
    no_place, nth, told,
};
