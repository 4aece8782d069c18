//! What is told of expressions, with their typed expressions, and what operations on them give.
#![tactic(auto)]

mod binary;
mod info;
mod places;
mod typed;
mod unary;

pub use binary::{binary_info, conditional_info, joined};
pub use info::{Info, Standing};
pub use places::{
    assign_info, cast_info, element_type, index_info, kept_field, placed_field, update_info,
};
pub use typed::{
    a_place, a_value, condition, converted, into_sort, nothing, on_one, on_two, single, value_base,
    value_of, var_type,
};
pub use unary::{int_operator, literal, postfix_info, unary_info};
