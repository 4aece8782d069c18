//! The native functions of arrays, over arguments that are lent.
#![tactic(auto)]

mod array_parts;
mod arrays;
mod copies;
mod copy_arguments;
mod copy_parts;
mod extreme_parts;
mod extremes;
mod values;

pub use arrays::{
    array_free, array_get_as_series, array_initialize, array_is_dynamic, array_range, array_resize,
    array_set_as_series, array_size, array_sort, zero_memory,
};
pub use copies::array_copy;
pub use extremes::{array_maximum, array_minimum};
