//! The arguments of native functions as they are read, and what a native function does.
#![tactic(auto)]

mod argument;
mod counts;
mod done;
mod one_read;
mod readers;
mod three_read;
mod two_read;

pub use argument::{Argument, Array};
pub use done::{NativeDone, gives, gives_with, refuses};
pub use one_read::{
    one_array, one_cell, one_double, one_lent_string, one_number, one_string, one_value,
};
pub use readers::{cell, number, string, value};
pub use three_read::{
    array_two_numbers, cell_two_numbers, lent_string_two_numbers, lent_string_two_strings,
    string_number_array, string_two_numbers, three_numbers, two_strings_number,
};
pub use two_read::{
    array_number, cell_value, double_number, number_cell, string_number, two_doubles, two_numbers,
    two_values,
};
