//! The native functions of strings, of numbers and of conversions, over arguments that are lent.
#![tactic(auto)]

mod common;
mod format_parts;
mod formats;
mod number_parts;
mod numbers;
mod split_parts;
mod string_parts;
mod strings;
mod text_parts;
mod texts;
mod values;

pub use common::{comment, is_stopped};
pub use formats::string_format;
pub use numbers::{
    math_abs, math_ceil, math_floor, math_is_valid_number, math_max, math_min, math_mod, math_pow,
    math_round, math_sqrt, normalize_double,
};
pub use strings::{
    string_compare, string_find, string_get_character, string_len, string_replace,
    string_set_character, string_split, string_substr, string_to_lower, string_to_upper,
    string_trim_left, string_trim_right,
};
pub use texts::{
    char_to_string, double_to_string, integer_to_string, short_to_string, string_to_double,
    string_to_integer, time_to_string,
};
pub use values::{given, given_with, second_in, truth_value, whole};
