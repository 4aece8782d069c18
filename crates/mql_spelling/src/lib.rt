//! What a piece of text spells: its sort, numbers, and what stands between quotes.
#![tactic(auto)]

mod escape;
mod lexeme;
mod marked;
mod real;
mod reserved;
mod scan;
mod sign;
mod units;
mod value;

pub use escape::spelled_text;
pub use lexeme::{Lexeme, Mode, Quote};
pub use marked::{color_value, date_value};
pub use real::real_value;
pub use reserved::{RESERVED_WORDS, ReservedWord, reserved_word, words_by_spelling};
pub use scan::longest;
pub use sign::{SIGNS, Sign, signs_by_spelling};
pub use units::{is_digit, is_spelled};
pub use value::number;
