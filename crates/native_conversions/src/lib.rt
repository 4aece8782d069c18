//! Values as texts, texts as numbers, and values of one type taken into another.
#![tactic(auto)]

mod conversion;
mod dates;
mod digits;
mod doubles;
mod law;
mod pieces;
mod texts;

pub use conversion::{a_string, converted};
pub use dates::{Day, date, moment_text};
pub use digits::integer_of;
pub use doubles::double_of;
pub use law::converts;
pub use texts::{double_text, number_text, text_of_value};
