//! The formats of StringFormat and PrintFormat (MQL5 Reference, Common Functions, PrintFormat): the
//! conversions that a format names, what they write, and the text of a whole format.
#![tactic(auto)]

mod arguments;
mod conversion;
mod fields;
mod formats;
mod letter;
mod pieces;
mod reading;
mod units;
mod writing;

pub use conversion::Conversion;
pub use fields::{cut, hex, in_width, integer, real, sign};
pub use formats::format;
pub use letter::Letter;
pub use reading::form;
pub use writing::written;
