//! Lines that an expert printed.

use fx8::{ItemList, Text};

/// A line that the expert printed.
#[derive(Drop)]
pub struct Printed {
    /// The time of the last loud quote, in milliseconds since 1970.
    pub time_ms: i64,
    /// The text, in 16-bit units.
    pub text: Text,
}

/// The lines that an expert printed, in order.
pub type PrintList = ItemList<Printed>;
