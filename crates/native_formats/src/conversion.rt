//! What a conversion says.
ghost use Rattle.std.specs.Prelude.{◌≤◌};
ghost use Rattle.mql_meaning.specs.Formats.{precision_or};

use crate::letter::Letter;

/// A conversion: what stands between a `%` and the text behind the letter.
#[derive(Clone, Copy, Debug, PartialEq, Eq)]
pub struct Conversion {
    /// `-`: what is written stands at the left of its width.
    pub left: bool,
    /// `0`: zeros fill the width.
    pub zeros: bool,
    /// `+`: a number that is not below 0 has a sign.
    pub plus: bool,
    /// How many units are written at least.
    pub width: u32,
    /// The digit behind a point, at most 8.
    pub precision: Option<u8>,
    /// What an argument is written as.
    pub letter: Letter,
    pub ghost few: { precision_or 6 precision ≤ 8 },
}
