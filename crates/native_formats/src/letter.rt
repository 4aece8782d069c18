//! Letters of conversions.

/// The letter of a conversion: what an argument is written as.
#[derive(Clone, Copy, Debug, PartialEq, Eq)]
pub enum Letter {
    /// `d`: a `long` in decimal.
    D,
    /// `i`: a `long` in decimal.
    I,
    /// `u`: a `ulong` in decimal.
    U,
    /// `x`: a `ulong` to the base of 16, with small letters.
    SmallX,
    /// `X`: a `ulong` to the base of 16, with capital letters.
    CapitalX,
    /// `c`: a `ushort` as a unit.
    C,
    /// `s`: a text.
    S,
    /// `f`: a `double` with decimals.
    F,
    /// `%`: a percent sign, of no argument.
    Percent,
}
