//! The units of names and numbers.
ghost use Rattle.std.specs.Prelude.{◌≡◌, bytes_eq};
ghost use Rattle.mql_spelling.specs.Lexeme.{is_hex_digit, is_letter, is_word_unit};
ghost use Rattle.fx8.specs.Decimals.{is_digit};

/// Whether the unit is a digit.
pub fn is_digit(unit: u16) -> bool
    ensures { result ≡ is_digit unit }
{
    48 <= unit && unit <= 57
}

/// Whether the unit is a hexadecimal digit.
pub fn is_hex_digit(unit: u16) -> bool
    ensures { result ≡ is_hex_digit unit }
{
    is_digit(unit) || (97 <= unit && unit <= 102) || (65 <= unit && unit <= 70)
}

/// Whether the unit is an ASCII letter or `_`.
pub fn is_letter(unit: u16) -> bool
    ensures { result ≡ is_letter unit }
{
    (97 <= unit && unit <= 122) || (65 <= unit && unit <= 90) || unit == 95
}

/// Whether a name goes on with the unit.
pub fn is_word_unit(unit: u16) -> bool
    ensures { result ≡ is_word_unit unit }
{
    is_letter(unit) || is_digit(unit)
}

/// Whether units are those of an ASCII text.
pub fn is_spelled(units: &[u16], spelling: &[u8]) -> bool
    ensures { result ≡ bytes_eq units.now spelling.now }
{
    match units {
        [] => spelling.is_empty(),
        [unit, others @ ..] => match spelling {
            [] => false,
            [byte, bytes @ ..] => *unit == u16::from(*byte) && is_spelled(others, bytes),
        },
    }
}
