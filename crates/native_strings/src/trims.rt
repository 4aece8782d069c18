//! Texts without blanks at their ends (MQL5 Reference, StringTrimLeft, StringTrimRight).
ghost use Rattle.std.specs.Prelude.{◌≡◌};
ghost use Rattle.mql_meaning.specs.StringFunctions.{is_space, trimmed_left, trimmed_right};

/// Whether a unit is a blank, a tab or a line end.
fn is_space(unit: u16) -> bool
    ensures { result ≡ is_space unit }
{
    unit == 32 || unit == 9 || unit == 13 || unit == 10
}

/// A text without the blanks, tabs and line ends at its beginning.
#[tactic(auto, using(crate::proofs::Blanks::space_first, crate::proofs::Blanks::other_first, crate::proofs::Blanks::nothing_first))]
pub fn trimmed_left(text: &[u16]) -> &[u16]
    ensures { result.now ≡ trimmed_left text.now }
{
    let mut rest = text;
    while let [unit, units @ ..] = rest {
        if !is_space(*unit) {
            return rest;
        }
        rest = units;
    }
    rest
}

/// A text without the blanks, tabs and line ends at its end.
#[tactic(auto, using(crate::proofs::Blanks::space_last, crate::proofs::Blanks::other_last))]
pub fn trimmed_right(text: &[u16]) -> &[u16]
    ensures { result.now ≡ trimmed_right text.now }
{
    let mut end = text.len();
    while end > 0 {
        if !is_space(text[end - 1]) {
            return &text[..end];
        }
        end -= 1;
    }
    &[]
}
