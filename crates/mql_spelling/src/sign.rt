//! The signs of the language.
ghost use Rattle.std.specs.Prelude.{◌≡◌, ◌↔◌, ℕ, List, Some, bytes_eq};
ghost use Rattle.mql_spelling.specs.declared.sign.Sign as signs;
ghost use Rattle.mql_spelling.specs.Signs.{sign_spelling, sign_number, same_sign, spelled_sign};
ghost use Rattle.mql_spelling.specs.Spelled.{spelled_among};

use crate::units::is_spelled;

/// A sign: a piece of text that is no name, no literal and no blank.
#[derive(Clone, Copy, Debug, PartialEq, Eq)]
pub enum Sign {
    /// `(`
    ParenthesisOpen,
    /// `)`
    ParenthesisClose,
    /// `[`
    BracketOpen,
    /// `]`
    BracketClose,
    /// `{`
    BraceOpen,
    /// `}`
    BraceClose,
    /// `;`
    Semicolon,
    /// `,`
    Comma,
    /// `.`
    Dot,
    /// `:`
    Colon,
    /// `::`
    DoubleColon,
    /// `?`
    Question,
    /// `~`
    Tilde,
    /// `!`
    Not,
    /// `+`
    Plus,
    /// `-`
    Minus,
    /// `*`
    Star,
    /// `/`
    Slash,
    /// `%`
    Percent,
    /// `<<`
    ShiftLeft,
    /// `>>`
    ShiftRight,
    /// `<`
    Less,
    /// `<=`
    LessOrEqual,
    /// `>`
    Greater,
    /// `>=`
    GreaterOrEqual,
    /// `==`
    Equal,
    /// `!=`
    NotEqual,
    /// `&`
    Ampersand,
    /// `^`
    Caret,
    /// `|`
    Bar,
    /// `&&`
    And,
    /// `||`
    Or,
    /// `=`
    Assign,
    /// `+=`
    PlusAssign,
    /// `-=`
    MinusAssign,
    /// `*=`
    StarAssign,
    /// `/=`
    SlashAssign,
    /// `%=`
    PercentAssign,
    /// `<<=`
    ShiftLeftAssign,
    /// `>>=`
    ShiftRightAssign,
    /// `&=`
    AmpersandAssign,
    /// `^=`
    CaretAssign,
    /// `|=`
    BarAssign,
    /// `++`
    Increment,
    /// `--`
    Decrement,
    /// `#`
    Hash,
}

/// Each sign, in the order of their numbers.
pub const SIGNS: [Sign; 46] = [
    Sign::ParenthesisOpen,
    Sign::ParenthesisClose,
    Sign::BracketOpen,
    Sign::BracketClose,
    Sign::BraceOpen,
    Sign::BraceClose,
    Sign::Semicolon,
    Sign::Comma,
    Sign::Dot,
    Sign::Colon,
    Sign::DoubleColon,
    Sign::Question,
    Sign::Tilde,
    Sign::Not,
    Sign::Plus,
    Sign::Minus,
    Sign::Star,
    Sign::Slash,
    Sign::Percent,
    Sign::ShiftLeft,
    Sign::ShiftRight,
    Sign::Less,
    Sign::LessOrEqual,
    Sign::Greater,
    Sign::GreaterOrEqual,
    Sign::Equal,
    Sign::NotEqual,
    Sign::Ampersand,
    Sign::Caret,
    Sign::Bar,
    Sign::And,
    Sign::Or,
    Sign::Assign,
    Sign::PlusAssign,
    Sign::MinusAssign,
    Sign::StarAssign,
    Sign::SlashAssign,
    Sign::PercentAssign,
    Sign::ShiftLeftAssign,
    Sign::ShiftRightAssign,
    Sign::AmpersandAssign,
    Sign::CaretAssign,
    Sign::BarAssign,
    Sign::Increment,
    Sign::Decrement,
    Sign::Hash,
];

impl Sign {
    /// How it is spelled.
    #[tactic(auto, unfolding(crate::specs::Signs::sign_spelling))]
    pub fn spelling(self) -> &'static [u8]
        ensures { result.now ≡ sign_spelling self }
    {
        match self {
            Sign::ParenthesisOpen => b"(".as_slice(),
            Sign::ParenthesisClose => b")".as_slice(),
            Sign::BracketOpen => b"[".as_slice(),
            Sign::BracketClose => b"]".as_slice(),
            Sign::BraceOpen => b"{".as_slice(),
            Sign::BraceClose => b"}".as_slice(),
            Sign::Semicolon => b";".as_slice(),
            Sign::Comma => b",".as_slice(),
            Sign::Dot => b".".as_slice(),
            Sign::Colon => b":".as_slice(),
            Sign::DoubleColon => b"::".as_slice(),
            Sign::Question => b"?".as_slice(),
            Sign::Tilde => b"~".as_slice(),
            Sign::Not => b"!".as_slice(),
            Sign::Plus => b"+".as_slice(),
            Sign::Minus => b"-".as_slice(),
            Sign::Star => b"*".as_slice(),
            Sign::Slash => b"/".as_slice(),
            Sign::Percent => b"%".as_slice(),
            Sign::ShiftLeft => b"<<".as_slice(),
            Sign::ShiftRight => b">>".as_slice(),
            Sign::Less => b"<".as_slice(),
            Sign::LessOrEqual => b"<=".as_slice(),
            Sign::Greater => b">".as_slice(),
            Sign::GreaterOrEqual => b">=".as_slice(),
            Sign::Equal => b"==".as_slice(),
            Sign::NotEqual => b"!=".as_slice(),
            Sign::Ampersand => b"&".as_slice(),
            Sign::Caret => b"^".as_slice(),
            Sign::Bar => b"|".as_slice(),
            Sign::And => b"&&".as_slice(),
            Sign::Or => b"||".as_slice(),
            Sign::Assign => b"=".as_slice(),
            Sign::PlusAssign => b"+=".as_slice(),
            Sign::MinusAssign => b"-=".as_slice(),
            Sign::StarAssign => b"*=".as_slice(),
            Sign::SlashAssign => b"/=".as_slice(),
            Sign::PercentAssign => b"%=".as_slice(),
            Sign::ShiftLeftAssign => b"<<=".as_slice(),
            Sign::ShiftRightAssign => b">>=".as_slice(),
            Sign::AmpersandAssign => b"&=".as_slice(),
            Sign::CaretAssign => b"^=".as_slice(),
            Sign::BarAssign => b"|=".as_slice(),
            Sign::Increment => b"++".as_slice(),
            Sign::Decrement => b"--".as_slice(),
            Sign::Hash => b"#".as_slice(),
        }
    }

    /// The number that a text shows, from 0 on.
    #[tactic(auto, unfolding(crate::specs::Signs::sign_number))]
    pub fn number(self) -> u8
        ensures { result ≡ sign_number self }
    {
        self as u8
    }

    /// Whether it is the other.
    pub fn is(self, other: Sign) -> bool
        ensures { result ≡ same_sign self other }
    {
        self.number() == other.number()
    }
}

/// Whether the units are the sign's.
fn spells(sign: Sign, units: &[u16]) -> bool
    ensures { result ≡ bytes_eq units.now (sign_spelling sign) }
{
    is_spelled(units, sign.spelling())
}

/// The first of some signs that is spelled so.
fn sign_among(signs: &[Sign], units: &[u16]) -> Option<Sign>
    ensures { result ≡ spelled_among sign_spelling signs.now units.now }
{
    let mut rest = signs;
    while let [sign, others @ ..] = rest {
        if spells(*sign, units) {
            return Some(*sign);
        }
        rest = others;
    }
    None
}

/// The sign that is spelled so.
#[tactic(auto, unfolding(crate::specs::Signs::spelled_sign))]
pub(crate) fn spelled_sign(units: &[u16]) -> Option<Sign>
    ensures { result ≡ spelled_sign units.now }
{
    sign_among(&SIGNS, units)
}

/// A text is a sign exactly where it is that sign's spelling.
pub fn signs_by_spelling()
    ensures { (units : List ℕ) (sign : signs.Sign) → (spelled_sign units ≡ Some sign)
        ↔ (units ≡ sign_spelling sign) }
{}
