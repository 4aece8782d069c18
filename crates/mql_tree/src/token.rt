//! Tokens and trees.
ghost use Rattle.std.specs.Prelude.{◌≡◌};
ghost use Rattle.std.specs.Option.{option_copied};
ghost use Rattle.mql_tree.specs.TokenSorts.{name_of, is_sign};

use fx8::{Fix8, IntKind, ItemList, OutOfMemory, Text};
use mql_forms::Form;
use mql_spelling::Sign;
use thiserror::Error;

/// Where a token stands: the file's number, the line from 1 on, and the places of its first unit and behind
/// its last.
#[derive(Clone, Copy, Debug, PartialEq, Eq)]
pub struct Span {
    pub file: u32,
    pub line: u32,
    pub start: u32,
    pub end: u32,
}

/// Where an included file is looked for.
#[derive(Clone, Copy, Debug, PartialEq, Eq)]
pub enum IncludePlace {
    /// Beside the file that includes it: its name stands in quotation marks.
    BesideFile,
    /// Among the supplied files: its name stands in angle brackets.
    Supplied,
}

/// A token of the language.
#[derive(Debug, Drop)]
pub enum Token {
    /// A name or a reserved word.
    Name(Text),
    /// An integer, a character, a date or a color, with its kind.
    Int { value: u64, kind: IntKind },
    /// A `double`.
    Double(Fix8),
    /// A string, with its escapes resolved.
    Str(Text),
    /// A sign.
    Sign(Sign),
    /// The name of an included file, and where it is looked for.
    IncludeName { name: Text, place: IncludePlace },
    /// The end of a directive's line.
    LineEnd,
}

impl Token {
    /// The name or reserved word that it is.
    pub fn name(&self) -> Option<&Text>
        ensures { option_copied result ≡ name_of self.now }
    {
        match self {
            Token::Name(name) => Some(name),
            _ => None,
        }
    }

    /// Whether it is the sign.
    pub fn is_sign(&self, sign: Sign) -> bool
        ensures { result ≡ is_sign sign self.now }
    {
        match self {
            Token::Sign(own) => own.is(sign),
            _ => false,
        }
    }
}

/// Tokens with their places, in the order of the text.
pub type Tokens = ItemList<(Token, Span)>;

/// Why a text is not one of tokens, and where.
#[derive(Clone, Copy, Debug, PartialEq, Eq, Error)]
pub enum LexFault {
    /// No beginning of the rest spells a token.
    #[error("no token at line {}", .0.line)]
    NoToken(Span),
    /// A name has more than 63 characters.
    #[error("a name is too long at line {}", .0.line)]
    NameTooLong(Span),
    /// A number is too large for every type of its form.
    #[error("a number is too large at line {}", .0.line)]
    NumberTooLarge(Span),
    /// A comment is not closed.
    #[error("an open comment at line {}", .0.line)]
    OpenComment(Span),
    /// A string is not closed on its line.
    #[error("an open string at line {}", .0.line)]
    OpenString(Span),
    /// There was no memory.
    #[error("out of memory")]
    OutOfMemory,
}

impl From<OutOfMemory> for LexFault {
    ghost use Rattle.std.specs.Prelude.{◌≡◌};
    ghost use Rattle.mql_tree.specs.declared.token.LexFault.TheVariants as faults;

    ghost from_gives = { λ _ e. e ≡ faults.OutOfMemory };

    fn from(_error: OutOfMemory) -> LexFault {
        LexFault::OutOfMemory
    }
}

/// A tree over tokens: a token by its place, or a node of a form of the grammar with its parts.
#[derive(Debug, Drop)]
pub enum Tree {
    Leaf { token: u32 },
    Node { form: Form, parts: TreeList },
}

/// Trees, as the parts of a node.
pub type TreeList = ItemList<Tree>;
