//! The reserved words of the language.
ghost use Rattle.std.specs.Prelude.{◌≡◌, ◌↔◌, ℕ, List, Some, bytes_eq};
ghost use Rattle.mql_spelling.specs.declared.reserved.ReservedWord as words;
ghost use Rattle.mql_spelling.specs.ReservedWords.{word_spelling, reserved_word};
ghost use Rattle.mql_spelling.specs.Spelled.{spelled_among};

use crate::units::is_spelled;

/// A reserved word: a name that the language keeps for itself.
#[derive(Clone, Copy, Debug, PartialEq, Eq)]
pub enum ReservedWord {
    /// `bool`
    Bool,
    /// `char`
    Char,
    /// `uchar`
    Uchar,
    /// `short`
    Short,
    /// `ushort`
    Ushort,
    /// `int`
    Int,
    /// `uint`
    Uint,
    /// `long`
    Long,
    /// `ulong`
    Ulong,
    /// `datetime`
    Datetime,
    /// `color`
    Color,
    /// `double`
    Double,
    /// `string`
    String,
    /// `void`
    Void,
    /// `true`
    True,
    /// `false`
    False,
    /// `NULL`
    Null,
    /// `this`
    This,
    /// `input`
    Input,
    /// `sinput`
    StaticInput,
    /// `static`
    Static,
    /// `const`
    Const,
    /// `template`
    Template,
    /// `enum`
    Enum,
    /// `class`
    Class,
    /// `struct`
    Struct,
    /// `interface`
    Interface,
    /// `public`
    Public,
    /// `protected`
    Protected,
    /// `private`
    Private,
    /// `virtual`
    Virtual,
    /// `override`
    Override,
    /// `if`
    If,
    /// `else`
    Else,
    /// `while`
    While,
    /// `do`
    Do,
    /// `for`
    For,
    /// `switch`
    Switch,
    /// `case`
    Case,
    /// `default`
    Default,
    /// `break`
    Break,
    /// `continue`
    Continue,
    /// `return`
    Return,
    /// `delete`
    Delete,
    /// `new`
    New,
    /// `dynamic_cast`
    DynamicCast,
    /// `float`
    Float,
    /// `union`
    Union,
    /// `sizeof`
    Sizeof,
    /// `operator`
    Operator,
    /// `namespace`
    Namespace,
}

/// Each reserved word.
pub const RESERVED_WORDS: [ReservedWord; 51] = [
    ReservedWord::Bool,
    ReservedWord::Char,
    ReservedWord::Uchar,
    ReservedWord::Short,
    ReservedWord::Ushort,
    ReservedWord::Int,
    ReservedWord::Uint,
    ReservedWord::Long,
    ReservedWord::Ulong,
    ReservedWord::Datetime,
    ReservedWord::Color,
    ReservedWord::Double,
    ReservedWord::String,
    ReservedWord::Void,
    ReservedWord::True,
    ReservedWord::False,
    ReservedWord::Null,
    ReservedWord::This,
    ReservedWord::Input,
    ReservedWord::StaticInput,
    ReservedWord::Static,
    ReservedWord::Const,
    ReservedWord::Template,
    ReservedWord::Enum,
    ReservedWord::Class,
    ReservedWord::Struct,
    ReservedWord::Interface,
    ReservedWord::Public,
    ReservedWord::Protected,
    ReservedWord::Private,
    ReservedWord::Virtual,
    ReservedWord::Override,
    ReservedWord::If,
    ReservedWord::Else,
    ReservedWord::While,
    ReservedWord::Do,
    ReservedWord::For,
    ReservedWord::Switch,
    ReservedWord::Case,
    ReservedWord::Default,
    ReservedWord::Break,
    ReservedWord::Continue,
    ReservedWord::Return,
    ReservedWord::Delete,
    ReservedWord::New,
    ReservedWord::DynamicCast,
    ReservedWord::Float,
    ReservedWord::Union,
    ReservedWord::Sizeof,
    ReservedWord::Operator,
    ReservedWord::Namespace,
];

impl ReservedWord {
    /// How it is spelled.
    #[tactic(auto, unfolding(crate::specs::ReservedWords::word_spelling))]
    pub fn spelling(self) -> &'static [u8]
        ensures { result.now ≡ word_spelling self }
    {
        match self {
            ReservedWord::Bool => b"bool".as_slice(),
            ReservedWord::Char => b"char".as_slice(),
            ReservedWord::Uchar => b"uchar".as_slice(),
            ReservedWord::Short => b"short".as_slice(),
            ReservedWord::Ushort => b"ushort".as_slice(),
            ReservedWord::Int => b"int".as_slice(),
            ReservedWord::Uint => b"uint".as_slice(),
            ReservedWord::Long => b"long".as_slice(),
            ReservedWord::Ulong => b"ulong".as_slice(),
            ReservedWord::Datetime => b"datetime".as_slice(),
            ReservedWord::Color => b"color".as_slice(),
            ReservedWord::Double => b"double".as_slice(),
            ReservedWord::String => b"string".as_slice(),
            ReservedWord::Void => b"void".as_slice(),
            ReservedWord::True => b"true".as_slice(),
            ReservedWord::False => b"false".as_slice(),
            ReservedWord::Null => b"NULL".as_slice(),
            ReservedWord::This => b"this".as_slice(),
            ReservedWord::Input => b"input".as_slice(),
            ReservedWord::StaticInput => b"sinput".as_slice(),
            ReservedWord::Static => b"static".as_slice(),
            ReservedWord::Const => b"const".as_slice(),
            ReservedWord::Template => b"template".as_slice(),
            ReservedWord::Enum => b"enum".as_slice(),
            ReservedWord::Class => b"class".as_slice(),
            ReservedWord::Struct => b"struct".as_slice(),
            ReservedWord::Interface => b"interface".as_slice(),
            ReservedWord::Public => b"public".as_slice(),
            ReservedWord::Protected => b"protected".as_slice(),
            ReservedWord::Private => b"private".as_slice(),
            ReservedWord::Virtual => b"virtual".as_slice(),
            ReservedWord::Override => b"override".as_slice(),
            ReservedWord::If => b"if".as_slice(),
            ReservedWord::Else => b"else".as_slice(),
            ReservedWord::While => b"while".as_slice(),
            ReservedWord::Do => b"do".as_slice(),
            ReservedWord::For => b"for".as_slice(),
            ReservedWord::Switch => b"switch".as_slice(),
            ReservedWord::Case => b"case".as_slice(),
            ReservedWord::Default => b"default".as_slice(),
            ReservedWord::Break => b"break".as_slice(),
            ReservedWord::Continue => b"continue".as_slice(),
            ReservedWord::Return => b"return".as_slice(),
            ReservedWord::Delete => b"delete".as_slice(),
            ReservedWord::New => b"new".as_slice(),
            ReservedWord::DynamicCast => b"dynamic_cast".as_slice(),
            ReservedWord::Float => b"float".as_slice(),
            ReservedWord::Union => b"union".as_slice(),
            ReservedWord::Sizeof => b"sizeof".as_slice(),
            ReservedWord::Operator => b"operator".as_slice(),
            ReservedWord::Namespace => b"namespace".as_slice(),
        }
    }
}

/// Whether the name is the word's.
fn spells(word: ReservedWord, name: &[u16]) -> bool
    ensures { result ≡ bytes_eq name.now (word_spelling word) }
{
    is_spelled(name, word.spelling())
}

/// The first of some words that is spelled so.
fn word_among(words: &[ReservedWord], name: &[u16]) -> Option<ReservedWord>
    ensures { result ≡ spelled_among word_spelling words.now name.now }
{
    let mut rest = words;
    while let [word, others @ ..] = rest {
        if spells(*word, name) {
            return Some(*word);
        }
        rest = others;
    }
    None
}

/// The reserved word that is spelled so.
#[tactic(auto, unfolding(crate::specs::ReservedWords::reserved_word))]
pub fn reserved_word(name: &[u16]) -> Option<ReservedWord>
    ensures { result ≡ reserved_word name.now }
{
    word_among(&RESERVED_WORDS, name)
}

/// A name is a reserved word exactly where it is that word's spelling.
pub fn words_by_spelling()
    ensures { (name : List ℕ) (word : words.ReservedWord)
        → (reserved_word name ≡ Some word) ↔ (name ≡ word_spelling word) }
{}
