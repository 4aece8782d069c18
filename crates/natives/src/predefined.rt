//! The predefined names.
ghost use Rattle.std.specs.Prelude.{◌≡◌, ◌↔◌, ℕ, List, Some};
ghost use Rattle.natives.specs.declared.predefined.Predefined as predefineds;
ghost use Rattle.natives.specs.Structures.{predefined_spelling, predefined_named, predefined_kind};
ghost use Rattle.mql_spelling.specs.Spelled.{spelled_among};

use crate::types::SimpleType;
use fx8::IntKind;
use mql_spelling::is_spelled;

/// A predefined name (MQL5 Reference, Predefined Variables; Predefined Macro Substitutions).
#[derive(Clone, Copy, Debug, PartialEq, Eq)]
pub enum Predefined {
    /// `__FILE__`
    File,
    /// `__LINE__`
    Line,
    /// `__FUNCTION__`
    Function,
    /// `_Symbol`
    Symbol,
    /// `_Period`
    Period,
    /// `_Point`
    Point,
    /// `_Digits`
    Digits,
    /// `_LastError`
    Lasterror,
}

/// Each of them, in order.
pub const PREDEFINEDS: [Predefined; 8] = [
    Predefined::File,
    Predefined::Line,
    Predefined::Function,
    Predefined::Symbol,
    Predefined::Period,
    Predefined::Point,
    Predefined::Digits,
    Predefined::Lasterror,
];

impl Predefined {
    /// How it is spelled.
    #[tactic(auto, unfolding(crate::specs::Structures::predefined_spelling))]
    pub fn spelling(self) -> &'static [u8]
        ensures { result.now ≡ predefined_spelling self }
    {
        match self {
            Predefined::File => b"__FILE__".as_slice(),
            Predefined::Line => b"__LINE__".as_slice(),
            Predefined::Function => b"__FUNCTION__".as_slice(),
            Predefined::Symbol => b"_Symbol".as_slice(),
            Predefined::Period => b"_Period".as_slice(),
            Predefined::Point => b"_Point".as_slice(),
            Predefined::Digits => b"_Digits".as_slice(),
            Predefined::Lasterror => b"_LastError".as_slice(),
        }
    }

    /// The type of its value.
    pub fn kind(self) -> SimpleType
        ensures { result ≡ predefined_kind self }
    {
        match self {
            Predefined::File => SimpleType::String,
            Predefined::Line => SimpleType::Integer(IntKind::Int),
            Predefined::Function => SimpleType::String,
            Predefined::Symbol => SimpleType::String,
            Predefined::Period => SimpleType::Integer(IntKind::Int),
            Predefined::Point => SimpleType::Double,
            Predefined::Digits => SimpleType::Integer(IntKind::Int),
            Predefined::Lasterror => SimpleType::Integer(IntKind::Int),
        }
    }
}

/// The first of some of them that is spelled so.
fn predefined_among(predefineds: &[Predefined], units: &[u16]) -> Option<Predefined>
    ensures { result ≡ spelled_among predefined_spelling predefineds.now units.now }
{
    let mut rest = predefineds;
    while let [predefined, others @ ..] = rest {
        if is_spelled(units, predefined.spelling()) {
            return Some(*predefined);
        }
        rest = others;
    }
    None
}

/// The one that is spelled so, if there is one.
#[tactic(auto, unfolding(crate::specs::Structures::predefined_named))]
pub fn predefined_named(units: &[u16]) -> Option<Predefined>
    ensures { result ≡ predefined_named units.now }
{
    predefined_among(&PREDEFINEDS, units)
}

/// A text is a predefined name exactly where it is that name's spelling.
pub fn predefineds_by_spelling()
    ensures { (units : List ℕ) (predefined : predefineds.Predefined)
        → (predefined_named units ≡ Some predefined) ↔ (units ≡ predefined_spelling predefined) }
{}
