//! Types, and what names of the program's own scope mean.
ghost use Rattle.std.specs.Prelude.{◌≡◌, [], ◌∷◌, ◌++◌, IfOk, if◌then◌else◌};
ghost use Rattle.mql_names.specs.Maps.{meaning};
ghost use Rattle.mql_names.specs.Types.{word_sort, meaning_sort, supplied_sort, own_sort, named_sort, type_sort, type_name, type_key, key_of, param_key, param_keys, bracket, brackets, is_defined, form_of};

use fx8::{IntKind, OutOfMemory, Text};
use mql_spelling::{ReservedWord, reserved_word};
use mql_syntax::{Body, Dimension, Function, Param, TypeUse};
use natives::{SimpleType, SuppliedType, supplied_named};
use std::alloc::Global;
use std::collections::BTreeMap;

/// What a type is.
#[derive(Clone, Copy, Debug, PartialEq, Eq)]
pub enum Sort {
    /// `void`
    Void,
    /// A simple type, or another name of `int`.
    Simple(SimpleType),
    /// An enumeration of the program.
    Enumeration,
    /// A structure, of the program or supplied.
    Structure,
    /// No type.
    Unknown,
}

/// What a name of the program's own scope means.
#[derive(Clone, Copy, Debug, PartialEq, Eq)]
pub enum Meaning {
    /// A structure that is defined.
    Structure,
    /// An enumeration.
    Enumeration,
    /// A member of an enumeration.
    Member,
    /// A variable or a function.
    Other,
}

/// What each name of the program's own scope means.
pub type Meanings<'a> = BTreeMap<&'a [u16], Meaning>;

#[tactic(auto, unfolding(crate::specs::Maps::meaning))]
pub fn meaning_of(names: &Meanings<'_>, name: &[u16]) -> Option<Meaning>
    ensures { result ≡ meaning names.now name.now }
{
    match names.get(name) {
        Some(means) => Some(*means),
        None => None,
    }
}

#[tactic(auto, unfolding(crate::specs::Types::word_sort))]
fn word_sort(word: ReservedWord) -> Sort
    ensures { result ≡ word_sort word }
{
    match word {
        ReservedWord::Void => Sort::Void,
        ReservedWord::Bool => Sort::Simple(SimpleType::Integer(IntKind::Bool)),
        ReservedWord::Char => Sort::Simple(SimpleType::Integer(IntKind::Char)),
        ReservedWord::Uchar => Sort::Simple(SimpleType::Integer(IntKind::Uchar)),
        ReservedWord::Short => Sort::Simple(SimpleType::Integer(IntKind::Short)),
        ReservedWord::Ushort => Sort::Simple(SimpleType::Integer(IntKind::Ushort)),
        ReservedWord::Int => Sort::Simple(SimpleType::Integer(IntKind::Int)),
        ReservedWord::Uint => Sort::Simple(SimpleType::Integer(IntKind::Uint)),
        ReservedWord::Long => Sort::Simple(SimpleType::Integer(IntKind::Long)),
        ReservedWord::Ulong => Sort::Simple(SimpleType::Integer(IntKind::Ulong)),
        ReservedWord::Datetime => Sort::Simple(SimpleType::Integer(IntKind::Datetime)),
        ReservedWord::Color => Sort::Simple(SimpleType::Integer(IntKind::Color)),
        ReservedWord::Double => Sort::Simple(SimpleType::Double),
        ReservedWord::String => Sort::Simple(SimpleType::String),
        _ => Sort::Unknown,
    }
}

fn meaning_sort(means: Meaning) -> Sort
    ensures { result ≡ meaning_sort means }
{
    match means {
        Meaning::Structure => Sort::Structure,
        Meaning::Enumeration => Sort::Enumeration,
        Meaning::Member | Meaning::Other => Sort::Unknown,
    }
}

fn supplied_sort(supplied: Option<SuppliedType>) -> Sort
    ensures { result ≡ supplied_sort supplied }
{
    match supplied {
        None => Sort::Unknown,
        Some(one) => match one.structure() {
            None => Sort::Simple(SimpleType::Integer(IntKind::Int)),
            Some(_) => Sort::Structure,
        },
    }
}

#[tactic(auto, unfolding(crate::specs::Types::own_sort))]
fn own_sort(names: &Meanings<'_>, name: &[u16]) -> Sort
    ensures { result ≡ own_sort (meaning names.now) name.now }
{
    match meaning_of(names, name) {
        Some(means) => meaning_sort(means),
        None => supplied_sort(supplied_named(name)),
    }
}

/// What type a name is: a word of the language, a declared type or a supplied one.
#[tactic(auto, unfolding(crate::specs::Types::named_sort))]
pub fn named_sort(names: &Meanings<'_>, name: &[u16]) -> Sort
    ensures { result ≡ named_sort (meaning names.now) name.now }
{
    match reserved_word(name) {
        Some(word) => word_sort(word),
        None => own_sort(names, name),
    }
}

/// What the type is that is written.
pub fn type_sort(names: &Meanings<'_>, of: &TypeUse) -> Sort
    ensures { result ≡ type_sort (meaning names.now) of.now }
{
    match of {
        TypeUse::Named { name, .. } => named_sort(names, name.as_slice()),
    }
}

/// The name of a type that is written.
pub fn type_name(of: &TypeUse) -> &[u16]
    ensures { result.now ≡ type_name of.now }
{
    match of {
        TypeUse::Named { name, .. } => name.as_slice(),
    }
}

const INT: [u16; 3] = [105, 110, 116];

fn key_of(sort: Sort, name: &[u16]) -> &[u16]
    ensures { result.now ≡ key_of sort name.now }
{
    match sort {
        Sort::Simple(SimpleType::Integer(IntKind::Int)) => &INT,
        _ => name,
    }
}

/// How the type is spelled that is written.
#[tactic(auto, unfolding(crate::specs::Types::type_key))]
pub fn type_key<'a>(names: &Meanings<'_>, of: &'a TypeUse) -> &'a [u16]
    ensures { result.now ≡ type_key (meaning names.now) of.now }
{
    key_of(type_sort(names, of), type_name(of))
}

/// Whether a function has its body.
pub fn is_defined(body: &Body) -> bool
    ensures { result ≡ is_defined body.now }
{
    match body {
        Body::Block(_) => true,
        Body::Declared | Body::Pure => false,
    }
}

/// How the types of parameters are spelled, each with a comma behind it.
pub fn param_keys(
    alloc: Global,
    names: &Meanings<'_>,
    params: &[Param],
) -> Result<Text, OutOfMemory>
    ensures { IfOk result (λ text. text ≡ param_keys (meaning names.now) params.now) }
{
    let mut text = Text::new(alloc);
    for param in params {
        text = with_param(text, names, param)?;
    }
    Ok(text)
}

#[tactic(auto, unfolding(crate::specs::Types::param_key))]
fn with_param(mut text: Text, names: &Meanings<'_>, param: &Param) -> Result<Text, OutOfMemory>
    ensures { IfOk result (λ new. new ≡ text ++ param_key (meaning names.now) param.now) }
{
    text.extend_from_slice(type_key(names, &param.variable.of))?;
    text = with_brackets(text, param.variable.dimensions.as_slice())?;
    text.push(44)?;
    Ok(text)
}

fn with_brackets(mut text: Text, dimensions: &[Dimension]) -> Result<Text, OutOfMemory>
    ensures { IfOk result (λ new. new ≡ text ++ brackets dimensions.now) }
{
    for dimension in dimensions {
        text = with_bracket(text, dimension)?;
    }
    Ok(text)
}

fn with_bracket(mut text: Text, _dimension: &Dimension) -> Result<Text, OutOfMemory>
    ensures { IfOk result (λ new. new ≡ text ++ bracket _dimension.now) }
{
    text.extend_from_slice(&[91, 93])?;
    Ok(text)
}

/// How a function is spelled with the types of its parameters, and whether it is only announced.
#[tactic(auto, unfolding(crate::specs::Types::form_of))]
pub fn form_of(alloc: Global, names: &Meanings<'_>, f: &Function) -> Result<Text, OutOfMemory>
    ensures { IfOk result (λ text. text ≡ form_of (meaning names.now) f.now) }
{
    let mut text = Text::from_slice(alloc, f.name.as_slice())?;
    text.push(40)?;
    text.append(param_keys(alloc, names, f.params.as_slice())?)?;
    text.extend_from_slice(end_of(is_defined(&f.body)))?;
    Ok(text)
}

fn end_of(defined: bool) -> &'static [u16]
    ensures { result.now ≡ (if defined then 41 ∷ [] else 41 ∷ 59 ∷ []) }
{
    if defined { &[41] } else { &[41, 59] }
}
