//! The rules of declarations, each at what it speaks of.
ghost use Rattle.std.specs.Prelude.{◌≡◌, ℕ, false, List, [], ◌∷◌};
ghost use Rattle.mql_names.specs.Maps.{meaning};
ghost use Rattle.mql_names.specs.Things.{type_things};
ghost use Rattle.mql_names.specs.Things as thing;
ghost use Rattle.mql_names.specs.Types.{type_place};
ghost use Rattle.std.specs.List.{flat_map};
ghost use Rattle.mql_names.specs.Faults.{told};
ghost use Rattle.mql_names.specs.Rules.{told_of, event_breaks, is_unknown, is_open, some_open, later_open, has_default, lacks_after};

use crate::event::{other_event, some_event};
use crate::fault::{Broken, break_if, sooner};
use crate::types::{Meanings, Sort, type_sort};
use mql_syntax::{Dimension, Function, Item, Param, Place, Start, Syntax, TypeUse, Variable};

/// Whether a type is none.
pub fn is_unknown(sort: Sort) -> bool
    ensures { result ≡ is_unknown sort }
{
    match sort {
        Sort::Unknown => true,
        _ => false,
    }
}

/// The place of a type that is written.
pub fn type_place(of: &TypeUse) -> Place
    ensures { result ≡ type_place of.now }
{
    match of {
        TypeUse::Named { place, .. } => *place,
    }
}

/// What a type that is written breaks.
#[tactic(auto, using(crate::proofs::Joined::at_type))]
pub(crate) fn type_told(names: &Meanings<'_>, of: &TypeUse) -> Option<Broken>
    ensures { result ≡ told_of (meaning names.now) (type_things of.now) }
{
    break_if(is_unknown(type_sort(names, of)), 2, type_place(of))
}

fn is_open(dimension: &Dimension) -> bool
    ensures { result ≡ is_open dimension.now }
{
    match dimension {
        Dimension::Open => true,
        Dimension::Size(_) => false,
    }
}

fn some_open(dimensions: &[Dimension]) -> bool
    ensures { result ≡ some_open dimensions.now }
{
    let mut rest = dimensions;
    while let [dimension, others @ ..] = rest {
        if is_open(dimension) {
            return true;
        }
        rest = others;
    }
    false
}

fn later_open(dimensions: &[Dimension]) -> bool
    ensures { result ≡ later_open dimensions.now }
{
    match dimensions {
        [] => false,
        [_first, others @ ..] => some_open(others),
    }
}

/// What a variable, a field or a parameter breaks.
#[tactic(auto, using(crate::proofs::Joined::at_variable))]
pub(crate) fn variable_told(names: &Meanings<'_>, v: &Variable) -> Option<Broken>
    ensures { (locals : List (List ℕ)) →
        result ≡ told_of (meaning names.now) (thing.variable locals v.now ∷ []) }
{
    let dimensions = v.dimensions.as_slice();
    let broken = dimensions.len() > 4 || later_open(dimensions);
    break_if(broken, 12, v.place)
}

/// Whether a parameter has a default.
pub fn has_default(param: &Param) -> bool
    ensures { result ≡ has_default param.now }
{
    match &param.variable.start {
        Start::Zero => false,
        Start::Value(_) | Start::Arguments(_) => true,
    }
}

fn lacks_default(params: &[Param]) -> bool
    ensures { result ≡ lacks_after false params.now }
{
    let mut had = false;
    let mut rest = params;
    while let [param, others @ ..] = rest {
        let has = has_default(param);
        if had && !has {
            return true;
        }
        had = had || has;
        rest = others;
    }
    false
}

/// What a function breaks.
#[tactic(auto, using(crate::proofs::Joined::at_function))]
pub(crate) fn function_told(names: &Meanings<'_>, f: &Function) -> Option<Broken>
    ensures { result ≡ told_of (meaning names.now) (thing.function f.now ∷ []) }
{
    sooner(
        break_if(f.result.is_none(), 2, f.place),
        break_if(lacks_default(f.params.as_slice()), 15, f.place),
    )
}

fn event_told(names: &Meanings<'_>, item: &Item) -> Option<Broken>
    ensures { result ≡ told (event_breaks (meaning names.now) item.now) }
{
    match item {
        Item::Function(f) => break_if(other_event(names, f), 16, f.place),
        _ => None,
    }
}

fn events_told(names: &Meanings<'_>, items: &[Item]) -> Option<Broken>
    ensures { result ≡ told (flat_map (event_breaks (meaning names.now)) items.now) }
{
    let mut told: Option<Broken> = None;
    for item in items {
        told = sooner(told, event_told(names, item));
    }
    told
}

/// What a program breaks as a whole.
pub(crate) fn program_told(names: &Meanings<'_>, syntax: &Syntax) -> Option<Broken>
    ensures { result ≡ told_of (meaning names.now) (thing.program syntax.now ∷ []) }
{
    sooner(
        events_told(names, syntax.items.as_slice()),
        break_if(!some_event(syntax.items.as_slice()), 16, syntax.place),
    )
}
