//! The names of a scope.
ghost use Rattle.std.specs.Prelude.{◌≡◌, ℕ, List, [], ◌∷◌, ◌++◌, ◌||◌, bytes_eq, IfOk};
ghost use Rattle.mql_names.specs.declared.scope.Named.{Named};
ghost use Rattle.mql_names.specs.Faults.{break_if, told};
ghost use Rattle.mql_names.specs.Scopes.{is_taken, repeated};
ghost use Rattle.mql_names.specs.Maps.{Holds, has};

use crate::fault::{Broken, break_if, sooner};
use fx8::{OutOfMemory, Text};
use mql_syntax::Place;
use std::alloc::Global;
use std::collections::BTreeMap;

/// A name that a scope declares.
#[derive(Drop)]
pub struct Named {
    /// Where it is declared.
    pub place: Place,
    pub name: Text,
    /// Of a function how it is spelled with the types of its parameters, and whether it is only announced.
    pub form: Option<Text>,
}

/// A set of names.
type Names<'a> = BTreeMap<&'a [u16], bool>;

/// The names that are taken: all of them, those of no function, and the forms of functions.
#[derive(Drop)]
struct Taken<'a> {
    all: Names<'a>,
    plain: Names<'a>,
    forms: Names<'a>,
}

#[tactic(auto, unfolding(crate::specs::Maps::has))]
fn is_in(names: &Names<'_>, name: &[u16]) -> bool
    ensures { result ≡ has names.now name.now }
{
    match names.get(name) {
        Some(is) => *is,
        None => false,
    }
}

fn with<'a>(mut names: Names<'a>, name: &'a [u16]) -> Result<Names<'a>, OutOfMemory>
    ensures { IfOk result (λ new. (q : List ℕ) → has new q ≡ (bytes_eq name.now q || has names.entry q)) }
{
    names.insert(name, true)?;
    Ok(names)
}

/// Whether a name is taken by those that were declared before.
fn is_taken(taken: &Taken<'_>, named: &Named) -> bool
    ensures { (before : List Named) → Holds taken.now before → result ≡ is_taken before named.now }
{
    match &named.form {
        None => is_in(&taken.all, named.name.as_slice()),
        Some(form) => {
            is_in(&taken.plain, named.name.as_slice()) || is_in(&taken.forms, form.as_slice())
        }
    }
}

/// The names with one more.
fn with_named<'a>(taken: Taken<'a>, named: &'a Named) -> Result<Taken<'a>, OutOfMemory>
    ensures { IfOk result (λ new. (before : List Named) → Holds taken.entry before →
        Holds new (before ++ named.now ∷ [])) }
{
    let Taken { all, plain, forms } = taken;
    let all = with(all, named.name.as_slice())?;
    match &named.form {
        None => {
            let plain = with(plain, named.name.as_slice())?;
            Ok(Taken { all, plain, forms })
        }
        Some(form) => {
            let forms = with(forms, form.as_slice())?;
            Ok(Taken { all, plain, forms })
        }
    }
}

/// The first of the names that were declared before in their scope.
pub(crate) fn repeated(alloc: Global, names: &[Named]) -> Result<Option<Broken>, OutOfMemory>
    ensures { IfOk result (λ broken. broken ≡ told (repeated [] names.now)) }
{
    let mut taken = Taken {
        all: BTreeMap::new(alloc),
        plain: BTreeMap::new(alloc),
        forms: BTreeMap::new(alloc),
    };
    let mut first: Option<Broken> = None;
    for named in names {
        first = sooner(first, break_if(is_taken(&taken, named), 1, named.place));
        taken = with_named(taken, named)?;
    }
    Ok(first)
}
