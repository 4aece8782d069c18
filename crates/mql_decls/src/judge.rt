//! The refusal of a program.
ghost use Rattle.std.specs.Prelude.{◌≡◌, IfOk};
ghost use Rattle.mql_names.specs.Maps.{meaning};
ghost use Rattle.mql_names.specs.Faults.{told};
ghost use Rattle.mql_sizes.specs.Sizes.{breaks_in};
ghost use Rattle.mql_decls.specs.Rules as rules;

use crate::fault::Refusal;
use fx8::OutOfMemory;
use mql_names::{Broken, Meanings, meanings_of, sooner, told_with};
use mql_nesting::nesting_told;
use mql_parents::parents_told;
use mql_plain::first_off;
use mql_sizes::{EnumMembers, Values, enumerations_of, enumerations_told, sizes_told};
use mql_syntax::Syntax;
use mql_typing::bodies_told;
use std::alloc::Global;

/// What is told of enumerations and sizes of arrays.
fn constants_told(
    alloc: Global,
    names: &Meanings<'_>,
    syntax: &Syntax,
) -> Result<Option<Broken>, OutOfMemory>
    ensures { IfOk result (λ b. b ≡ told (breaks_in (meaning names.now) syntax.now)) }
{
    let (enumerations, values) = enumerations_of(alloc, names, syntax.items.as_slice())?;
    let of = enumerations_told(enumerations.as_slice());
    let sizes = sizes_told(alloc, names, &values, syntax)?;
    Ok(sooner(of, sizes))
}

/// What is told of a program's declarations, where names mean this.
fn all_told(
    alloc: Global,
    names: &Meanings<'_>,
    syntax: &Syntax,
) -> Result<Option<Broken>, OutOfMemory>
    ensures { IfOk result (λ b. b ≡ told (rules.all_breaks (meaning names.now) syntax.now)) }
{
    let of = told_with(alloc, names, syntax)?;
    let constants = constants_told(alloc, names, syntax)?;
    let bodies = bodies_told(alloc, syntax)?;
    let nesting = nesting_told(alloc, syntax)?;
    let parents = parents_told(alloc, names, syntax)?;
    Ok(sooner(
        sooner(of, sooner(constants, bodies)),
        sooner(nesting, parents),
    ))
}

/// The broken rule of a program's declarations that is told.
fn first_broken(alloc: Global, syntax: &Syntax) -> Result<Option<Broken>, OutOfMemory>
    ensures { IfOk result (λ b. b ≡ rules.first_broken syntax.now) }
{
    let names = meanings_of(alloc, syntax.items.as_slice())?;
    all_told(alloc, &names, syntax)
}

fn refusal_of(off: Option<Broken>, broken: Option<Broken>) -> Option<Refusal>
    ensures { result ≡ rules.refusal_of off broken }
{
    match off {
        Some(off) => Some(Refusal::NotPlain(off)),
        None => match broken {
            Some(broken) => Some(Refusal::Rule(broken)),
            None => None,
        },
    }
}

/// Why a program's declarations are refused, if they are: its first node that is not of the form of plain
/// programs, else the broken rule of the first node in the order of tokens, and at it the lowest rule.
#[tactic(auto, unfolding(crate::specs::Rules::refused))]
pub fn refused(alloc: Global, syntax: &Syntax) -> Result<Option<Refusal>, OutOfMemory>
    ensures { IfOk result (λ r. r ≡ rules.refused syntax.now) }
{
    let off = first_off(alloc, syntax)?;
    let broken = first_broken(alloc, syntax)?;
    Ok(refusal_of(off, broken))
}
