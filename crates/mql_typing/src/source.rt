//! A source's program, typed.
ghost use Rattle.std.specs.Prelude.{◌≡◌, [], List, IfOk};
ghost use Rattle.mql_names.specs.Faults.{told};
ghost use Rattle.mql_names.specs.Maps.{meaning};
ghost use Rattle.mql_names.specs.Meanings.{names_of};
ghost use Rattle.mql_sizes.specs.Maps.{value_at};
ghost use Rattle.mql_values.specs.Sources.{given_of, IsSourceOf};
ghost use Rattle.mql_program.specs.Programs.{program_of};
ghost use Rattle.mql_check.specs.Programs.{check, check_items, unmet_in};
ghost use Rattle.mql_typing.specs.Sources.{typed_by, typed, breaks_used};

use fx8::{ItemList, OutOfMemory, Text};
use mql_check::check_with;
use mql_meaning::Checked;
use mql_names::{Broken, Meanings, meanings_of};
use mql_program::{SourceFacts, tables_of};
use mql_sizes::{Values, enumerations_of};
use mql_syntax::{Item, Syntax};
use mql_tree::Tokens;
use mql_values::source_of;
use std::alloc::Global;

// What the names of a program mean.
#[tactic(auto, using(crate::proofs::Known::names_known))]
fn names_in(alloc: Global, items: &[Item]) -> Result<Meanings<'_>, OutOfMemory>
    ensures { IfOk result (λ m. meaning m ≡ names_of items.now) }
{
    let names = meanings_of(alloc, items)?;
    Ok(names)
}

// The values of the members of a program's enumerations.
#[tactic(auto, using(crate::proofs::Known::source_known))]
fn values_in<'a>(
    alloc: Global,
    names: &Meanings<'_>,
    items: &'a [Item],
) -> Result<Values<'a>, OutOfMemory>
    requires { meaning names.now ≡ names_of items.now }
    ensures { IfOk result (λ v. IsSourceOf items.now (meaning names.now) (value_at v)) }
{
    let (_, values) = enumerations_of(alloc, names, items)?;
    Ok(values)
}

// Items typed, by what is taken from their source.
fn typed_by<S: SourceFacts>(
    alloc: Global,
    source: &S,
    names: &Meanings<'_>,
    items: &[Item],
) -> Result<Result<Checked, Broken>, OutOfMemory>
    requires { meaning names.now ≡ names_of items.now }
    ensures { IfOk result (λ r. r ≡ typed_by (S.given source.now) items.now) }
{
    let program = tables_of(alloc, source, names, items)?;
    check_with(alloc, source, &program, items)
}

// What is told of functions that have no body, by what is taken from their source.
#[tactic(auto, using(crate::proofs::Known::program_names))]
fn unmet_by<S: SourceFacts>(
    alloc: Global,
    source: &S,
    names: &Meanings<'_>,
    items: &[Item],
) -> Result<Option<Broken>, OutOfMemory>
    requires { meaning names.now ≡ names_of items.now }
    ensures { IfOk result (λ b. b ≡ told (unmet_in (program_of (S.given source.now) items.now) items.now)) }
{
    let program = tables_of(alloc, source, names, items)?;
    mql_check::bodies_told(alloc, &program, names, items)
}

fn typed_with(
    alloc: Global,
    names: &Meanings<'_>,
    values: &Values<'_>,
    items: &[Item],
    tokens: &Tokens,
    files: &ItemList<Text>,
) -> Result<Result<Checked, Broken>, OutOfMemory>
    requires names { meaning names.now ≡ names_of items.now }
    requires values { IsSourceOf items.now (meaning names.now) (value_at values.now) }
    ensures { IfOk result (λ r. r ≡ typed items.now tokens.now files.now) }
{
    let source = source_of(names, values, tokens, files);
    typed_by(alloc, &source, names, items)
}

fn typed_items(
    alloc: Global,
    names: &Meanings<'_>,
    items: &[Item],
    tokens: &Tokens,
    files: &ItemList<Text>,
) -> Result<Result<Checked, Broken>, OutOfMemory>
    requires { meaning names.now ≡ names_of items.now }
    ensures { IfOk result (λ r. r ≡ typed items.now tokens.now files.now) }
{
    let values = values_in(alloc, names, items)?;
    typed_with(alloc, names, &values, items, tokens, files)
}

/// The typed program of a syntax that was made of these tokens in these files, or the broken rule that is told: that
/// of the first node in the order of tokens among those that break a rule while none below them breaks one, and the
/// lowest that it breaks.
#[tactic(auto, unfolding(mql_check::specs::Programs::check))]
pub fn check_source(
    alloc: Global,
    syntax: &Syntax,
    tokens: &Tokens,
    files: &ItemList<Text>,
) -> Result<Result<Checked, Broken>, OutOfMemory>
    ensures { IfOk result (λ r. r ≡ check (given_of syntax.now.items tokens.now files.now) syntax.now) }
{
    let items = syntax.items.as_slice();
    let names = names_in(alloc, items)?;
    typed_items(alloc, &names, items, tokens, files)
}

fn bodies_with(
    alloc: Global,
    names: &Meanings<'_>,
    values: &Values<'_>,
    items: &[Item],
    tokens: &Tokens,
    files: &ItemList<Text>,
) -> Result<Option<Broken>, OutOfMemory>
    requires names { meaning names.now ≡ names_of items.now }
    requires values { IsSourceOf items.now (meaning names.now) (value_at values.now) }
    requires tokens { tokens.now ≡ [] }
    requires files { files.now ≡ [] }
    ensures { IfOk result (λ b. b ≡ told (breaks_used items.now)) }
{
    let source = source_of(names, values, tokens, files);
    unmet_by(alloc, &source, names, items)
}

fn bodies_in(
    alloc: Global,
    names: &Meanings<'_>,
    items: &[Item],
) -> Result<Option<Broken>, OutOfMemory>
    requires { meaning names.now ≡ names_of items.now }
    ensures { IfOk result (λ b. b ≡ told (breaks_used items.now)) }
{
    let tokens = ItemList::new(alloc);
    let files = ItemList::new(alloc);
    let values = values_in(alloc, names, items)?;
    bodies_with(alloc, names, &values, items, &tokens, &files)
}

/// What is told by the rule that functions that are used have a body: those that calls choose, and those of events.
pub fn bodies_told(alloc: Global, syntax: &Syntax) -> Result<Option<Broken>, OutOfMemory>
    ensures { IfOk result (λ b. b ≡ told (breaks_used syntax.now.items)) }
{
    let items = syntax.items.as_slice();
    let names = names_in(alloc, items)?;
    bodies_in(alloc, &names, items)
}
