//! Whole programs: what they are typed, and the broken rule that is told.
ghost use Rattle.std.specs.Prelude.{◌≡◌, length, IfOk};
ghost use Rattle.std.specs.List.{flat_map};
ghost use Rattle.mql_names.specs.Faults.{told};
ghost use Rattle.mql_names.specs.Maps.{meaning};
ghost use Rattle.mql_program.specs.Lists.{all_lent};
ghost use Rattle.mql_program.specs.Programs.{program_of, defined_functions, functions_in};
ghost use Rattle.mql_check.specs.Programs.{told_of, judged_of, check_items, used_of, all_used, is_number_in, is_used, unmet_from, unmet_in};

use crate::items::{items_broken, items_used};
use crate::lists::counted;
use crate::made::checked;
use crate::owned::together;
use crate::walk::{Walked, walk_over};
use fx8::{ItemList, OutOfMemory};
use mql_meaning::Checked;
use mql_names::{Broken, Meanings, break_if, event_of, is_defined, sooner};
use mql_program::{SourceFacts, bodiless_functions};
use mql_scope::ProgramFacts;
use mql_syntax::{Function, Item};
use std::alloc::Global;

/// Of broken rules the one that is told.
fn told(all: &[Broken]) -> Option<Broken>
    ensures { result ≡ told all.now }
{
    let mut first: Option<Broken> = None;
    let mut rest = all;
    while let [b, others @ ..] = rest {
        first = sooner(first, Some(*b));
        rest = others;
    }
    first
}

/// The broken rule that is told of a program.
#[tactic(auto, using(mql_names::proofs::Faults::told_append))]
fn told_of<P: ProgramFacts>(
    alloc: Global,
    program: &P,
    items: &[Item],
    w: &Walked,
) -> Result<Option<Broken>, OutOfMemory>
    ensures { IfOk result (λ b. b ≡ told_of (P.program program.now) items.now w.now) }
{
    let own = items_broken(alloc, program, items)?;
    let globals = together(alloc, w.globals.broken.as_slice())?;
    let others = sooner(
        told(globals.as_slice()),
        told(w.functions.broken.as_slice()),
    );
    Ok(sooner(told(own.as_slice()), others))
}

fn judged_of<P: ProgramFacts, S: SourceFacts>(
    alloc: Global,
    source: &S,
    program: &P,
    items: &[Item],
    w: Walked,
) -> Result<Result<Checked, Broken>, OutOfMemory>
    ensures { IfOk result (λ r. r ≡ judged_of (S.given source.now) (P.program program.now) items.now w) }
{
    match told_of(alloc, program, items, &w)? {
        Some(b) => Ok(Err(b)),
        None => {
            let x = checked(alloc, source, program, items, w.globals, w.functions)?;
            Ok(Ok(x))
        }
    }
}

/// The typed program of these items, or the broken rule that is told: that of the first node in the order
/// of tokens among those that break a rule while none below them does, and the lowest that it breaks. It
/// can also run out of memory.
pub fn check_with<P: ProgramFacts, S: SourceFacts>(
    alloc: Global,
    source: &S,
    program: &P,
    items: &[Item],
) -> Result<Result<Checked, Broken>, OutOfMemory>
    requires { P.program program.now ≡ program_of (S.given source.now) items.now }
    ensures { IfOk result (λ r. r ≡
        check_items (S.given source.now) (program_of (S.given source.now) items.now) items.now) }
{
    let w = walk_over(alloc, program, items)?;
    judged_of(alloc, source, program, items, w)
}

fn used_of<P: ProgramFacts>(
    alloc: Global,
    program: &P,
    items: &[Item],
    w: Walked,
) -> Result<ItemList<u32>, OutOfMemory>
    ensures { IfOk result (λ ns. ns ≡ used_of (P.program program.now) items.now w) }
{
    let Walked { globals, functions } = w;
    let mut all = items_used(alloc, program, items)?;
    let mut more = globals.used;
    more.append(functions.used)?;
    all.append(more)?;
    Ok(all)
}

/// The functions that are used.
fn all_used<P: ProgramFacts>(
    alloc: Global,
    program: &P,
    items: &[Item],
) -> Result<ItemList<u32>, OutOfMemory>
    ensures { IfOk result (λ ns. ns ≡ all_used (P.program program.now) items.now) }
{
    let w = walk_over(alloc, program, items)?;
    used_of(alloc, program, items, w)
}

fn is_number_in(n: u32, numbers: &[u32]) -> bool
    ensures { result ≡ is_number_in n numbers.now }
{
    let mut rest = numbers;
    while let [m, others @ ..] = rest {
        if n == *m {
            return true;
        }
        rest = others;
    }
    false
}

/// Whether the function of a number is used, by a call or by the tester.
fn is_used(used: &[u32], n: u32, f: &Function) -> bool
    ensures { result ≡ is_used used.now n f.now }
{
    is_number_in(n, used) || event_of(f).is_some()
}

/// 9 of declarations: a function that is used has no body.
fn unmet_from(
    used: &[u32],
    first: u32,
    functions: &[&Function],
) -> Result<Option<Broken>, OutOfMemory>
    ensures { IfOk result (λ b. b ≡ told (unmet_from used.now first (all_lent functions.now))) }
{
    let mut all: Option<Broken> = None;
    let mut n = first;
    let mut rest = functions;
    while let [f, others @ ..] = rest {
        let one = break_if(is_used(used, n, *f), 9, f.place);
        all = sooner(all, one);
        n = counted(n, 1)?;
        rest = others;
    }
    Ok(all)
}

fn defined_at(item: &Item) -> u64
    ensures { result ≡ length (functions_in item.now) }
{
    match item {
        Item::Function(f) => if is_defined(&f.body) { 1 } else { 0 },
        _ => 0,
    }
}

/// The number of functions that have a body.
fn defined_among(items: &[Item]) -> Result<u32, OutOfMemory>
    ensures { IfOk result (λ n. n ≡ length (defined_functions items.now)) }
{
    let mut n: u32 = 0;
    let mut rest = items;
    while let [item, others @ ..] = rest {
        n = counted(n, defined_at(item))?;
        rest = others;
    }
    Ok(n)
}

/// The broken rule on functions without a body that is told: a function that is used, by a call or by the
/// tester, has none. The names are those of the program. It can also run out of memory.
pub fn bodies_told<P: ProgramFacts>(
    alloc: Global,
    program: &P,
    names: &Meanings<'_>,
    items: &[Item],
) -> Result<Option<Broken>, OutOfMemory>
    requires { meaning names.now ≡ (P.program program.now).names }
    ensures { IfOk result (λ b. b ≡ told (unmet_in (P.program program.now) items.now)) }
{
    let functions = bodiless_functions(alloc, names, items)?;
    if functions.is_empty() {
        return Ok(None);
    }
    let used = all_used(alloc, program, items)?;
    let first = defined_among(items)?;
    unmet_from(used.as_slice(), first, functions.as_slice())
}
