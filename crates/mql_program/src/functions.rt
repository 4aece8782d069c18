//! The functions of a program.
ghost use Rattle.std.specs.Prelude.{◌≡◌, ◌||◌, [], ◌∷◌, ◌++◌, IfOk};
ghost use Rattle.std.specs.List.{flat_map};
ghost use Rattle.mql_names.specs.Maps.{meaning};
ghost use Rattle.mql_program.specs.Lists.{all_lent};
ghost use Rattle.mql_program.specs.Programs.{functions_in, announced_in, is_one_function, stands_among, without_body, defined_functions, announced_functions, bodiless_functions, all_functions};

use fx8::{ItemList, OutOfMemory};
use mql_names::{Meanings, is_defined, param_keys};
use mql_syntax::{Function, Item};
use std::alloc::Global;

#[tactic(auto, using(crate::proofs::Parts::lent_more))]
fn with_function<'a>(
    mut functions: ItemList<&'a Function>,
    f: &'a Function,
) -> Result<ItemList<&'a Function>, OutOfMemory>
    ensures { IfOk result (λ new. all_lent new ≡ all_lent functions.entry ++ f.now ∷ []) }
{
    functions.push(f)?;
    Ok(functions)
}

fn with_defined<'a>(
    functions: ItemList<&'a Function>,
    item: &'a Item,
) -> Result<ItemList<&'a Function>, OutOfMemory>
    ensures { IfOk result (λ new. all_lent new ≡ all_lent functions.entry ++ functions_in item.now) }
{
    match item {
        Item::Function(f) => if is_defined(&f.body) {
            with_function(functions, f)
        } else {
            Ok(functions)
        },
        Item::Group(_) => Ok(functions),
        Item::Variable(_) => Ok(functions),
        Item::Class(_) => Ok(functions),
        Item::Enumeration(_) => Ok(functions),
    }
}

/// The functions of a program that have a body, in their order.
pub fn defined_functions(alloc: Global, items: &[Item]) -> Result<ItemList<&Function>, OutOfMemory>
    ensures { IfOk result (λ fs. all_lent fs ≡ defined_functions items.now) }
{
    let mut functions: ItemList<&Function> = ItemList::new(alloc);
    for item in items {
        functions = with_defined(functions, item)?;
    }
    Ok(functions)
}

fn with_announced<'a>(
    functions: ItemList<&'a Function>,
    item: &'a Item,
) -> Result<ItemList<&'a Function>, OutOfMemory>
    ensures { IfOk result (λ new. all_lent new ≡ all_lent functions.entry ++ announced_in item.now) }
{
    match item {
        Item::Function(f) => if is_defined(&f.body) {
            Ok(functions)
        } else {
            with_function(functions, f)
        },
        Item::Group(_) => Ok(functions),
        Item::Variable(_) => Ok(functions),
        Item::Class(_) => Ok(functions),
        Item::Enumeration(_) => Ok(functions),
    }
}

/// The functions of a program where they stand without a body, in their order.
pub(crate) fn announced_functions(
    alloc: Global,
    items: &[Item],
) -> Result<ItemList<&Function>, OutOfMemory>
    ensures { IfOk result (λ fs. all_lent fs ≡ announced_functions items.now) }
{
    let mut functions: ItemList<&Function> = ItemList::new(alloc);
    for item in items {
        functions = with_announced(functions, item)?;
    }
    Ok(functions)
}

/// Whether two declarations are of one function.
pub(crate) fn is_one_function(
    alloc: Global,
    names: &Meanings<'_>,
    f: &Function,
    g: &Function,
) -> Result<bool, OutOfMemory>
    ensures { IfOk result (λ b. b ≡ is_one_function (meaning names.now) f.now g.now) }
{
    if f.name.as_slice() == g.name.as_slice() {
        let of_f = param_keys(alloc, names, f.params.as_slice())?;
        let of_g = param_keys(alloc, names, g.params.as_slice())?;
        return Ok(of_f.as_slice() == of_g.as_slice());
    }
    Ok(false)
}

fn stands_among(
    alloc: Global,
    names: &Meanings<'_>,
    f: &Function,
    known: &[&Function],
) -> Result<bool, OutOfMemory>
    ensures { IfOk result (λ b. b ≡ stands_among (meaning names.now) f.now (all_lent known.now)) }
{
    let mut rest = known;
    while let [g, others @ ..] = rest {
        if is_one_function(alloc, names, f, *g)? {
            return Ok(true);
        }
        rest = others;
    }
    Ok(false)
}

/// Whether a function stands among those that have a body or among those that were found.
#[tactic(auto, using(crate::proofs::Parts::first_among, crate::proofs::Parts::none_among_first))]
fn is_known(
    alloc: Global,
    names: &Meanings<'_>,
    f: &Function,
    defined: &[&Function],
    found: &[&Function],
) -> Result<bool, OutOfMemory>
    ensures { IfOk result (λ b. b ≡
        stands_among (meaning names.now) f.now (all_lent defined.now ++ all_lent found.now)) }
{
    if stands_among(alloc, names, f, defined)? {
        return Ok(true);
    }
    stands_among(alloc, names, f, found)
}

/// Those of the announced functions that have no body, each once.
#[tactic(auto, using(crate::proofs::Parts::known_left_out, crate::proofs::Parts::new_found, crate::proofs::Parts::lent_more))]
fn without_body<'a>(
    alloc: Global,
    names: &Meanings<'_>,
    defined: &[&'a Function],
    announced: &[&'a Function],
) -> Result<ItemList<&'a Function>, OutOfMemory>
    ensures { IfOk result (λ fs. all_lent fs ≡
        without_body (meaning names.now) (all_lent defined.now) (all_lent announced.now)) }
{
    let mut found: ItemList<&'a Function> = ItemList::new(alloc);
    let mut rest = announced;
    while let [f, others @ ..] = rest {
        if !is_known(alloc, names, *f, defined, found.as_slice())? {
            found.push(*f)?;
        }
        rest = others;
    }
    Ok(found)
}

/// The functions of a program that are announced and have no body, each once.
pub fn bodiless_functions<'a>(
    alloc: Global,
    names: &Meanings<'_>,
    items: &'a [Item],
) -> Result<ItemList<&'a Function>, OutOfMemory>
    ensures { IfOk result (λ fs. all_lent fs ≡ bodiless_functions (meaning names.now) items.now) }
{
    let defined = defined_functions(alloc, items)?;
    let announced = announced_functions(alloc, items)?;
    without_body(alloc, names, defined.as_slice(), announced.as_slice())
}

/// All functions that calls may choose: those with a body come first.
#[tactic(auto, using(crate::proofs::Parts::lent_append))]
pub(crate) fn all_functions<'a>(
    alloc: Global,
    names: &Meanings<'_>,
    items: &'a [Item],
) -> Result<ItemList<&'a Function>, OutOfMemory>
    ensures { IfOk result (λ fs. all_lent fs ≡ all_functions (meaning names.now) items.now) }
{
    let mut functions = defined_functions(alloc, items)?;
    let bodiless = bodiless_functions(alloc, names, items)?;
    functions.append(bodiless)?;
    Ok(functions)
}
