//! Enumerations with their members.
ghost use Rattle.std.specs.Prelude.{◌≡◌, [], ◌∷◌, ◌++◌, pos, ◌+ℤ◌, IfOk};
ghost use Rattle.std.specs.List.{flat_map};
ghost use Rattle.fx8.specs.declared.int_kind.IntKind.TheVariants as int_kind;
ghost use Rattle.fx8.specs.Integers.{wrapped};
ghost use Rattle.mql_program.specs.Programs.{number_or, numbered, member, members_from, enumeration};

use fx8::{IntKind, ItemList, OutOfMemory, Text, wrap};
use mql_mean::Value;
use mql_meaning::Member;
use mql_scope::{Enumeration, ProgramFacts};
use mql_syntax::{Enumeration as EnumerationSyntax, Enumerator, Item, Value as SyntaxValue};
use std::alloc::Global;

fn number_or(next: i128, value: Option<Value>) -> i128
    ensures { result ≡ number_or next value }
{
    match value {
        None => next,
        Some(v) => match v.number() {
            None => next,
            Some(n) => n,
        },
    }
}

fn numbered<P: ProgramFacts>(
    alloc: Global,
    program: &P,
    value: &Option<SyntaxValue>,
    next: i128,
) -> Result<i128, OutOfMemory>
    ensures { IfOk result (λ n. n ≡ numbered (P.program program.now) value.now next) }
{
    match value {
        None => Ok(next),
        Some(v) => {
            let constant = program.constant(alloc, &[], v)?;
            Ok(number_or(next, constant))
        }
    }
}

/// A number taken into `int`.
#[tactic(auto, using(crate::proofs::Fields::int_least, crate::proofs::Fields::int_greatest))]
fn int_of(x: i128) -> i32
    ensures { result ≡ wrapped int_kind.Int x }
{
    let n = wrap(IntKind::Int, x);
    n as i32
}

fn member(alloc: Global, name: &[u16], value: i32) -> Result<Member, OutOfMemory>
    ensures { IfOk result (λ m. m ≡ member name.now value) }
{
    let name = Text::from_slice(alloc, name)?;
    Ok(Member { name, value })
}

fn one_more(value: i32) -> i128
    ensures { result ≡ value +ℤ pos 1 }
{
    value as i128 + 1
}

fn with_member(
    alloc: Global,
    mut members: ItemList<Member>,
    name: &[u16],
    value: i32,
) -> Result<ItemList<Member>, OutOfMemory>
    ensures { IfOk result (λ new. new ≡ members ++ member name.now value ∷ []) }
{
    members.push(member(alloc, name, value)?)?;
    Ok(members)
}

fn members_of<P: ProgramFacts>(
    alloc: Global,
    program: &P,
    enumerators: &[Enumerator],
) -> Result<ItemList<Member>, OutOfMemory>
    ensures { IfOk result (λ ms. ms ≡ members_from (P.program program.now) (pos 0) enumerators.now) }
{
    let mut members = ItemList::new(alloc);
    let mut next: i128 = 0;
    let mut rest = enumerators;
    while let [e, others @ ..] = rest {
        let number = numbered(alloc, program, &e.value, next)?;
        let value = int_of(number);
        members = with_member(alloc, members, e.name.as_slice(), value)?;
        next = one_more(value);
        rest = others;
    }
    Ok(members)
}

fn with_members<P: ProgramFacts>(
    alloc: Global,
    program: &P,
    mut enumerations: ItemList<Enumeration>,
    e: &EnumerationSyntax,
) -> Result<ItemList<Enumeration>, OutOfMemory>
    ensures { IfOk result (λ new. new ≡ enumerations ++ (record {
      name = e.now.name;
      members = members_from (P.program program.now) (pos 0) e.now.values;
    }) ∷ []) }
{
    let members = members_of(alloc, program, e.values.as_slice())?;
    let name = Text::from_slice(alloc, e.name.as_slice())?;
    enumerations.push(Enumeration { name, members })?;
    Ok(enumerations)
}

fn with_enumeration<P: ProgramFacts>(
    alloc: Global,
    program: &P,
    enumerations: ItemList<Enumeration>,
    item: &Item,
) -> Result<ItemList<Enumeration>, OutOfMemory>
    ensures { IfOk result (λ new. new ≡ enumerations ++ enumeration (P.program program.now) item.now) }
{
    match item {
        Item::Enumeration(e) => with_members(alloc, program, enumerations, e),
        Item::Group(_) => Ok(enumerations),
        Item::Variable(_) => Ok(enumerations),
        Item::Function(_) => Ok(enumerations),
        Item::Class(_) => Ok(enumerations),
    }
}

/// The enumerations of a program with their members.
pub(crate) fn enumerations_of<P: ProgramFacts>(
    alloc: Global,
    program: &P,
    items: &[Item],
) -> Result<ItemList<Enumeration>, OutOfMemory>
    ensures { IfOk result (λ es. es ≡ flat_map (enumeration (P.program program.now)) items.now) }
{
    let mut enumerations = ItemList::new(alloc);
    for item in items {
        enumerations = with_enumeration(alloc, program, enumerations, item)?;
    }
    Ok(enumerations)
}
