//! Variables and members of enumerations by their names.
ghost use Rattle.std.specs.Prelude.{◌≡◌, option_map, IfOk};
ghost use Rattle.std.specs.Option.{option_copied};
ghost use Rattle.mql_scope.specs.Contexts.{variable_named};
ghost use Rattle.mql_scope.specs.Names.{stands_at, of_variable, member_value, of_member, member_named};

use crate::context::{Enumeration, Known, Storage};
use fx8::{IntKind, ItemList, OutOfMemory};
use mql_mean::Value;
use mql_meaning::{Expression, Member, Operator};
use mql_typed::{Info, a_place, a_value};
use mql_types::Base;
use std::alloc::Global;

/// The last variable of a name: the innermost hides the others.
#[tactic(auto, using(crate::proofs::Named::variable_hit, crate::proofs::Named::variable_miss))]
pub fn variable_named<'a>(name: &[u16], known: &'a [Known]) -> Option<&'a Known>
    ensures { option_copied result ≡ variable_named name.now known.now }
{
    let mut n = known.len();
    while n > 0 {
        n -= 1;
        let k = &known[n];
        if k.name.as_slice() == name {
            return Some(k);
        }
    }
    None
}

/// The place of a variable.
pub fn stands_at(alloc: Global, stands: Storage) -> Expression
    ensures { result ≡ stands_at stands }
{
    match stands {
        Storage::Local(n) => Expression::Apply(Operator::Local(n), ItemList::new(alloc)),
        Storage::Global(n) => Expression::Apply(Operator::Global(n), ItemList::new(alloc)),
    }
}

/// What is told of a variable.
pub fn of_variable(alloc: Global, k: &Known) -> Info
    ensures { result ≡ of_variable k.now }
{
    a_place(
        k.of,
        k.standing,
        ItemList::new(alloc),
        stands_at(alloc, k.stands),
    )
}

/// What is told of the variable of a name.
pub(crate) fn of_variable_named(alloc: Global, name: &[u16], known: &[Known]) -> Option<Info>
    ensures { result ≡ option_map of_variable (variable_named name.now known.now) }
{
    match variable_named(name, known) {
        None => None,
        Some(k) => Some(of_variable(alloc, k)),
    }
}

fn member_value(name: &[u16], members: &[Member]) -> Option<i32>
    ensures { result ≡ member_value name.now members.now }
{
    let mut rest = members;
    while let [m, others @ ..] = rest {
        if m.name.as_slice() == name {
            return Some(m.value);
        }
        rest = others;
    }
    None
}

/// What is told of a member of an enumeration, with the enumeration's number and the member's value.
fn of_member(alloc: Global, number: u32, value: i32) -> Info
    ensures { result ≡ of_member number value }
{
    a_value(
        Base::Enumeration(number),
        ItemList::new(alloc),
        Expression::Constant(Value::Num(IntKind::Int, value as i128)),
    )
}

/// What is told of the member of a name, if some enumeration has one; the first of these counts.
pub(crate) fn member_named(
    alloc: Global,
    name: &[u16],
    enumerations: &[Enumeration],
) -> Result<Option<Info>, OutOfMemory>
    ensures { IfOk result (λ i. i ≡ member_named name.now 0 enumerations.now) }
{
    let mut number: u32 = 0;
    let mut rest = enumerations;
    while let [e, others @ ..] = rest {
        if let Some(value) = member_value(name, e.members.as_slice()) {
            return Ok(Some(of_member(alloc, number, value)));
        }
        number = match number.checked_add(1) {
            None => return Err(OutOfMemory),
            Some(n) => n,
        };
        rest = others;
    }
    Ok(None)
}
