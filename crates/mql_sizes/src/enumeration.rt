//! Values of enumerations.
ghost use Rattle.std.specs.Prelude.{◌≡◌, ◌++◌, ◌∷◌, [], Option, Some, pos, List, IfOk};
ghost use Rattle.std.specs.List.{flat_map};
ghost use Rattle.mql_syntax.specs.declared.declaration.Item.{Item};
ghost use Rattle.mql_syntax.specs.declared.declaration.Item.TheVariants as items;
ghost use Rattle.mql_names.specs.Maps.{meaning};
ghost use Rattle.mql_names.specs.Faults.{told};
ghost use Rattle.mql_sizes.specs.declared.member.EnumMember.{EnumMember};
ghost use Rattle.mql_sizes.specs.declared.member.EnumMembers.{EnumMembers};
ghost use Rattle.mql_sizes.specs.Maps.{number_of, value_at, Holds};
ghost use Rattle.mql_sizes.specs.Members as spec;

use crate::constant::{Values, constant_in};
use crate::member::{EnumMember, EnumMembers, MemberValue};
use fx8::{ItemList, OutOfMemory, Text};
use mql_names::{Broken, Meanings, break_if, sooner};
use mql_syntax::{Enumeration, Enumerator, Item, Value};
use natives::ConstantValue;
use std::alloc::Global;
use std::collections::BTreeMap;

fn within_int(x: i128) -> Option<i32>
    ensures { result ≡ spec.within_int x }
{
    if -2147483648 <= x && x <= 2147483647 {
        Some(x as i32)
    } else {
        None
    }
}

fn int_of(constant: Option<ConstantValue>) -> Option<i32>
    ensures { result ≡ spec.int_of constant }
{
    match constant {
        None => None,
        Some(ConstantValue::Integer(_, x)) => within_int(x),
        Some(ConstantValue::Double(_)) => None,
    }
}

fn one_more(value: Option<i32>) -> Option<i32>
    ensures { result ≡ spec.one_more value }
{
    match value {
        None => None,
        Some(x) => within_int(x as i128 + 1),
    }
}

fn value_of(
    alloc: Global,
    names: &Meanings<'_>,
    values: &Values<'_>,
    next: Option<i32>,
    value: &Option<Value>,
) -> Result<Option<i32>, OutOfMemory>
    ensures { IfOk result (λ found. found ≡
        spec.value_of (meaning names.now) (value_at values.now) next value.now) }
{
    match value {
        None => Ok(next),
        Some(v) => Ok(int_of(constant_in(alloc, names, values, &[], v)?)),
    }
}

fn member_value(value: Option<i32>) -> Option<MemberValue>
    ensures { number_of result ≡ value }
{
    match value {
        None => None,
        Some(value) => Some(MemberValue { value }),
    }
}

/// Values with one more, if it is one.
fn with_value<'a>(
    mut values: Values<'a>,
    name: &'a [u16],
    value: Option<MemberValue>,
) -> Result<Values<'a>, OutOfMemory>
    ensures { IfOk result (λ new. (ms : List EnumMember) → Holds values.entry ms →
        Holds new (ms ++ (record { name = name.now; value = number_of value }) ∷ [])) }
{
    match value {
        None => Ok(values),
        Some(member) => {
            values.insert(name, member)?;
            Ok(values)
        }
    }
}

/// Members with one more.
fn with_member(
    alloc: Global,
    mut members: ItemList<EnumMember>,
    name: &[u16],
    value: Option<i32>,
) -> Result<ItemList<EnumMember>, OutOfMemory>
    ensures { IfOk result (λ new. new ≡ members ++ (record { name = name.now; value = value }) ∷ []) }
{
    let name = Text::from_slice(alloc, name)?;
    members.push(EnumMember { name, value })?;
    Ok(members)
}

/// The members of an enumeration, and the values with theirs.
fn members_of<'a>(
    alloc: Global,
    names: &Meanings<'_>,
    values: Values<'a>,
    enumerators: &'a [Enumerator],
) -> Result<(ItemList<EnumMember>, Values<'a>), OutOfMemory>
    ensures { IfOk result (λ r. (ms : List EnumMember) → Holds values.entry ms →
        (r.0 ≡ spec.members_of (meaning names.now) ms (Some (pos 0)) enumerators.now)
        × Holds r.1 (ms ++ r.0)) }
{
    let mut members: ItemList<EnumMember> = ItemList::new(alloc);
    let mut values = values;
    let mut next: Option<i32> = Some(0);
    for e in enumerators {
        let value = value_of(alloc, names, &values, next, &e.value)?;
        members = with_member(alloc, members, e.name.as_slice(), value)?;
        values = with_value(values, e.name.as_slice(), member_value(value))?;
        next = one_more(value);
    }
    Ok((members, values))
}

#[tactic(auto, unfolding(crate::specs::Members::enumeration_of))]
fn enumeration_of<'a>(
    alloc: Global,
    names: &Meanings<'_>,
    values: Values<'a>,
    e: &'a Enumeration,
) -> Result<(EnumMembers, Values<'a>), OutOfMemory>
    ensures { IfOk result (λ r. (ms : List EnumMember) → Holds values.entry ms →
        (r.0 ≡ spec.enumeration_of (meaning names.now) ms e.now) × Holds r.1 (ms ++ r.0.members)) }
{
    let (members, values) = members_of(alloc, names, values, e.values.as_slice())?;
    let name = Text::from_slice(alloc, e.name.as_slice())?;
    let found = EnumMembers {
        place: e.place,
        name,
        members,
    };
    Ok((found, values))
}

fn with_one(
    mut found: ItemList<EnumMembers>,
    one: EnumMembers,
) -> Result<ItemList<EnumMembers>, OutOfMemory>
    ensures { IfOk result (λ new. new ≡ found ++ one ∷ []) }
{
    found.push(one)?;
    Ok(found)
}

/// Enumerations, and values with theirs, with one more.
fn with_enumeration<'a>(
    alloc: Global,
    names: &Meanings<'_>,
    found: ItemList<EnumMembers>,
    values: Values<'a>,
    e: &'a Enumeration,
) -> Result<(ItemList<EnumMembers>, Values<'a>), OutOfMemory>
    ensures { IfOk result (λ r. Holds values.entry (spec.all_members found) → ((is : List Item) →
        r.0 ++ spec.enumerations_of (meaning names.now) (spec.all_members r.0) is
        ≡ found ++ spec.enumerations_of (meaning names.now) (spec.all_members found)
        (items.Enumeration e.now ∷ is))
        × Holds r.1 (spec.all_members r.0)) }
{
    let (one, values) = enumeration_of(alloc, names, values, e)?;
    let found = with_one(found, one)?;
    Ok((found, values))
}

/// Enumerations, and values with theirs, with the one that an item is.
fn with_item<'a>(
    alloc: Global,
    names: &Meanings<'_>,
    found: ItemList<EnumMembers>,
    values: Values<'a>,
    item: &'a Item,
) -> Result<(ItemList<EnumMembers>, Values<'a>), OutOfMemory>
    ensures { IfOk result (λ r. Holds values.entry (spec.all_members found) → ((is : List Item) →
        r.0 ++ spec.enumerations_of (meaning names.now) (spec.all_members r.0) is
        ≡ found ++ spec.enumerations_of (meaning names.now) (spec.all_members found) (item.now ∷ is))
        × Holds r.1 (spec.all_members r.0)) }
{
    match item {
        Item::Enumeration(e) => with_enumeration(alloc, names, found, values, e),
        Item::Group(_) => Ok((found, values)),
        Item::Variable(_) => Ok((found, values)),
        Item::Function(_) => Ok((found, values)),
        Item::Class(_) => Ok((found, values)),
    }
}

/// The enumerations of a program with the values of their members, and these values by name.
pub fn enumerations_of<'a>(
    alloc: Global,
    names: &Meanings<'_>,
    items: &'a [Item],
) -> Result<(ItemList<EnumMembers>, Values<'a>), OutOfMemory>
    ensures { IfOk result (λ r. (r.0 ≡ spec.enumerations_of (meaning names.now) [] items.now)
        × Holds r.1 (spec.all_members r.0)) }
{
    let mut found: ItemList<EnumMembers> = ItemList::new(alloc);
    let mut values: Values<'a> = BTreeMap::new(alloc);
    for item in items {
        let (more, valued) = with_item(alloc, names, found, values, item)?;
        found = more;
        values = valued;
    }
    Ok((found, values))
}

fn some_without(members: &[EnumMember]) -> bool
    ensures { result ≡ spec.some_without members.now }
{
    let mut rest = members;
    while let [m, others @ ..] = rest {
        if m.value.is_none() {
            return true;
        }
        rest = others;
    }
    false
}

fn valueless(n: &EnumMembers) -> Option<Broken>
    ensures { result ≡ told (spec.valueless n.now) }
{
    break_if(some_without(n.members.as_slice()), 14, n.place)
}

/// What is told of enumerations: that a value is not a constant of `int`.
pub fn enumerations_told(enumerations: &[EnumMembers]) -> Option<Broken>
    ensures { result ≡ told (flat_map spec.valueless enumerations.now) }
{
    let mut told: Option<Broken> = None;
    for n in enumerations {
        told = sooner(told, valueless(n));
    }
    told
}
