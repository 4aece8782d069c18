//! Typed expressions: values, places and conversions.
ghost use Rattle.std.specs.Prelude.{◌≡◌, [], ◌∷◌, ◌++◌, IfOk};
ghost use Rattle.mql_typed.specs.Typed.{on_one, on_two, single, single_base, single_in, value_base, value_of, into, sort_in, into_sort, converted, condition, held_base, sizes, var_type, a_value, nothing, a_place};

use crate::info::{Info, Standing};
use fx8::{IntKind, ItemList, OutOfMemory};
use mql_meaning::{Base as Held, Expression, Operator, Sort, VarType};
use mql_types::{Base, DataType, Dimensions, same, sort_base, sort_of};
use natives::SimpleType;
use std::alloc::Global;

/// An operator on one part.
pub fn on_one(alloc: Global, o: Operator, a: Expression) -> Result<Expression, OutOfMemory>
    ensures { IfOk result (λ e. e ≡ on_one o a) }
{
    let mut parts = ItemList::new(alloc);
    parts.push(a)?;
    Ok(Expression::Apply(o, parts))
}

/// An operator on two parts.
pub fn on_two(
    alloc: Global,
    o: Operator,
    a: Expression,
    b: Expression,
) -> Result<Expression, OutOfMemory>
    ensures { IfOk result (λ e. e ≡ on_two o a b) }
{
    let mut parts = ItemList::new(alloc);
    parts.push(a)?;
    parts.push(b)?;
    Ok(Expression::Apply(o, parts))
}

/// A type that is no array.
pub fn single(b: Base) -> DataType
    ensures { result ≡ single b }
{
    DataType {
        base: b,
        dimensions: Dimensions::None,
    }
}

fn single_base(t: DataType) -> Option<Base>
    ensures { result ≡ single_base t }
{
    if t.dimensions.is_array() {
        None
    } else {
        Some(t.base)
    }
}

fn single_in(of: Option<DataType>) -> Option<Base>
    ensures { result ≡ single_in of }
{
    match of {
        None => None,
        Some(t) => single_base(t),
    }
}

/// The type of the value that an expression gives; none where it is an array, or gives nothing.
pub fn value_base(i: &Info) -> Option<Base>
    ensures { result ≡ value_base i.now }
{
    single_in(i.of)
}

/// The locals that an expression takes, and its value: what stands at its place is read.
pub fn value_of(alloc: Global, i: Info) -> Result<(Expression, ItemList<VarType>), OutOfMemory>
    ensures value { IfOk result (λ r. r.0 ≡ value_of i) }
    ensures kept { IfOk result (λ r. r.1 ≡ i.kept) }
{
    let Info {
        standing,
        typed,
        kept,
        ..
    } = i;
    if standing.is_place() {
        let e = on_one(alloc, Operator::Read, typed)?;
        return Ok((e, kept));
    }
    Ok((typed, kept))
}

fn into(
    alloc: Global,
    from: Option<Sort>,
    to: Option<Sort>,
    e: Expression,
) -> Result<Expression, OutOfMemory>
    ensures { IfOk result (λ r. r ≡ into from to e) }
{
    match from {
        None => Ok(e),
        Some(s) => match to {
            None => Ok(e),
            Some(t) => {
                if same(sort_base(s), sort_base(t)) {
                    return Ok(e);
                }
                on_one(alloc, Operator::Convert(t), e)
            }
        },
    }
}

fn sort_in(b: Option<Base>) -> Option<Sort>
    ensures { result ≡ sort_in b }
{
    match b {
        None => None,
        Some(one) => sort_of(one),
    }
}

/// The value of an expression, taken into a sort, and the locals that the expression takes.
pub fn into_sort(
    alloc: Global,
    to: Sort,
    i: Info,
) -> Result<(Expression, ItemList<VarType>), OutOfMemory>
    ensures value { IfOk result (λ r. r.0 ≡ into_sort to i) }
    ensures kept { IfOk result (λ r. r.1 ≡ i.kept) }
{
    let from = sort_in(value_base(&i));
    let (e, kept) = value_of(alloc, i)?;
    let e = into(alloc, from, Some(to), e)?;
    Ok((e, kept))
}

/// The value of an expression, taken into a type, and the locals that the expression takes.
pub fn converted(
    alloc: Global,
    b: Base,
    i: Info,
) -> Result<(Expression, ItemList<VarType>), OutOfMemory>
    ensures value { IfOk result (λ r. r.0 ≡ converted b i) }
    ensures kept { IfOk result (λ r. r.1 ≡ i.kept) }
{
    let from = sort_in(value_base(&i));
    let (e, kept) = value_of(alloc, i)?;
    let e = into(alloc, from, sort_of(b), e)?;
    Ok((e, kept))
}

/// An expression as a condition, and the locals that it takes.
pub fn condition(alloc: Global, i: Info) -> Result<(Expression, ItemList<VarType>), OutOfMemory>
    ensures value { IfOk result (λ r. r.0 ≡ condition i) }
    ensures kept { IfOk result (λ r. r.1 ≡ i.kept) }
{
    into_sort(alloc, Sort::Number(IntKind::Bool), i)
}

fn held_base(b: Base) -> Held
    ensures { result ≡ held_base b }
{
    match b {
        Base::Simple(SimpleType::Integer(k)) => Held::Number(k),
        Base::Simple(SimpleType::Double) => Held::Double,
        Base::Simple(SimpleType::String) => Held::String,
        Base::Enumeration(_) => Held::Number(IntKind::Int),
        Base::Structure(n) => Held::Structure(n),
        Base::Null => Held::Pointer(0),
    }
}

fn sizes(alloc: Global, d: Dimensions) -> Result<ItemList<u32>, OutOfMemory>
    ensures { IfOk result (λ r. r ≡ sizes d) }
{
    match d {
        Dimensions::None => Ok(ItemList::new(alloc)),
        Dimensions::One(a) => Ok(ItemList::from_slice(alloc, &[a])?),
        Dimensions::Two(a, b) => Ok(ItemList::from_slice(alloc, &[a, b])?),
        Dimensions::Three(a, b, c) => Ok(ItemList::from_slice(alloc, &[a, b, c])?),
        Dimensions::Four(a, b, c, d) => Ok(ItemList::from_slice(alloc, &[a, b, c, d])?),
    }
}

/// What a variable of a type holds.
pub fn var_type(alloc: Global, t: DataType) -> Result<VarType, OutOfMemory>
    ensures { IfOk result (λ r. r ≡ var_type t) }
{
    let dimensions = sizes(alloc, t.dimensions)?;
    Ok(VarType {
        base: held_base(t.base),
        dimensions,
    })
}

/// What is told of a value.
pub fn a_value(b: Base, kept: ItemList<VarType>, e: Expression) -> Info
    ensures { result ≡ a_value b kept e }
{
    Info {
        of: Some(single(b)),
        standing: Standing::Value,
        typed: e,
        kept,
    }
}

/// What is told of an expression that gives nothing.
pub fn nothing(kept: ItemList<VarType>, e: Expression) -> Info
    ensures { result ≡ nothing kept e }
{
    Info {
        of: None,
        standing: Standing::Value,
        typed: e,
        kept,
    }
}

/// What is told of a place.
pub fn a_place(t: DataType, standing: Standing, kept: ItemList<VarType>, e: Expression) -> Info
    ensures { result ≡ a_place t standing kept e }
{
    Info {
        of: Some(t),
        standing,
        typed: e,
        kept,
    }
}
