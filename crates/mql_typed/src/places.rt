//! Assignments, elements of arrays, fields, and values taken into a type.
ghost use Rattle.std.specs.Prelude.{◌≡◌, [], ◌∷◌, ◌++◌, IfOk};
ghost use Rattle.mql_typed.specs.Operations.{assigned, assign_info, updated, update_by, update_info, element_type, element_at, index_info, local, field_of_local, kept_field, placed_field, cast_to, cast_info};

use crate::binary::{joined, sort_for};
use crate::info::{Info, Standing};
use crate::typed::{
    a_place, a_value, converted, into_sort, on_one, on_two, value_base, value_of, var_type,
};
use crate::unary::int_operator;
use fx8::{IntOperator, ItemList, OutOfMemory};
use mql_meaning::{Expression, Operator, Sort, VarType};
use mql_syntax::BinaryOperator;
use mql_types::{Base, DataType};
use std::alloc::Global;

fn assigned(alloc: Global, i: Info, j: Info, b: Base) -> Result<Info, OutOfMemory>
    ensures { IfOk result (λ r. r ≡ assigned i j b) }
{
    let Info {
        typed,
        kept: own,
        ..
    } = i;
    let (x, more) = converted(alloc, b, j)?;
    let kept = joined(own, more)?;
    let e = on_two(alloc, Operator::Keep, x, typed)?;
    Ok(a_value(b, kept, e))
}

/// What `=` gives, of the place and the right side; none where the place is an array.
pub fn assign_info(alloc: Global, i: Info, j: Info) -> Result<Option<Info>, OutOfMemory>
    ensures { IfOk result (λ r. r ≡ assign_info i j) }
{
    match value_base(&i) {
        None => Ok(None),
        Some(b) => {
            let r = assigned(alloc, i, j, b)?;
            Ok(Some(r))
        }
    }
}

fn updated(
    alloc: Global,
    o: IntOperator,
    i: Info,
    j: Info,
    b: Base,
    s: Sort,
) -> Result<Info, OutOfMemory>
    ensures { IfOk result (λ r. r ≡ updated o i j b s) }
{
    let Info {
        typed,
        kept: own,
        ..
    } = i;
    let (x, more) = into_sort(alloc, s, j)?;
    let kept = joined(own, more)?;
    let e = on_two(alloc, Operator::Update(o, s), x, typed)?;
    Ok(a_value(b, kept, e))
}

fn update_by(alloc: Global, o: IntOperator, i: Info, j: Info) -> Result<Option<Info>, OutOfMemory>
    ensures { IfOk result (λ r. r ≡ update_by o i j) }
{
    match value_base(&i) {
        None => Ok(None),
        Some(b) => match sort_for(o, &i, &j) {
            None => Ok(None),
            Some(s) => {
                let r = updated(alloc, o, i, j, b, s)?;
                Ok(Some(r))
            }
        },
    }
}

/// What an assignment with an operator gives, of the place and the right side.
pub fn update_info(
    alloc: Global,
    o: BinaryOperator,
    i: Info,
    j: Info,
) -> Result<Option<Info>, OutOfMemory>
    ensures { IfOk result (λ r. r ≡ update_info o i j) }
{
    match int_operator(o) {
        None => Ok(None),
        Some(q) => update_by(alloc, q, i, j),
    }
}

/// The type of what stands at a place of the first dimension.
pub fn element_type(t: DataType) -> DataType
    ensures { result ≡ element_type t }
{
    DataType {
        base: t.base,
        dimensions: t.dimensions.element(),
    }
}

fn element_at(alloc: Global, i: Info, j: Info, t: DataType) -> Result<Info, OutOfMemory>
    ensures { IfOk result (λ r. r ≡ element_at i j t) }
{
    let Info {
        standing,
        typed,
        kept: own,
        ..
    } = i;
    let (y, more) = value_of(alloc, j)?;
    let kept = joined(own, more)?;
    let e = on_two(alloc, Operator::Index, typed, y)?;
    Ok(a_place(element_type(t), standing, kept, e))
}

/// What an element of an array gives, of the array and the index.
pub fn index_info(alloc: Global, i: Info, j: Info) -> Result<Option<Info>, OutOfMemory>
    ensures { IfOk result (λ r. r ≡ index_info i j) }
{
    match i.of {
        None => Ok(None),
        Some(t) => {
            let r = element_at(alloc, i, j, t)?;
            Ok(Some(r))
        }
    }
}

fn local(alloc: Global, n: u32) -> Expression
    ensures { result ≡ local n }
{
    Expression::Apply(Operator::Local(n), ItemList::new(alloc))
}

fn one_part(alloc: Global, e: Expression) -> Result<ItemList<Expression>, OutOfMemory>
    ensures { IfOk result (λ r. r ≡ e ∷ []) }
{
    let mut parts = ItemList::new(alloc);
    parts.push(e)?;
    Ok(parts)
}

fn with_kept(mut kept: ItemList<VarType>, of: VarType) -> Result<ItemList<VarType>, OutOfMemory>
    ensures { IfOk result (λ r. r ≡ kept ++ of ∷ []) }
{
    kept.push(of)?;
    Ok(kept)
}

fn field_of_local(
    alloc: Global,
    l: u32,
    n: u32,
    typed: Expression,
) -> Result<Expression, OutOfMemory>
    ensures { IfOk result (λ e. e ≡ field_of_local l n typed) }
{
    let keeps = on_two(alloc, Operator::Keep, typed, local(alloc, l))?;
    let field = on_one(alloc, Operator::Field(n), local(alloc, l))?;
    let first = one_part(alloc, keeps)?;
    let last = one_part(alloc, field)?;
    Ok(Expression::After(first, last))
}

/// What the field of a number and a type gives of a structure that is no place: the structure, whose type is
/// `whole`, is kept in the local `l` first.
pub fn kept_field(
    alloc: Global,
    l: u32,
    n: u32,
    whole: DataType,
    t: DataType,
    i: Info,
) -> Result<Info, OutOfMemory>
    ensures { IfOk result (λ r. r ≡ kept_field l n whole t i) }
{
    let Info {
        typed,
        kept: own,
        ..
    } = i;
    let of = var_type(alloc, whole)?;
    let kept = with_kept(own, of)?;
    let e = field_of_local(alloc, l, n, typed)?;
    Ok(a_place(t, Standing::Kept, kept, e))
}

/// What the field of a number and a type gives of a structure that is a place.
pub fn placed_field(alloc: Global, n: u32, t: DataType, i: Info) -> Result<Info, OutOfMemory>
    ensures { IfOk result (λ r. r ≡ placed_field n t i) }
{
    let Info {
        standing,
        typed,
        kept,
        ..
    } = i;
    let e = on_one(alloc, Operator::Field(n), typed)?;
    Ok(a_place(t, standing, kept, e))
}

fn cast_to(alloc: Global, i: Info, b: Base) -> Result<Info, OutOfMemory>
    ensures { IfOk result (λ r. r ≡ cast_to i b) }
{
    let (e, kept) = converted(alloc, b, i)?;
    Ok(a_value(b, kept, e))
}

/// What a value gives that is taken into a type; none where there is no such type.
pub fn cast_info(alloc: Global, b: Option<Base>, i: Info) -> Result<Option<Info>, OutOfMemory>
    ensures { IfOk result (λ r. r ≡ cast_info b i) }
{
    match b {
        None => Ok(None),
        Some(t) => {
            let r = cast_to(alloc, i, t)?;
            Ok(Some(r))
        }
    }
}
