//! Copies of a program's tables.
ghost use Rattle.std.specs.Prelude.{◌≡◌, IfOk};

use fx8::{ItemList, OutOfMemory};
use mql_meaning::{Class, Input, Member, VarType};
use std::alloc::Global;

/// Another type that is the same.
pub(crate) fn copy_type(alloc: Global, t: &VarType) -> Result<VarType, OutOfMemory>
    ensures { IfOk result (λ copy. copy ≡ t.now) }
{
    let dimensions = ItemList::from_slice(alloc, t.dimensions.as_slice())?;
    Ok(VarType {
        base: t.base,
        dimensions,
    })
}

/// The same types again.
pub(crate) fn copy_types(alloc: Global, types: &[VarType]) -> Result<ItemList<VarType>, OutOfMemory>
    ensures { IfOk result (λ copies. copies ≡ types.now) }
{
    let mut copies = ItemList::new(alloc);
    for t in types {
        let copy = copy_type(alloc, t)?;
        copies.push(copy)?;
    }
    Ok(copies)
}

/// The type of a function's value again, if it gives one.
pub(crate) fn copy_result(
    alloc: Global,
    value: &Option<VarType>,
) -> Result<Option<VarType>, OutOfMemory>
    ensures { IfOk result (λ copy. copy ≡ value.now) }
{
    match value {
        None => Ok(None),
        Some(t) => {
            let copy = copy_type(alloc, t)?;
            Ok(Some(copy))
        }
    }
}

/// Another class that is the same.
fn copy_class(alloc: Global, class: &Class) -> Result<Class, OutOfMemory>
    ensures { IfOk result (λ copy. copy ≡ class.now) }
{
    let name = ItemList::from_slice(alloc, class.name.as_slice())?;
    let fields = copy_types(alloc, class.fields.as_slice())?;
    let methods = ItemList::from_slice(alloc, class.methods.as_slice())?;
    Ok(Class {
        name,
        parent: class.parent,
        fields,
        methods,
        destructor: class.destructor,
    })
}

/// The same classes again.
pub(crate) fn copy_classes(alloc: Global, classes: &[Class]) -> Result<ItemList<Class>, OutOfMemory>
    ensures { IfOk result (λ copies. copies ≡ classes.now) }
{
    let mut copies = ItemList::new(alloc);
    for class in classes {
        let copy = copy_class(alloc, class)?;
        copies.push(copy)?;
    }
    Ok(copies)
}

/// Another member that is the same.
fn copy_member(alloc: Global, member: &Member) -> Result<Member, OutOfMemory>
    ensures { IfOk result (λ copy. copy ≡ member.now) }
{
    let name = ItemList::from_slice(alloc, member.name.as_slice())?;
    Ok(Member {
        name,
        value: member.value,
    })
}

/// The same members again.
fn copy_members(alloc: Global, members: &[Member]) -> Result<ItemList<Member>, OutOfMemory>
    ensures { IfOk result (λ copies. copies ≡ members.now) }
{
    let mut copies = ItemList::new(alloc);
    for member in members {
        let copy = copy_member(alloc, member)?;
        copies.push(copy)?;
    }
    Ok(copies)
}

/// Another input that is the same.
fn copy_input(alloc: Global, input: &Input) -> Result<Input, OutOfMemory>
    ensures { IfOk result (λ copy. copy ≡ input.now) }
{
    let name = ItemList::from_slice(alloc, input.name.as_slice())?;
    let default = input.default.copy(alloc)?;
    let members = copy_members(alloc, input.members.as_slice())?;
    Ok(Input {
        global: input.global,
        name,
        optimisable: input.optimisable,
        default,
        members,
    })
}

/// The same inputs again.
pub(crate) fn copy_inputs(alloc: Global, inputs: &[Input]) -> Result<ItemList<Input>, OutOfMemory>
    ensures { IfOk result (λ copies. copies ≡ inputs.now) }
{
    let mut copies = ItemList::new(alloc);
    for input in inputs {
        let copy = copy_input(alloc, input)?;
        copies.push(copy)?;
    }
    Ok(copies)
}
