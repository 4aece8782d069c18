//! Inputs at the beginning of a program (MQL5 Reference, Language Basics, Variables, Input Variables).
ghost use Rattle.std.specs.Prelude.{◌≡◌, IfOk};
ghost use Rattle.mql_meaning.specs.Frames.{input_value, write_inputs};
ghost use Rattle.stack_begins.specs.Begins.{sets_input};
ghost use Rattle.store_cells.specs.Changes.{Does};

use crate::globals::global_place;
use fx8::{ItemList, OutOfMemory};
use mql_mean::Value;
use mql_meaning::{Input, SetInput, Store};
use stack_effects::constant;
use std::alloc::Global;
use store_cells::Fault;
use store_places::write;

/// An input that is set as another one.
fn copied_one(alloc: Global, input: &SetInput) -> Result<SetInput, OutOfMemory>
    ensures { IfOk result (λ copy. copy ≡ input.now) }
{
    Ok(SetInput {
        global: input.global,
        value: input.value.copy(alloc)?,
    })
}

/// The inputs that were set, once more.
pub fn copied(alloc: Global, set: &[SetInput]) -> Result<ItemList<SetInput>, OutOfMemory>
    ensures { IfOk result (λ copies. copies ≡ set.now) }
{
    let mut copies = ItemList::new(alloc);
    for input in set {
        copies.push(copied_one(alloc, input)?)?;
    }
    Ok(copies)
}

/// The value of an input: the one that was set, else its default.
fn input_value<'a>(set: &'a [SetInput], input: &'a Input) -> &'a Value
    ensures { result.now ≡ input_value set.now input.now }
{
    for one in set {
        if one.global == input.global {
            return &one.value;
        }
    }
    &input.default
}

/// An input gets a value.
fn set_input(alloc: Global, value: &Value, global: u32, store: &mut Store) -> Result<(), Fault>
    ensures { Does (sets_input value.now global) result store.old store.new }
{
    let place = global_place(alloc, global);
    match constant(alloc, value, store) {
        Ok(value) => write(alloc, value, &place, store),
        Err(fault) => Err(fault),
    }
}

/// Inputs get their values in order.
pub fn write_inputs(
    alloc: Global,
    set: &[SetInput],
    inputs: &[Input],
    store: &mut Store,
) -> Result<(), Fault>
    ensures { Does (write_inputs set.now inputs.now) result store.old store.new }
{
    for input in inputs {
        match set_input(alloc, input_value(set, input), input.global, store) {
            Ok(()) => {}
            Err(fault) => return Err(fault),
        }
    }
    Ok(())
}
