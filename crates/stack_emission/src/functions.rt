//! The code of functions.
ghost use Rattle.std.specs.Prelude.{◌≡◌, ◌≤◌, [], length, OnOk, IfOk};
ghost use Rattle.stack_emission.specs.Draft.{Emits};
ghost use Rattle.stack_emission.specs.Statements.{leads};
ghost use Rattle.stack_emission.specs.Functions.{AddsFunction, AllWritten, finished, nowhere, outermost, placed, placed_at, whole_body};

use crate::copies::{copy_result, copy_types};
use crate::draft::{Draft, new_label, put, set_label, short};
use crate::expressions::stuck_if;
use crate::statements::{Exits, statements};
use fx8::{ItemList, OutOfMemory};
use mql_mean::Value;
use mql_meaning::{Function, Statement};
use stack_code::{FunctionCode, Instruction, Label, OperandType};
use std::alloc::Global;

/// The code of functions, and the constants that they name.
#[derive(Drop)]
pub(crate) struct Functions {
    pub constants: ItemList<Value>,
    pub functions: ItemList<FunctionCode>,
}

/// Where the statements of a function's body lead: a `break` or `continue` out of it leads nowhere.
fn outermost(to_return: u32) -> Exits
    ensures { leads result ≡ outermost to_return }
{
    Exits {
        to_break: 4294967295,
        to_continue: 4294967295,
        to_return,
    }
}

/// Writes a function: its step, its body, and its return.
fn whole_body(
    alloc: Global,
    draft: &mut Draft,
    gives: bool,
    body: &[Statement],
) -> Result<(), OutOfMemory>
    ensures { OnOk result (Emits (whole_body gives body.now) draft.old draft.new) }
{
    let to_return = new_label(draft)?;
    put(draft, Instruction::Step)?;
    statements(alloc, draft, gives, body, outermost(to_return))?;
    stuck_if(draft, gives)?;
    set_label(draft, to_return)?;
    put(draft, Instruction::Return)
}

/// The label of finished code for one of a draft.
fn placed_at(label: Option<u32>, operands: ItemList<OperandType>) -> Label
    requires { operands ≡ [] }
    ensures { result ≡ placed_at label }
{
    match label {
        Some(place) => Label { place, operands },
        None => Label { place: 0, operands },
    }
}

/// The labels of finished code.
fn placed(alloc: Global, labels: &[Option<u32>]) -> Result<ItemList<Label>, OutOfMemory>
    ensures { IfOk result (λ list. list ≡ placed labels.now) }
{
    let mut list = ItemList::new(alloc);
    for label in labels {
        list.push(placed_at(*label, ItemList::new(alloc)))?;
    }
    Ok(list)
}

/// The finished code of a function.
fn finished(
    alloc: Global,
    f: &Function,
    labels: &[Option<u32>],
    instructions: ItemList<Instruction>,
) -> Result<FunctionCode, OutOfMemory>
    ensures { IfOk result (λ code. code ≡ finished f.now labels.now instructions) }
{
    let name = ItemList::from_slice(alloc, f.name.as_slice())?;
    let lent = ItemList::from_slice(alloc, f.lent.as_slice())?;
    let locals = copy_types(alloc, f.locals.as_slice())?;
    let result = copy_result(alloc, &f.result)?;
    let labels = placed(alloc, labels)?;
    Ok(FunctionCode {
        name,
        class: f.class,
        makes: f.makes,
        lent,
        locals,
        result,
        labels,
        instructions,
    })
}

/// A count of labels that leaves a number for none.
fn few(labels: &[Option<u32>]) -> Result<(), OutOfMemory>
    ensures { OnOk result (length labels.now ≤ nowhere) }
{
    let _count = short(labels.len() as u64)?;
    Ok(())
}

/// Adds the code of a function.
fn with_function(alloc: Global, written: Functions, f: &Function) -> Result<Functions, OutOfMemory>
    ensures { IfOk result (λ new. AddsFunction f.now written new) }
{
    let Functions {
        constants,
        mut functions,
    } = written;
    let mut draft = Draft {
        constants,
        instructions: ItemList::new(alloc),
        labels: ItemList::new(alloc),
    };
    whole_body(alloc, &mut draft, f.result.is_some(), f.body.as_slice())?;
    let Draft {
        constants,
        instructions,
        labels,
    } = draft;
    few(labels.as_slice())?;
    let code = finished(alloc, f, labels.as_slice(), instructions)?;
    functions.push(code)?;
    Ok(Functions {
        constants,
        functions,
    })
}

/// The code of each function of a program.
pub(crate) fn all_functions(alloc: Global, functions: &[Function]) -> Result<Functions, OutOfMemory>
    ensures { IfOk result (λ written. AllWritten functions.now written) }
{
    let mut written = Functions {
        constants: ItemList::new(alloc),
        functions: ItemList::new(alloc),
    };
    for f in functions {
        written = with_function(alloc, written, f)?;
    }
    Ok(written)
}
