//! The code of programs.
ghost use Rattle.std.specs.Prelude.{IfOk};
ghost use Rattle.stack_emission.specs.Lowers.{BuiltWhereItHasCode, Lowers};

use crate::copies::{copy_classes, copy_inputs, copy_types};
use crate::forms::has_code;
use crate::functions::all_functions;
use fx8::OutOfMemory;
use mql_meaning::Checked;
use stack_code::Code;
use std::alloc::Global;

/// Why a program got no code.
#[derive(Clone, Copy, Debug, PartialEq, Eq)]
pub enum LowerFault {
    /// There is no memory, or a count does not fit 32 bits.
    OutOfMemory,
    /// The program has a form that has no code (see `has_code`).
    NotBuilt,
}

/// The code of a typed program, which stands for it and spends steps. A program with a form that has no code
/// is refused.
pub fn lower(alloc: Global, program: &Checked) -> Result<Code, LowerFault>
    ensures { Lowers program.now result }
{
    if !has_code(program) {
        return Err(LowerFault::NotBuilt);
    }
    match code_of(alloc, program) {
        Ok(code) => Ok(code),
        Err(OutOfMemory) => Err(LowerFault::OutOfMemory),
    }
}

/// The code of a program. Where a form has none, what is written for it is stuck.
fn code_of(alloc: Global, program: &Checked) -> Result<Code, OutOfMemory>
    ensures { IfOk result (λ code. BuiltWhereItHasCode program.now code) }
{
    let written = all_functions(alloc, program.functions.as_slice())?;
    let classes = copy_classes(alloc, program.classes.as_slice())?;
    let globals = copy_types(alloc, program.globals.as_slice())?;
    let inputs = copy_inputs(alloc, program.inputs.as_slice())?;
    Ok(Code {
        constants: written.constants,
        classes,
        globals,
        inputs,
        functions: written.functions,
        entries: program.entries,
    })
}
