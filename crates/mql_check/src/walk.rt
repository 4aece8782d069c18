//! The walk over what a program does: its global variables and its functions.
ghost use Rattle.std.specs.Prelude.{◌≡◌, IfOk};
ghost use Rattle.mql_check.specs.Programs.{walked};

use crate::bodies::{Bodies, told_bodies};
use crate::globals::{Beginning, globals_begin};
use crate::lists::variables_among;
use fx8::OutOfMemory;
use mql_scope::ProgramFacts;
use mql_syntax::Item;
use std::alloc::Global;

/// What the global variables of a program begin with, and what its functions that have a body are typed.
#[derive(Drop)]
pub struct Walked {
    pub globals: Beginning,
    pub functions: Bodies,
}

/// The walk over the global variables and the functions of a program.
pub(crate) fn walk_over<P: ProgramFacts>(
    alloc: Global,
    program: &P,
    items: &[Item],
) -> Result<Walked, OutOfMemory>
    ensures { IfOk result (λ w. w ≡ walked (P.program program.now) items.now) }
{
    let first = variables_among(items)?;
    let globals = globals_begin(alloc, program, items)?;
    let functions = told_bodies(alloc, program, first, items)?;
    Ok(Walked { globals, functions })
}
