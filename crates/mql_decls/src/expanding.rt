//! The declarations of a program.
ghost use Rattle.std.specs.Prelude.{◌≡◌, Option, List, ℕ, IfOk};
ghost use Rattle.mql_names.specs.Maps.{meaning};
ghost use Rattle.mql_sizes.specs.Maps.{value_at};
ghost use Rattle.mql_names.specs.Meanings.{names_of};
ghost use Rattle.mql_decls.specs.Expands.{Answered, Expands, Declares};

use crate::fault::{DeclFault, Refusal};
use crate::forms::{FunctionForm, GlobalForm, StaticForm, StructureForm};
use crate::judge::refused;
use crate::maker::Maker;
use fx8::{ItemList, OutOfMemory};
use mql_names::{Meanings, meanings_of};
use mql_sizes::{EnumMembers, Values, enumerations_of};
use mql_syntax::Syntax;
use std::alloc::Global;

/// What a program declares, each list in the order of its items.
#[derive(Drop)]
pub struct Decls<'a> {
    /// What the names of the program's own scope mean.
    pub names: Meanings<'a>,
    /// The values of members of enumerations, by name.
    pub values: Values<'a>,
    pub enumerations: ItemList<EnumMembers>,
    pub structures: ItemList<StructureForm>,
    pub functions: ItemList<FunctionForm>,
    pub globals: ItemList<GlobalForm>,
    /// The static variables of functions, those of one function behind those of another.
    pub statics: ItemList<StaticForm>,
}

fn declared(alloc: Global, syntax: &Syntax) -> Result<Decls<'_>, OutOfMemory>
    ensures { IfOk result (λ d. Declares d syntax.now) }
{
    let items = syntax.items.as_slice();
    let names = meanings_of(alloc, items)?;
    let (enumerations, values) = enumerations_of(alloc, &names, items)?;
    let maker = Maker {
        alloc,
        names: &names,
        values: &values,
    };
    let structures = maker.structures(items)?;
    let functions = maker.functions(items)?;
    let globals = maker.globals(items)?;
    let statics = maker.statics(items)?;
    Ok(Decls {
        names,
        values,
        enumerations,
        structures,
        functions,
        globals,
        statics,
    })
}

/// The declarations of a program, or its refusal.
fn answered(alloc: Global, syntax: &Syntax) -> Result<Result<Decls<'_>, Refusal>, OutOfMemory>
    ensures { IfOk result (λ r. Answered r syntax.now) }
{
    match refused(alloc, syntax)? {
        Some(refusal) => Ok(Err(refusal)),
        None => Ok(Ok(declared(alloc, syntax)?)),
    }
}

/// The declarations of a program: `Ok` exactly where it is plain and breaks no rule of declarations, with
/// exactly what it declares; else the refusal.
pub fn expand(alloc: Global, syntax: &Syntax) -> Result<Decls<'_>, DeclFault>
    ensures { Expands result syntax.now }
{
    match answered(alloc, syntax) {
        Err(_) => Err(DeclFault::OutOfMemory),
        Ok(Err(refusal)) => Err(DeclFault::Refused(refusal)),
        Ok(Ok(decls)) => Ok(decls),
    }
}
