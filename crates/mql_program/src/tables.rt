//! The tables of a program.
ghost use Rattle.std.specs.Prelude.{◌≡◌, IfOk};
ghost use Rattle.mql_names.specs.Maps.{meaning};
ghost use Rattle.mql_names.specs.Meanings.{names_of};
ghost use Rattle.mql_program.specs.Programs.{with_things, program_with, program_of};
ghost use Rattle.mql_program.specs.Tables.{types_in, program_in};

use crate::defaults::default_of;
use crate::functions::{all_functions, announced_functions};
use crate::globals::{globals_of, variables_in};
use crate::signatures::signatures_of;
use crate::source::SourceFacts;
use crate::types::{Types, types_of};
use fx8::{ItemList, OutOfMemory};
use mql_mean::Value;
use mql_names::{Meanings, Sort, meaning_of, named_sort, type_sort};
use mql_scope::{Enumeration, Known, Layout, ProgramFacts};
use mql_syntax::{Function, Item, Place, TypeUse, Value as SyntaxValue};
use mql_types::Signature;
use std::alloc::Global;

/// What is known of a program.
#[derive(Drop)]
pub struct Tables<'a, 'n, S> {
    types: Types<'a, 'n, S>,
    /// The global variables.
    globals: ItemList<Known>,
    /// The functions as calls see them.
    signatures: ItemList<Signature>,
    /// The functions where they stand without a body.
    announced: ItemList<&'a Function>,
    /// The functions, each at its number.
    functions: ItemList<&'a Function>,
}

impl<S: SourceFacts> ProgramFacts for Tables<'_, '_, S> {
    ghost program = { program_in S.given };

    fn type_sort(&self, of: &TypeUse) -> Sort {
        type_sort(self.types.names, of)
    }

    fn named_sort(&self, name: &[u16]) -> Sort {
        named_sort(self.types.names, name)
    }

    fn is_declared(&self, name: &[u16]) -> bool {
        meaning_of(self.types.names, name).is_some()
    }

    fn structures(&self) -> &[Layout] {
        self.types.structures.as_slice()
    }

    fn enumerations(&self) -> &[Enumeration] {
        self.types.enumerations.as_slice()
    }

    fn globals(&self) -> &[Known] {
        self.globals.as_slice()
    }

    fn functions(&self) -> &[Signature] {
        self.signatures.as_slice()
    }

    fn default_value(
        &self,
        alloc: Global,
        function: u32,
        parameter: u32,
    ) -> Result<Option<Value>, OutOfMemory> {
        default_of(
            alloc,
            &self.types,
            self.announced.as_slice(),
            self.functions.as_slice(),
            function,
            parameter,
        )
    }

    fn constant(
        &self,
        alloc: Global,
        locals: &[Known],
        of: &SyntaxValue,
    ) -> Result<Option<Value>, OutOfMemory> {
        self.types.source.constant(alloc, locals, of)
    }

    fn line(&self, place: Place) -> u32 {
        self.types.source.line(place)
    }

    fn file(&self, place: Place) -> &[u16] {
        self.types.source.file(place)
    }
}

/// The tables of a program whose types are known.
#[tactic(auto, using(crate::proofs::Whole::things_known))]
fn tables_with<'a, 'n, S: SourceFacts>(
    alloc: Global,
    types: Types<'a, 'n, S>,
    items: &'a [Item],
) -> Result<Tables<'a, 'n, S>, OutOfMemory>
    ensures { IfOk result (λ t. program_in S.given t ≡
        with_things (S.given types.entry.source.now) (meaning types.entry.names.now) items.now
        (types_in S.given types.entry)) }
{
    let variables = variables_in(alloc, items)?;
    let globals = globals_of(alloc, &types, variables.as_slice())?;
    let functions = all_functions(alloc, types.names, items)?;
    let announced = announced_functions(alloc, items)?;
    let signatures = signatures_of(alloc, &types, announced.as_slice(), functions.as_slice())?;
    Ok(Tables {
        types,
        globals,
        signatures,
        announced,
        functions,
    })
}

/// The tables of a program of these items, where its names are known: what is known of the program is
/// `program_of`.
pub fn tables_of<'a, 'n, S: SourceFacts>(
    alloc: Global,
    source: &'a S,
    names: &'a Meanings<'n>,
    items: &'a [Item],
) -> Result<Tables<'a, 'n, S>, OutOfMemory>
    requires { meaning names.now ≡ names_of items.now }
    ensures { IfOk result (λ t. program_in S.given t ≡ program_of (S.given source.now) items.now) }
{
    let types = types_of(alloc, source, names, items)?;
    tables_with(alloc, types, items)
}
