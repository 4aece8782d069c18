//! What is known of the types of a program.
ghost use Rattle.std.specs.Prelude.{◌≡◌, IfOk};
ghost use Rattle.mql_names.specs.Maps.{meaning};
ghost use Rattle.mql_program.specs.Programs.{of_types, with_types};
ghost use Rattle.mql_program.specs.Tables.{types_in};

use crate::enumerations::enumerations_of;
use crate::named::{named_enumerations, named_structures};
use crate::source::SourceFacts;
use crate::structures::structures_of;
use fx8::{ItemList, OutOfMemory};
use mql_mean::Value;
use mql_names::{Meanings, Sort, meaning_of, named_sort, type_sort};
use mql_scope::{Enumeration, Known, Layout, ProgramFacts};
use mql_syntax::{Item, Place, TypeUse, Value as SyntaxValue};
use mql_types::Signature;
use std::alloc::Global;

/// What is known of the types of a program: as a program, one without global variables and functions.
#[derive(Drop)]
pub(crate) struct Types<'a, 'n, S> {
    pub(crate) source: &'a S,
    /// What its names mean.
    pub(crate) names: &'a Meanings<'n>,
    /// The structures, the supplied ones first.
    pub(crate) structures: ItemList<Layout>,
    pub(crate) enumerations: ItemList<Enumeration>,
}

impl<S: SourceFacts> ProgramFacts for Types<'_, '_, S> {
    ghost program = { types_in S.given };

    fn type_sort(&self, of: &TypeUse) -> Sort {
        type_sort(self.names, of)
    }

    fn named_sort(&self, name: &[u16]) -> Sort {
        named_sort(self.names, name)
    }

    fn is_declared(&self, name: &[u16]) -> bool {
        meaning_of(self.names, name).is_some()
    }

    fn structures(&self) -> &[Layout] {
        self.structures.as_slice()
    }

    fn enumerations(&self) -> &[Enumeration] {
        self.enumerations.as_slice()
    }

    fn globals(&self) -> &[Known] {
        &[]
    }

    fn functions(&self) -> &[Signature] {
        &[]
    }

    fn default_value(
        &self,
        _alloc: Global,
        _function: u32,
        _parameter: u32,
    ) -> Result<Option<Value>, OutOfMemory> {
        Ok(None)
    }

    fn constant(
        &self,
        alloc: Global,
        locals: &[Known],
        of: &SyntaxValue,
    ) -> Result<Option<Value>, OutOfMemory> {
        self.source.constant(alloc, locals, of)
    }

    fn line(&self, place: Place) -> u32 {
        self.source.line(place)
    }

    fn file(&self, place: Place) -> &[u16] {
        self.source.file(place)
    }
}

/// The types of a program by what they are called, and nothing else yet.
fn named_types<'a, 'n, S: SourceFacts>(
    alloc: Global,
    source: &'a S,
    names: &'a Meanings<'n>,
    items: &[Item],
) -> Result<Types<'a, 'n, S>, OutOfMemory>
    ensures types { IfOk result (λ t. types_in S.given t ≡
        of_types (S.given source.now) (meaning names.now) items.now) }
    ensures source { IfOk result (λ t. t.source.now ≡ source.now) }
    ensures names { IfOk result (λ t. t.names.now ≡ names.now) }
{
    let structures = named_structures(alloc, items)?;
    let enumerations = named_enumerations(alloc, items)?;
    Ok(Types {
        source,
        names,
        structures,
        enumerations,
    })
}

/// The types of a program, with fields and members.
fn whole_types<'a, 'n, S: SourceFacts>(
    alloc: Global,
    named: &Types<'a, 'n, S>,
    items: &[Item],
) -> Result<Types<'a, 'n, S>, OutOfMemory>
    ensures types { IfOk result (λ t. types_in S.given t ≡
        with_types (S.given named.now.source.now) (meaning named.now.names.now) items.now
        (types_in S.given named.now)) }
    ensures source { IfOk result (λ t. t.source.now ≡ named.now.source.now) }
    ensures names { IfOk result (λ t. t.names.now ≡ named.now.names.now) }
{
    let structures = structures_of(alloc, named, items)?;
    let enumerations = enumerations_of(alloc, named, items)?;
    Ok(Types {
        source: named.source,
        names: named.names,
        structures,
        enumerations,
    })
}

/// What is known of the types of a program.
pub(crate) fn types_of<'a, 'n, S: SourceFacts>(
    alloc: Global,
    source: &'a S,
    names: &'a Meanings<'n>,
    items: &[Item],
) -> Result<Types<'a, 'n, S>, OutOfMemory>
    ensures types { IfOk result (λ t. types_in S.given t ≡
        with_types (S.given source.now) (meaning names.now) items.now
        (of_types (S.given source.now) (meaning names.now) items.now)) }
    ensures source { IfOk result (λ t. t.source.now ≡ source.now) }
    ensures names { IfOk result (λ t. t.names.now ≡ names.now) }
{
    let named = named_types(alloc, source, names, items)?;
    whole_types(alloc, &named, items)
}
