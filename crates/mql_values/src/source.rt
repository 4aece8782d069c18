//! What typing takes from a source.
ghost use Rattle.std.specs.Prelude.{◌≡◌, List, IfOk, slice_get};
ghost use Rattle.mql_syntax.specs.declared.declaration.Item.{Item};
ghost use Rattle.mql_names.specs.Maps.{meaning};
ghost use Rattle.mql_sizes.specs.Maps.{value_at};
ghost use Rattle.mql_values.specs.Sources as sources;

use crate::constants::{as_type, constant_of};
use crate::names::NamesHere;
use fx8::{ItemList, OutOfMemory, Text};
use mql_mean::Value;
use mql_names::Meanings;
use mql_program::SourceFacts;
use mql_scope::Known;
use mql_sizes::Values;
use mql_syntax::{Place, Value as SyntaxValue};
use mql_tree::{Span, Tokens};
use mql_types::Base;
use std::alloc::Global;

/// A source whose declarations are gathered.
#[derive(Drop)]
pub struct Source<'a, 'n, 'v> {
    /// What the names of the program's own scope mean.
    pub names: &'a Meanings<'n>,
    /// The values of members of enumerations, by name.
    pub values: &'a Values<'v>,
    /// The tokens of the program, to which places lead.
    pub tokens: &'a Tokens,
    /// The names of the files, by the numbers that the tokens have of them.
    pub files: &'a ItemList<Text>,
}

fn span_at(tokens: &Tokens, place: u32) -> Option<Span>
    ensures { result ≡ sources.span_at tokens.now place }
{
    match tokens.at(u64::from(place)) {
        Some((_, span)) => Some(*span),
        None => None,
    }
}

fn file_of(span: Option<Span>) -> u32
    ensures { result ≡ sources.file_of span }
{
    match span {
        Some(span) => span.file,
        None => 0,
    }
}

#[tactic(auto, unfolding(crate::specs::Sources::line_at))]
fn line_at(tokens: &Tokens, place: Place) -> u32
    ensures { result ≡ sources.line_at tokens.now place }
{
    match span_at(tokens, place.first) {
        Some(span) => span.line,
        None => 1,
    }
}

fn name_at(files: &ItemList<Text>, file: u32) -> &[u16]
    ensures { result.now ≡ sources.name_of (slice_get files.now file) }
{
    match files.at(u64::from(file)) {
        Some(name) => name.as_slice(),
        None => &[],
    }
}

#[tactic(auto, unfolding(crate::specs::Sources::file_at))]
fn file_at<'f>(tokens: &Tokens, files: &'f ItemList<Text>, place: Place) -> &'f [u16]
    ensures { result.now ≡ sources.file_at tokens.now files.now place }
{
    name_at(files, file_of(span_at(tokens, place.first)))
}

#[tactic(auto, unfolding(crate::specs::Sources::constant_at))]
fn constant_at(
    alloc: Global,
    names: &Meanings<'_>,
    values: &Values<'_>,
    locals: &[Known],
    of: &SyntaxValue,
) -> Result<Option<Value>, OutOfMemory>
    ensures { IfOk result (λ v. v ≡
        sources.constant_at (meaning names.now) (value_at values.now) locals.now of.now) }
{
    let here = NamesHere {
        names,
        values,
        locals,
    };
    constant_of(alloc, &here, of)
}

impl SourceFacts for Source<'_, '_, '_> {
    ghost given = { λ s.
        sources.given_in (meaning s.names.now) (value_at s.values.now) s.tokens.now s.files.now };

    #[tactic(auto, unfolding(crate::specs::Sources::given_in))]
    fn constant(
        &self,
        alloc: Global,
        locals: &[Known],
        of: &SyntaxValue,
    ) -> Result<Option<Value>, OutOfMemory> {
        constant_at(alloc, self.names, self.values, locals, of)
    }

    #[tactic(auto, unfolding(crate::specs::Sources::given_in))]
    fn as_type(&self, alloc: Global, of: Base, value: Value) -> Result<Option<Value>, OutOfMemory> {
        as_type(alloc, of, &value)
    }

    #[tactic(auto, unfolding(crate::specs::Sources::given_in))]
    fn line(&self, place: Place) -> u32 {
        line_at(self.tokens, place)
    }

    #[tactic(auto, unfolding(crate::specs::Sources::given_in))]
    fn file(&self, place: Place) -> &[u16] {
        file_at(self.tokens, self.files, place)
    }
}

/// The source of a program of items: their names and the values of their members, its tokens and the names of its
/// files.
#[tactic(auto, using(crate::proofs::Declared::given_is))]
pub fn source_of<'a, 'n, 'v>(
    names: &'a Meanings<'n>,
    values: &'a Values<'v>,
    tokens: &'a Tokens,
    files: &'a ItemList<Text>,
) -> Source<'a, 'n, 'v>
    ensures { (items : List Item) → sources.IsSourceOf items (meaning names.now) (value_at values.now)
        → sources.given_in (meaning result.names.now) (value_at result.values.now) result.tokens.now result.files.now
        ≡ sources.given_of items tokens.now files.now }
{
    Source {
        names,
        values,
        tokens,
        files,
    }
}
