//! What code that types a program asks of the program.
ghost use Rattle.std.specs.Prelude.{◌≡◌, is_some, IfOk};
ghost use Rattle.mql_names.specs.Types.{type_sort, named_sort};
ghost use Rattle.mql_scope.specs.Contexts.{Program};

use crate::context::{Enumeration, Known, Layout};
use fx8::OutOfMemory;
use mql_mean::Value;
use mql_names::Sort;
use mql_syntax::{Place, TypeUse, Value as SyntaxValue};
use mql_types::Signature;
use std::alloc::Global;

/// A program whose declarations are gathered: what its names mean, its types, variables and functions.
pub trait ProgramFacts {
    /// The program.
    ghost program: { Self → Program };

    /// What a type is that is written.
    fn type_sort(&self, of: &TypeUse) -> Sort
        ensures { result ≡ type_sort (program self.now).names of.now };

    /// What type a name is.
    fn named_sort(&self, name: &[u16]) -> Sort
        ensures { result ≡ named_sort (program self.now).names name.now };

    /// Whether the program declares a name in its own scope.
    fn is_declared(&self, name: &[u16]) -> bool
        ensures { result ≡ is_some ((program self.now).names name.now) };

    /// The structures, the supplied ones first.
    fn structures(&self) -> &[Layout]
        ensures { result.now ≡ (program self.now).structures };

    /// The enumerations.
    fn enumerations(&self) -> &[Enumeration]
        ensures { result.now ≡ (program self.now).enumerations };

    /// The global variables.
    fn globals(&self) -> &[Known]
        ensures { result.now ≡ (program self.now).globals };

    /// The functions.
    fn functions(&self) -> &[Signature]
        ensures { result.now ≡ (program self.now).functions };

    /// The default of a parameter, by its function's number and its place, if it has one.
    fn default_value(
        &self,
        alloc: Global,
        function: u32,
        parameter: u32,
    ) -> Result<Option<Value>, OutOfMemory>
        ensures { IfOk result (λ v. v ≡ (program self.now).default function parameter) };

    /// The constant that an expression is where these locals are in force, if it is one.
    fn constant(
        &self,
        alloc: Global,
        locals: &[Known],
        of: &SyntaxValue,
    ) -> Result<Option<Value>, OutOfMemory>
        ensures { IfOk result (λ v. v ≡ (program self.now).constant locals.now of.now) };

    /// The line of a node, from 1 on.
    fn line(&self, place: Place) -> u32
        ensures { result ≡ (program self.now).line place };

    /// The name of the file of a node.
    fn file(&self, place: Place) -> &[u16]
        ensures { result.now ≡ (program self.now).file place };
}
