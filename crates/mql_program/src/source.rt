//! What typing takes from elsewhere.
ghost use Rattle.std.specs.Prelude.{◌≡◌, IfOk};
ghost use Rattle.mql_program.specs.Programs.{Given};

use fx8::OutOfMemory;
use mql_mean::Value;
use mql_scope::Known;
use mql_syntax::{Place, Value as SyntaxValue};
use mql_types::Base;
use std::alloc::Global;

/// A source whose names and constants are known.
pub trait SourceFacts {
    /// What typing takes from it.
    ghost given: { Self → Given };

    /// The constant that an expression is where these locals are in force, if it is one.
    fn constant(
        &self,
        alloc: Global,
        locals: &[Known],
        of: &SyntaxValue,
    ) -> Result<Option<Value>, OutOfMemory>
        ensures { IfOk result (λ v. v ≡ (given self.now).constant locals.now of.now) };

    /// A constant taken into a type, where it has a value there.
    fn as_type(&self, alloc: Global, of: Base, value: Value) -> Result<Option<Value>, OutOfMemory>
        ensures { IfOk result (λ v. v ≡ (given self.now).as_type of value) };

    /// The line of a node, from 1 on.
    fn line(&self, place: Place) -> u32
        ensures { result ≡ (given self.now).line place };

    /// The name of the file of a node.
    fn file(&self, place: Place) -> &[u16]
        ensures { result.now ≡ (given self.now).file place };
}
