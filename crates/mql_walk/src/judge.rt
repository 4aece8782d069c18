//! Rules that are asked of what is written in a program.
ghost use Rattle.std.specs.Prelude.{◌≡◌, List, IfOk};
ghost use Rattle.mql_names.specs.declared.fault.Broken.{Broken};
ghost use Rattle.mql_names.specs.Faults.{told};
ghost use Rattle.mql_walk.specs.Things.{Thing};
ghost use Rattle.mql_walk.specs.Things as thing;

use fx8::{OutOfMemory, Text};
use mql_names::Broken;
use mql_syntax::{Class, Function, Member, Operation, Place, StatementKind, TypeUse, Variable};

/// Rules, each by what breaks it: each call says what is told of one thing.
pub trait Judge {
    /// What breaks the rules at a thing.
    ghost breaks: { Self → Thing → List Broken };

    /// Of a type that is written.
    fn on_type(&self, of: &TypeUse) -> Option<Broken>
        ensures { result ≡ told (breaks self.now (thing.type of.now)) };

    /// Of a value, by what it does, with the names of the locals in force.
    fn on_value(&self, locals: &[Text], place: Place, what: &Operation) -> Option<Broken>
        ensures { result ≡ told (breaks self.now (thing.value locals.now place what.now)) };

    /// Of a statement, by what it does.
    fn on_statement(&self, place: Place, what: StatementKind) -> Option<Broken>
        ensures { result ≡ told (breaks self.now (thing.statement place what)) };

    /// Of a variable, a field or a parameter, with the names of the locals in force.
    fn on_variable(&self, locals: &[Text], v: &Variable) -> Result<Option<Broken>, OutOfMemory>
        ensures { IfOk result (λ b. b ≡ told (breaks self.now (thing.variable locals.now v.now))) };

    /// Of a function.
    fn on_function(&self, f: &Function) -> Option<Broken>
        ensures { result ≡ told (breaks self.now (thing.function f.now)) };

    /// Of a class, a structure or an interface.
    fn on_structure(&self, c: &Class) -> Option<Broken>
        ensures { result ≡ told (breaks self.now (thing.structure c.now)) };

    /// Of a member.
    fn on_member(&self, m: &Member) -> Option<Broken>
        ensures { result ≡ told (breaks self.now (thing.member m.now)) };
}
