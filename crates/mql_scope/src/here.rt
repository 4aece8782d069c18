//! A place in a function.
ghost use Rattle.std.specs.Prelude.{◌≡◌, ◌+◌, List, [], ◌++◌, length, IfOk};
ghost use Rattle.mql_scope.specs.declared.context.Known.{Known};
ghost use Rattle.mql_scope.specs.Contexts.{behind};
ghost use Rattle.mql_scope.specs.Places.{context_at};

use crate::context::Known;
use crate::facts::ProgramFacts;
use fx8::OutOfMemory;
use mql_meaning::VarType;
use mql_types::Base;

/// A place in a function, and what is known there.
#[derive(Drop)]
#[derive_where(Clone, Copy)]
pub struct Here<'a, P> {
    pub program: &'a P,
    /// The function's name.
    pub function: &'a [u16],
    /// The type of the function's result, if it has one.
    pub result: Option<Base>,
    /// Whether `break` may stand there.
    pub breaks: bool,
    /// Whether `continue` may stand there.
    pub continues: bool,
    /// The variables in force, the innermost last.
    pub locals: &'a [Known],
    /// The number of the next local.
    pub next: u32,
    /// The number of the next static variable.
    pub statics: u32,
}

fn counted(first: u32, more: usize) -> Result<u32, OutOfMemory>
    ensures { IfOk result (λ n. n ≡ first + more) }
{
    match u32::try_from(more) {
        Err(_) => Err(OutOfMemory),
        Ok(n) => match first.checked_add(n) {
            None => Err(OutOfMemory),
            Some(sum) => Ok(sum),
        },
    }
}

impl<'a, P: ProgramFacts> Here<'a, P> {
    /// The place behind something that takes locals and static variables, where these variables are in force.
    pub fn behind<'b>(
        &self,
        taken: &[VarType],
        locals: &'b [Known],
        statics: usize,
    ) -> Result<Here<'b, P>, OutOfMemory>
    where
        'a: 'b,
        ensures fields { IfOk result (λ h. context_at P.program h ≡
            record (context_at P.program self.now) {
              next = self.now.next + length taken.now;
              locals = locals.now;
              statics = self.now.statics + statics;
            }) }
        ensures declares { IfOk result (λ h. (declared : List Known) →
            locals.now ≡ self.now.locals.now ++ declared →
            context_at P.program h ≡ behind taken.now declared statics (context_at P.program self.now)) }
    {
        Ok(Here {
            next: counted(self.next, taken.len())?,
            locals,
            statics: counted(self.statics, statics)?,
            ..*self
        })
    }

    /// The place behind expressions that take locals.
    pub fn behind_values(&self, taken: &[VarType]) -> Result<Here<'a, P>, OutOfMemory>
        ensures { IfOk result (λ h. context_at P.program h ≡
            behind taken.now [] 0 (context_at P.program self.now)) }
    {
        Ok(Here {
            next: counted(self.next, taken.len())?,
            ..*self
        })
    }
}
