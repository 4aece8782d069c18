//! From the texts of a source to the code of its program.
ghost use Rattle.std.specs.Prelude.{◌≤◌, ◌^◌, length, All, IfOk, IfErr};
ghost use Rattle.mql_source.specs.Limits.{most_units};
ghost use Rattle.tester_program.specs.Compiling.{Compiles, CompileRefused, FaultOf};

use crate::program::judge_program;
use fx8::{OutOfMemory, Text8};
use mql_preproc::Sources;
use stack_code::Code;
use std::alloc::Global;
use tester_answer::{SourceFault, Status};
use tester_sources::{Wanted, make_wanted};

/// Why sources do not compile.
#[derive(Debug, Drop)]
pub enum CompileFault {
    /// An active include names a file that is not among the sources.
    Need(Text8),
    /// A source breaks a rule.
    Source(SourceFault),
    OutOfMemory,
}

impl From<OutOfMemory> for CompileFault {
    ghost use Rattle.std.specs.Prelude.{◌≡◌};
    ghost use Rattle.tester_program.specs.declared.compiling.CompileFault.TheVariants as fault;

    ghost from_gives = { λ _ given. given ≡ fault.OutOfMemory };

    fn from(_error: OutOfMemory) -> CompileFault {
        CompileFault::OutOfMemory
    }
}

// The fault of a status that refuses a source.
fn fault_of(status: Status) -> CompileFault
    ensures { FaultOf status result }
{
    match status {
        Status::Source(fault) => CompileFault::Source(fault),
        _ => CompileFault::OutOfMemory,
    }
}

/// Compiles the source of a name, with the files that it includes among the sources.
///
/// The code stands for the typed program that the source means, so it has an outcome exactly where the source means
/// it, for every event, argument, number of steps and world.
pub fn compile(alloc: Global, entry: &Text8, sources: &Sources) -> Result<Code, CompileFault>
    requires few { length sources.now ≤ 2 ^ 32 }
    requires short { All (λ s. length s.text ≤ most_units) sources.now }
    ensures program { IfOk result (Compiles entry.now sources.now) }
    ensures refused { IfErr result (CompileRefused entry.now sources.now) }
{
    let tokens = match make_wanted(alloc, entry, sources) {
        Ok(Wanted::Tokens(tokens)) => tokens,
        Ok(Wanted::File(name)) => return Err(CompileFault::Need(name)),
        Err(status) => return Err(fault_of(status)),
    };
    match judge_program(alloc, entry, sources, &tokens) {
        Ok(code) => Ok(code),
        Err(status) => Err(fault_of(status)),
    }
}
