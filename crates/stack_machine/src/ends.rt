//! How a run ends.
ghost use Rattle.std.specs.Prelude.{◌≡◌};
ghost use Rattle.stack_machine.specs.Ends.{by_change, faulted, halted};

use mql_mean::{RunError, Value};
use stack_world::Halt;

/// How a run ends.
#[derive(Drop)]
pub enum End {
    /// The function of the event has returned this value.
    Returned(Value),
    /// With an error, at the line in force.
    Failed(RunError),
    /// No step is left.
    Exhausted,
    /// The world had no fitting answer.
    Stopped,
    /// No code of a typed program comes here.
    Stuck,
}

/// Why an instruction is the last one.
#[derive(Drop)]
pub enum Fault {
    /// The run has ended.
    End(End),
    /// There was no memory, which says nothing of the program.
    OutOfMemory,
}

/// How the run ends where a change of the store does.
pub fn by_change(end: store_cells::End) -> End
    ensures { result ≡ by_change end }
{
    match end {
        store_cells::End::Failed(error) => End::Failed(error),
        store_cells::End::Stuck => End::Stuck,
    }
}

/// Why an instruction is the last one where a change of the store does not come to its end.
pub fn faulted(fault: store_cells::Fault) -> Fault
    ensures { result ≡ faulted fault }
{
    match fault {
        store_cells::Fault::End(end) => Fault::End(by_change(end)),
        store_cells::Fault::OutOfMemory => Fault::OutOfMemory,
    }
}

/// Why an instruction is the last one where a native function does not come to its end.
pub fn halted(halt: Halt) -> Fault
    ensures { result ≡ halted halt }
{
    match halt {
        Halt::End(end) => Fault::End(by_change(end)),
        Halt::Stopped => Fault::End(End::Stopped),
        Halt::OutOfMemory => Fault::OutOfMemory,
    }
}
