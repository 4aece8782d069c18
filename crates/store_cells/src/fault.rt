//! How a change of the store ends.

use fx8::OutOfMemory;
use mql_mean::RunError;

/// How a change of the store ends the run.
#[derive(Clone, Copy, Debug, PartialEq, Eq)]
pub enum End {
    /// With an error, at the line in force.
    Failed(RunError),
    /// No typed program comes here.
    Stuck,
}

/// Why a change of the store does not come to its end.
#[derive(Clone, Copy, Debug, PartialEq, Eq)]
pub enum Fault {
    /// It ends the run.
    End(End),
    /// There was no memory, which says nothing of the program.
    OutOfMemory,
}

impl From<OutOfMemory> for Fault {
    ghost use Rattle.std.specs.Prelude.{◌≡◌};
    ghost use Rattle.store_cells.specs.declared.fault.Fault.TheVariants as faults;

    ghost from_gives = { λ _ e. e ≡ faults.OutOfMemory };

    fn from(_error: OutOfMemory) -> Fault {
        Fault::OutOfMemory
    }
}

impl From<End> for Fault {
    ghost use Rattle.std.specs.Prelude.{◌≡◌};
    ghost use Rattle.store_cells.specs.declared.fault.Fault.TheVariants as faults;

    ghost from_gives = { λ end e. e ≡ faults.End end };

    fn from(end: End) -> Fault {
        Fault::End(end)
    }
}
