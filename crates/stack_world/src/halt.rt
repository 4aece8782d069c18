//! Why an act of a program does not go on.

use fx8::OutOfMemory;
use store_cells::{End, Fault};

/// Why an act of a program does not go on.
#[derive(Clone, Copy, Debug, PartialEq, Eq)]
pub enum Halt {
    /// A change of the store ends the run.
    End(End),
    /// The world had no fitting answer.
    Stopped,
    /// There was no memory, which says nothing of the program.
    OutOfMemory,
}

impl From<OutOfMemory> for Halt {
    ghost use Rattle.std.specs.Prelude.{◌≡◌};
    ghost use Rattle.stack_world.specs.declared.halt.Halt.TheVariants as halts;

    ghost from_gives = { λ _ e. e ≡ halts.OutOfMemory };

    fn from(_error: OutOfMemory) -> Halt {
        Halt::OutOfMemory
    }
}

impl From<Fault> for Halt {
    ghost use Rattle.std.specs.Prelude.{◌≡◌};
    ghost use Rattle.stack_world.specs.Acts.{halted};

    ghost from_gives = { λ fault e. e ≡ halted fault };

    fn from(fault: Fault) -> Halt {
        match fault {
            Fault::End(end) => Halt::End(end),
            Fault::OutOfMemory => Halt::OutOfMemory,
        }
    }
}
