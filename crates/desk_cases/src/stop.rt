//! Why a script stops.

use fx8::OutOfMemory;

/// Why a script does not go on.
#[derive(Clone, Copy, Debug)]
pub enum Stop {
    /// A line has not its form, or a number of it is out of its range.
    BadLine,
    /// There is no memory.
    OutOfMemory,
}

impl From<OutOfMemory> for Stop {
    fn from(_error: OutOfMemory) -> Stop {
        Stop::OutOfMemory
    }
}
