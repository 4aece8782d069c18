//! What a pass of the tester comes to.

use mql_mean::RunError;
use tester_world::PrintList;

/// Why a pass ended.
#[derive(Clone, Copy, Debug, PartialEq, Eq)]
pub enum PassEnd {
    /// All quotes were taken.
    Completed,
    /// `OnInit` answered this number, which is not 0.
    InitFailed(i32),
    /// The expert asked for its removal.
    Removed,
    /// No step was left.
    Exhausted,
    /// A run error.
    Error(RunError),
    /// The tester had no fitting answer to a call; it has one to each call that typing allows.
    Stopped,
    /// The code went on to an instruction that it cannot do, to which no code of a typed program comes.
    Stuck,
}

/// What a pass came to.
#[derive(Drop)]
pub struct PassResult {
    pub end: PassEnd,
    /// The lines that the expert printed, in order.
    pub prints: PrintList,
    /// How many quotes the pass took, the one at which it ended included.
    pub quotes: u64,
    /// How many of them were loud.
    pub loud: u64,
}
