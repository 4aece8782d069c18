//! The world that a running program asks.
ghost use Rattle.std.specs.Prelude.{◌≡◌, MatchResult};
ghost use Rattle.stack_world.specs.Turns.{Answers};

use mql_mean::{HostCall, HostEnd, Reply};

/// The world of a running program. Whether a reply fits the call is judged by the one that asks.
pub trait World {
    ghost use Rattle.mql_mean.specs.declared.host.HostCall.{HostCall};
    ghost use Rattle.mql_mean.specs.Answer.{Answer};

    /// From one state of the world, a call may get an answer and lead to another state.
    ghost answers: { Self → HostCall → Answer → Self → Type 0 };

    /// Asks the world. After a want of memory nothing is said of it.
    fn ask(&mut self, call: &HostCall) -> Result<Reply, HostEnd>
        ensures { Answers answers self.old call.now result self.new };
}
