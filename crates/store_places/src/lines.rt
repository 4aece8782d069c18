//! The frame and the line in force.
ghost use Rattle.std.specs.Prelude.{◌≡◌, MatchOption, None, Some};
ghost use Rattle.mql_meaning.specs.Changes.{line_of, top};
ghost use Rattle.mql_meaning.specs.Places.{set_line};
ghost use Rattle.store_cells.specs.Changes.{Meets};
ghost use Rattle.store_cells.specs.declared.fault.End.TheVariants as end;

use mql_mean::{ErrorKind, RunError};
use mql_meaning::{Frame, Store};
use store_cells::{End, Fault};

/// The frame in force; `None` exactly where no function runs.
pub fn top(store: &Store) -> Option<&Frame>
    ensures { MatchOption result (top store.now ≡ None) (λ f. top store.now ≡ Some f.now) }
{
    let count = store.frames.len();
    if count == 0 {
        return None;
    }
    store.frames.at(count - 1)
}

/// The line in force, and 0 where no function runs.
pub fn line_in_force(store: &Store) -> u32
    ensures { result ≡ line_of (top store.now) }
{
    match top(store) {
        Some(frame) => frame.line,
        None => 0,
    }
}

/// An error at the line in force.
pub fn failed(kind: ErrorKind, store: &Store) -> End
    ensures { result ≡ end.Failed (record { kind = kind; line = line_of (top store.now) }) }
{
    End::Failed(RunError {
        kind,
        line: line_in_force(store),
    })
}

/// A statement puts its line in force. Takes no memory.
#[tactic(auto, using(crate::proofs::Changed::line_set))]
pub fn set_line(line: u32, store: &mut Store) -> Result<(), Fault>
    ensures { Meets (set_line line) result store.old store.new }
{
    let count = store.frames.len();
    if count == 0 {
        return Err(Fault::End(End::Stuck));
    }
    match store.frames.at_mut(count - 1) {
        Some(frame) => {
            frame.line = line;
            Ok(())
        }
        None => Err(Fault::End(End::Stuck)),
    }
}
