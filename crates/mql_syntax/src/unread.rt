//! Why nothing is read.

use fx8::OutOfMemory;

/// Why a part of a tree is not read.
#[derive(Clone, Copy, Debug, PartialEq, Eq)]
pub enum Unread {
    /// It is not of the form.
    Nothing,
    /// There was no memory.
    OutOfMemory,
}

impl From<OutOfMemory> for Unread {
    ghost use Rattle.std.specs.Prelude.{◌≡◌};
    ghost use Rattle.mql_syntax.specs.declared.unread.Unread.TheVariants as faults;

    ghost from_gives = { λ _ e. e ≡ faults.OutOfMemory };

    fn from(_error: OutOfMemory) -> Unread {
        Unread::OutOfMemory
    }
}
