//! Why the rows of a price file could not be read.

ghost use Rattle.std.specs.Prelude.{◌≡◌};
ghost use Rattle.std.specs.Fmt.{WritesOnOk};
ghost use Rattle.price_rows.specs.Views.{fault_text};

use fx8::OutOfMemory;
use std::fmt;

/// Why the rows of a price file could not be read.
#[derive(Clone, Copy, Debug, PartialEq, Eq)]
pub enum RowFault {
    /// The first row that breaks a rule, with that rule. Row 0 and rule 9 stand for an odd number of bytes of
    /// UTF-16.
    Rule { row: u32, rule: u8 },
    /// There was no memory for the rows.
    OutOfMemory,
}

impl fmt::Display for RowFault {
    fn fmt<W: fmt::Write>(&self, f: &mut fmt::Formatter<W>) -> fmt::Result
        ensures { WritesOnOk W.write_str_gives f.old result (fault_text self.now) f.new }
    {
        match self {
            RowFault::Rule { row, rule } => write!(f, "row {row} breaks rule {rule}"),
            RowFault::OutOfMemory => write!(f, "out of memory"),
        }
    }
}

impl std::error::Error for RowFault {}

impl From<OutOfMemory> for RowFault {
    ghost use Rattle.price_rows.specs.declared.row_fault.RowFault.TheVariants as fault;

    ghost from_gives = { λ _ fault_given. fault_given ≡ fault.OutOfMemory };

    fn from(_error: OutOfMemory) -> RowFault {
        RowFault::OutOfMemory
    }
}
