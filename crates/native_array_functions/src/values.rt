//! Values of native functions of arrays, and what is lent.
ghost use Rattle.std.specs.Prelude.{◌≡◌, IfOk};
ghost use Rattle.mql_meaning.specs.Natives as meaning;
ghost use Rattle.native_array_functions.specs.Parts.{place_from};
ghost use Rattle.store_places.specs.Seen.{seen};

use fx8::{IntKind, OutOfMemory};
use mql_mean::Value;
use mql_meaning::Cell;
use std::alloc::Global;
use store_cells::{copied, copied_all};
use store_places::Seen;

/// The number -1.
pub(crate) fn minus_one() -> Value
    ensures { result ≡ meaning.minus_one }
{
    Value::Num(IntKind::Int, -1)
}

/// The value of a void function.
pub(crate) fn void_value() -> Value
    ensures { result ≡ meaning.void_value }
{
    Value::Num(IntKind::Int, 0)
}

/// A cell that is the same as what is lent; an object is the structure of its fields.
pub(crate) fn cell_of(alloc: Global, part: Seen<'_>) -> Result<Cell, OutOfMemory>
    ensures { IfOk result (λ c. c ≡ seen part.entry) }
{
    match part {
        Seen::Cell(cell) => copied(alloc, cell),
        Seen::Object(fields) => Ok(Cell::Structure(copied_all(alloc, fields.as_slice())?)),
    }
}

/// The place of a number; `None` below 0, `OutOfMemory` where 64 bits do not hold it.
pub(crate) fn place_from(number: i128) -> Result<Option<u64>, OutOfMemory>
    ensures { IfOk result (λ place. place ≡ place_from number) }
{
    if number < 0 {
        return Ok(None);
    }
    if number > 0xffff_ffff_ffff_ffff {
        return Err(OutOfMemory);
    }
    Ok(Some(number as u64))
}
