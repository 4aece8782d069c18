//! What a native function does.
ghost use Rattle.std.specs.Prelude.{◌≡◌, [], ◌∷◌, true, false, IfOk};
ghost use Rattle.mql_meaning.specs.Natives as meaning;
ghost use Rattle.native_arguments.specs.Done.{done_of};

use fx8::{ItemList, OutOfMemory};
use mql_mean::Value;
use mql_meaning::Cell;
use std::alloc::Global;

/// What a native function does.
#[derive(Drop)]
pub struct NativeDone {
    /// Its value; that of a void function is the 0 of `int`.
    pub value: Value,
    /// What its first reference arguments become, in order.
    pub outs: ItemList<Cell>,
    /// Whether an argument was out of range, which sets the last error.
    pub out_of_range: bool,
}

/// A native function gives a value.
pub fn gives(alloc: Global, value: Value) -> NativeDone
    ensures { done_of result ≡ record { value = value; outs = []; out_of_range = false } }
{
    NativeDone {
        value,
        outs: ItemList::new(alloc),
        out_of_range: false,
    }
}

/// A native function finds an argument out of range, and gives a value.
pub fn refuses(alloc: Global, value: Value) -> NativeDone
    ensures { done_of result ≡ record { value = value; outs = []; out_of_range = true } }
{
    NativeDone {
        value,
        outs: ItemList::new(alloc),
        out_of_range: true,
    }
}

/// A native function gives a value, and its first reference argument becomes a cell.
pub fn gives_with(alloc: Global, cell: Cell, value: Value) -> Result<NativeDone, OutOfMemory>
    ensures { IfOk result (λ d. done_of d
        ≡ record { value = value; outs = cell ∷ []; out_of_range = false }) }
{
    let mut outs = ItemList::new(alloc);
    outs.push(cell)?;
    Ok(NativeDone {
        value,
        outs,
        out_of_range: false,
    })
}
