//! The full names of keys.
ghost use Rattle.std.specs.Prelude.{◌≡◌, IfOk};
ghost use Rattle.settings_file.specs.Names.{symbol_name, symbol_prefix, range_name, range_prefix};

use fx8::{OutOfMemory, Text8};
use std::alloc::Global;

/// The symbol at a place.
pub(crate) fn symbol_name(alloc: Global, i: u64) -> Result<Text8, OutOfMemory>
    ensures { IfOk result (λ name. name ≡ symbol_name i) }
{
    let mut name = Text8::from_slice(alloc, b"symbol.")?;
    let mut buffer = itoa::Buffer::new();
    name.extend_from_slice(buffer.format(i).as_bytes())?;
    Ok(name)
}

/// What the names of a symbol's keys begin with.
pub(crate) fn symbol_prefix(alloc: Global, i: u64) -> Result<Text8, OutOfMemory>
    ensures { IfOk result (λ name. name ≡ symbol_prefix i) }
{
    let mut name = symbol_name(alloc, i)?;
    name.push(b'.')?;
    Ok(name)
}

/// The range of an input.
pub(crate) fn range_name(alloc: Global, input: &str) -> Result<Text8, OutOfMemory>
    ensures { IfOk result (λ name. name ≡ range_name input.now) }
{
    let mut name = Text8::from_slice(alloc, b"optimise.")?;
    name.extend_from_slice(input.as_bytes())?;
    Ok(name)
}

/// What the names of a range's keys begin with.
pub(crate) fn range_prefix(alloc: Global, input: &str) -> Result<Text8, OutOfMemory>
    ensures { IfOk result (λ name. name ≡ range_prefix input.now) }
{
    let mut name = range_name(alloc, input)?;
    name.push(b'.')?;
    Ok(name)
}
