//! Numbers of things.
ghost use Rattle.std.specs.Prelude.{◌≡◌, ◌+◌, length, IfOk};
ghost use Rattle.std.specs.List.{flat_map};
ghost use Rattle.mql_program.specs.Programs.{variables_in};

use fx8::OutOfMemory;
use mql_syntax::Item;

/// A number behind more things: it takes memory for each.
pub(crate) fn counted(first: u32, more: u64) -> Result<u32, OutOfMemory>
    ensures { IfOk result (λ n. n ≡ first + more) }
{
    match u32::try_from(more) {
        Err(_) => Err(OutOfMemory),
        Ok(n) => match first.checked_add(n) {
            None => Err(OutOfMemory),
            Some(sum) => Ok(sum),
        },
    }
}

/// A number of things: it takes memory for each.
pub(crate) fn number_of(n: u64) -> Result<u32, OutOfMemory>
    ensures { IfOk result (λ k. k ≡ n) }
{
    match u32::try_from(n) {
        Err(_) => Err(OutOfMemory),
        Ok(k) => Ok(k),
    }
}

/// The number of variables that an item declares.
pub(crate) fn variables_at(item: &Item) -> u64
    ensures { result ≡ length (variables_in item.now) }
{
    match item {
        Item::Variable(_) => 1,
        _ => 0,
    }
}

/// The number of variables that items declare.
pub(crate) fn variables_among(items: &[Item]) -> Result<u32, OutOfMemory>
    ensures { IfOk result (λ n. n ≡ length (flat_map variables_in items.now)) }
{
    let mut n: u32 = 0;
    let mut rest = items;
    while let [item, others @ ..] = rest {
        n = counted(n, variables_at(item))?;
        rest = others;
    }
    Ok(n)
}
