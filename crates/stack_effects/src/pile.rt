//! The operands of a running machine.
ghost use Rattle.stack_effects.specs.Works.{Takes};
ghost use Rattle.std.specs.Prelude.{IfOk};

use fx8::{ItemList, OutOfMemory, Stack};
use std::alloc::Global;
use store_frames::Operand;

/// Takes so many operands, of which the last one was topmost; `None` exactly where there are fewer.
pub fn take(
    alloc: Global,
    count: u64,
    operands: &mut Stack<Operand>,
) -> Result<Option<ItemList<Operand>>, OutOfMemory>
    ensures { IfOk result (λ taken. Takes count taken operands.old operands.new) }
{
    let mut taken = Vec::new(alloc);
    let mut left = count;
    while left > 0 {
        let Some(operand) = operands.pop() else {
            return Ok(None);
        };
        taken.push(operand)?;
        left -= 1;
    }
    taken.reverse();
    Ok(Some(ItemList::from_vec(taken)))
}
