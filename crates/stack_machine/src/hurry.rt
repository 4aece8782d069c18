//! Many instructions at once, over operands that take no memory.
ghost use Rattle.std.specs.Prelude.{◌≡◌, [], map, IfOk, OnOk};
ghost use Rattle.stack_code.specs.Paced.{Paced};
ghost use Rattle.stack_machine.specs.Quick.{Hurried};
ghost use Rattle.stack_unboxed.specs.Unboxed.{boxed, upon};
ghost use Rattle.store_frames.specs.Operands.{shown};

use crate::quick::advance;
use crate::state::State;
use fx8::{ItemList, OutOfMemory, Stack};
use mql_mean::Value;
use mql_meaning::Place;
use stack_code::Code;
use stack_unboxed::Unboxed;
use std::alloc::Global;
use store_frames::Operand;

/// An operand as the machine has it.
fn operand(alloc: Global, unboxed: Unboxed) -> Operand
    ensures { shown result ≡ boxed unboxed }
{
    match unboxed {
        Unboxed::Number(number) => Operand::Value(Value::Num(number.kind, number.number as i128)),
        Unboxed::Variable(root) => Operand::Place(Place {
            root,
            path: ItemList::new(alloc),
        }),
    }
}

/// Operands as the machine has them, the topmost first.
fn operands(alloc: Global, top: &mut Stack<Unboxed>) -> Result<ItemList<Operand>, OutOfMemory>
    ensures { IfOk result (λ list. (top.new ≡ []) × (map shown list ≡ map boxed top.old)) }
{
    let mut list = ItemList::new(alloc);
    while let Some(unboxed) = top.pop() {
        list.push(operand(alloc, unboxed))?;
    }
    Ok(list)
}

/// Puts operands that take no memory on top of the machine's own.
fn spill(
    alloc: Global,
    top: &mut Stack<Unboxed>,
    own: &mut Stack<Operand>,
) -> Result<(), OutOfMemory>
    ensures { OnOk result ((top.new ≡ []) × (map shown own.new ≡ upon top.old (map shown own.old))) }
{
    own.push_list(operands(alloc, top)?)
}

/// Does instructions, as long as each can be done on operands that take no memory. The machine then has its
/// own operands alone.
pub(crate) fn hurry(
    alloc: Global,
    code: &Code,
    state: &mut State,
    top: &mut Stack<Unboxed>,
    steps: &mut u64,
) -> Result<(), OutOfMemory>
    requires paced { Paced code.now }
    requires empty { top.old ≡ [] }
    ensures { Hurried result code.now state.old steps.old state.new top.new steps.new }
{
    'hurry: loop {
        if !advance(code, state, top, steps)? {
            break;
        }
    }
    spill(alloc, top, &mut state.operands)
}
