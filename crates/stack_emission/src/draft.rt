//! Code in the making.
ghost use Rattle.std.specs.Prelude.{◌≡◌, ◌+◌, None, Some, slice_get, IfOk, OnOk};
ghost use Rattle.stack_emission.specs.Draft.{Adds, NewConstant, NewLabel, NewLabels, SetLabel};

use fx8::{ItemList, OutOfMemory};
use mql_mean::Value;
use stack_code::Instruction;

/// Code in the making: the constants so far, and the instructions of the function that is being written.
#[derive(Drop)]
pub(crate) struct Draft {
    /// The constants by number.
    pub constants: ItemList<Value>,
    /// The instructions of the function.
    pub instructions: ItemList<Instruction>,
    /// The place of each label of the function, once it has one.
    pub labels: ItemList<Option<u32>>,
}

/// A count as a number of 32 bits; a larger one is a growth that is refused for want of memory.
pub(crate) fn short(count: u64) -> Result<u32, OutOfMemory>
    ensures { IfOk result (λ number. number ≡ count) }
{
    if count < 0x1_0000_0000 {
        Ok(count as u32)
    } else {
        Err(OutOfMemory)
    }
}

/// Adds an instruction.
pub(crate) fn put(draft: &mut Draft, instruction: Instruction) -> Result<(), OutOfMemory>
    ensures { OnOk result (Adds instruction draft.old draft.new) }
{
    draft.instructions.push(instruction)
}

/// Adds a constant, and answers its number.
pub(crate) fn add_constant(draft: &mut Draft, value: Value) -> Result<u32, OutOfMemory>
    ensures { IfOk result (λ number. NewConstant value number draft.old draft.new) }
{
    let number = short(draft.constants.len())?;
    draft.constants.push(value)?;
    Ok(number)
}

/// Adds a label, and answers its number.
pub(crate) fn new_label(draft: &mut Draft) -> Result<u32, OutOfMemory>
    ensures { IfOk result (λ label. NewLabel label draft.old draft.new) }
{
    let label = short(draft.labels.len())?;
    draft.labels.push(None)?;
    Ok(label)
}

/// Gives a label the place of the next instruction.
pub(crate) fn set_label(draft: &mut Draft, label: u32) -> Result<(), OutOfMemory>
    requires { slice_get draft.old.labels label ≡ Some None }
    ensures { OnOk result (SetLabel label draft.old draft.new) }
{
    let place = short(draft.instructions.len())?;
    let _unset = draft.labels.replace(label as u64, Some(place));
    Ok(())
}

/// Adds so many labels in a row, and answers the number of the first.
pub(crate) fn new_labels(draft: &mut Draft, count: u64) -> Result<u32, OutOfMemory>
    ensures { IfOk result (λ first. NewLabels count first draft.old draft.new) }
{
    let first = short(draft.labels.len())?;
    for _i in 0..count {
        draft.labels.push(None)?;
    }
    Ok(first)
}

/// The number of a label so far behind another.
pub(crate) fn label_behind(first: u32, far: u64) -> Result<u32, OutOfMemory>
    ensures { IfOk result (λ label. label ≡ first + far) }
{
    if far < 0x1_0000_0000 {
        short(first as u64 + far)
    } else {
        Err(OutOfMemory)
    }
}
