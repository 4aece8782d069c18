//! Code that spends steps.
ghost use Rattle.std.specs.Prelude.{◌≡◌, ◌↔◌, ◌≤◌, ℕ, IsTrue, Some, slice_get};
ghost use Rattle.stack_code.specs.Paced as paced;
ghost use Rattle.stack_code.specs.Paced.{Paced, PacedAt, PacedFunction};
ghost use Rattle.stack_machine.specs.Pace as pace;

use stack_code::{Code, FunctionCode, Instruction};

/// Whether the instruction at a place spends a step.
fn is_step(function: &FunctionCode, place: u64) -> bool
    ensures { result ≡ pace.is_step (slice_get function.now.instructions place) }
{
    match function.instructions.at(place) {
        Some(Instruction::Step) => true,
        _ => false,
    }
}

/// The place to which the instruction at a place may jump.
fn jump_at(function: &FunctionCode, place: u64) -> Option<u64>
    ensures { result ≡ paced.jump_at function.now place }
{
    let label = match function.instructions.at(place)? {
        Instruction::Jump(label) => *label,
        Instruction::Unless(label) => *label,
        _ => return None,
    };
    let label = function.labels.at(label as u64)?;
    Some(label.place as u64)
}

/// Whether the instruction at a place jumps to no earlier place, or to a step.
fn is_paced_at(function: &FunctionCode, place: u64) -> bool
    ensures { IsTrue result ↔ PacedAt function.now place }
{
    match jump_at(function, place) {
        Some(to) => {
            if to > place {
                return true;
            }
            is_step(function, to)
        }
        None => true,
    }
}

fn is_paced_function(function: &FunctionCode) -> bool
    ensures { IsTrue result ↔ PacedFunction function.now }
{
    if !is_step(function, 0) {
        return false;
    }
    for place in 0..function.instructions.len() {
        if !is_paced_at(function, place) {
            return false;
        }
    }
    true
}

/// Whether each function of code begins with a step, and each jump leads to a later place or to a step.
pub fn is_paced(code: &Code) -> bool
    ensures { IsTrue result ↔ Paced code.now }
{
    for function in code.functions.as_slice() {
        if !is_paced_function(function) {
            return false;
        }
    }
    true
}
