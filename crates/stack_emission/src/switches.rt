//! The tests of a `switch`.
ghost use Rattle.std.specs.Prelude.{◌≡◌, IfOk, OnOk};
ghost use Rattle.stack_emission.specs.Draft.{Emits};
ghost use Rattle.stack_emission.specs.Statements.{label_of, otherwise, tests};

use crate::draft::{Draft, label_behind, new_label, put, set_label};
use crate::expressions::equals;
use fx8::OutOfMemory;
use mql_mean::Value;
use stack_code::{Effect, Instruction};

/// The label of a place in the body of a switch, whose statements have labels in a row, and then its end.
pub(crate) fn label_of(first: u32, end: u64, place: u32) -> Result<u32, OutOfMemory>
    ensures { IfOk result (λ label. label ≡ label_of first end place) }
{
    let place = place as u64;
    let far = if place < end { place } else { end };
    label_behind(first, far)
}

/// Goes on where no label fits.
#[tactic(auto, using(crate::proofs::SwitchEmits::otherwise_emits))]
fn otherwise(draft: &mut Draft, default: u32) -> Result<(), OutOfMemory>
    ensures { OnOk result (Emits (otherwise default) draft.old draft.new) }
{
    put(draft, Instruction::Plain(Effect::Drop))?;
    put(draft, Instruction::Jump(default))
}

/// Writes the tests of a switch, whose number is on top.
pub(crate) fn tests(
    draft: &mut Draft,
    labels: &[Value],
    places: &[u32],
    first: u32,
    end: u64,
    default: u32,
) -> Result<(), OutOfMemory>
    ensures { OnOk result (Emits (tests (label_of first end) labels.now places.now default)
        draft.old draft.new) }
{
    match labels {
        [] => otherwise(draft, default),
        [number, more @ ..] => match places {
            [] => otherwise(draft, default),
            [place, rest @ ..] => {
                let to = label_of(first, end, *place)?;
                let next = new_label(draft)?;
                put(draft, Instruction::Plain(Effect::Twice))?;
                equals(draft, number)?;
                put(draft, Instruction::Unless(next))?;
                put(draft, Instruction::Plain(Effect::Drop))?;
                put(draft, Instruction::Jump(to))?;
                set_label(draft, next)?;
                tests(draft, more, rest, first, end, default)
            }
        },
    }
}
