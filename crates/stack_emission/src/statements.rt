//! The code of statements.
ghost use Rattle.std.specs.Prelude.{◌≡◌, ◌+◌, OnOk, length};
ghost use Rattle.stack_emission.specs.Draft.{Emits, Wait, Writes, jump};
ghost use Rattle.stack_emission.specs.Statements.{all_cases, begun, breaking, evaluated, given, leads, left, line_at, loop, restarted, returned, statement, statements, switched};
ghost use Rattle.stack_follows.specs.Stands.{inside};

use crate::draft::{Draft, label_behind, new_label, new_labels, put, set_label};
use crate::expressions::{all_let_go, expression, is_void, let_go, operand, stuck_if};
use crate::switches::{label_of, tests};
use fx8::OutOfMemory;
use mql_mean::Value;
use mql_meaning::{Expression, Statement};
use stack_code::{Effect, Instruction};
use std::alloc::Global;

/// The labels to which a statement's exits lead.
#[derive(Clone, Copy)]
pub(crate) struct Exits {
    pub to_break: u32,
    pub to_continue: u32,
    pub to_return: u32,
}

/// The exits of a loop's body.
fn inside(out: u32, next: u32, exits: Exits) -> Exits
    ensures { leads result ≡ inside out next (leads exits) }
{
    Exits {
        to_break: out,
        to_continue: next,
        to_return: exits.to_return,
    }
}

/// The exits of a switch's body.
fn breaking(out: u32, exits: Exits) -> Exits
    ensures { leads result ≡ breaking out (leads exits) }
{
    Exits {
        to_break: out,
        ..exits
    }
}

/// Puts a line in force.
#[tactic(auto, using(crate::proofs::StatementEmits::added))]
fn line_at(draft: &mut Draft, line: u32) -> Result<(), OutOfMemory>
    ensures { OnOk result (Emits (line_at line) draft.old draft.new) }
{
    put(draft, Instruction::Plain(Effect::Line(line)))
}

/// Goes on at a label.
#[tactic(auto, using(crate::proofs::StatementEmits::added))]
fn jump(draft: &mut Draft, label: u32) -> Result<(), OutOfMemory>
    ensures { OnOk result (Emits (jump label) draft.old draft.new) }
{
    put(draft, Instruction::Jump(label))
}

/// Gives a value back, or none.
fn given(
    alloc: Global,
    draft: &mut Draft,
    gives: bool,
    values: &[Expression],
) -> Result<(), OutOfMemory>
    ensures { OnOk result (Emits (given gives values.now) draft.old draft.new) }
{
    match values {
        [] => stuck_if(draft, gives),
        [e, ..] => {
            stuck_if(draft, !gives)?;
            operand(alloc, draft, e)
        }
    }
}

/// Evaluates an expression, whose value is let go.
fn evaluated(alloc: Global, draft: &mut Draft, line: u32, e: &Expression) -> Result<(), OutOfMemory>
    ensures { OnOk result (Emits (evaluated line e.now) draft.old draft.new) }
{
    line_at(draft, line)?;
    expression(alloc, draft, e)?;
    let_go(draft, is_void(e))
}

/// Lets locals begin anew.
#[tactic(auto, using(crate::proofs::StatementEmits::restarted_emits))]
fn restarted(draft: &mut Draft, line: u32, from: u32, to: u32) -> Result<(), OutOfMemory>
    ensures { OnOk result (Emits (restarted line from to) draft.old draft.new) }
{
    line_at(draft, line)?;
    put(draft, Instruction::Plain(Effect::Reset(from, to)))
}

/// Leaves a function with a value or none.
fn returned(
    alloc: Global,
    draft: &mut Draft,
    gives: bool,
    line: u32,
    values: &[Expression],
    to: u32,
) -> Result<(), OutOfMemory>
    ensures { OnOk result (Emits (returned gives line values.now to) draft.old draft.new) }
{
    line_at(draft, line)?;
    given(alloc, draft, gives, values)?;
    jump(draft, to)
}

/// Leaves a turn of a loop, a loop or a switch.
#[tactic(auto, using(crate::proofs::StatementEmits::left_emits))]
fn left(draft: &mut Draft, line: u32, to: u32) -> Result<(), OutOfMemory>
    ensures { OnOk result (Emits (left line to) draft.old draft.new) }
{
    line_at(draft, line)?;
    jump(draft, to)
}

/// Begins a loop: `do` begins with its body.
#[tactic(auto, using(crate::proofs::StatementEmits::begun_emits, crate::proofs::StatementEmits::not_begun))]
fn begun(draft: &mut Draft, first: bool, inner: u32) -> Result<(), OutOfMemory>
    ensures { OnOk result (Emits (begun first inner) draft.old draft.new) }
{
    if first {
        put(draft, Instruction::Jump(inner))
    } else {
        Ok(())
    }
}

/// Writes a statement of a function that gives a value or none. Where it has no code, what is written is
/// stuck.
#[cycle(statements)]
#[tactic(auto, using(crate::proofs::StatementEmits::evaluate_emits, crate::proofs::StatementEmits::reset_emits, crate::proofs::StatementEmits::return_emits, crate::proofs::StatementEmits::break_emits, crate::proofs::StatementEmits::continue_emits, crate::proofs::StatementEmits::block_emits))]
pub(crate) fn statement(
    alloc: Global,
    draft: &mut Draft,
    gives: bool,
    s: &Statement,
    exits: Exits,
) -> Result<(), OutOfMemory>
    ensures { OnOk result (Emits (statement gives s.now (leads exits)) draft.old draft.new) }
{
    match s {
        Statement::Evaluate(line, e) => evaluated(alloc, draft, *line, e),
        Statement::Reset(line, from, to) => restarted(draft, *line, *from, *to),
        Statement::Return(line, values) => {
            returned(
                alloc,
                draft,
                gives,
                *line,
                values.as_slice(),
                exits.to_return,
            )
        }
        Statement::Break(line) => left(draft, *line, exits.to_break),
        Statement::Continue(line) => left(draft, *line, exits.to_continue),
        Statement::If(line, e, held, failed) => {
            let other = new_label(draft)?;
            let out = new_label(draft)?;
            line_at(draft, *line)?;
            operand(alloc, draft, e)?;
            put(draft, Instruction::Unless(other))?;
            statements(alloc, draft, gives, held.as_slice(), exits)?;
            put(draft, Instruction::Jump(out))?;
            set_label(draft, other)?;
            statements(alloc, draft, gives, failed.as_slice(), exits)?;
            set_label(draft, out)
        }
        Statement::Loop(line, first, e, step, body) => looped(
            alloc,
            draft,
            gives,
            body.as_slice(),
            *line,
            *first,
            e,
            step.as_slice(),
            exits,
        ),
        Statement::Switch(line, e, labels, places, other, body) => switched(
            alloc,
            draft,
            gives,
            body.as_slice(),
            *line,
            e,
            labels.as_slice(),
            places.as_slice(),
            *other,
            exits,
        ),
        Statement::Block(line, body, _) => {
            line_at(draft, *line)?;
            statements(alloc, draft, gives, body.as_slice(), exits)
        }
    }
}

/// Writes a loop.
#[cycle(statements)]
fn looped(
    alloc: Global,
    draft: &mut Draft,
    gives: bool,
    body: &[Statement],
    line: u32,
    first: bool,
    e: &Expression,
    step: &[Expression],
    exits: Exits,
) -> Result<(), OutOfMemory>
    ensures { OnOk result (Emits (loop line first e.now step.now (statements gives body.now) (leads exits))
        draft.old draft.new) }
{
    let top = new_label(draft)?;
    let inner = new_label(draft)?;
    let next = new_label(draft)?;
    let out = new_label(draft)?;
    line_at(draft, line)?;
    begun(draft, first, inner)?;
    set_label(draft, top)?;
    put(draft, Instruction::Step)?;
    operand(alloc, draft, e)?;
    put(draft, Instruction::Unless(out))?;
    set_label(draft, inner)?;
    statements(alloc, draft, gives, body, inside(out, next, exits))?;
    set_label(draft, next)?;
    line_at(draft, line)?;
    all_let_go(alloc, draft, step)?;
    put(draft, Instruction::Jump(top))?;
    set_label(draft, out)
}

/// Writes a switch.
#[cycle(statements)]
fn switched(
    alloc: Global,
    draft: &mut Draft,
    gives: bool,
    body: &[Statement],
    line: u32,
    e: &Expression,
    labels: &[Value],
    places: &[u32],
    other: u32,
    exits: Exits,
) -> Result<(), OutOfMemory>
    ensures { OnOk result (Emits (switched line e.now labels.now places.now other gives body.now
        (leads exits)) draft.old draft.new) }
{
    let end = body.len() as u64;
    let out = new_label(draft)?;
    let first = new_labels(draft, end + 1)?;
    let default = label_of(first, end, other)?;
    line_at(draft, line)?;
    operand(alloc, draft, e)?;
    tests(draft, labels, places, first, end, default)?;
    cases(alloc, draft, gives, body, first, breaking(out, exits))?;
    set_label(draft, out)
}

/// Writes the body of a switch: each statement behind its label, and the last label at the end.
#[cycle(statements)]
fn cases(
    alloc: Global,
    draft: &mut Draft,
    gives: bool,
    body: &[Statement],
    first: u32,
    exits: Exits,
) -> Result<(), OutOfMemory>
    requires { Wait first (first + length body.now + 1) draft.old }
    ensures { OnOk result (Writes first (all_cases gives first body.now (leads exits)) draft.old draft.new) }
{
    for (i, s) in body.iter().enumerate() {
        let label = label_behind(first, i as u64)?;
        set_label(draft, label)?;
        statement(alloc, draft, gives, s, exits)?;
    }
    let last = label_behind(first, body.len() as u64)?;
    set_label(draft, last)
}

/// Writes statements in order.
#[cycle(statements)]
pub(crate) fn statements(
    alloc: Global,
    draft: &mut Draft,
    gives: bool,
    body: &[Statement],
    exits: Exits,
) -> Result<(), OutOfMemory>
    ensures { OnOk result (Emits (statements gives body.now (leads exits)) draft.old draft.new) }
{
    for s in body {
        statement(alloc, draft, gives, s, exits)?;
    }
    Ok(())
}
