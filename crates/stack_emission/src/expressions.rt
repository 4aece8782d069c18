//! The code of expressions.
ghost use Rattle.std.specs.Prelude.{◌≡◌, ℕ, Bool, true, false, IfOk, OnOk};
ghost use Rattle.mql_meaning.specs.Expressions.{is_void};
ghost use Rattle.mql_meaning.specs.Calls.{native_void};
ghost use Rattle.stack_code.specs.Machine.{operands_of};
ghost use Rattle.stack_follows.specs.Expressions.{if_short, is_short};
ghost use Rattle.stack_emission.specs.HasCode.{is_number};
ghost use Rattle.stack_emission.specs.Draft.{Emits, push, stuck_if, let_go, call, expression, operand, operands, all_let_go, first, second, third, choice, names, named, no_name, join, equals};

use crate::draft::{Draft, add_constant, new_label, put, set_label, short};
use fx8::{IntKind, IntOperator, ItemList, OutOfMemory, Text};
use mql_mean::Value;
use mql_meaning::{Callee, Expression, Operator, Sort};
use natives::{Native, ResultType};
use stack_code::{Effect, Instruction};
use std::alloc::Global;

/// How many operands an operator takes.
pub(crate) fn operands_of(operator: Operator) -> u64
    ensures { result ≡ operands_of operator }
{
    match operator {
        Operator::Local(_) | Operator::Global(_) | Operator::This => 0,
        Operator::Field(_)
        | Operator::Object
        | Operator::Read
        | Operator::PointerOf
        | Operator::Bump(_)
        | Operator::Unary(_, _)
        | Operator::Convert(_)
        | Operator::Cast(_, _) => 1,
        Operator::Index | Operator::Keep | Operator::Update(_, _) | Operator::Binary(_, _) => 2,
    }
}

/// Whether a native function gives no value.
fn native_is_void(native: Native) -> bool
    ensures { result ≡ native_void native }
{
    match native.result() {
        ResultType::Void => true,
        ResultType::Simple(_) | ResultType::Common | ResultType::Pointer => false,
    }
}

/// Whether an expression gives no value.
pub(crate) fn is_void(e: &Expression) -> bool
    ensures { result ≡ is_void e.now }
{
    match e {
        Expression::Call(_, gives, _) => !*gives,
        Expression::Native(native, _) => native_is_void(*native),
        Expression::Delete(_) => true,
        Expression::Constant(_)
        | Expression::Apply(_, _)
        | Expression::Choose(_)
        | Expression::Make(_, _, _)
        | Expression::After(_, _)
        | Expression::Named(_, _, _, _) => false,
    }
}

/// Pushes a constant.
#[tactic(auto, using(crate::proofs::Emits::push_emits))]
pub(crate) fn push(draft: &mut Draft, value: Value) -> Result<(), OutOfMemory>
    ensures { OnOk result (Emits (push value) draft.old draft.new) }
{
    let number = add_constant(draft, value)?;
    put(draft, Instruction::Plain(Effect::Constant(number)))
}

/// Writes code that is stuck where the source means nothing. No code of a typed program has it.
#[tactic(auto, using(crate::proofs::Emits::stuck_emits, crate::proofs::Emits::free_emits))]
pub(crate) fn stuck_if(draft: &mut Draft, nothing: bool) -> Result<(), OutOfMemory>
    ensures { OnOk result (Emits (stuck_if nothing) draft.old draft.new) }
{
    if nothing {
        push(draft, Value::Num(IntKind::Int, 0))?;
        put(draft, Instruction::Plain(Effect::Apply(Operator::Read)))
    } else {
        Ok(())
    }
}

/// Lets the operand of an expression go, if it gives one.
#[tactic(auto, using(crate::proofs::Emits::go_emits, crate::proofs::Emits::stays_emits))]
pub(crate) fn let_go(draft: &mut Draft, void: bool) -> Result<(), OutOfMemory>
    ensures { OnOk result (Emits (let_go void) draft.old draft.new) }
{
    if void {
        Ok(())
    } else {
        put(draft, Instruction::Plain(Effect::Drop))
    }
}

/// Calls a function.
#[tactic(auto, using(crate::proofs::Emits::direct_emits, crate::proofs::Emits::virtual_emits))]
fn call(draft: &mut Draft, callee: Callee) -> Result<(), OutOfMemory>
    ensures { (gives : Bool) (operands : ℕ) →
        OnOk result (Emits (call callee gives operands) draft.old draft.new) }
{
    match callee {
        Callee::Direct(function) => put(draft, Instruction::Call(function)),
        Callee::Virtual(_, _) => stuck_if(draft, true),
    }
}

/// Writes an expression. Where it has no code, what is written is stuck.
#[cycle(expressions)]
#[tactic(auto, using(crate::proofs::Emits::constant_emits, crate::proofs::Emits::apply_emits, crate::proofs::Emits::choose_emits, crate::proofs::Emits::call_emits, crate::proofs::Emits::native_emits, crate::proofs::Emits::after_emits, crate::proofs::Emits::named_emits, crate::proofs::Emits::make_emits, crate::proofs::Emits::delete_emits))]
pub(crate) fn expression(
    alloc: Global,
    draft: &mut Draft,
    e: &Expression,
) -> Result<(), OutOfMemory>
    ensures { OnOk result (Emits (expression e.now) draft.old draft.new) }
{
    match e {
        Expression::Constant(value) => push(draft, value.copy(alloc)?),
        Expression::Apply(operator, parts) => {
            operands(alloc, draft, parts.as_slice())?;
            stuck_if(draft, parts.len() != operands_of(*operator))?;
            put(draft, Instruction::Plain(Effect::Apply(*operator)))
        }
        Expression::Choose(parts) => choice(alloc, draft, parts.as_slice()),
        Expression::Call(callee, _, parts) => {
            operands(alloc, draft, parts.as_slice())?;
            call(draft, *callee)
        }
        Expression::Native(native, parts) => {
            let count = short(parts.len())?;
            operands(alloc, draft, parts.as_slice())?;
            put(draft, Instruction::Native(*native, count))
        }
        Expression::Make(_, _, _) => stuck_if(draft, true),
        Expression::Delete(_) => stuck_if(draft, true),
        Expression::After(before, last) => {
            all_let_go(alloc, draft, before.as_slice())?;
            first(alloc, draft, last.as_slice())
        }
        Expression::Named(texts, labels, before, parts) => named(
            alloc,
            draft,
            parts.as_slice(),
            texts.as_slice(),
            labels.as_slice(),
            before.as_slice(),
        ),
    }
}

/// Writes an expression where a value or a place must stand.
#[cycle(expressions)]
#[tactic(auto, using(crate::proofs::Emits::operand_emits))]
pub(crate) fn operand(alloc: Global, draft: &mut Draft, e: &Expression) -> Result<(), OutOfMemory>
    ensures { OnOk result (Emits (operand e.now) draft.old draft.new) }
{
    expression(alloc, draft, e)?;
    stuck_if(draft, is_void(e))
}

/// Writes parts, whose operands come to lie one upon another.
#[cycle(expressions)]
fn operands(alloc: Global, draft: &mut Draft, parts: &[Expression]) -> Result<(), OutOfMemory>
    ensures { OnOk result (Emits (operands parts.now) draft.old draft.new) }
{
    for e in parts {
        operand(alloc, draft, e)?;
    }
    Ok(())
}

/// Writes expressions whose values are let go.
#[cycle(expressions)]
pub(crate) fn all_let_go(
    alloc: Global,
    draft: &mut Draft,
    parts: &[Expression],
) -> Result<(), OutOfMemory>
    ensures { OnOk result (Emits (all_let_go parts.now) draft.old draft.new) }
{
    for e in parts {
        expression(alloc, draft, e)?;
        let_go(draft, is_void(e))?;
    }
    Ok(())
}

/// Writes the first of some expressions.
#[cycle(expressions)]
fn first(alloc: Global, draft: &mut Draft, parts: &[Expression]) -> Result<(), OutOfMemory>
    ensures { OnOk result (Emits (first parts.now) draft.old draft.new) }
{
    match parts {
        [] => stuck_if(draft, true),
        [e, ..] => operand(alloc, draft, e),
    }
}

/// Writes the second of some expressions.
#[cycle(expressions)]
fn second(alloc: Global, draft: &mut Draft, parts: &[Expression]) -> Result<(), OutOfMemory>
    ensures { OnOk result (Emits (second parts.now) draft.old draft.new) }
{
    match parts {
        [_, e, ..] => operand(alloc, draft, e),
        _ => stuck_if(draft, true),
    }
}

/// Writes the third of some expressions.
#[cycle(expressions)]
fn third(alloc: Global, draft: &mut Draft, parts: &[Expression]) -> Result<(), OutOfMemory>
    ensures { OnOk result (Emits (third parts.now) draft.old draft.new) }
{
    match parts {
        [_, _, e, ..] => operand(alloc, draft, e),
        _ => stuck_if(draft, true),
    }
}

/// Writes a condition, and then the first or the second of what follows.
#[cycle(expressions)]
fn choice(alloc: Global, draft: &mut Draft, parts: &[Expression]) -> Result<(), OutOfMemory>
    ensures { OnOk result (Emits (choice parts.now) draft.old draft.new) }
{
    match parts {
        [] => stuck_if(draft, true),
        [condition, ..] => {
            let other = new_label(draft)?;
            let out = new_label(draft)?;
            operand(alloc, draft, condition)?;
            put(draft, Instruction::Unless(other))?;
            second(alloc, draft, parts)?;
            put(draft, Instruction::Jump(out))?;
            set_label(draft, other)?;
            third(alloc, draft, parts)?;
            set_label(draft, out)
        }
    }
}

/// Writes the name of a number, or a text and the number where it has none.
#[cycle(expressions)]
fn named(
    alloc: Global,
    draft: &mut Draft,
    parts: &[Expression],
    texts: &[Text],
    labels: &[Value],
    before: &[u16],
) -> Result<(), OutOfMemory>
    ensures { OnOk result (Emits (named texts.now labels.now before.now parts.now) draft.old draft.new) }
{
    let out = new_label(draft)?;
    let text = if_short(alloc, before)?;
    push(draft, Value::Str(text))?;
    first(alloc, draft, parts)?;
    names(alloc, draft, before, out, labels, texts)?;
    set_label(draft, out)
}

/// Whether a text is no longer than a string may be.
fn is_short(text: &[u16]) -> bool
    ensures { result ≡ is_short text.now }
{
    text.len() <= 65536
}

/// A text that is no longer than a string may be, and an empty one in place of another.
fn if_short(alloc: Global, text: &[u16]) -> Result<Text, OutOfMemory>
    ensures { IfOk result (λ short. short ≡ if_short text.now) }
{
    if is_short(text) {
        ItemList::from_slice(alloc, text)
    } else {
        Ok(ItemList::new(alloc))
    }
}

/// Writes the names of a number, which is on top.
fn names(
    alloc: Global,
    draft: &mut Draft,
    before: &[u16],
    out: u32,
    labels: &[Value],
    texts: &[Text],
) -> Result<(), OutOfMemory>
    ensures { OnOk result (Emits (names before.now out labels.now texts.now) draft.old draft.new) }
{
    match labels {
        [] => no_name(alloc, draft, before),
        [label, more @ ..] => match texts {
            [] => no_name(alloc, draft, before),
            [text, rest @ ..] => {
                let next = new_label(draft)?;
                put(draft, Instruction::Plain(Effect::Twice))?;
                equals(draft, label)?;
                put(draft, Instruction::Unless(next))?;
                put(draft, Instruction::Plain(Effect::Drop))?;
                put(draft, Instruction::Plain(Effect::Drop))?;
                push(
                    draft,
                    Value::Str(ItemList::from_slice(alloc, text.as_slice())?),
                )?;
                put(draft, Instruction::Jump(out))?;
                set_label(draft, next)?;
                names(alloc, draft, before, out, more, rest)
            }
        },
    }
}

/// Puts a text before the digits of a number.
#[tactic(auto, using(crate::proofs::Emits::no_name_emits))]
fn no_name(alloc: Global, draft: &mut Draft, before: &[u16]) -> Result<(), OutOfMemory>
    ensures { OnOk result (Emits (no_name before.now) draft.old draft.new) }
{
    put(
        draft,
        Instruction::Plain(Effect::Apply(Operator::Convert(Sort::String))),
    )?;
    join(alloc, draft, before)
}

/// Puts a text before the one on top, where it lies below that, or is too long.
#[tactic(auto, using(crate::proofs::Emits::join_emits, crate::proofs::Emits::long_emits))]
fn join(alloc: Global, draft: &mut Draft, before: &[u16]) -> Result<(), OutOfMemory>
    ensures { OnOk result (Emits (join (is_short before.now) before.now) draft.old draft.new) }
{
    if is_short(before) {
        let add = Operator::Binary(IntOperator::Add, Sort::String);
        put(draft, Instruction::Plain(Effect::Apply(add)))
    } else {
        let text = ItemList::from_slice(alloc, before)?;
        push(draft, Value::Str(text))
    }
}

/// Compares the topmost operand with a number.
#[tactic(auto, using(crate::proofs::Emits::equals_emits, crate::proofs::Emits::no_equals))]
pub(crate) fn equals(draft: &mut Draft, number: &Value) -> Result<(), OutOfMemory>
    ensures { OnOk result (Emits (equals number.now) draft.old draft.new) }
{
    match number {
        Value::Num(kind, n) => {
            push(draft, Value::Num(*kind, *n))?;
            let equal = Operator::Binary(IntOperator::Equal, Sort::Number(*kind));
            put(draft, Instruction::Plain(Effect::Apply(equal)))
        }
        Value::Dbl(_) | Value::Str(_) | Value::Ptr(_) | Value::Arr(_) | Value::Rec(_) => {
            stuck_if(draft, true)
        }
    }
}
