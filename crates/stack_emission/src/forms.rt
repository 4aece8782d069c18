//! Which programs have code.
ghost use Rattle.std.specs.Prelude.{◌≡◌, ◌&&◌, ◌==◌, Some};
ghost use Rattle.stack_code.specs.Machine.{arguments_of};
ghost use Rattle.stack_emission.specs.HasCode.{are_named, are_numbers, bodies_have_code, body_has_code, callee_has_code, expression_has_code, given_has_code, has_code, have_code, is_number, no_cleanup, same, statement_has_code, takes, unwritten};

use fx8::Text;
use mql_mean::Value;
use mql_meaning::{Callee, Checked, Cleanup, Expression, Function, Statement};

/// Whether both hold.
fn both(a: bool, b: bool) -> bool
    ensures { result ≡ (a && b) }
{
    if a { b } else { false }
}

/// Whether two answers are the same.
fn same(a: bool, b: bool) -> bool
    ensures { result ≡ same a b }
{
    if a { b } else { !b }
}

/// How many operands a call of a function takes.
fn arguments(f: &Function) -> u64
    ensures { result ≡ arguments_of (unwritten f.now) }
{
    let parameters = f.lent.as_slice().len() as u64;
    match f.class {
        None => parameters,
        Some(_) => parameters + 1,
    }
}

/// Whether a function takes so many operands, and gives a value or none.
fn takes(f: &Function, operands: u64, gives: bool) -> bool
    ensures { result ≡ takes (Some f.now) operands gives }
{
    both(arguments(f) == operands, same(f.result.is_some(), gives))
}

/// Whether a call is of a function that is there.
fn callee_has_code(functions: &[Function], callee: Callee, gives: bool, operands: u64) -> bool
    ensures { result ≡ callee_has_code functions.now callee gives operands }
{
    match callee {
        Callee::Direct(k) => match functions.get(k as usize) {
            None => false,
            Some(f) => takes(f, operands, gives),
        },
        Callee::Virtual(_, _) => false,
    }
}

/// Whether a value is a number of an integer kind.
fn is_number(value: &Value) -> bool
    ensures { result ≡ is_number value.now }
{
    match value {
        Value::Num(_, _) => true,
        Value::Dbl(_) | Value::Str(_) | Value::Ptr(_) | Value::Arr(_) | Value::Rec(_) => false,
    }
}

/// Whether names are of numbers.
fn are_named(labels: &[Value], texts: &[Text]) -> bool
    ensures { result ≡ are_named labels.now texts.now }
{
    match labels {
        [] => true,
        [label, more @ ..] => match texts {
            [] => true,
            [_, rest @ ..] => both(is_number(label), are_named(more, rest)),
        },
    }
}

/// Whether values are numbers of integer kinds.
fn are_numbers(values: &[Value]) -> bool
    ensures { result ≡ are_numbers values.now }
{
    for value in values {
        if !is_number(value) {
            return false;
        }
    }
    true
}

/// Whether an expression has code.
#[cycle(expressions)]
#[tactic(auto, using(crate::proofs::Tests::apply_test, crate::proofs::Tests::choose_test, crate::proofs::Tests::call_test, crate::proofs::Tests::native_test, crate::proofs::Tests::after_test, crate::proofs::Tests::named_test))]
fn expression_has_code(functions: &[Function], e: &Expression) -> bool
    ensures { result ≡ expression_has_code functions.now e.now }
{
    match e {
        Expression::Constant(_) => true,
        Expression::Apply(_, parts) => have_code(functions, parts.as_slice()),
        Expression::Choose(parts) => have_code(functions, parts.as_slice()),
        Expression::Call(callee, gives, parts) => both(
            have_code(functions, parts.as_slice()),
            callee_has_code(functions, *callee, *gives, parts.len()),
        ),
        Expression::Native(_, parts) => have_code(functions, parts.as_slice()),
        Expression::Make(_, _, _) => false,
        Expression::Delete(_) => false,
        Expression::After(before, last) => both(
            have_code(functions, before.as_slice()),
            have_code(functions, last.as_slice()),
        ),
        Expression::Named(texts, labels, _, parts) => both(
            have_code(functions, parts.as_slice()),
            are_named(labels.as_slice(), texts.as_slice()),
        ),
    }
}

/// Whether each of some expressions has code.
#[cycle(expressions)]
fn have_code(functions: &[Function], expressions: &[Expression]) -> bool
    ensures { result ≡ have_code functions.now expressions.now }
{
    for e in expressions {
        if !expression_has_code(functions, e) {
            return false;
        }
    }
    true
}

/// Whether what a function gives back has code.
fn given_has_code(functions: &[Function], values: &[Expression]) -> bool
    ensures { result ≡ given_has_code functions.now values.now }
{
    match values {
        [] => true,
        [e, ..] => expression_has_code(functions, e),
    }
}

/// Whether nothing is done where a block is left.
fn no_cleanup(cleanups: &[Cleanup]) -> bool
    ensures { result ≡ no_cleanup cleanups.now }
{
    match cleanups {
        [] => true,
        [_, ..] => false,
    }
}

/// Whether a statement has code.
#[cycle(statements)]
#[tactic(auto, using(crate::proofs::Tests::evaluate_test, crate::proofs::Tests::return_test, crate::proofs::Tests::if_test, crate::proofs::Tests::loop_test, crate::proofs::Tests::switch_test, crate::proofs::Tests::block_test))]
fn statement_has_code(functions: &[Function], s: &Statement) -> bool
    ensures { result ≡ statement_has_code functions.now s.now }
{
    match s {
        Statement::Evaluate(_, e) => expression_has_code(functions, e),
        Statement::Reset(_, _, _) => true,
        Statement::Return(_, values) => given_has_code(functions, values.as_slice()),
        Statement::Break(_) => true,
        Statement::Continue(_) => true,
        Statement::If(_, e, held, failed) => both(
            expression_has_code(functions, e),
            both(
                body_has_code(functions, held.as_slice()),
                body_has_code(functions, failed.as_slice()),
            ),
        ),
        Statement::Loop(_, _, e, step, body) => both(
            expression_has_code(functions, e),
            both(
                have_code(functions, step.as_slice()),
                body_has_code(functions, body.as_slice()),
            ),
        ),
        Statement::Switch(_, e, labels, _, _, body) => both(
            expression_has_code(functions, e),
            both(
                are_numbers(labels.as_slice()),
                body_has_code(functions, body.as_slice()),
            ),
        ),
        Statement::Block(_, body, cleanups) => both(
            body_has_code(functions, body.as_slice()),
            no_cleanup(cleanups.as_slice()),
        ),
    }
}

/// Whether each statement of a body has code.
#[cycle(statements)]
fn body_has_code(functions: &[Function], body: &[Statement]) -> bool
    ensures { result ≡ body_has_code functions.now body.now }
{
    for s in body {
        if !statement_has_code(functions, s) {
            return false;
        }
    }
    true
}

/// Whether the body of each of some functions has code.
fn bodies_have_code(functions: &[Function], some: &[Function]) -> bool
    ensures { result ≡ bodies_have_code functions.now some.now }
{
    for f in some {
        if !body_has_code(functions, f.body.as_slice()) {
            return false;
        }
    }
    true
}

/// Whether a program has code: it has no `new`, no `delete`, no virtual call and no cleanup, its calls are of
/// functions that are there, and its names and cases are of numbers.
pub fn has_code(program: &Checked) -> bool
    ensures { result ≡ has_code program.now }
{
    bodies_have_code(program.functions.as_slice(), program.functions.as_slice())
}
