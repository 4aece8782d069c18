//! Where the end of a function can be reached.
ghost use Rattle.std.specs.Prelude.{◌≡◌, ◌||◌, map};
ghost use Rattle.mql_statements.specs.Closing.{is_true, is_literal_true, first_true, goes_on, passes_breaks, is_break, is_return, is_if, is_block, some, last_one, both, has_break, closes};

use mql_syntax::{Operation, Statement, StatementKind, Value};

fn is_true(what: &Operation) -> bool
    ensures { result ≡ is_true what.now }
{
    match what {
        Operation::Bool(b) => *b,
        _ => false,
    }
}

fn is_literal_true(v: &Value) -> bool
    ensures { result ≡ is_literal_true v.now }
{
    match v {
        Value::Node { what, .. } => is_true(what),
    }
}

fn first_true(values: &[Value]) -> bool
    ensures { result ≡ first_true values.now }
{
    match values {
        [] => false,
        [v, ..] => is_literal_true(v),
    }
}

/// Whether it is a loop whose test is absent or the literal `true`.
fn goes_on(what: StatementKind, values: &[Value]) -> bool
    ensures { result ≡ goes_on what values.now }
{
    match what {
        StatementKind::While | StatementKind::Do => first_true(values),
        StatementKind::For { tested } => !tested || first_true(values),
        _ => false,
    }
}

fn passes_breaks(what: StatementKind) -> bool
    ensures { result ≡ passes_breaks what }
{
    match what {
        StatementKind::Block | StatementKind::If => true,
        _ => false,
    }
}

fn is_break(what: StatementKind) -> bool
    ensures { result ≡ is_break what }
{
    match what {
        StatementKind::Break => true,
        _ => false,
    }
}

pub(crate) fn is_return(what: StatementKind) -> bool
    ensures { result ≡ is_return what }
{
    match what {
        StatementKind::Return => true,
        _ => false,
    }
}

fn is_if(what: StatementKind) -> bool
    ensures { result ≡ is_if what }
{
    match what {
        StatementKind::If => true,
        _ => false,
    }
}

fn is_block(what: StatementKind) -> bool
    ensures { result ≡ is_block what }
{
    match what {
        StatementKind::Block => true,
        _ => false,
    }
}

fn either(a: bool, b: bool) -> bool
    ensures { result ≡ (a || b) }
{
    a || b
}

/// Whether a statement breaks what stands around it.
#[cycle(breaks)]
#[tactic(auto, using(crate::proofs::Closed::breaks_at))]
fn has_break(s: &Statement) -> bool
    ensures { result ≡ has_break s.now }
{
    match s {
        Statement::Node { what, parts, .. } => {
            is_break(*what) || (passes_breaks(*what) && some_break(parts.as_slice()))
        }
    }
}

#[cycle(breaks)]
#[tactic(auto, using(crate::proofs::Closed::some_step))]
fn some_break(parts: &[Statement]) -> bool
    ensures { result ≡ some (map has_break parts.now) }
{
    let mut found = false;
    for s in parts {
        found = either(found, has_break(s));
    }
    found
}

/// Whether the end of a statement is not reached.
#[cycle(closing)]
#[tactic(auto, using(crate::proofs::Closed::closes_at))]
pub fn closes(s: &Statement) -> bool
    ensures { result ≡ closes s.now }
{
    match s {
        Statement::Node {
            what,
            values,
            parts,
            ..
        } => {
            is_return(*what)
                || (is_if(*what) && both_close(parts.as_slice()))
                || (is_block(*what) && last_closes(parts.as_slice()))
                || (goes_on(*what, values.as_slice()) && !some_break(parts.as_slice()))
        }
    }
}

#[cycle(closing)]
#[tactic(auto, using(crate::proofs::Closed::last_of))]
fn last_closes(parts: &[Statement]) -> bool
    ensures { result ≡ last_one (map closes parts.now) }
{
    let n = parts.len();
    if n == 0 {
        return false;
    }
    closes(&parts[n - 1])
}

#[cycle(closing)]
#[tactic(auto, using(crate::proofs::Closed::both_of))]
fn both_close(parts: &[Statement]) -> bool
    ensures { result ≡ both (map closes parts.now) }
{
    let n = parts.len();
    if n < 2 {
        return false;
    }
    closes(&parts[0]) && closes(&parts[n - 1])
}
