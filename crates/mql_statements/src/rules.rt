//! The rules that statements break by themselves.
ghost use Rattle.std.specs.Prelude.{◌≡◌};
ghost use Rattle.std.specs.Option.{option_copied};
ghost use Rattle.mql_calls.specs.Nodes.{nth};
ghost use Rattle.mql_scope.specs.Places.{context_at};
ghost use Rattle.mql_statements.specs.Rules.{first_base, is_tested, is_switch, is_delete, wants_value, return_no_fit, test_no_number, switch_no_integer, value_kind, label_repeated, outside, against_result, void_used, array_used, no_pointer, deletes_no_pointer, lowest};

use crate::closing::is_return;
use crate::labels::{some_no_constant, some_twice, switch_kind};
use crate::told::Label;
use fx8::IntKind;
use mql_calls::is_whole_array;
use mql_expressions::no_integer;
use mql_scope::{Here, ProgramFacts};
use mql_syntax::StatementKind;
use mql_typed::{Info, value_base};
use mql_types::{Base, fits, is_number};

/// What the first value tells.
pub(crate) fn first(values: &[Option<Info>]) -> Option<&Info>
    ensures { option_copied result ≡ nth 0 values.now }
{
    match values {
        [Some(i), ..] => Some(i),
        _ => None,
    }
}

/// The type of the first value.
fn first_base(values: &[Option<Info>]) -> Option<Base>
    ensures { result ≡ first_base values.now }
{
    match first(values) {
        None => None,
        Some(i) => value_base(i),
    }
}

/// Whether the statement begins with a test.
fn is_tested(what: StatementKind) -> bool
    ensures { result ≡ is_tested what }
{
    match what {
        StatementKind::If | StatementKind::While | StatementKind::Do => true,
        StatementKind::For { tested } => tested,
        _ => false,
    }
}

fn is_switch(what: StatementKind) -> bool
    ensures { result ≡ is_switch what }
{
    match what {
        StatementKind::Switch => true,
        _ => false,
    }
}

fn is_delete(what: StatementKind) -> bool
    ensures { result ≡ is_delete what }
{
    match what {
        StatementKind::Delete => true,
        _ => false,
    }
}

fn wants_value(what: StatementKind) -> bool
    ensures { result ≡ wants_value what }
{
    is_tested(what) || (is_switch(what) || (is_return(what) || is_delete(what)))
}

/// 13: what is returned has no conversion to the result.
fn return_no_fit(of: Option<Base>, what: StatementKind, values: &[Option<Info>]) -> bool
    ensures { result ≡ return_no_fit of what values.now }
{
    if !is_return(what) {
        return false;
    }
    match of {
        None => false,
        Some(b) => match first_base(values) {
            None => false,
            Some(a) => !fits(a, b),
        },
    }
}

/// 17: a condition is no number.
fn test_no_number(what: StatementKind, values: &[Option<Info>]) -> bool
    ensures { result ≡ test_no_number what values.now }
{
    if !is_tested(what) {
        return false;
    }
    match first_base(values) {
        None => false,
        Some(a) => !is_number(a),
    }
}

/// 18: the value of a `switch` is no integer.
fn switch_no_integer(what: StatementKind, values: &[Option<Info>]) -> bool
    ensures { result ≡ switch_no_integer what values.now }
{
    if !is_switch(what) {
        return false;
    }
    match first_base(values) {
        None => false,
        Some(a) => no_integer(a),
    }
}

/// The kind into which the value of a `switch` is taken.
pub(crate) fn value_kind(values: &[Option<Info>]) -> IntKind
    ensures { result ≡ value_kind values.now }
{
    switch_kind(first_base(values))
}

/// 20: two labels are equal as numbers of the value's kind.
fn label_repeated(values: &[Option<Info>], labels: &[Label]) -> bool
    ensures { result ≡ label_repeated values.now labels.now }
{
    some_twice(value_kind(values), labels)
}

/// 21: `break` or `continue` where it may not stand.
fn outside(breaks: bool, continues: bool, what: StatementKind) -> bool
    ensures { result ≡ outside breaks continues what }
{
    match what {
        StatementKind::Break => !breaks,
        StatementKind::Continue => !continues,
        _ => false,
    }
}

/// 22: `return` with a value where there is no result, or without one where there is.
fn against_result(of: Option<Base>, what: StatementKind, values: &[Option<Info>]) -> bool
    ensures { result ≡ against_result of what values.now }
{
    if !is_return(what) {
        return false;
    }
    match values {
        [] => of.is_some(),
        _ => of.is_none(),
    }
}

/// 23: what gives nothing is used as a value.
fn void_used(what: StatementKind, values: &[Option<Info>]) -> bool
    ensures { result ≡ void_used what values.now }
{
    if !wants_value(what) {
        return false;
    }
    match first(values) {
        None => false,
        Some(i) => i.of.is_none(),
    }
}

/// 26: a whole array is used as a value.
fn array_used(what: StatementKind, values: &[Option<Info>]) -> bool
    ensures { result ≡ array_used what values.now }
{
    if !wants_value(what) {
        return false;
    }
    match first(values) {
        None => false,
        Some(i) => is_whole_array(i),
    }
}

fn no_pointer(a: Base) -> bool
    ensures { result ≡ no_pointer a }
{
    match a {
        Base::Null => false,
        _ => true,
    }
}

/// 28: `delete` of no pointer.
fn deletes_no_pointer(what: StatementKind, values: &[Option<Info>]) -> bool
    ensures { result ≡ deletes_no_pointer what values.now }
{
    if !is_delete(what) {
        return false;
    }
    match first_base(values) {
        None => false,
        Some(a) => no_pointer(a),
    }
}

/// The lowest of the rules that a statement breaks by itself, by what its values tell and by its labels.
#[tactic(auto, unfolding(crate::specs::Rules::lowest))]
pub fn lowest<P: ProgramFacts>(
    here: &Here<'_, P>,
    what: StatementKind,
    values: &[Option<Info>],
    labels: &[Label],
) -> Option<u8>
    ensures { result ≡ lowest (context_at P.program here.now) what values.now labels.now }
{
    if return_no_fit(here.result, what, values) {
        return Some(13);
    }
    if test_no_number(what, values) {
        return Some(17);
    }
    if switch_no_integer(what, values) {
        return Some(18);
    }
    if some_no_constant(labels) {
        return Some(19);
    }
    if label_repeated(values, labels) {
        return Some(20);
    }
    if outside(here.breaks, here.continues, what) {
        return Some(21);
    }
    if against_result(here.result, what, values) {
        return Some(22);
    }
    if void_used(what, values) {
        return Some(23);
    }
    if array_used(what, values) {
        return Some(26);
    }
    if deletes_no_pointer(what, values) {
        return Some(28);
    }
    None
}
