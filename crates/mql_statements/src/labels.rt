//! Labels of a `switch`.
ghost use Rattle.std.specs.Prelude.{◌≡◌};
ghost use Rattle.mql_statements.specs.Rules.{no_constant, some_no_constant, sort_kind, switch_kind, same_number, same_label, stands_in, some_twice};

use crate::told::{Label, LabelValue};
use fx8::{IntKind, wrap};
use mql_meaning::Sort;
use mql_types::{Base, unary_sort};

fn no_constant(label: LabelValue) -> bool
    ensures { result ≡ no_constant label }
{
    match label {
        LabelValue::NoConstant => true,
        _ => false,
    }
}

/// Whether a label is no constant integer.
pub(crate) fn some_no_constant(labels: &[Label]) -> bool
    ensures { result ≡ some_no_constant labels.now }
{
    let mut rest = labels;
    while let [l, others @ ..] = rest {
        if no_constant(l.label) {
            return true;
        }
        rest = others;
    }
    false
}

fn sort_kind(sort: Option<Sort>) -> IntKind
    ensures { result ≡ sort_kind sort }
{
    match sort {
        Some(Sort::Number(k)) => k,
        _ => IntKind::Int,
    }
}

/// The kind into which the value of a `switch` and its labels are taken.
pub fn switch_kind(of: Option<Base>) -> IntKind
    ensures { result ≡ switch_kind of }
{
    match of {
        None => IntKind::Int,
        Some(b) => sort_kind(unary_sort(b)),
    }
}

fn same_number(kind: IntKind, x: i128, y: i128) -> bool
    ensures { result ≡ same_number kind x y }
{
    let a = wrap(kind, x);
    let b = wrap(kind, y);
    a.eq(&b)
}

fn same_label(kind: IntKind, a: LabelValue, b: LabelValue) -> bool
    ensures { result ≡ same_label kind a b }
{
    match a {
        LabelValue::Default => match b {
            LabelValue::Default => true,
            _ => false,
        },
        LabelValue::Number(x) => match b {
            LabelValue::Number(y) => same_number(kind, x, y),
            _ => false,
        },
        LabelValue::NoConstant => false,
    }
}

fn stands_in(kind: IntKind, label: LabelValue, labels: &[Label]) -> bool
    ensures { result ≡ stands_in kind label labels.now }
{
    let mut rest = labels;
    while let [l, others @ ..] = rest {
        if same_label(kind, label, l.label) {
            return true;
        }
        rest = others;
    }
    false
}

/// Whether two labels are equal as numbers of a kind.
pub(crate) fn some_twice(kind: IntKind, labels: &[Label]) -> bool
    ensures { result ≡ some_twice kind labels.now }
{
    let mut rest = labels;
    while let [l, others @ ..] = rest {
        if stands_in(kind, l.label, others) {
            return true;
        }
        rest = others;
    }
    false
}
