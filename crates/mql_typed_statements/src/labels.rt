//! Labels of a `switch`.
ghost use Rattle.std.specs.Prelude.{◌≡◌, ◌+◌, ◌++◌, IfOk};
ghost use Rattle.mql_typed_statements.specs.Statements.{label_value, label_values, label_place, label_places, default_place, number_label, label_number, label_told, a_label, label_of};

use fx8::{IntKind, ItemList, OutOfMemory, wrap};
use mql_mean::Value;
use mql_scope::{Known, ProgramFacts};
use mql_statements::{Label, LabelValue};
use mql_syntax::{StatementKind, Value as SyntaxValue};
use std::alloc::Global;

fn with_value(
    mut values: ItemList<Value>,
    kind: IntKind,
    l: &Label,
) -> Result<ItemList<Value>, OutOfMemory>
    ensures { IfOk result (λ vs. vs ≡ values ++ label_value kind l.now.label) }
{
    if let LabelValue::Number(x) = l.label {
        values.push(Value::Num(kind, wrap(kind, x)))?;
    }
    Ok(values)
}

/// The numbers of labels, as numbers of a kind.
pub(crate) fn label_values(
    alloc: Global,
    kind: IntKind,
    labels: &[Label],
) -> Result<ItemList<Value>, OutOfMemory>
    ensures { IfOk result (λ vs. vs ≡ label_values kind labels.now) }
{
    let mut values = ItemList::new(alloc);
    let mut rest = labels;
    while let [l, others @ ..] = rest {
        values = with_value(values, kind, l)?;
        rest = others;
    }
    Ok(values)
}

fn with_place(mut places: ItemList<u32>, l: &Label) -> Result<ItemList<u32>, OutOfMemory>
    ensures { IfOk result (λ ns. ns ≡ places ++ label_place l.now.label l.now.before) }
{
    if let LabelValue::Number(_) = l.label {
        places.push(l.before)?;
    }
    Ok(places)
}

/// How many statements stand before each label that is a number.
pub(crate) fn label_places(alloc: Global, labels: &[Label]) -> Result<ItemList<u32>, OutOfMemory>
    ensures { IfOk result (λ ns. ns ≡ label_places labels.now) }
{
    let mut places = ItemList::new(alloc);
    let mut rest = labels;
    while let [l, others @ ..] = rest {
        places = with_place(places, l)?;
        rest = others;
    }
    Ok(places)
}

/// How many statements stand before the first `default`, or the end.
pub(crate) fn default_place(end: u32, labels: &[Label]) -> u32
    ensures { result ≡ default_place end labels.now }
{
    let mut rest = labels;
    while let [l, others @ ..] = rest {
        if let LabelValue::Default = l.label {
            return l.before;
        }
        rest = others;
    }
    end
}

fn number_label(number: Option<i128>) -> LabelValue
    ensures { result ≡ number_label number }
{
    match number {
        None => LabelValue::NoConstant,
        Some(x) => LabelValue::Number(x),
    }
}

fn label_number(value: Option<Value>) -> LabelValue
    ensures { result ≡ label_number value }
{
    match value {
        None => LabelValue::NoConstant,
        Some(v) => number_label(v.number()),
    }
}

fn label_told<P: ProgramFacts>(
    alloc: Global,
    program: &P,
    locals: &[Known],
    values: &[SyntaxValue],
) -> Result<LabelValue, OutOfMemory>
    ensures { IfOk result (λ l. l ≡ label_told (P.program program.now) locals.now values.now) }
{
    match values {
        [] => Ok(LabelValue::NoConstant),
        [v, ..] => {
            let number = program.constant(alloc, locals, v)?;
            Ok(label_number(number))
        }
    }
}

fn a_label(alloc: Global, label: LabelValue) -> Result<ItemList<Label>, OutOfMemory>
    ensures { IfOk result (λ ls. ls ≡ a_label label) }
{
    let mut labels = ItemList::new(alloc);
    labels.push(Label { label, before: 0 })?;
    Ok(labels)
}

/// The label that a statement is, if it is one.
pub fn label_of<P: ProgramFacts>(
    alloc: Global,
    program: &P,
    locals: &[Known],
    what: StatementKind,
    values: &[SyntaxValue],
) -> Result<ItemList<Label>, OutOfMemory>
    ensures { IfOk result (λ ls. ls ≡ label_of (P.program program.now) locals.now what values.now) }
{
    match what {
        StatementKind::Case => {
            let label = label_told(alloc, program, locals, values)?;
            a_label(alloc, label)
        }
        StatementKind::Default => a_label(alloc, LabelValue::Default),
        _ => Ok(ItemList::new(alloc)),
    }
}
