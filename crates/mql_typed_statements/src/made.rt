//! Typed statements of the typed parts of statements.
ghost use Rattle.std.specs.Prelude.{◌≡◌, ◌+◌, [], ◌∷◌, ◌++◌, drop, IfOk};
ghost use Rattle.mql_meaning.specs.declared.tree.Statement.TheVariants as made;
ghost use Rattle.mql_calls.specs.Nodes.{nth};
ghost use Rattle.mql_statements.specs.Told.{evaluated};
ghost use Rattle.mql_typed_statements.specs.Statements.{anew, beginning, any_begin, in_block, typed_value, typed_values, always, test_of, looped, for_test, for_step, for_loop, switched_of, switched, returned, deleted, statements};

use crate::labels::{default_place, label_places, label_values};
use fx8::{IntKind, ItemList, OutOfMemory, Stack};
use mql_mean::Value;
use mql_meaning::{Expression, Sort, Statement};
use mql_statements::{Label, Told, count, evaluated, has_declared, switch_kind};
use mql_syntax::StatementKind;
use mql_typed::{Info, condition, converted, into_sort, value_base, value_of};
use mql_types::Base;
use std::alloc::Global;

/// What the parts of a statement are together.
#[derive(Drop)]
pub struct Inner {
    /// The locals of their scope begin anew, where it declares any.
    pub begins: ItemList<Statement>,
    /// The typed statements of the scope that they share, or of the first part.
    pub typed: ItemList<Statement>,
    /// Those of the second part.
    pub second: ItemList<Statement>,
    /// The labels of a `switch`.
    pub labels: ItemList<Label>,
}

/// A list of one statement.
fn single_statement(alloc: Global, s: Statement) -> Result<ItemList<Statement>, OutOfMemory>
    ensures { IfOk result (λ ss. ss ≡ s ∷ []) }
{
    let mut list = ItemList::new(alloc);
    list.push(s)?;
    Ok(list)
}

fn anew(line: u32, first: u32, t: &Told) -> Result<Statement, OutOfMemory>
    ensures { IfOk result (λ s. s ≡ anew line first t.now) }
{
    match first.checked_add(count(t.kept.len())?) {
        None => Err(OutOfMemory),
        Some(end) => Ok(Statement::Reset(line, first, end)),
    }
}

/// The locals of a scope begin anew, from the first to before the next behind them, where it declares any.
pub fn beginning(
    alloc: Global,
    line: u32,
    first: u32,
    t: &Told,
) -> Result<ItemList<Statement>, OutOfMemory>
    ensures { IfOk result (λ ss. ss ≡ beginning line first t.now) }
{
    if has_declared(t.declared.as_slice()) {
        let s = anew(line, first, t)?;
        single_statement(alloc, s)
    } else {
        Ok(ItemList::new(alloc))
    }
}

/// Whether anything begins anew.
fn any_begin(begins: &[Statement]) -> bool
    ensures { result ≡ any_begin begins.now }
{
    !begins.is_empty()
}

/// A block that is left without more ado.
fn block(
    alloc: Global,
    line: u32,
    inner: ItemList<Statement>,
) -> Result<ItemList<Statement>, OutOfMemory>
    ensures { IfOk result (λ ss. ss ≡ made.Block line inner [] ∷ []) }
{
    single_statement(alloc, Statement::Block(line, inner, ItemList::new(alloc)))
}

/// Statements, in a block behind what begins anew where anything does.
pub fn in_block(
    alloc: Global,
    line: u32,
    begins: ItemList<Statement>,
    inner: ItemList<Statement>,
) -> Result<ItemList<Statement>, OutOfMemory>
    ensures { IfOk result (λ ss. ss ≡ in_block line begins inner) }
{
    if any_begin(begins.as_slice()) {
        let mut all = begins;
        all.append(inner)?;
        block(alloc, line, all)
    } else {
        Ok(inner)
    }
}

/// The first value.
fn take_first(values: &mut Stack<Option<Info>>) -> Option<Info>
    ensures first { result ≡ nth 0 values.old }
    ensures rest { values.new ≡ drop 1 values.old }
{
    match values.pop() {
        None => None,
        Some(first) => first,
    }
}

fn with_typed(
    mut list: ItemList<Expression>,
    value: Option<Info>,
) -> Result<ItemList<Expression>, OutOfMemory>
    ensures { IfOk result (λ es. es ≡ list ++ typed_value (λ j. j.typed) value) }
{
    match value {
        None => Ok(list),
        Some(i) => {
            list.push(i.typed)?;
            Ok(list)
        }
    }
}

/// The typed values.
fn typed_values(
    alloc: Global,
    values: Stack<Option<Info>>,
) -> Result<ItemList<Expression>, OutOfMemory>
    ensures { IfOk result (λ es. es ≡ typed_values values) }
{
    let mut list = ItemList::new(alloc);
    let mut rest = values;
    while let Some(value) = rest.pop() {
        list = with_typed(list, value)?;
    }
    Ok(list)
}

fn always() -> Expression
    ensures { result ≡ always }
{
    Expression::Constant(Value::Num(IntKind::Bool, 1))
}

/// The test that a value is; one that holds always where there is none.
fn test_of(alloc: Global, value: Option<Info>) -> Result<Expression, OutOfMemory>
    ensures { IfOk result (λ e. e ≡ test_of value) }
{
    match value {
        None => Ok(always()),
        Some(i) => {
            let (test, _kept) = condition(alloc, i)?;
            Ok(test)
        }
    }
}

/// The test and the step of a `for`.
fn for_parts(
    alloc: Global,
    tested: bool,
    values: ItemList<Option<Info>>,
) -> Result<(Expression, ItemList<Expression>), OutOfMemory>
    ensures test { IfOk result (λ r. r.0 ≡ for_test tested values) }
    ensures step { IfOk result (λ r. r.1 ≡ for_step tested values) }
{
    let mut rest = Stack::of_list(values);
    let test = if tested {
        test_of(alloc, take_first(&mut rest))?
    } else {
        always()
    };
    let step = typed_values(alloc, rest)?;
    Ok((test, step))
}

fn for_loop(
    alloc: Global,
    line: u32,
    tested: bool,
    values: ItemList<Option<Info>>,
    body: ItemList<Statement>,
) -> Result<Statement, OutOfMemory>
    ensures { IfOk result (λ s. s ≡ for_loop line tested values body) }
{
    let (test, step) = for_parts(alloc, tested, values)?;
    Ok(Statement::Loop(line, false, test, step, body))
}

/// What a `for` begins with, and then its loop.
fn for_statements(
    alloc: Global,
    line: u32,
    begins: ItemList<Statement>,
    before: ItemList<Statement>,
    turns: Statement,
) -> Result<ItemList<Statement>, OutOfMemory>
    ensures { IfOk result (λ ss. ss ≡ in_block line begins (before ++ turns ∷ [])) }
{
    let mut all = before;
    all.push(turns)?;
    in_block(alloc, line, begins, all)
}

fn switched_of(
    alloc: Global,
    line: u32,
    kind: IntKind,
    number: Expression,
    labels: &[Label],
    typed: ItemList<Statement>,
) -> Result<Statement, OutOfMemory>
    ensures { IfOk result (λ s. s ≡ switched_of line kind number labels.now typed) }
{
    let values = label_values(alloc, kind, labels)?;
    let places = label_places(alloc, labels)?;
    let other = default_place(count(typed.len())?, labels);
    Ok(Statement::Switch(line, number, values, places, other, typed))
}

/// A `switch`.
fn switched(
    alloc: Global,
    line: u32,
    value: Option<Info>,
    labels: &[Label],
    typed: ItemList<Statement>,
) -> Result<ItemList<Statement>, OutOfMemory>
    ensures { IfOk result (λ ss. ss ≡ switched line value labels.now typed) }
{
    match value {
        None => Ok(ItemList::new(alloc)),
        Some(i) => {
            let kind = switch_kind(value_base(&i));
            let (number, _kept) = into_sort(alloc, Sort::Number(kind), i)?;
            let s = switched_of(alloc, line, kind, number, labels, typed)?;
            single_statement(alloc, s)
        }
    }
}

/// The value that is returned, taken into the result's type.
fn returned(
    alloc: Global,
    of: Option<Base>,
    value: Option<Info>,
) -> Result<ItemList<Expression>, OutOfMemory>
    ensures { IfOk result (λ es. es ≡ returned of value) }
{
    let mut list = ItemList::new(alloc);
    if let Some(b) = of {
        if let Some(i) = value {
            let (e, _kept) = converted(alloc, b, i)?;
            list.push(e)?;
        }
    }
    Ok(list)
}

/// What `delete` evaluates.
fn deleted(alloc: Global, value: Option<Info>) -> Result<ItemList<Expression>, OutOfMemory>
    ensures { IfOk result (λ es. es ≡ deleted value) }
{
    let mut list = ItemList::new(alloc);
    if let Some(i) = value {
        let (e, _kept) = value_of(alloc, i)?;
        let mut parts = ItemList::new(alloc);
        parts.push(e)?;
        list.push(Expression::Delete(parts))?;
    }
    Ok(list)
}

/// The first of these values.
fn first_of(values: ItemList<Option<Info>>) -> Option<Info>
    ensures { result ≡ nth 0 values }
{
    let mut rest = Stack::of_list(values);
    take_first(&mut rest)
}

/// A branch of two.
fn branched(
    alloc: Global,
    line: u32,
    value: Option<Info>,
    inner: Inner,
) -> Result<ItemList<Statement>, OutOfMemory>
    ensures { IfOk result (λ ss. ss ≡ made.If line (test_of value) inner.typed inner.second ∷ []) }
{
    let Inner { typed, second, .. } = inner;
    let test = test_of(alloc, value)?;
    single_statement(alloc, Statement::If(line, test, typed, second))
}

/// A loop of a test and its body.
fn turned(
    alloc: Global,
    line: u32,
    first: bool,
    value: Option<Info>,
    body: ItemList<Statement>,
) -> Result<ItemList<Statement>, OutOfMemory>
    ensures { IfOk result (λ ss. ss ≡ looped line first (test_of value) [] body ∷ []) }
{
    let test = test_of(alloc, value)?;
    single_statement(
        alloc,
        Statement::Loop(line, first, test, ItemList::new(alloc), body),
    )
}

/// A statement that evaluates nothing but a list of expressions.
fn deleting(
    alloc: Global,
    line: u32,
    value: Option<Info>,
) -> Result<ItemList<Statement>, OutOfMemory>
    ensures { IfOk result (λ ss. ss ≡ evaluated line (deleted value)) }
{
    let expressions = deleted(alloc, value)?;
    evaluated(alloc, line, expressions)
}

fn returning(
    alloc: Global,
    line: u32,
    of: Option<Base>,
    value: Option<Info>,
) -> Result<ItemList<Statement>, OutOfMemory>
    ensures { IfOk result (λ ss. ss ≡ made.Return line (returned of value) ∷ []) }
{
    let expressions = returned(alloc, of, value)?;
    single_statement(alloc, Statement::Return(line, expressions))
}

fn evaluating(
    alloc: Global,
    line: u32,
    values: ItemList<Option<Info>>,
) -> Result<ItemList<Statement>, OutOfMemory>
    ensures { IfOk result (λ ss. ss ≡ evaluated line (typed_values values)) }
{
    let expressions = typed_values(alloc, Stack::of_list(values))?;
    evaluated(alloc, line, expressions)
}

fn blocked(alloc: Global, line: u32, inner: Inner) -> Result<ItemList<Statement>, OutOfMemory>
    ensures { IfOk result (λ ss. ss ≡ made.Block line (inner.begins ++ inner.typed) [] ∷ []) }
{
    let Inner { begins, typed, .. } = inner;
    let mut all = begins;
    all.append(typed)?;
    block(alloc, line, all)
}

fn for_made(
    alloc: Global,
    line: u32,
    tested: bool,
    values: ItemList<Option<Info>>,
    inner: Inner,
) -> Result<ItemList<Statement>, OutOfMemory>
    ensures { IfOk result (λ ss. ss ≡ in_block line inner.begins
        (inner.typed ++ for_loop line tested values inner.second ∷ [])) }
{
    let Inner {
        begins,
        typed,
        second,
        ..
    } = inner;
    let turns = for_loop(alloc, line, tested, values, second)?;
    for_statements(alloc, line, begins, typed, turns)
}

fn switch_made(
    alloc: Global,
    line: u32,
    value: Option<Info>,
    inner: Inner,
) -> Result<ItemList<Statement>, OutOfMemory>
    ensures { IfOk result (λ ss. ss ≡ in_block line inner.begins (switched line value inner.labels inner.typed)) }
{
    let Inner {
        begins,
        typed,
        labels,
        ..
    } = inner;
    let all = switched(alloc, line, value, labels.as_slice(), typed)?;
    in_block(alloc, line, begins, all)
}

/// The typed statements of a statement: of its declared variables, its values and its parts.
pub fn statements(
    alloc: Global,
    what: StatementKind,
    line: u32,
    of: Option<Base>,
    values: ItemList<Option<Info>>,
    own: ItemList<Statement>,
    inner: Inner,
) -> Result<ItemList<Statement>, OutOfMemory>
    ensures { IfOk result (λ ss. ss ≡ statements what line of values own inner) }
{
    match what {
        StatementKind::Block => blocked(alloc, line, inner),
        StatementKind::Declaration => Ok(own),
        StatementKind::Evaluation => evaluating(alloc, line, values),
        StatementKind::If => branched(alloc, line, first_of(values), inner),
        StatementKind::While => turned(alloc, line, false, first_of(values), inner.typed),
        StatementKind::Do => turned(alloc, line, true, first_of(values), inner.typed),
        StatementKind::For { tested } => for_made(alloc, line, tested, values, inner),
        StatementKind::Switch => switch_made(alloc, line, first_of(values), inner),
        StatementKind::Break => single_statement(alloc, Statement::Break(line)),
        StatementKind::Continue => single_statement(alloc, Statement::Continue(line)),
        StatementKind::Return => returning(alloc, line, of, first_of(values)),
        StatementKind::Delete => deleting(alloc, line, first_of(values)),
        StatementKind::Empty | StatementKind::Case | StatementKind::Default => {
            Ok(ItemList::new(alloc))
        }
    }
}
