//! What statements are typed.
ghost use Rattle.std.specs.Prelude.{◌≡◌, ◌+◌, ◌++◌, map, IfOk};
ghost use Rattle.mql_statements.specs.Told.{nothing_told, moved, then_told, joined, has_declared, evaluated};

use fx8::{ItemList, OutOfMemory, Stack};
use mql_meaning::{Expression, Statement, VarType};
use mql_names::Broken;
use mql_scope::Known;
use std::alloc::Global;

/// What a label of a `switch` is.
#[derive(Clone, Copy, Debug, PartialEq, Eq)]
pub enum LabelValue {
    /// `default`.
    Default,
    /// A label that is no constant integer.
    NoConstant,
    /// A constant integer.
    Number(i128),
}

/// A label of a `switch`.
#[derive(Clone, Copy, Debug, PartialEq, Eq)]
pub struct Label {
    pub label: LabelValue,
    /// How many typed statements of the `switch` stand before it.
    pub before: u32,
}

/// A static variable of a function.
#[derive(Drop)]
pub struct Static {
    /// What it holds.
    pub of: VarType,
    /// The line of its declaration, from 1 on.
    pub line: u32,
    /// What it begins with: expressions that are evaluated one after another before the program's first event.
    pub steps: ItemList<Expression>,
}

/// What a statement is typed.
#[derive(Drop)]
pub struct Told {
    pub typed: ItemList<Statement>,
    /// The locals that it takes.
    pub kept: ItemList<VarType>,
    /// The variables that it declares in the scope around it.
    pub declared: ItemList<Known>,
    /// Its static variables.
    pub statics: ItemList<Static>,
    /// Its labels in the `switch` around it.
    pub labels: ItemList<Label>,
    /// The rules that may be told.
    pub broken: ItemList<Broken>,
    /// The numbers of the functions that are called.
    pub used: ItemList<u32>,
}

/// What nothing is typed.
pub fn nothing_told(alloc: Global) -> Told
    ensures { result ≡ nothing_told }
{
    Told {
        typed: ItemList::new(alloc),
        kept: ItemList::new(alloc),
        declared: ItemList::new(alloc),
        statics: ItemList::new(alloc),
        labels: ItemList::new(alloc),
        broken: ItemList::new(alloc),
        used: ItemList::new(alloc),
    }
}

/// A number of statements: it takes memory for each.
pub fn count(n: u64) -> Result<u32, OutOfMemory>
    ensures { IfOk result (λ k. k ≡ n) }
{
    match u32::try_from(n) {
        Ok(k) => Ok(k),
        Err(_) => Err(OutOfMemory),
    }
}

/// A label behind more statements.
fn moved(n: u32, label: Label) -> Result<Label, OutOfMemory>
    ensures { IfOk result (λ l. l ≡ moved n label) }
{
    match n.checked_add(label.before) {
        None => Err(OutOfMemory),
        Some(before) => Ok(Label {
            label: label.label,
            before,
        }),
    }
}

/// Labels, with others behind them that stand behind more statements.
#[tactic(auto, using(crate::proofs::ThenTold::map_more))]
fn with_moved(
    mut labels: ItemList<Label>,
    n: u32,
    more: &[Label],
) -> Result<ItemList<Label>, OutOfMemory>
    ensures { IfOk result (λ ls. ls ≡ labels ++ map (moved n) more.now) }
{
    for label in more {
        labels.push(moved(n, *label)?)?;
    }
    Ok(labels)
}

/// What two are typed, one after another.
pub fn then_told(a: Told, b: Told) -> Result<Told, OutOfMemory>
    ensures { IfOk result (λ t. t ≡ then_told a b) }
{
    let Told {
        mut typed,
        mut kept,
        mut declared,
        mut statics,
        labels,
        mut broken,
        mut used,
    } = a;
    let labels = with_moved(labels, count(typed.len())?, b.labels.as_slice())?;
    typed.append(b.typed)?;
    kept.append(b.kept)?;
    declared.append(b.declared)?;
    statics.append(b.statics)?;
    broken.append(b.broken)?;
    used.append(b.used)?;
    Ok(Told {
        typed,
        kept,
        declared,
        statics,
        labels,
        broken,
        used,
    })
}

/// What statements are typed, one after another.
#[tactic(auto, using(crate::proofs::ThenTold::nothing_then, crate::proofs::ThenTold::then_nothing, crate::proofs::ThenTold::then_assoc))]
pub fn joined(alloc: Global, parts: ItemList<Told>) -> Result<Told, OutOfMemory>
    ensures { IfOk result (λ t. t ≡ joined parts) }
{
    let mut all = nothing_told(alloc);
    let mut rest = Stack::of_list(parts);
    while let Some(t) = rest.pop() {
        all = then_told(all, t)?;
    }
    Ok(all)
}

/// Whether there are variables.
pub fn has_declared(known: &[Known]) -> bool
    ensures { result ≡ has_declared known.now }
{
    !known.is_empty()
}

/// Expressions evaluated one after another at a line.
pub fn evaluated(
    alloc: Global,
    line: u32,
    expressions: ItemList<Expression>,
) -> Result<ItemList<Statement>, OutOfMemory>
    ensures { IfOk result (λ ss. ss ≡ evaluated line expressions) }
{
    let mut made = ItemList::new(alloc);
    let mut rest = Stack::of_list(expressions);
    while let Some(e) = rest.pop() {
        made.push(Statement::Evaluate(line, e))?;
    }
    Ok(made)
}
