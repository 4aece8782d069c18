//! What variables of a declaration tell.
ghost use Rattle.std.specs.Prelude.{◌≡◌, [], ◌∷◌, ◌++◌, IfOk};
ghost use Rattle.mql_scope.specs.Places.{context_at};
ghost use Rattle.mql_expressions.specs.Values.{broken_at, innermost};
ghost use Rattle.mql_starts.specs.Declarations.{dimension_used, dimensions_used, local_told, local, static_told, not_constant, static, declares_as, using, declares, declares_all};
ghost use Rattle.mql_statements.specs.Told.{in_force};
ghost use Rattle.mql_statements.specs.Told.{behind_told};

use crate::initialisers::{Begun, start_constant, started};
use fx8::{ItemList, OutOfMemory, Text};
use mql_expressions::{found_in, innermost, with_rule};
use mql_names::Broken;
use mql_scope::{Here, Known, ProgramFacts, Storage};
use mql_statements::{Static, Told, evaluated, known, nothing_told, then_told, variable_type};
use mql_syntax::{Dimension, Place, Variable};
use mql_typed::var_type;
use mql_types::DataType;
use std::alloc::Global;

/// The functions that a size calls.
fn dimension_used<P: ProgramFacts>(
    alloc: Global,
    here: &Here<'_, P>,
    d: &Dimension,
) -> Result<ItemList<u32>, OutOfMemory>
    ensures { IfOk result (λ ns. ns ≡ dimension_used (context_at P.program here.now) d.now) }
{
    match d {
        Dimension::Open => Ok(ItemList::new(alloc)),
        Dimension::Size(v) => {
            let f = found_in(alloc, here, v)?;
            Ok(f.used)
        }
    }
}

/// The numbers of the functions that the sizes of a variable call, one after another.
#[tactic(auto, using(std::proofs::lemmas::List::flat_map_more))]
pub fn dimensions_used<P: ProgramFacts>(
    alloc: Global,
    here: &Here<'_, P>,
    v: &Variable,
) -> Result<ItemList<u32>, OutOfMemory>
    ensures { IfOk result (λ ns. ns ≡ dimensions_used (context_at P.program here.now) v.now) }
{
    let mut used = ItemList::new(alloc);
    for d in v.dimensions.as_slice() {
        let more = dimension_used(alloc, here, d)?;
        used.append(more)?;
    }
    Ok(used)
}

/// One thing in a list.
fn one<T: Drop>(alloc: Global, item: T) -> Result<ItemList<T>, OutOfMemory>
    ensures { IfOk result (λ r. r ≡ item ∷ []) }
{
    let mut list = ItemList::new(alloc);
    list.push(item)?;
    Ok(list)
}

/// A local variable with what it begins with.
fn local_told(
    alloc: Global,
    line: u32,
    v: &Variable,
    t: DataType,
    n: u32,
    b: Begun,
) -> Result<Told, OutOfMemory>
    ensures { IfOk result (λ r. r ≡ local_told line v.now t n b) }
{
    let Begun {
        steps,
        kept: more,
        broken,
        used,
    } = b;
    let typed = evaluated(alloc, line, steps)?;
    let mut kept = one(alloc, var_type(alloc, t)?)?;
    kept.append(more)?;
    let declared = one(alloc, known(alloc, v, t, Storage::Local(n))?)?;
    Ok(Told {
        typed,
        kept,
        declared,
        statics: ItemList::new(alloc),
        labels: ItemList::new(alloc),
        broken,
        used,
    })
}

/// A local takes the next number, and then what it begins with is done.
fn local<P: ProgramFacts>(
    alloc: Global,
    here: &Here<'_, P>,
    v: &Variable,
    t: DataType,
) -> Result<Told, OutOfMemory>
    ensures { IfOk result (λ r. r ≡ local (context_at P.program here.now) v.now t) }
{
    let taken = one(alloc, var_type(alloc, t)?)?;
    let there = here.behind_values(taken.as_slice())?;
    let begun = started(
        alloc,
        &there,
        v.place,
        Storage::Local(here.next),
        t,
        &v.start,
    )?;
    local_told(alloc, here.program.line(v.place), v, t, here.next, begun)
}

/// What is broken where a static variable begins: what is broken in what it begins with, or else its own rule.
fn static_broken(
    alloc: Global,
    p: Place,
    inner: ItemList<Broken>,
    rule: Option<u8>,
) -> Result<ItemList<Broken>, OutOfMemory>
    ensures { IfOk result (λ r. r ≡ innermost p (inner ++ broken_at p rule)) }
{
    let all = with_rule(inner, p, rule)?;
    innermost(alloc, p, all)
}

/// A static variable with what it begins with.
fn static_told(
    alloc: Global,
    line: u32,
    v: &Variable,
    t: DataType,
    n: u32,
    b: Begun,
    rule: Option<u8>,
) -> Result<Told, OutOfMemory>
    ensures { IfOk result (λ r. r ≡ static_told line v.now t n b (broken_at v.now.place rule)) }
{
    let Begun {
        steps,
        broken: inner,
        used,
        ..
    } = b;
    let broken = static_broken(alloc, v.place, inner, rule)?;
    let of = var_type(alloc, t)?;
    let statics = one(alloc, Static { of, line, steps })?;
    let declared = one(alloc, known(alloc, v, t, Storage::Global(n))?)?;
    Ok(Told {
        typed: ItemList::new(alloc),
        kept: ItemList::new(alloc),
        declared,
        statics,
        labels: ItemList::new(alloc),
        broken,
        used,
    })
}

/// 36: what a static variable begins with is no constant.
fn not_constant<P: ProgramFacts>(
    alloc: Global,
    program: &P,
    locals: &[Known],
    v: &Variable,
) -> Result<Option<u8>, OutOfMemory>
    ensures { IfOk result (λ r. r ≡ not_constant (P.program program.now) locals.now v.now) }
{
    if start_constant(alloc, program, locals, &v.start)? {
        return Ok(None);
    }
    Ok(Some(36))
}

/// A static variable takes the next number of static variables.
fn static_variable<P: ProgramFacts>(
    alloc: Global,
    here: &Here<'_, P>,
    v: &Variable,
    t: DataType,
) -> Result<Told, OutOfMemory>
    ensures { IfOk result (λ r. r ≡ static (context_at P.program here.now) v.now t) }
{
    let n = here.statics;
    let begun = started(alloc, here, v.place, Storage::Global(n), t, &v.start)?;
    let rule = not_constant(alloc, here.program, here.locals, v)?;
    static_told(alloc, here.program.line(v.place), v, t, n, begun, rule)
}

/// A variable of a type; one of `void` is none.
fn declares_as<P: ProgramFacts>(
    alloc: Global,
    here: &Here<'_, P>,
    v: &Variable,
    of: Option<DataType>,
) -> Result<Told, OutOfMemory>
    ensures { IfOk result (λ r. r ≡ declares_as (context_at P.program here.now) v.now of) }
{
    match of {
        None => {
            let broken = with_rule(ItemList::new(alloc), v.place, Some(23))?;
            Ok(Told {
                broken,
                ..nothing_told(alloc)
            })
        }
        Some(t) => {
            if v.words.is_static {
                return static_variable(alloc, here, v, t);
            }
            local(alloc, here, v, t)
        }
    }
}

/// What is told, with functions that are called before it.
fn using(mut more: ItemList<u32>, t: Told) -> Result<Told, OutOfMemory>
    ensures { IfOk result (λ r. r ≡ using more t) }
{
    more.append(t.used)?;
    Ok(Told { used: more, ..t })
}

/// What a variable of a declaration tells.
fn declares<P: ProgramFacts>(
    alloc: Global,
    here: &Here<'_, P>,
    v: &Variable,
) -> Result<Told, OutOfMemory>
    ensures { IfOk result (λ r. r ≡ declares (context_at P.program here.now) v.now) }
{
    let more = dimensions_used(alloc, here, v)?;
    let of = variable_type(alloc, here.program, here.locals, v)?;
    let t = declares_as(alloc, here, v, of)?;
    using(more, t)
}

/// A second one of what is known of a variable.
fn copied(alloc: Global, k: &Known) -> Result<Known, OutOfMemory>
    ensures { IfOk result (λ r. r ≡ k.now) }
{
    let name = Text::from_slice(alloc, k.name.as_slice())?;
    Ok(Known {
        name,
        of: k.of,
        stands: k.stands,
        standing: k.standing,
    })
}

/// Variables in force, and others that are declared behind them.
fn with_declared(
    alloc: Global,
    mut locals: ItemList<Known>,
    declared: &[Known],
) -> Result<ItemList<Known>, OutOfMemory>
    ensures { IfOk result (λ r. r ≡ locals ++ declared.now) }
{
    for k in declared {
        locals.push(copied(alloc, k)?)?;
    }
    Ok(locals)
}

/// What a variable tells behind what others told, where these variables are in force.
fn declares_behind<P: ProgramFacts>(
    alloc: Global,
    here: &Here<'_, P>,
    locals: &[Known],
    told: &Told,
    v: &Variable,
) -> Result<Told, OutOfMemory>
    ensures { IfOk result (λ r. r
        ≡ declares (in_force (behind_told told.now (context_at P.program here.now)) locals.now) v.now) }
{
    let taken = told.kept.as_slice();
    let statics = told.statics.as_slice();
    let there = here.behind(taken, locals, statics.len())?;
    declares(alloc, &there, v)
}

/// What variables are told where these locals are in force, and the locals in force behind them.
pub fn declares_all<P: ProgramFacts>(
    alloc: Global,
    here: &Here<'_, P>,
    locals: ItemList<Known>,
    variables: &[Variable],
) -> Result<(Told, ItemList<Known>), OutOfMemory>
    ensures told { IfOk result (λ r. r.0
        ≡ declares_all (in_force (context_at P.program here.now) locals) variables.now) }
    ensures locals { IfOk result (λ r. r.1 ≡ locals
        ++ (declares_all (in_force (context_at P.program here.now) locals) variables.now).declared) }
{
    let mut all = nothing_told(alloc);
    let mut known = locals;
    for v in variables {
        let t = declares_behind(alloc, here, known.as_slice(), &all, v)?;
        known = with_declared(alloc, known, t.declared.as_slice())?;
        all = then_told(all, t)?;
    }
    Ok((all, known))
}
