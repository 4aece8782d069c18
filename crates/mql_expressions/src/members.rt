//! Names, and fields of structures.
ghost use Rattle.std.specs.Prelude.{◌≡◌, ◌+◌, option_map, is_some, IfOk};
ghost use Rattle.mql_scope.specs.Places.{context_at};
ghost use Rattle.mql_scope.specs.Names.{name_info};
ghost use Rattle.mql_calls.specs.Nodes.{passes, ask};
ghost use Rattle.mql_expressions.specs.Rules.{field_in, fields_at, field_of, field_at, is_type, names_type, callee_of, unknown_name, unknown_member, not_accessible, is_closed, lacks, hides, cast_base};
ghost use Rattle.mql_expressions.specs.Views.{node_of};

use crate::handed::calls_unknown;
use crate::node::NodeView;
use fx8::OutOfMemory;
use mql_calls::nth;
use mql_names::Sort;
use mql_scope::{Callee, Field, Here, Layout, ProgramFacts, name_info, written};
use mql_syntax::{Operation, TypeUse};
use mql_typed::{Info, value_base};
use mql_types::Base;
use std::alloc::Global;

/// The field of a name, the last one, with its number from 0 on.
#[tactic(auto, using(crate::proofs::Steps::last_hit, crate::proofs::Steps::no_hit))]
fn field_in<'a>(fields: &'a [Field], name: &[u16]) -> Option<(usize, &'a Field)>
    ensures { option_map (λ f. (f.0, f.1.now)) result ≡ field_in fields.now name.now 0 }
{
    let mut hit = None;
    let mut n = 0;
    let mut rest = fields;
    while let [f, others @ ..] = rest {
        if f.name.as_slice() == name {
            hit = Some((n, f));
        }
        rest = others;
        n += 1;
    }
    hit
}

fn fields_at(layout: Option<&Layout>) -> &[Field]
    ensures { result.now ≡ fields_at (option_map (λ l. l.now) layout.entry) }
{
    match layout {
        None => &[],
        Some(l) => l.fields.as_slice(),
    }
}

fn field_of<'a, P: ProgramFacts>(
    program: &'a P,
    b: Base,
    name: &[u16],
) -> Option<(usize, &'a Field)>
    ensures { option_map (λ f. (f.0, f.1.now)) result ≡ field_of (P.program program.now) b name.now }
{
    match b {
        Base::Structure(s) => field_in(fields_at(program.structures().get(s as usize)), name),
        _ => None,
    }
}

/// The field of a name that the value of an expression has, with its number.
pub(crate) fn field_at<'a, P: ProgramFacts>(
    program: &'a P,
    i: &Info,
    name: &[u16],
) -> Option<(usize, &'a Field)>
    ensures { option_map (λ f. (f.0, f.1.now)) result ≡ field_at (P.program program.now) i.now name.now }
{
    match value_base(i) {
        None => None,
        Some(b) => field_of(program, b, name),
    }
}

fn is_type(sort: Sort) -> bool
    ensures { result ≡ is_type sort }
{
    match sort {
        Sort::Unknown => false,
        _ => true,
    }
}

fn names_type<P: ProgramFacts>(here: &Here<'_, P>, name: &[u16]) -> bool
    ensures { result ≡ names_type (context_at P.program here.now) name.now }
{
    is_type(here.program.named_sort(name))
}

fn is_named<P: ProgramFacts>(
    alloc: Global,
    here: &Here<'_, P>,
    n: &NodeView,
    name: &[u16],
) -> Result<bool, OutOfMemory>
    ensures { IfOk result (λ b. b ≡
        is_some (name_info (context_at P.program here.now) n.now.place name.now)) }
{
    let i = name_info(alloc, here, n.place, name)?;
    Ok(i.is_some())
}

/// 1: a name is unknown. The callee of the node is given.
pub(crate) fn unknown_name<P: ProgramFacts>(
    alloc: Global,
    here: &Here<'_, P>,
    n: &NodeView,
    k: Option<Callee>,
) -> Result<bool, OutOfMemory>
    requires { k ≡ callee_of (context_at P.program here.now) (node_of n.now) }
    ensures { IfOk result (λ b. b ≡ unknown_name (context_at P.program here.now) (node_of n.now)) }
{
    match n.what {
        Operation::Name(x) => {
            let known = is_named(alloc, here, n, x.as_slice())?;
            Ok(!known)
        }
        Operation::Call => Ok(calls_unknown(k)),
        Operation::Generic(_) => Ok(true),
        Operation::Scope { class, .. } => Ok(!names_type(here, class.as_slice())),
        _ => Ok(false),
    }
}

fn lacks<P: ProgramFacts>(program: &P, name: &[u16], i: &Info) -> bool
    ensures { result ≡ lacks (P.program program.now) name.now i.now }
{
    i.of.is_some() && field_at(program, i, name).is_none()
}

fn part_lacks<P: ProgramFacts>(program: &P, name: &[u16], n: &NodeView) -> bool
    ensures { result ≡ ask 0 (lacks (P.program program.now) name.now) (node_of n.now) }
{
    match nth(0, n.parts) {
        None => false,
        Some(i) => lacks(program, name, i),
    }
}

/// 2: a member is unknown.
pub(crate) fn unknown_member<P: ProgramFacts>(here: &Here<'_, P>, n: &NodeView) -> bool
    ensures { result ≡ unknown_member (context_at P.program here.now) (node_of n.now) }
{
    match n.what {
        Operation::Member(x) => part_lacks(here.program, x.as_slice(), n),
        Operation::Scope { class, .. } => names_type(here, class.as_slice()),
        _ => false,
    }
}

fn hides<P: ProgramFacts>(program: &P, name: &[u16], i: &Info) -> bool
    ensures { result ≡ hides (P.program program.now) name.now i.now }
{
    match field_at(program, i, name) {
        None => false,
        Some((_, f)) => !f.accessible,
    }
}

fn part_hides<P: ProgramFacts>(program: &P, name: &[u16], n: &NodeView) -> bool
    ensures { result ≡ ask 0 (hides (P.program program.now) name.now) (node_of n.now) }
{
    match nth(0, n.parts) {
        None => false,
        Some(i) => hides(program, name, i),
    }
}

/// 3: a member is not accessible.
pub(crate) fn not_accessible<P: ProgramFacts>(here: &Here<'_, P>, n: &NodeView) -> bool
    ensures { result ≡ not_accessible (context_at P.program here.now) (node_of n.now) }
{
    match n.what {
        Operation::Member(x) => part_hides(here.program, x.as_slice(), n),
        _ => false,
    }
}

/// The type that a cast names, the first of these.
pub(crate) fn cast_base<P: ProgramFacts>(
    here: &Here<'_, P>,
    types: &[TypeUse],
) -> Result<Option<Base>, OutOfMemory>
    ensures { IfOk result (λ b. b ≡ cast_base (context_at P.program here.now) types.now) }
{
    match types {
        [] => Ok(None),
        [of, ..] => written(here.program, of),
    }
}
