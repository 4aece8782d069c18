//! What an expression that breaks no rule tells.
ghost use Rattle.std.specs.Prelude.{◌≡◌, ◌+◌, pos, Some, IfOk};
ghost use Rattle.std.specs.Option.{option_copied};
ghost use Rattle.fx8.specs.declared.int_kind.IntKind.TheVariants as kind;
ghost use Rattle.natives.specs.declared.types.SimpleType.TheVariants as simple;
ghost use Rattle.mql_mean.specs.declared.value.Value.TheVariants as value;
ghost use Rattle.mql_types.specs.declared.types.Base.TheVariants as base;
ghost use Rattle.mql_types.specs.Operators.{bool};
ghost use Rattle.mql_scope.specs.Places.{context_at};
ghost use Rattle.mql_typed.specs.Operations.{on, truth, literal, conditional_info};
ghost use Rattle.mql_calls.specs.Nodes.{nth, told};
ghost use Rattle.mql_expressions.specs.Made.{kept_part, field_info, member_info, chosen_at, called_function, one_cast, called_info, of_one, of_two, made_at, tells};
ghost use Rattle.mql_expressions.specs.Rules.{callee_of, lowest};
ghost use Rattle.mql_expressions.specs.Views.{node_at};

use crate::members::{cast_base, field_at};
use crate::node::{Call, Site};
use fx8::{Fix8, IntKind, ItemList, OutOfMemory, Stack, Text};
use mql_calls::{call_info, native_info, told};
use mql_mean::Value;
use mql_scope::{Callee, Field, Here, ProgramFacts, name_info};
use mql_syntax::{Operation, TypeUse};
use mql_typed::{
    Info, assign_info, binary_info, cast_info, conditional_info, index_info, kept_field, literal,
    placed_field, postfix_info, unary_info, update_info,
};
use mql_types::{Base, Signature};
use natives::SimpleType;
use std::alloc::Global;

fn field_number(n: usize) -> Result<u32, OutOfMemory>
    ensures { IfOk result (λ k. k ≡ n) }
{
    match u32::try_from(n) {
        Err(_) => Err(OutOfMemory),
        Ok(k) => Ok(k),
    }
}

fn local_behind(next: u32, kept: u64) -> Result<u32, OutOfMemory>
    ensures { IfOk result (λ l. l ≡ next + kept) }
{
    match u32::try_from(kept) {
        Err(_) => Err(OutOfMemory),
        Ok(n) => match next.checked_add(n) {
            None => Err(OutOfMemory),
            Some(l) => Ok(l),
        },
    }
}

fn kept_part<P: ProgramFacts>(
    alloc: Global,
    here: &Here<'_, P>,
    i: Info,
    n: usize,
    f: &Field,
) -> Result<Option<Info>, OutOfMemory>
    ensures { IfOk result (λ r. r ≡ kept_part (context_at P.program here.now) i (n, f.now)) }
{
    match i.of {
        None => Ok(None),
        Some(whole) => {
            let number = field_number(n)?;
            let l = local_behind(here.next, i.kept.len())?;
            let r = kept_field(alloc, l, number, whole, f.of, i)?;
            Ok(Some(r))
        }
    }
}

fn field_info<P: ProgramFacts>(
    alloc: Global,
    here: &Here<'_, P>,
    i: Info,
    n: usize,
    f: &Field,
) -> Result<Option<Info>, OutOfMemory>
    ensures { IfOk result (λ r. r ≡ field_info (context_at P.program here.now) i (n, f.now)) }
{
    if i.standing.is_place() {
        let number = field_number(n)?;
        let r = placed_field(alloc, number, f.of, i)?;
        return Ok(Some(r));
    }
    kept_part(alloc, here, i, n, f)
}

fn member_info<P: ProgramFacts>(
    alloc: Global,
    here: &Here<'_, P>,
    name: &[u16],
    i: Info,
) -> Result<Option<Info>, OutOfMemory>
    ensures { IfOk result (λ r. r ≡ member_info (context_at P.program here.now) name.now i) }
{
    match field_at(here.program, &i, name) {
        None => Ok(None),
        Some((n, f)) => field_info(alloc, here, i, n, f),
    }
}

fn called_function<P: ProgramFacts>(
    alloc: Global,
    program: &P,
    infos: ItemList<Info>,
    f: Option<&Signature>,
) -> Result<Option<Info>, OutOfMemory>
    ensures { IfOk result (λ r. r ≡ called_function (P.program program.now) infos (option_copied f.entry)) }
{
    match f {
        None => Ok(None),
        Some(g) => {
            let r = call_info(alloc, program, g, infos)?;
            Ok(Some(r))
        }
    }
}

fn one_cast(alloc: Global, b: Base, infos: ItemList<Info>) -> Result<Option<Info>, OutOfMemory>
    ensures { IfOk result (λ r. r ≡ one_cast b infos) }
{
    let mut left = Stack::of_list(infos);
    match left.pop() {
        None => Ok(None),
        Some(i) => match left.pop() {
            None => cast_info(alloc, Some(b), i),
            Some(_) => Ok(None),
        },
    }
}

fn called_info<P: ProgramFacts>(
    alloc: Global,
    program: &P,
    f: Option<&Signature>,
    infos: ItemList<Info>,
    k: Callee,
) -> Result<Option<Info>, OutOfMemory>
    ensures { IfOk result (λ r. r ≡ called_info (P.program program.now) (option_copied f.entry) infos k) }
{
    match k {
        Callee::Functions => called_function(alloc, program, infos, f),
        Callee::Conversion(b) => one_cast(alloc, b, infos),
        Callee::Supplied(native) => {
            let r = native_info(alloc, program, native, infos)?;
            Ok(Some(r))
        }
        Callee::Other | Callee::Unknown => Ok(None),
    }
}

fn called_with<P: ProgramFacts>(
    alloc: Global,
    program: &P,
    call: &Call,
    parts: ItemList<Option<Info>>,
) -> Result<Option<Info>, OutOfMemory>
    ensures { IfOk result (λ r. r ≡ on call.now.callee (λ k. on (told parts) (λ is.
        called_info (P.program program.now) (option_copied call.now.chosen) is k))) }
{
    match call.callee {
        None => Ok(None),
        Some(k) => match told(alloc, parts)? {
            None => Ok(None),
            Some(infos) => called_info(alloc, program, call.chosen, infos, k),
        },
    }
}

fn of_one<P: ProgramFacts>(
    alloc: Global,
    here: &Here<'_, P>,
    what: &Operation,
    types: &[TypeUse],
    i: Info,
) -> Result<Option<Info>, OutOfMemory>
    ensures { IfOk result (λ r. r ≡ of_one what.now (context_at P.program here.now) types.now i) }
{
    match what {
        Operation::Parentheses => Ok(Some(i)),
        Operation::Unary(o) => unary_info(alloc, *o, i),
        Operation::Postfix(s) => postfix_info(alloc, *s, i),
        Operation::Member(x) => member_info(alloc, here, x.as_slice(), i),
        Operation::Conversion | Operation::Cast => {
            let b = cast_base(here, types)?;
            cast_info(alloc, b, i)
        }
        _ => Ok(None),
    }
}

fn of_two(alloc: Global, what: &Operation, i: Info, j: Info) -> Result<Option<Info>, OutOfMemory>
    ensures { IfOk result (λ r. r ≡ of_two what.now i j) }
{
    match what {
        Operation::Binary(o) => binary_info(alloc, *o, i, j),
        Operation::Assign => assign_info(alloc, i, j),
        Operation::AssignWith(o) => update_info(alloc, *o, i, j),
        Operation::Index => index_info(alloc, i, j),
        _ => Ok(None),
    }
}

fn one<P: ProgramFacts>(
    alloc: Global,
    here: &Here<'_, P>,
    what: &Operation,
    types: &[TypeUse],
    parts: ItemList<Option<Info>>,
) -> Result<Option<Info>, OutOfMemory>
    ensures { IfOk result (λ r. r ≡
        on (nth 0 parts) (of_one what.now (context_at P.program here.now) types.now)) }
{
    let mut left = Stack::of_list(parts);
    match left.pop() {
        Some(Some(i)) => of_one(alloc, here, what, types, i),
        _ => Ok(None),
    }
}

fn two(
    alloc: Global,
    what: &Operation,
    parts: ItemList<Option<Info>>,
) -> Result<Option<Info>, OutOfMemory>
    ensures { IfOk result (λ r. r ≡ on (nth 0 parts) (λ i. on (nth 1 parts) (of_two what.now i))) }
{
    let mut left = Stack::of_list(parts);
    match left.pop() {
        Some(Some(i)) => match left.pop() {
            Some(Some(j)) => of_two(alloc, what, i, j),
            _ => Ok(None),
        },
        _ => Ok(None),
    }
}

fn three(alloc: Global, parts: ItemList<Option<Info>>) -> Result<Option<Info>, OutOfMemory>
    ensures { IfOk result (λ r. r ≡
        on (nth 0 parts) (λ i. on (nth 1 parts) (λ j. on (nth 2 parts) (conditional_info i j)))) }
{
    let mut left = Stack::of_list(parts);
    match left.pop() {
        Some(Some(i)) => match left.pop() {
            Some(Some(j)) => match left.pop() {
                Some(Some(last)) => conditional_info(alloc, i, j, last),
                _ => Ok(None),
            },
            _ => Ok(None),
        },
        _ => Ok(None),
    }
}

fn text_info(alloc: Global, t: &[u16]) -> Result<Option<Info>, OutOfMemory>
    ensures { IfOk result (λ r. r ≡ literal (base.Simple simple.String) (value.Str t.now)) }
{
    let copy = Text::from_slice(alloc, t)?;
    Ok(Some(literal(alloc, Base::Simple(SimpleType::String), Value::Str(copy))))
}

fn integer_info(alloc: Global, number: u64, of: IntKind) -> Info
    ensures { Some result ≡ literal (base.Simple (simple.Integer of)) (value.Num of (pos number)) }
{
    let b = Base::Simple(SimpleType::Integer(of));
    literal(alloc, b, Value::Num(of, i128::from(number)))
}

fn double_info(alloc: Global, x: Fix8) -> Info
    ensures { Some result ≡ literal (base.Simple simple.Double) (value.Dbl x) }
{
    literal(alloc, Base::Simple(SimpleType::Double), Value::Dbl(x))
}

fn null_info(alloc: Global) -> Info
    ensures { Some result ≡ literal base.Null (value.Ptr 0) }
{
    literal(alloc, Base::Null, Value::Ptr(0))
}

fn truth(b: bool) -> i128
    ensures { result ≡ truth b }
{
    if b { 1 } else { 0 }
}

fn truth_info(alloc: Global, b: bool) -> Info
    ensures { Some result ≡ literal bool (value.Num kind.Bool (truth b)) }
{
    let number = truth(b);
    let value = Value::Num(IntKind::Bool, number);
    literal(
        alloc,
        Base::Simple(SimpleType::Integer(IntKind::Bool)),
        value,
    )
}

/// What a node tells that breaks no rule. What it calls is given.
#[tactic(auto, unfolding(crate::specs::Made::made_at))]
fn made_at<P: ProgramFacts>(
    alloc: Global,
    here: &Here<'_, P>,
    s: &Site,
    call: &Call,
    parts: ItemList<Option<Info>>,
) -> Result<Option<Info>, OutOfMemory>
    requires callee { call.now.callee ≡ callee_of (context_at P.program here.now) (node_at s.now parts) }
    requires chosen { option_copied call.now.chosen ≡
        chosen_at (context_at P.program here.now) (node_at s.now parts) }
    ensures { IfOk result (λ r. r ≡
        made_at s.now.what.now (context_at P.program here.now) (node_at s.now parts)) }
{
    match s.what {
        Operation::Name(x) => name_info(alloc, here, s.place, x.as_slice()),
        Operation::Int { value, kind } => Ok(Some(integer_info(alloc, *value, *kind))),
        Operation::Double(x) => Ok(Some(double_info(alloc, *x))),
        Operation::Text(t) => text_info(alloc, t.as_slice()),
        Operation::Bool(b) => Ok(Some(truth_info(alloc, *b))),
        Operation::Null => Ok(Some(null_info(alloc))),
        Operation::Call => called_with(alloc, here.program, call, parts),
        Operation::Conditional => three(alloc, parts),
        Operation::Binary(_) | Operation::Assign | Operation::AssignWith(_) | Operation::Index =>
            two(alloc, s.what, parts),
        Operation::Parentheses
        | Operation::Unary(_)
        | Operation::Postfix(_)
        | Operation::Member(_)
        | Operation::Conversion
        | Operation::Cast => one(alloc, here, s.what, s.types, parts),
        _ => Ok(None),
    }
}

/// What a node tells, whose lowest broken rule is given, and what it calls.
#[tactic(auto, unfolding(crate::specs::Made::tells))]
pub(crate) fn tells<P: ProgramFacts>(
    alloc: Global,
    here: &Here<'_, P>,
    s: &Site,
    call: &Call,
    parts: ItemList<Option<Info>>,
    rule: Option<u8>,
) -> Result<Option<Info>, OutOfMemory>
    requires callee { call.now.callee ≡ callee_of (context_at P.program here.now) (node_at s.now parts) }
    requires chosen { option_copied call.now.chosen ≡
        chosen_at (context_at P.program here.now) (node_at s.now parts) }
    requires rule { rule ≡ lowest (context_at P.program here.now) (node_at s.now parts) }
    ensures { IfOk result (λ r. r ≡ tells (context_at P.program here.now) (node_at s.now parts)) }
{
    match rule {
        Some(_) => Ok(None),
        None => made_at(alloc, here, s, call, parts),
    }
}
