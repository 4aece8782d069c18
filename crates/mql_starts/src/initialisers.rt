//! What variables begin with.
ghost use Rattle.std.specs.Prelude.{◌≡◌, ◌+◌, ◌≤◌, [], ◌∷◌, ◌++◌, length, drop, flat_map, option_map, slice_get, IfOk};
ghost use Rattle.mql_scope.specs.Names.{stands_at};
ghost use Rattle.mql_scope.specs.Places.{context_at};
ghost use Rattle.mql_typed.specs.Typed.{int, value_base};
ghost use Rattle.mql_calls.specs.Nodes.{passes};
ghost use Rattle.mql_expressions.specs.Rules.{no_fit, fields_at};
ghost use Rattle.mql_expressions.specs.Values.{innermost, broken_at, broken_in, used_in, kept_by};
ghost use Rattle.mql_starts.specs.Starts.{nothing_begun, then_begun, refused_with, refused, loose, stepped, stepped_all, first_size, has_room, element_at, field_part, field_at, part_at, has_parts, is_open, resized, sized, value_rule, start_rule, puts, one_begun, is_braces, in_braces, begins, begins_list, started, are_constant, all_are_constant, start_constant};

use fx8::{IntKind, ItemList, OutOfMemory};
use mql_calls::{is_void, is_whole_array};
use mql_expressions::{Found, found_in, innermost, with_rule};
use mql_mean::Value as Constant;
use mql_meaning::{Expression, Operator, VarType};
use mql_names::Broken;
use mql_scope::{Field, Here, Known, ProgramFacts, Storage, stands_at};
use mql_syntax::{Operation, Place, Start, Value};
use mql_typed::{Info, converted, element_type, on_one, on_two, value_base};
use mql_types::{Base, DataType, Dimensions, fits, is_structure};
use natives::Native;
use std::alloc::Global;

/// What a variable begins with.
#[derive(Drop)]
pub struct Begun {
    /// What is done, one expression after another.
    pub steps: ItemList<Expression>,
    /// The locals that this takes.
    pub kept: ItemList<VarType>,
    /// The rules that may be told.
    pub broken: ItemList<Broken>,
    /// The numbers of the functions that are called.
    pub used: ItemList<u32>,
}

/// A step from an array or a structure to a part of it.
#[derive(Clone, Copy, Debug, PartialEq, Eq)]
pub enum PartStep {
    /// To the element of this number.
    Element(u32),
    /// To the field of this number.
    Field(u32),
}

/// A part of an array or a structure.
#[derive(Clone, Copy, Debug, PartialEq, Eq)]
pub struct Part {
    /// How it is reached.
    pub step: PartStep,
    /// Its type.
    pub of: DataType,
}

/// What is broken in values, and the numbers of the functions that calls in them choose.
#[derive(Drop)]
struct Judged {
    broken: ItemList<Broken>,
    used: ItemList<u32>,
}

pub fn nothing_begun(alloc: Global) -> Begun
    ensures { result ≡ nothing_begun }
{
    Begun {
        steps: ItemList::new(alloc),
        kept: ItemList::new(alloc),
        broken: ItemList::new(alloc),
        used: ItemList::new(alloc),
    }
}

fn then_begun(a: Begun, b: Begun) -> Result<Begun, OutOfMemory>
    ensures { IfOk result (λ r. r ≡ then_begun a b) }
{
    let Begun {
        mut steps,
        mut kept,
        mut broken,
        mut used,
    } = a;
    let Begun {
        steps: more_steps,
        kept: more_kept,
        broken: more_broken,
        used: more_used,
    } = b;
    steps.append(more_steps)?;
    kept.append(more_kept)?;
    broken.append(more_broken)?;
    used.append(more_used)?;
    Ok(Begun {
        steps,
        kept,
        broken,
        used,
    })
}

fn refused_with(alloc: Global, p: Place, rule: u8, values: Judged) -> Result<Begun, OutOfMemory>
    ensures { IfOk result (λ r. r ≡ refused_with p rule values.broken values.used) }
{
    let Judged { broken, used } = values;
    let all = with_rule(broken, p, Some(rule))?;
    let broken = innermost(alloc, p, all)?;
    Ok(Begun {
        steps: ItemList::new(alloc),
        kept: ItemList::new(alloc),
        broken,
        used,
    })
}

fn with_found(before: Judged, f: Found) -> Result<Judged, OutOfMemory>
    ensures broken { IfOk result (λ r. r.broken ≡ before.broken ++ f.broken) }
    ensures used { IfOk result (λ r. r.used ≡ before.used ++ f.used) }
{
    let Judged {
        mut broken,
        mut used,
    } = before;
    let Found {
        broken: more_broken,
        used: more_used,
        ..
    } = f;
    broken.append(more_broken)?;
    used.append(more_used)?;
    Ok(Judged { broken, used })
}

/// What is broken in a value by itself, behind what is broken before it.
#[cycle(loose)]
fn with_loose<P: ProgramFacts>(
    alloc: Global,
    here: &Here<'_, P>,
    before: Judged,
    v: &Value,
) -> Result<Judged, OutOfMemory>
    ensures broken { IfOk result (λ r. r.broken
        ≡ before.broken ++ broken_in (loose (context_at P.program here.now) v.now)) }
    ensures used { IfOk result (λ r. r.used
        ≡ before.used ++ used_in (loose (context_at P.program here.now) v.now)) }
{
    match v {
        Value::Node { what, parts, .. } => {
            if is_braces(what) {
                return with_all_loose(alloc, here, before, parts.as_slice());
            }
            let f = found_in(alloc, here, v)?;
            with_found(before, f)
        }
    }
}

#[cycle(loose)]
fn with_all_loose<P: ProgramFacts>(
    alloc: Global,
    here: &Here<'_, P>,
    before: Judged,
    values: &[Value],
) -> Result<Judged, OutOfMemory>
    ensures broken { IfOk result (λ r. r.broken
        ≡ before.broken ++ broken_in (flat_map (loose (context_at P.program here.now)) values.now)) }
    ensures used { IfOk result (λ r. r.used
        ≡ before.used ++ used_in (flat_map (loose (context_at P.program here.now)) values.now)) }
{
    let mut judged = before;
    for v in values {
        judged = with_loose(alloc, here, judged, v)?;
    }
    Ok(judged)
}

/// What begins nothing breaks a rule, and its values are judged by themselves.
fn refused<P: ProgramFacts>(
    alloc: Global,
    here: &Here<'_, P>,
    p: Place,
    rule: u8,
    values: &[Value],
) -> Result<Begun, OutOfMemory>
    ensures { IfOk result (λ r. r
        ≡ refused p rule (flat_map (loose (context_at P.program here.now)) values.now)) }
{
    let nothing = Judged {
        broken: ItemList::new(alloc),
        used: ItemList::new(alloc),
    };
    let judged = with_all_loose(alloc, here, nothing, values)?;
    refused_with(alloc, p, rule, judged)
}

fn int(x: i128) -> Expression
    ensures { result ≡ int x }
{
    Expression::Constant(Constant::Num(IntKind::Int, x))
}

fn stepped(alloc: Global, e: Expression, step: PartStep) -> Result<Expression, OutOfMemory>
    ensures { IfOk result (λ r. r ≡ stepped e step) }
{
    match step {
        PartStep::Element(k) => on_two(alloc, Operator::Index, e, int(i128::from(k))),
        PartStep::Field(k) => on_one(alloc, Operator::Field(k), e),
    }
}

/// The place to which some steps lead from a variable.
fn place_of(alloc: Global, stands: Storage, steps: &[PartStep]) -> Result<Expression, OutOfMemory>
    ensures { IfOk result (λ r. r ≡ stepped_all (stands_at stands) steps.now) }
{
    let mut e = stands_at(alloc, stands);
    let mut rest = steps;
    while let [step, others @ ..] = rest {
        e = stepped(alloc, e, *step)?;
        rest = others;
    }
    Ok(e)
}

/// Steps with one more.
fn with_step(
    alloc: Global,
    steps: &[PartStep],
    step: PartStep,
) -> Result<ItemList<PartStep>, OutOfMemory>
    ensures { IfOk result (λ r. r ≡ steps.now ++ step ∷ []) }
{
    let mut all = ItemList::from_slice(alloc, steps)?;
    all.push(step)?;
    Ok(all)
}

fn first_size(d: Dimensions) -> u32
    ensures { result ≡ first_size d }
{
    match d {
        Dimensions::None => 0,
        Dimensions::One(a)
        | Dimensions::Two(a, _)
        | Dimensions::Three(a, _, _)
        | Dimensions::Four(a, _, _, _) => a,
    }
}

fn has_room(size: u32, k: u32) -> bool
    ensures { result ≡ has_room size k }
{
    size == 0 || k < size
}

fn element_at(t: DataType, k: u32) -> Option<Part>
    ensures { result ≡ element_at t k }
{
    if has_room(first_size(t.dimensions), k) {
        return Some(Part {
            step: PartStep::Element(k),
            of: element_type(t),
        });
    }
    None
}

fn fields_of<P: ProgramFacts>(program: &P, structure: u32) -> &[Field]
    ensures { result.now ≡ fields_at (slice_get (P.program program.now).structures structure) }
{
    match program.structures().get(structure as usize) {
        None => &[],
        Some(layout) => layout.fields.as_slice(),
    }
}

fn field_in(fields: &[Field], k: u32) -> Option<Part>
    ensures { result ≡ option_map (field_part k) (slice_get fields.now k) }
{
    match fields.get(k as usize) {
        None => None,
        Some(f) => Some(Part {
            step: PartStep::Field(k),
            of: f.of,
        }),
    }
}

fn field_at<P: ProgramFacts>(program: &P, b: Base, k: u32) -> Option<Part>
    ensures { result ≡ field_at (P.program program.now) b k }
{
    match b {
        Base::Structure(n) => field_in(fields_of(program, n), k),
        _ => None,
    }
}

/// The part of a number of an array or a structure.
fn part_at<P: ProgramFacts>(program: &P, t: DataType, k: u32) -> Option<Part>
    ensures { result ≡ part_at (P.program program.now) t k }
{
    if t.dimensions.is_array() {
        return element_at(t, k);
    }
    field_at(program, t.base, k)
}

fn has_parts(t: DataType) -> bool
    ensures { result ≡ has_parts t }
{
    t.dimensions.is_array() || is_structure(t.base)
}

fn is_open(t: DataType) -> bool
    ensures { result ≡ is_open t }
{
    t.dimensions.is_array() && first_size(t.dimensions) == 0
}

/// A dynamic array gets its size.
fn resized(alloc: Global, e: Expression, size: u64) -> Result<Expression, OutOfMemory>
    ensures { IfOk result (λ r. r ≡ resized e size) }
{
    let mut parts = ItemList::new(alloc);
    parts.push(e)?;
    parts.push(int(i128::from(size)))?;
    parts.push(int(0))?;
    Ok(Expression::Native(Native::ArrayResize, parts))
}

/// What is done before the parts of a place that some steps lead to begin.
fn sized(
    alloc: Global,
    stands: Storage,
    steps: &[PartStep],
    t: DataType,
    size: u64,
) -> Result<ItemList<Expression>, OutOfMemory>
    ensures { IfOk result (λ r. r ≡ sized (stepped_all (stands_at stands) steps.now) t size) }
{
    let mut before = ItemList::new(alloc);
    if is_open(t) {
        let e = place_of(alloc, stands, steps)?;
        before.push(resized(alloc, e, size)?)?;
    }
    Ok(before)
}

fn does_not_fit(b: Base, i: &Info) -> bool
    ensures { result ≡ passes (no_fit b) (value_base i.now) }
{
    match value_base(i) {
        None => false,
        Some(a) => !fits(a, b),
    }
}

fn value_rule(b: Base, i: &Info) -> Option<u8>
    ensures { result ≡ value_rule b i.now }
{
    if does_not_fit(b, i) {
        return Some(13);
    }
    if is_void(i) {
        return Some(23);
    }
    if is_whole_array(i) {
        return Some(26);
    }
    None
}

fn start_rule(t: DataType, info: &Option<Info>) -> Option<u8>
    ensures { result ≡ start_rule t info.now }
{
    match info {
        None => None,
        Some(i) => {
            if t.dimensions.is_array() {
                return Some(35);
            }
            value_rule(t.base, i)
        }
    }
}

/// What puts a value into a place that some steps lead to, and the locals that the value takes.
fn puts(
    alloc: Global,
    stands: Storage,
    steps: &[PartStep],
    t: DataType,
    info: Option<Info>,
) -> Result<(ItemList<Expression>, ItemList<VarType>), OutOfMemory>
    ensures steps { IfOk result (λ r. r.0 ≡ puts (stepped_all (stands_at stands) steps.now) t info) }
    ensures kept { IfOk result (λ r. r.1 ≡ kept_by info) }
{
    let mut done = ItemList::new(alloc);
    match info {
        None => Ok((done, ItemList::new(alloc))),
        Some(i) => {
            let (value, kept) = converted(alloc, t.base, i)?;
            let e = place_of(alloc, stands, steps)?;
            done.push(on_two(alloc, Operator::Keep, value, e)?)?;
            Ok((done, kept))
        }
    }
}

/// What is broken where a place begins with a value: what is broken in the value, or else the rule of the place.
fn start_broken(
    alloc: Global,
    p: Place,
    rule: Option<u8>,
    inner: ItemList<Broken>,
) -> Result<ItemList<Broken>, OutOfMemory>
    ensures { IfOk result (λ r. r ≡ innermost p (inner ++ broken_at p rule)) }
{
    let all = with_rule(inner, p, rule)?;
    innermost(alloc, p, all)
}

fn one_begun(
    alloc: Global,
    p: Place,
    stands: Storage,
    steps: &[PartStep],
    t: DataType,
    f: Found,
) -> Result<Begun, OutOfMemory>
    ensures { IfOk result (λ r. r ≡ one_begun p (stepped_all (stands_at stands) steps.now) t f) }
{
    let Found {
        info,
        broken: inner,
        used,
    } = f;
    let rule = start_rule(t, &info);
    let (done, kept) = puts(alloc, stands, steps, t, info)?;
    let broken = start_broken(alloc, p, rule, inner)?;
    Ok(Begun {
        steps: done,
        kept,
        broken,
        used,
    })
}

fn is_braces(what: &Operation) -> bool
    ensures { result ≡ is_braces what.now }
{
    match what {
        Operation::Braces => true,
        _ => false,
    }
}

fn in_braces(
    alloc: Global,
    q: Place,
    before: ItemList<Expression>,
    parts: Begun,
) -> Result<Begun, OutOfMemory>
    ensures { IfOk result (λ r. r ≡ in_braces q before parts) }
{
    let Begun {
        steps,
        kept,
        broken,
        used,
    } = parts;
    let mut all = before;
    all.append(steps)?;
    let broken = innermost(alloc, q, broken)?;
    Ok(Begun {
        steps: all,
        kept,
        broken,
        used,
    })
}

fn next_number(k: u32) -> Result<u32, OutOfMemory>
    ensures { IfOk result (λ n. n ≡ k + 1) }
{
    match k.checked_add(1) {
        None => Err(OutOfMemory),
        Some(n) => Ok(n),
    }
}

/// The values from a number on.
#[tactic(auto, using(crate::proofs::Beginnings::rest_whole))]
fn from_number(values: &[Value], k: u32) -> &[Value]
    requires { k ≤ length values.now }
    ensures { result.now ≡ drop k values.now }
{
    &values[k as usize..]
}

/// A place to which some steps lead begins with a value.
#[cycle(begins)]
fn begins<P: ProgramFacts>(
    alloc: Global,
    here: &Here<'_, P>,
    p: Place,
    stands: Storage,
    steps: &[PartStep],
    t: DataType,
    v: &Value,
) -> Result<Begun, OutOfMemory>
    ensures { IfOk result (λ r. r ≡ begins (context_at P.program here.now) p
        (stepped_all (stands_at stands) steps.now) t v.now) }
{
    match v {
        Value::Node {
            place,
            what,
            parts,
            ..
        } => {
            if !is_braces(what) {
                let f = found_in(alloc, here, v)?;
                return one_begun(alloc, p, stands, steps, t, f);
            }
            let values = parts.as_slice();
            if !has_parts(t) {
                return refused(alloc, here, p, 35, values);
            }
            let before = sized(alloc, stands, steps, t, values.len() as u64)?;
            let begun = begins_list(alloc, here, *place, stands, steps, t, values)?;
            in_braces(alloc, *place, before, begun)
        }
    }
}

/// The parts of a place to which some steps lead begin with values.
#[cycle(begins)]
fn begins_list<P: ProgramFacts>(
    alloc: Global,
    here: &Here<'_, P>,
    q: Place,
    stands: Storage,
    steps: &[PartStep],
    t: DataType,
    values: &[Value],
) -> Result<Begun, OutOfMemory>
    ensures { IfOk result (λ r. r ≡ begins_list (context_at P.program here.now) q
        (stepped_all (stands_at stands) steps.now) t 0 values.now) }
{
    let mut begun = nothing_begun(alloc);
    let mut k = 0;
    for v in values {
        let there = here.behind_values(begun.kept.as_slice())?;
        match part_at(here.program, t, k) {
            None => {
                let rest = from_number(values, k);
                let none = refused(alloc, &there, q, 35, rest)?;
                return then_begun(begun, none);
            }
            Some(part) => {
                let inner = with_step(alloc, steps, part.step)?;
                let one = begins(alloc, &there, q, stands, inner.as_slice(), part.of, v)?;
                begun = then_begun(begun, one)?;
            }
        }
        k = next_number(k)?;
    }
    Ok(begun)
}

/// What a variable begins with that stands at a place in memory.
pub fn started<P: ProgramFacts>(
    alloc: Global,
    here: &Here<'_, P>,
    p: Place,
    stands: Storage,
    t: DataType,
    start: &Start,
) -> Result<Begun, OutOfMemory>
    ensures { IfOk result (λ r. r ≡ started (context_at P.program here.now) p (stands_at stands) t start.now) }
{
    match start {
        Start::Zero => Ok(nothing_begun(alloc)),
        Start::Value(v) => begins(alloc, here, p, stands, &[], t, v),
        Start::Arguments(values) => refused(alloc, here, p, 33, values.as_slice()),
    }
}

#[cycle(are_constant)]
fn are_constant<P: ProgramFacts>(
    alloc: Global,
    program: &P,
    locals: &[Known],
    v: &Value,
) -> Result<bool, OutOfMemory>
    ensures { IfOk result (λ r. r ≡ are_constant (P.program program.now) locals.now v.now) }
{
    match v {
        Value::Node { what, parts, .. } => {
            if is_braces(what) {
                return all_are_constant(alloc, program, locals, parts.as_slice());
            }
            let constant = program.constant(alloc, locals, v)?;
            Ok(constant.is_some())
        }
    }
}

#[cycle(are_constant)]
fn all_are_constant<P: ProgramFacts>(
    alloc: Global,
    program: &P,
    locals: &[Known],
    values: &[Value],
) -> Result<bool, OutOfMemory>
    ensures { IfOk result (λ r. r ≡ all_are_constant (P.program program.now) locals.now values.now) }
{
    for v in values {
        let constant = are_constant(alloc, program, locals, v)?;
        if !constant {
            return Ok(false);
        }
    }
    Ok(true)
}

/// Whether all values that a variable begins with are constants where these locals are in force.
pub fn start_constant<P: ProgramFacts>(
    alloc: Global,
    program: &P,
    locals: &[Known],
    start: &Start,
) -> Result<bool, OutOfMemory>
    ensures { IfOk result (λ r. r ≡ start_constant (P.program program.now) locals.now start.now) }
{
    match start {
        Start::Value(v) => are_constant(alloc, program, locals, v),
        _ => Ok(true),
    }
}
