//! What calls of native functions give.
ghost use Rattle.std.specs.Prelude.{◌≡◌, [], ◌∷◌, ◌++◌, IfOk, None, map, codes};
ghost use Rattle.mql_calls.specs.Nodes.{all_kept};
ghost use Rattle.mql_calls.specs.NativeCalls.{common_pair, common_of, common_self, common, member_texts, member_values, name_of_value, enumeration_of, plain_name, named_value, default_value, defaults, by_passing, into_elements, as_text, given, native_parts, names_value, native_expression, native_given, native_info};
ghost use Rattle.std.specs.Option.{option_copied};

use crate::handed::{Handed, Value, lent, with_kept};
use crate::native_rules::{element, has_null, supplied_base};
use fx8::{IntKind, ItemList, OutOfMemory, Stack, Text};
use mql_mean::Value as Constant;
use mql_meaning::{Expression, Member, VarType};
use mql_scope::{Enumeration, ProgramFacts};
use mql_typed::{Info, a_value, converted, nothing, value_base, value_of};
use mql_types::{Base, common_number};
use natives::{Native, Parameter, ParameterKind, Passing, ResultType, SimpleType};
use std::alloc::Global;

const COLONS: [u16; 2] = [58, 58];

fn common_pair(b: Base, i: &Info) -> Base
    ensures { result ≡ common_pair b i.now }
{
    match value_base(i) {
        None => b,
        Some(a) => match common_number(a, b) {
            None => b,
            Some(t) => Base::Simple(t),
        },
    }
}

fn common_of(first: Base, infos: &[Info]) -> Base
    ensures { result ≡ common_of first infos.now }
{
    let mut b = first;
    let mut rest = infos;
    while let [i, others @ ..] = rest {
        b = common_pair(b, i);
        rest = others;
    }
    b
}

fn common_self(b: Option<Base>, i: &Info) -> Base
    ensures { result ≡ common_self b i.now }
{
    match b {
        None => Base::Simple(SimpleType::Integer(IntKind::Int)),
        Some(own) => common_pair(own, i),
    }
}

/// The common type of numbers.
fn common(infos: &[Info]) -> Base
    ensures { result ≡ common infos.now }
{
    match infos {
        [] => Base::Simple(SimpleType::Integer(IntKind::Int)),
        [i, rest @ ..] => common_of(common_self(value_base(i), i), rest),
    }
}

fn member_texts(alloc: Global, members: &[Member]) -> Result<ItemList<Text>, OutOfMemory>
    ensures { IfOk result (λ r. r ≡ member_texts members.now) }
{
    let mut texts = ItemList::new(alloc);
    let mut rest = members;
    while let [m, others @ ..] = rest {
        texts.push(Text::from_slice(alloc, m.name.as_slice())?)?;
        rest = others;
    }
    Ok(texts)
}

fn member_values(alloc: Global, members: &[Member]) -> Result<ItemList<Constant>, OutOfMemory>
    ensures { IfOk result (λ r. r ≡ member_values members.now) }
{
    let mut values = ItemList::new(alloc);
    let mut rest = members;
    while let [m, others @ ..] = rest {
        values.push(Constant::Num(IntKind::Int, i128::from(m.value)))?;
        rest = others;
    }
    Ok(values)
}

/// The name of a type, as it stands before a number that is no member of it.
fn type_text(alloc: Global, name: &[u16]) -> Result<Text, OutOfMemory>
    ensures { IfOk result (λ r. r ≡ name.now ++ codes "::") }
{
    let mut text = Text::from_slice(alloc, name)?;
    text.extend_from_slice(&COLONS)?;
    Ok(text)
}

fn name_of_value(alloc: Global, i: Info, e: &Enumeration) -> Result<Value, OutOfMemory>
    ensures value { IfOk result (λ r. r.0 ≡ name_of_value i e.now) }
    ensures kept { IfOk result (λ r. r.1 ≡ i.kept) }
{
    let texts = member_texts(alloc, e.members.as_slice())?;
    let values = member_values(alloc, e.members.as_slice())?;
    let other = type_text(alloc, e.name.as_slice())?;
    let (number, kept) = value_of(alloc, i)?;
    let mut parts = ItemList::new(alloc);
    parts.push(number)?;
    Ok((Expression::Named(texts, values, other, parts), kept))
}

fn enumeration_of<P: ProgramFacts>(program: &P, b: Option<Base>) -> Option<&Enumeration>
    ensures { option_copied result ≡ enumeration_of (P.program program.now) b }
{
    match b {
        Some(Base::Enumeration(n)) => program.enumerations().get(n as usize),
        _ => None,
    }
}

fn plain_name(alloc: Global, i: Info) -> Result<Value, OutOfMemory>
    ensures value { IfOk result (λ r. r.0 ≡ plain_name i) }
    ensures kept { IfOk result (λ r. r.1 ≡ i.kept) }
{
    let (number, kept) = value_of(alloc, i)?;
    let mut parts = ItemList::new(alloc);
    parts.push(number)?;
    Ok((Expression::Native(Native::EnumToString, parts), kept))
}

fn first_named<P: ProgramFacts>(alloc: Global, program: &P, i: Info) -> Result<Value, OutOfMemory>
    ensures value { IfOk result (λ r. r.0 ≡ named_value (P.program program.now) (i ∷ [])) }
    ensures kept { IfOk result (λ r. r.1 ≡ i.kept) }
{
    match enumeration_of(program, value_base(&i)) {
        None => plain_name(alloc, i),
        Some(e) => name_of_value(alloc, i, e),
    }
}

/// The name of an argument's value, and the locals that the arguments take.
fn named_value<P: ProgramFacts>(
    alloc: Global,
    program: &P,
    infos: ItemList<Info>,
) -> Result<Value, OutOfMemory>
    ensures value { IfOk result (λ r. r.0 ≡ named_value (P.program program.now) infos) }
    ensures kept { IfOk result (λ r. r.1 ≡ all_kept infos) }
{
    let mut left = Stack::of_list(infos);
    match left.pop() {
        None => Ok((
            Expression::Native(Native::EnumToString, ItemList::new(alloc)),
            ItemList::new(alloc),
        )),
        Some(i) => {
            let (e, kept) = first_named(alloc, program, i)?;
            let kept = with_kept(kept, left)?;
            Ok((e, kept))
        }
    }
}

fn default_value(kind: ParameterKind, n: i32) -> Constant
    ensures { result ≡ default_value kind n }
{
    match kind {
        ParameterKind::Simple(SimpleType::Integer(k)) => Constant::Num(k, i128::from(n)),
        _ => Constant::Num(IntKind::Int, i128::from(n)),
    }
}

/// The defaults of parameters, behind what is handed over.
fn with_defaults(
    parameters: &[Parameter],
    before: ItemList<Expression>,
) -> Result<ItemList<Expression>, OutOfMemory>
    ensures { IfOk result (λ r. r ≡ before ++ defaults parameters.now) }
{
    let mut parts = before;
    let mut rest = parameters;
    while let [q, others @ ..] = rest {
        match q.default {
            None => {}
            Some(n) => {
                parts.push(Expression::Constant(default_value(q.kind, n)))?;
            }
        }
        rest = others;
    }
    Ok(parts)
}

fn by_passing(alloc: Global, how: Passing, b: Base, i: Info) -> Result<Value, OutOfMemory>
    ensures value { IfOk result (λ r. r.0 ≡ by_passing how b i) }
    ensures kept { IfOk result (λ r. r.1 ≡ i.kept) }
{
    match how {
        Passing::Value => converted(alloc, b, i),
        Passing::Reference => Ok(lent(i)),
    }
}

fn into_elements(alloc: Global, b: Option<Base>, i: Info) -> Result<Value, OutOfMemory>
    ensures value { IfOk result (λ r. r.0 ≡ into_elements b i) }
    ensures kept { IfOk result (λ r. r.1 ≡ i.kept) }
{
    match b {
        None => value_of(alloc, i),
        Some(of) => converted(alloc, of, i),
    }
}

fn as_text(alloc: Global, i: Info) -> Result<Value, OutOfMemory>
    ensures value { IfOk result (λ r. r.0 ≡ as_text i) }
    ensures kept { IfOk result (λ r. r.1 ≡ i.kept) }
{
    if has_null(&i) {
        return converted(alloc, Base::Simple(SimpleType::String), i);
    }
    value_of(alloc, i)
}

/// An argument as the function gets it, where numbers are taken into a common type and the array before it has
/// these elements.
fn given(
    alloc: Global,
    q: Parameter,
    numbers: Base,
    before: Option<Base>,
    i: Info,
) -> Result<Value, OutOfMemory>
    ensures value { IfOk result (λ r. r.0 ≡ given q.kind q.passing numbers before i) }
    ensures kept { IfOk result (λ r. r.1 ≡ i.kept) }
{
    match q.kind {
        ParameterKind::Simple(t) => by_passing(alloc, q.passing, Base::Simple(t), i),
        ParameterKind::Number => into_elements(alloc, before, i),
        ParameterKind::Common => converted(alloc, numbers, i),
        ParameterKind::Structure(s) => by_passing(alloc, q.passing, supplied_base(s), i),
        ParameterKind::Array(_) | ParameterKind::Variable => Ok(lent(i)),
        ParameterKind::Enumeration
        | ParameterKind::Object
        | ParameterKind::Pointer
        | ParameterKind::Rest => value_of(alloc, i),
    }
}

/// What is handed over, with a text and the others that are left.
fn with_texts(
    alloc: Global,
    before: Handed,
    first: Info,
    infos: Stack<Info>,
) -> Result<Handed, OutOfMemory>
    ensures parts { IfOk result (λ r. r.parts ≡ before.parts ++ map as_text (first ∷ infos)) }
    ensures kept { IfOk result (λ r. r.kept ≡ before.kept ++ all_kept (first ∷ infos)) }
{
    let mut out = before.with(as_text(alloc, first)?)?;
    let mut left = infos;
    while let Some(i) = left.pop() {
        out = out.with(as_text(alloc, i)?)?;
    }
    Ok(out)
}

/// What is handed over to a native function's parameters, and the locals that the arguments take.
#[tactic(auto, using(crate::proofs::Parts::no_parameters_left))]
fn native_parts(
    alloc: Global,
    parameters: &[Parameter],
    numbers: Base,
    infos: ItemList<Info>,
) -> Result<Handed, OutOfMemory>
    ensures parts { IfOk result (λ r. r.parts ≡ native_parts parameters.now numbers None infos) }
    ensures kept { IfOk result (λ r. r.kept ≡ all_kept infos) }
{
    let mut out = Handed::new(alloc);
    let mut before: Option<Base> = None;
    let mut left = Stack::of_list(infos);
    let mut qs = parameters;
    while let [q, others @ ..] = qs {
        match left.pop() {
            None => {
                let Handed { parts, kept } = out;
                let parts = with_defaults(qs, parts)?;
                return Ok(Handed { parts, kept });
            }
            Some(i) => {
                if q.kind.is_rest() {
                    return with_texts(alloc, out, i, left);
                }
                let elements = element(&i);
                out = out.with(given(alloc, *q, numbers, before, i)?)?;
                before = elements;
            }
        }
        qs = others;
    }
    out.keeping(left)
}

fn names_value(f: Native) -> bool
    ensures { result ≡ names_value f }
{
    match f {
        Native::EnumToString => true,
        _ => false,
    }
}

fn native_expression<P: ProgramFacts>(
    alloc: Global,
    program: &P,
    f: Native,
    infos: ItemList<Info>,
) -> Result<Value, OutOfMemory>
    ensures value { IfOk result (λ r. r.0 ≡ native_expression (P.program program.now) f infos) }
    ensures kept { IfOk result (λ r. r.1 ≡ all_kept infos) }
{
    if names_value(f) {
        return named_value(alloc, program, infos);
    }
    let numbers = common(infos.as_slice());
    let Handed { parts, kept } = native_parts(alloc, f.parameters(), numbers, infos)?;
    Ok((Expression::Native(f, parts), kept))
}

fn native_given(gives: ResultType, numbers: Base, kept: ItemList<VarType>, e: Expression) -> Info
    ensures { result ≡ native_given gives numbers kept e }
{
    match gives {
        ResultType::Void => nothing(kept, e),
        ResultType::Simple(t) => a_value(Base::Simple(t), kept, e),
        ResultType::Common => a_value(numbers, kept, e),
        ResultType::Pointer => a_value(Base::Null, kept, e),
    }
}

/// What a call of a native function gives.
pub fn native_info<P: ProgramFacts>(
    alloc: Global,
    program: &P,
    f: Native,
    infos: ItemList<Info>,
) -> Result<Info, OutOfMemory>
    ensures { IfOk result (λ r. r ≡ native_info (P.program program.now) f infos) }
{
    let numbers = common(infos.as_slice());
    let (e, kept) = native_expression(alloc, program, f, infos)?;
    Ok(native_given(f.result(), numbers, kept, e))
}
