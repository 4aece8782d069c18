//! The choice among the functions of a name.
ghost use Rattle.std.specs.Prelude.{◌≡◌};
ghost use Rattle.mql_types.specs.Overloads.{may_be_lent, single_cost, array_cost, value_cost, reference_cost, argument_cost, all_optional, takes, is_less, is_cheaper, none_dearer, some_cheaper, beats, is_candidate, some_candidate, loses_to, wins, winner, chosen, choose};

use crate::conversion::{cost, fits};
use crate::types::{Base, DataType, same_type};
use fx8::{ItemList, Text};

/// What is told of an argument.
#[derive(Clone, Copy, Debug, PartialEq, Eq)]
pub struct Argument {
    /// Its type.
    pub of: DataType,
    /// Whether it is a place.
    pub place: bool,
    /// Whether it is a constant or an input.
    pub fixed: bool,
}

/// A parameter of a function.
#[derive(Clone, Copy, Debug, PartialEq, Eq)]
pub struct Parameter {
    /// Its type.
    pub of: DataType,
    /// Whether it is a reference.
    pub reference: bool,
    /// Whether it is a constant.
    pub constant: bool,
    /// Whether it has a default.
    pub optional: bool,
}

/// A function as calls see it.
#[derive(Drop)]
pub struct Signature {
    pub name: Text,
    /// Its number: no two functions of a program have one.
    pub number: u32,
    pub parameters: ItemList<Parameter>,
    /// The type of what it gives; none where it gives nothing.
    pub result: Option<Base>,
}

/// Which functions are judged: those that take the arguments, or those that may be meant where none does.
#[derive(Clone, Copy, Debug, PartialEq, Eq)]
pub enum Judging {
    Strictly,
    Loosely,
}

/// What a call calls.
#[derive(Clone, Copy, Debug, PartialEq, Eq)]
pub enum Choice {
    /// The function of this number.
    Function(u32),
    /// No function takes the arguments.
    Nothing,
    /// Functions fit equally.
    Equal,
}

fn may_be_lent(a: Argument, p: Parameter) -> bool
    ensures { result ≡ may_be_lent a p }
{
    a.place && (same_type(a.of, p.of) && (!a.fixed || p.constant))
}

fn single_cost(a: Base, b: Base) -> Option<u8>
    ensures { result ≡ single_cost a b }
{
    if fits(a, b) { Some(cost(a, b)) } else { None }
}

fn array_cost(way: Judging, t: DataType, u: DataType) -> Option<u8>
    ensures { result ≡ array_cost way t u }
{
    match way {
        Judging::Strictly => None,
        Judging::Loosely => if same_type(t, u) { Some(0) } else { None },
    }
}

fn value_cost(way: Judging, t: DataType, u: DataType) -> Option<u8>
    ensures { result ≡ value_cost way t u }
{
    if t.dimensions.is_array() || u.dimensions.is_array() {
        return array_cost(way, t, u);
    }
    single_cost(t.base, u.base)
}

fn reference_cost(way: Judging, a: Argument, p: Parameter) -> Option<u8>
    ensures { result ≡ reference_cost way a p }
{
    match way {
        Judging::Strictly => if may_be_lent(a, p) { Some(0) } else { None },
        Judging::Loosely => if same_type(a.of, p.of) {
            Some(0)
        } else {
            Some(3)
        },
    }
}

fn argument_cost(way: Judging, a: Argument, p: Parameter) -> Option<u8>
    ensures { result ≡ argument_cost way a p }
{
    if p.reference {
        return reference_cost(way, a, p);
    }
    value_cost(way, a.of, p.of)
}

fn all_optional(parameters: &[Parameter]) -> bool
    ensures { result ≡ all_optional parameters.now }
{
    let mut rest = parameters;
    while let [p, others @ ..] = rest {
        if !p.optional {
            return false;
        }
        rest = others;
    }
    true
}

fn takes(way: Judging, arguments: &[Argument], parameters: &[Parameter]) -> bool
    ensures { result ≡ takes way arguments.now parameters.now }
{
    let mut given = arguments;
    let mut rest = parameters;
    while let [a, left @ ..] = given {
        match rest {
            [] => {
                return false;
            }
            [p, others @ ..] => {
                if argument_cost(way, *a, *p).is_none() {
                    return false;
                }
                rest = others;
            }
        }
        given = left;
    }
    all_optional(rest)
}

fn is_less(m: Option<u8>, n: Option<u8>) -> bool
    ensures { result ≡ is_less m n }
{
    match m {
        Some(x) => match n {
            Some(y) => x < y,
            None => false,
        },
        None => false,
    }
}

fn is_cheaper(way: Judging, a: Argument, p: Parameter, q: Parameter) -> bool
    ensures { result ≡ is_cheaper way a p q }
{
    is_less(argument_cost(way, a, p), argument_cost(way, a, q))
}

fn none_dearer(way: Judging, arguments: &[Argument], ps: &[Parameter], qs: &[Parameter]) -> bool
    ensures { result ≡ none_dearer way arguments.now ps.now qs.now }
{
    let mut given = arguments;
    let mut first = ps;
    let mut second = qs;
    while let [a, left @ ..] = given {
        match first {
            [] => {
                return true;
            }
            [p, first_left @ ..] => match second {
                [] => {
                    return true;
                }
                [q, second_left @ ..] => {
                    if is_cheaper(way, *a, *q, *p) {
                        return false;
                    }
                    first = first_left;
                    second = second_left;
                }
            },
        }
        given = left;
    }
    true
}

fn some_cheaper(way: Judging, arguments: &[Argument], ps: &[Parameter], qs: &[Parameter]) -> bool
    ensures { result ≡ some_cheaper way arguments.now ps.now qs.now }
{
    let mut given = arguments;
    let mut first = ps;
    let mut second = qs;
    while let [a, left @ ..] = given {
        match first {
            [] => {
                return false;
            }
            [p, first_left @ ..] => match second {
                [] => {
                    return false;
                }
                [q, second_left @ ..] => {
                    if is_cheaper(way, *a, *p, *q) {
                        return true;
                    }
                    first = first_left;
                    second = second_left;
                }
            },
        }
        given = left;
    }
    false
}

fn beats(way: Judging, arguments: &[Argument], f: &Signature, g: &Signature) -> bool
    ensures { result ≡ beats way arguments.now f.now g.now }
{
    none_dearer(
        way,
        arguments,
        f.parameters.as_slice(),
        g.parameters.as_slice(),
    ) && some_cheaper(
        way,
        arguments,
        f.parameters.as_slice(),
        g.parameters.as_slice(),
    )
}

fn is_candidate(way: Judging, name: &[u16], arguments: &[Argument], f: &Signature) -> bool
    ensures { result ≡ is_candidate way name.now arguments.now f.now }
{
    f.name.as_slice() == name && takes(way, arguments, f.parameters.as_slice())
}

fn some_candidate(way: Judging, name: &[u16], arguments: &[Argument], all: &[Signature]) -> bool
    ensures { result ≡ some_candidate way name.now arguments.now all.now }
{
    let mut rest = all;
    while let [f, others @ ..] = rest {
        if is_candidate(way, name, arguments, f) {
            return true;
        }
        rest = others;
    }
    false
}

fn loses_to(
    way: Judging,
    name: &[u16],
    arguments: &[Argument],
    f: &Signature,
    g: &Signature,
) -> bool
    ensures { result ≡ loses_to way name.now arguments.now f.now g.now }
{
    f.number == g.number || (!is_candidate(way, name, arguments, g) || beats(way, arguments, f, g))
}

fn wins(
    way: Judging,
    name: &[u16],
    arguments: &[Argument],
    f: &Signature,
    all: &[Signature],
) -> bool
    ensures { result ≡ wins way name.now arguments.now f.now all.now }
{
    let mut rest = all;
    while let [g, others @ ..] = rest {
        if !loses_to(way, name, arguments, f, g) {
            return false;
        }
        rest = others;
    }
    true
}

fn winner(
    way: Judging,
    name: &[u16],
    arguments: &[Argument],
    all: &[Signature],
    signatures: &[Signature],
) -> Option<u32>
    ensures { result ≡ winner way name.now arguments.now all.now signatures.now }
{
    let mut rest = signatures;
    while let [f, others @ ..] = rest {
        if is_candidate(way, name, arguments, f) && wins(way, name, arguments, f, all) {
            return Some(f.number);
        }
        rest = others;
    }
    None
}

fn chosen(other: Choice, number: Option<u32>) -> Choice
    ensures { result ≡ chosen other number }
{
    match number {
        Some(n) => Choice::Function(n),
        None => other,
    }
}

/// What a call of a name with arguments calls, among the functions of a program.
#[tactic(auto, unfolding(crate::specs::Overloads::choose))]
pub fn choose(name: &[u16], arguments: &[Argument], all: &[Signature]) -> Choice
    ensures { result ≡ choose name.now arguments.now all.now }
{
    if some_candidate(Judging::Strictly, name, arguments, all) {
        return chosen(
            Choice::Equal,
            winner(Judging::Strictly, name, arguments, all, all),
        );
    }
    chosen(
        Choice::Nothing,
        winner(Judging::Loosely, name, arguments, all, all),
    )
}
