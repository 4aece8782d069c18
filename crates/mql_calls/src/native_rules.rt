//! The rules of calls of native functions.
ghost use Rattle.std.specs.Prelude.{◌≡◌, ◌&&◌, true, is_some, None};
ghost use Rattle.mql_types.specs.Types.{same_type};
ghost use Rattle.mql_types.specs.Conversions.{fits, is_number, is_null};
ghost use Rattle.mql_calls.specs.Nodes.{passes, told};
ghost use Rattle.mql_calls.specs.NativeCalls.{supplied_number, supplied_base, element_in, element, has_value, is_place_of, takes_as, are_numbers, «match», elements_fit, is_enumeration, is_text, may_pass, kind_takes, all_texts, all_may_lack, takes_native, wrong_arguments, changes, is_lent_fixed, lends_fixed, lends_native, sets_series, is_line, is_other_array, flags_no_line};

use crate::nodes::are_told;
use mql_typed::{Info, single, value_base};
use mql_types::{Base, DataType, fits, is_number, same, same_type};
use natives::{Elements, Native, Parameter, ParameterKind, Passing, SimpleType, Structure};

fn supplied_number(s: Structure) -> u32
    ensures { result ≡ supplied_number s }
{
    match s {
        Structure::MqlTradeRequest => 0,
        Structure::MqlTradeResult => 1,
        Structure::MqlTick => 2,
        Structure::MqlRates => 3,
        Structure::MqlDateTime => 4,
    }
}

/// The type that a supplied structure is: it has the structure's number.
pub(crate) fn supplied_base(s: Structure) -> Base
    ensures { result ≡ supplied_base s }
{
    Base::Structure(supplied_number(s))
}

fn element_in(of: Option<DataType>) -> Option<Base>
    ensures { result ≡ element_in of }
{
    match of {
        None => None,
        Some(t) => if t.dimensions.is_array() {
            Some(t.base)
        } else {
            None
        },
    }
}

/// The type of an argument's elements, if it is an array.
pub fn element(i: &Info) -> Option<Base>
    ensures { result ≡ element i.now }
{
    element_in(i.of)
}

fn has_fitting(b: Base, i: &Info) -> bool
    ensures { result ≡ has_value (λ a. fits a b) i.now }
{
    match value_base(i) {
        None => false,
        Some(a) => fits(a, b),
    }
}

fn has_number(i: &Info) -> bool
    ensures { result ≡ has_value is_number i.now }
{
    match value_base(i) {
        None => false,
        Some(a) => is_number(a),
    }
}

fn is_enumeration(b: Base) -> bool
    ensures { result ≡ is_enumeration b }
{
    match b {
        Base::Enumeration(_) => true,
        _ => false,
    }
}

fn has_enumeration(i: &Info) -> bool
    ensures { result ≡ has_value is_enumeration i.now }
{
    match value_base(i) {
        None => false,
        Some(a) => is_enumeration(a),
    }
}

fn is_text(b: Base) -> bool
    ensures { result ≡ is_text b }
{
    fits(b, Base::Simple(SimpleType::String))
}

fn has_text(i: &Info) -> bool
    ensures { result ≡ has_value is_text i.now }
{
    match value_base(i) {
        None => false,
        Some(a) => is_text(a),
    }
}

fn is_null(b: Base) -> bool
    ensures { result ≡ is_null b }
{
    match b {
        Base::Null => true,
        _ => false,
    }
}

/// Whether an argument is `NULL`.
pub(crate) fn has_null(i: &Info) -> bool
    ensures { result ≡ has_value is_null i.now }
{
    match value_base(i) {
        None => false,
        Some(a) => is_null(a),
    }
}

fn is_of(t: DataType, of: Option<DataType>) -> bool
    ensures { result ≡ passes (λ u. same_type u t) of }
{
    match of {
        None => false,
        Some(u) => same_type(u, t),
    }
}

fn is_place_of(t: DataType, i: &Info) -> bool
    ensures { result ≡ is_place_of t i.now }
{
    i.standing.is_lasting() && is_of(t, i.of)
}

fn takes_as(how: Passing, b: Base, i: &Info) -> bool
    ensures { result ≡ takes_as how b i.now }
{
    match how {
        Passing::Value => has_fitting(b, i),
        Passing::Reference => is_place_of(single(b), i),
    }
}

fn are_numbers(a: Base, b: Base) -> bool
    ensures { result ≡ are_numbers a b }
{
    is_number(a) && is_number(b)
}

fn matches(a: Base, b: Base) -> bool
    ensures { result ≡ «match» a b }
{
    same(a, b) || are_numbers(a, b)
}

fn matches_before(before: Option<Base>, b: Base) -> bool
    ensures { result ≡ passes («match» b) before }
{
    match before {
        None => false,
        Some(a) => matches(b, a),
    }
}

fn elements_fit(e: Elements, before: Option<Base>, b: Base) -> bool
    ensures { result ≡ elements_fit e before b }
{
    match e {
        Elements::Any => true,
        Elements::Numbers => is_number(b),
        Elements::Matching => matches_before(before, b),
        Elements::Simple(t) => same(b, Base::Simple(t)),
        Elements::Structures(s) => same(b, supplied_base(s)),
    }
}

fn has_elements(e: Elements, before: Option<Base>, i: &Info) -> bool
    ensures { result ≡ passes (elements_fit e before) (element i.now) }
{
    match element(i) {
        None => false,
        Some(b) => elements_fit(e, before, b),
    }
}

fn may_pass(how: Passing, i: &Info) -> bool
    ensures { result ≡ may_pass how i.now }
{
    match how {
        Passing::Value => true,
        Passing::Reference => i.standing.is_lasting(),
    }
}

fn kind_takes(kind: ParameterKind, how: Passing, before: Option<Base>, i: &Info) -> bool
    ensures { result ≡ kind_takes kind how before i.now }
{
    match kind {
        ParameterKind::Simple(t) => takes_as(how, Base::Simple(t), i),
        ParameterKind::Number | ParameterKind::Common => has_number(i),
        ParameterKind::Enumeration => has_enumeration(i),
        ParameterKind::Object => false,
        ParameterKind::Pointer => has_null(i),
        ParameterKind::Structure(s) => takes_as(how, supplied_base(s), i),
        ParameterKind::Array(e) => has_elements(e, before, i) && may_pass(how, i),
        ParameterKind::Variable => i.standing.is_lasting(),
        ParameterKind::Rest => has_text(i),
    }
}

fn all_texts(parts: &[Option<Info>]) -> bool
    ensures { result ≡ passes all_texts (told parts.now) }
{
    let mut rest = parts;
    while let [part, others @ ..] = rest {
        match part {
            None => {
                return false;
            }
            Some(i) => {
                if !has_text(i) {
                    return false;
                }
            }
        }
        rest = others;
    }
    true
}

fn all_may_lack(parameters: &[Parameter]) -> bool
    ensures { result ≡ all_may_lack parameters.now }
{
    let mut rest = parameters;
    while let [q, others @ ..] = rest {
        if !q.may_lack() {
            return false;
        }
        rest = others;
    }
    true
}

fn takes_native(parameters: &[Parameter], parts: &[Option<Info>]) -> bool
    ensures { result ≡ passes (takes_native parameters.now None) (told parts.now) }
{
    let mut qs = parameters;
    let mut before: Option<Base> = None;
    let mut rest = parts;
    while let [part, others @ ..] = rest {
        match qs {
            [] => {
                return false;
            }
            [q, more @ ..] => {
                if q.kind.is_rest() {
                    return all_texts(rest);
                }
                match part {
                    None => {
                        return false;
                    }
                    Some(i) => {
                        if !kind_takes(q.kind, q.passing, before, i) {
                            return false;
                        }
                        before = element(i);
                    }
                }
                qs = more;
            }
        }
        rest = others;
    }
    all_may_lack(qs)
}

/// Whether each argument tells something, and a native function does not take them.
#[tactic(auto, using(crate::proofs::Parts::wrong_where_told))]
pub fn wrong_arguments(f: Native, parts: &[Option<Info>]) -> bool
    ensures { result ≡ passes (wrong_arguments f) (told parts.now) }
{
    are_told(parts) && !takes_native(f.parameters(), parts)
}

fn changes(how: Passing) -> bool
    ensures { result ≡ changes how }
{
    match how {
        Passing::Reference => true,
        Passing::Value => false,
    }
}

fn is_lent_fixed(q: Parameter, i: &Info) -> bool
    ensures { result ≡ is_lent_fixed q i.now }
{
    changes(q.passing) && i.standing.is_fixed()
}

#[tactic(auto, using(crate::proofs::Parts::lent_here, crate::proofs::Parts::lent_later, crate::proofs::Parts::none_lent))]
fn lends_fixed(parameters: &[Parameter], parts: &[Option<Info>]) -> bool
    requires { is_some (told parts.now) ≡ true }
    ensures { result ≡ passes (lends_fixed parameters.now) (told parts.now) }
{
    let mut qs = parameters;
    let mut rest = parts;
    while let [part, others @ ..] = rest {
        match qs {
            [] => {
                return false;
            }
            [q, more @ ..] => {
                match part {
                    None => {
                        return false;
                    }
                    Some(i) => {
                        if is_lent_fixed(*q, i) {
                            return true;
                        }
                    }
                }
                qs = more;
            }
        }
        rest = others;
    }
    false
}

/// Whether each argument tells something, and a constant is lent to a native function that may change it.
pub fn lends_native(f: Native, parts: &[Option<Info>]) -> bool
    ensures { result ≡ passes (lends_native f) (told parts.now) }
{
    are_told(parts) && lends_fixed(f.parameters(), parts)
}

fn sets_series(f: Native) -> bool
    ensures { result ≡ sets_series f }
{
    match f {
        Native::ArraySetAsSeries => true,
        _ => false,
    }
}

fn is_line(i: &Info) -> bool
    ensures { result ≡ is_line i.now }
{
    match i.of {
        None => false,
        Some(t) => t.dimensions.is_dynamic_line(),
    }
}

fn is_other_array(i: &Info) -> bool
    ensures { result ≡ is_other_array i.now }
{
    element(i).is_some() && !is_line(i)
}

fn first_flagged(f: Native, part: &Option<Info>) -> bool
    ensures { result ≡ passes (λ i. sets_series f && is_other_array i) part.now }
{
    match part {
        None => false,
        Some(i) => sets_series(f) && is_other_array(i),
    }
}

/// Whether each argument tells something, and a series flag is set on an array that is not dynamic with one
/// dimension.
#[tactic(auto, using(crate::proofs::Parts::flags_first))]
pub fn flags_no_line(f: Native, parts: &[Option<Info>]) -> bool
    ensures { result ≡ passes (flags_no_line f) (told parts.now) }
{
    match parts {
        [] => false,
        [part, rest @ ..] => first_flagged(f, part) && are_told(rest),
    }
}
