//! The rules of calls and conversions. Each is given what the node calls, and the call of functions that
//! it is.
ghost use Rattle.std.specs.Prelude.{◌≡◌, ◌||◌, ◌&&◌, not, option_map, is_some, is_none, IfOk};
ghost use Rattle.mql_types.specs.declared.types.Base.{Base};
ghost use Rattle.mql_typed.specs.Operations.{on};
ghost use Rattle.mql_scope.specs.Places.{context_at};
ghost use Rattle.mql_calls.specs.Nodes.{passes, ask, some_part, is_whole_array, is_constant};
ghost use Rattle.mql_arguments.specs.declared.rules.ArgumentRule.TheVariants as argument;
ghost use Rattle.mql_expressions.specs.Rules.{is_one, is_call, changes, is_index, takes_arrays, callee_of, handed_at, converts_to, not_callable, no_overload, fit_equally, wrong_native, reference_no_place, reference_differs, constant_changed, no_conversion, fits_not_in, no_cast, array_used, series_flag, breaks_at};
ghost use Rattle.mql_expressions.specs.Views.{node_of};

use crate::handed::{
    Handed, called_base, calls_other, native_changes, native_flags, native_refuses, none_takes,
    some_breaks, takes_equally,
};
use crate::members::cast_base;
use crate::node::NodeView;
use crate::operands::{
    constant_at, index_is_array, no_fit_at, sides_do_not_fit, some_array, update_does_not_fit,
};
use crate::tests::{changes, is_call, is_index, takes_arrays};
use fx8::OutOfMemory;
use mql_arguments::ArgumentRule;
use mql_scope::{Callee, Here, ProgramFacts};
use mql_syntax::Operation;
use mql_typed::{Info, int_operator};
use mql_types::Base;

/// 4: what is called is no function.
pub(crate) fn not_callable<P: ProgramFacts>(
    here: &Here<'_, P>,
    n: &NodeView,
    k: Option<Callee>,
) -> bool
    requires { k ≡ callee_of (context_at P.program here.now) (node_of n.now) }
    ensures { result ≡ not_callable (context_at P.program here.now) (node_of n.now) }
{
    is_call(n.what) && (n.called.is_none() || calls_other(k))
}

fn is_one(parts: &[Option<Info>]) -> bool
    ensures { result ≡ is_one parts.now }
{
    match parts {
        [_] => true,
        _ => false,
    }
}

fn converts_not_one(k: Option<Callee>, parts: &[Option<Info>]) -> bool
    ensures { result ≡ (is_some (on k converts_to) && not (is_one parts.now)) }
{
    called_base(k).is_some() && !is_one(parts)
}

/// 5: no function takes the arguments; a type that is called takes one.
pub(crate) fn no_overload<P: ProgramFacts>(
    here: &Here<'_, P>,
    n: &NodeView,
    k: Option<Callee>,
    h: &Option<Handed>,
) -> bool
    requires callee { k ≡ callee_of (context_at P.program here.now) (node_of n.now) }
    requires handed { h.now ≡ handed_at (context_at P.program here.now) (node_of n.now) }
    ensures { result ≡ no_overload (context_at P.program here.now) (node_of n.now) }
{
    none_takes(h) || converts_not_one(k, n.parts)
}

/// 6: functions take the arguments equally.
pub(crate) fn fit_equally<P: ProgramFacts>(
    here: &Here<'_, P>,
    n: &NodeView,
    h: &Option<Handed>,
) -> bool
    requires { h.now ≡ handed_at (context_at P.program here.now) (node_of n.now) }
    ensures { result ≡ fit_equally (context_at P.program here.now) (node_of n.now) }
{
    takes_equally(h)
}

/// 7: a native function does not take the arguments.
pub(crate) fn wrong_native<P: ProgramFacts>(
    here: &Here<'_, P>,
    n: &NodeView,
    k: Option<Callee>,
) -> bool
    requires { k ≡ callee_of (context_at P.program here.now) (node_of n.now) }
    ensures { result ≡ wrong_native (context_at P.program here.now) (node_of n.now) }
{
    native_refuses(k, n.parts)
}

/// 8: a reference argument is no place.
pub(crate) fn reference_no_place<P: ProgramFacts>(
    here: &Here<'_, P>,
    n: &NodeView,
    h: &Option<Handed>,
) -> bool
    requires { h.now ≡ handed_at (context_at P.program here.now) (node_of n.now) }
    ensures { result ≡ reference_no_place (context_at P.program here.now) (node_of n.now) }
{
    some_breaks(ArgumentRule::NotPlaced, here.program.functions(), h)
}

/// 9: the type of a reference argument differs.
pub(crate) fn reference_differs<P: ProgramFacts>(
    here: &Here<'_, P>,
    n: &NodeView,
    h: &Option<Handed>,
) -> bool
    requires { h.now ≡ handed_at (context_at P.program here.now) (node_of n.now) }
    ensures { result ≡ reference_differs (context_at P.program here.now) (node_of n.now) }
{
    some_breaks(ArgumentRule::Differs, here.program.functions(), h)
}

fn changes_constant(n: &NodeView) -> bool
    ensures { result ≡ (changes n.now.what.now && ask 0 is_constant (node_of n.now)) }
{
    changes(n.what) && constant_at(n)
}

/// 10: a constant is changed, or lent for change.
pub(crate) fn constant_changed<P: ProgramFacts>(
    here: &Here<'_, P>,
    n: &NodeView,
    k: Option<Callee>,
    h: &Option<Handed>,
) -> bool
    requires callee { k ≡ callee_of (context_at P.program here.now) (node_of n.now) }
    requires handed { h.now ≡ handed_at (context_at P.program here.now) (node_of n.now) }
    ensures { result ≡ constant_changed (context_at P.program here.now) (node_of n.now) }
{
    let changed = changes_constant(n);
    let lent = some_breaks(ArgumentRule::LendsConstant, here.program.functions(), h);
    let native = native_changes(k, n.parts);
    changed || (lent || native)
}

fn fits_not_in(to: Option<Base>, n: &NodeView) -> bool
    ensures { result ≡ fits_not_in (node_of n.now) to }
{
    match to {
        None => false,
        Some(b) => no_fit_at(b, 0, n),
    }
}

fn no_cast(to: Option<Base>, n: &NodeView) -> bool
    ensures { result ≡ no_cast to (node_of n.now) }
{
    to.is_none() || fits_not_in(to, n)
}

/// 13: a value is not converted to the type that is asked for.
pub(crate) fn no_conversion<P: ProgramFacts>(
    here: &Here<'_, P>,
    n: &NodeView,
    k: Option<Callee>,
) -> Result<bool, OutOfMemory>
    requires { k ≡ callee_of (context_at P.program here.now) (node_of n.now) }
    ensures { IfOk result (λ b. b ≡ no_conversion (context_at P.program here.now) (node_of n.now)) }
{
    match n.what {
        Operation::Assign => Ok(sides_do_not_fit(n)),
        Operation::AssignWith(o) => Ok(update_does_not_fit(int_operator(*o), n)),
        Operation::Conversion | Operation::Cast => {
            let to = cast_base(here, n.types)?;
            Ok(no_cast(to, n))
        }
        Operation::Call => Ok(fits_not_in(called_base(k), n)),
        _ => Ok(false),
    }
}

fn array_in_value(n: &NodeView) -> bool
    ensures { result ≡ (not (takes_arrays n.now.what.now) && some_part is_whole_array n.now.parts.now) }
{
    !takes_arrays(n.what) && some_array(n.parts)
}

fn array_as_index(n: &NodeView) -> bool
    ensures { result ≡ (is_index n.now.what.now && ask 1 is_whole_array (node_of n.now)) }
{
    is_index(n.what) && index_is_array(n)
}

fn array_converted(k: Option<Callee>, parts: &[Option<Info>]) -> bool
    ensures { result ≡ (is_some (on k converts_to) && some_part is_whole_array parts.now) }
{
    called_base(k).is_some() && some_array(parts)
}

/// 26: a whole array is used as a value.
pub(crate) fn array_used<P: ProgramFacts>(
    here: &Here<'_, P>,
    n: &NodeView,
    k: Option<Callee>,
    h: &Option<Handed>,
) -> bool
    requires callee { k ≡ callee_of (context_at P.program here.now) (node_of n.now) }
    requires handed { h.now ≡ handed_at (context_at P.program here.now) (node_of n.now) }
    ensures { result ≡ array_used (context_at P.program here.now) (node_of n.now) }
{
    let value = array_in_value(n);
    let index = array_as_index(n);
    let converted = array_converted(k, n.parts);
    let handed = some_breaks(ArgumentRule::WholeArray, here.program.functions(), h);
    value || (index || (converted || handed))
}

/// 38: a series flag is set on an array that is not dynamic with one dimension.
pub(crate) fn series_flag<P: ProgramFacts>(
    here: &Here<'_, P>,
    n: &NodeView,
    k: Option<Callee>,
) -> bool
    requires { k ≡ callee_of (context_at P.program here.now) (node_of n.now) }
    ensures { result ≡ series_flag (context_at P.program here.now) (node_of n.now) }
{
    native_flags(k, n.parts)
}
