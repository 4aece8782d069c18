//! The lowest rule that a node breaks.
ghost use Rattle.std.specs.Prelude.{◌≡◌, Some, IfOk, if◌then◌else◌};
ghost use Rattle.mql_scope.specs.Contexts.{Context, either};
ghost use Rattle.mql_scope.specs.Places.{context_at};
ghost use Rattle.mql_expressions.specs.Rules.{callee_of, handed_at, lowest, lowest_in, name_rules, call_rules, operand_rules, value_rules, other_rules};
ghost use Rattle.mql_expressions.specs.Views.{node_of};

use crate::calls::{
    array_used, constant_changed, fit_equally, no_conversion, no_overload, not_callable,
    reference_differs, reference_no_place, series_flag, wrong_native,
};
use crate::handed::Handed;
use crate::members::{not_accessible, unknown_member, unknown_name};
use crate::node::NodeView;
use crate::operands::{
    branches_differ, condition_no_number, double_bits, index_no_array, index_no_integer,
    input_changed, left_no_place, no_number, some_void, structures_compared,
};
use crate::tests::{is_braces, is_new, is_this, on_pointer};
use fx8::OutOfMemory;
use mql_scope::{Callee, Here, ProgramFacts};
use std::alloc::Global;

fn broken(test: bool, rule: u8, others: Option<u8>) -> Option<u8>
    ensures { result ≡ (if test then Some rule else others) }
{
    if test { Some(rule) } else { others }
}

fn either(a: Option<u8>, b: Option<u8>) -> Option<u8>
    ensures { result ≡ either a b }
{
    match a {
        Some(rule) => Some(rule),
        None => b,
    }
}

fn lowest_of_names<P: ProgramFacts>(
    alloc: Global,
    here: &Here<'_, P>,
    n: &NodeView,
    k: Option<Callee>,
) -> Result<Option<u8>, OutOfMemory>
    requires { k ≡ callee_of (context_at P.program here.now) (node_of n.now) }
    ensures { IfOk result (λ r. r ≡ lowest_in name_rules (context_at P.program here.now) (node_of n.now)) }
{
    let one = unknown_name(alloc, here, n, k)?;
    let two = unknown_member(here, n);
    let three = not_accessible(here, n);
    let from_three = broken(three, 3, None);
    let from_two = broken(two, 2, from_three);
    Ok(broken(one, 1, from_two))
}

fn lowest_of_calls<P: ProgramFacts>(
    here: &Here<'_, P>,
    n: &NodeView,
    k: Option<Callee>,
    h: &Option<Handed>,
) -> Option<u8>
    requires callee { k ≡ callee_of (context_at P.program here.now) (node_of n.now) }
    requires handed { h.now ≡ handed_at (context_at P.program here.now) (node_of n.now) }
    ensures { result ≡ lowest_in call_rules (context_at P.program here.now) (node_of n.now) }
{
    let from_ten = broken(constant_changed(here, n, k, h), 10, None);
    let from_nine = broken(reference_differs(here, n, h), 9, from_ten);
    let from_eight = broken(reference_no_place(here, n, h), 8, from_nine);
    let from_seven = broken(wrong_native(here, n, k), 7, from_eight);
    let from_six = broken(fit_equally(here, n, h), 6, from_seven);
    let from_five = broken(no_overload(here, n, k, h), 5, from_six);
    broken(not_callable(here, n, k), 4, from_five)
}

fn lowest_of_operands<P: ProgramFacts>(
    here: &Here<'_, P>,
    n: &NodeView,
    k: Option<Callee>,
) -> Result<Option<u8>, OutOfMemory>
    requires { k ≡ callee_of (context_at P.program here.now) (node_of n.now) }
    ensures { IfOk result (λ r. r ≡ lowest_in operand_rules (context_at P.program here.now) (node_of n.now)) }
{
    let unfit = no_conversion(here, n, k)?;
    let from_seventeen = broken(condition_no_number(n), 17, None);
    let from_sixteen = broken(structures_compared(n), 16, from_seventeen);
    let from_fifteen = broken(double_bits(n), 15, from_sixteen);
    let from_fourteen = broken(no_number(n), 14, from_fifteen);
    let from_thirteen = broken(unfit, 13, from_fourteen);
    let from_twelve = broken(left_no_place(n), 12, from_thirteen);
    Ok(broken(input_changed(n), 11, from_twelve))
}

fn lowest_of_values<P: ProgramFacts>(
    here: &Here<'_, P>,
    n: &NodeView,
    k: Option<Callee>,
    h: &Option<Handed>,
) -> Option<u8>
    requires callee { k ≡ callee_of (context_at P.program here.now) (node_of n.now) }
    requires handed { h.now ≡ handed_at (context_at P.program here.now) (node_of n.now) }
    ensures { result ≡ lowest_in value_rules (context_at P.program here.now) (node_of n.now) }
{
    let from_array = broken(array_used(here, n, k, h), 26, None);
    let from_integer = broken(index_no_integer(n), 25, from_array);
    let from_index = broken(index_no_array(n), 24, from_integer);
    broken(some_void(n.parts), 23, from_index)
}

fn lowest_of_others<P: ProgramFacts>(
    here: &Here<'_, P>,
    n: &NodeView,
    k: Option<Callee>,
) -> Option<u8>
    requires { k ≡ callee_of (context_at P.program here.now) (node_of n.now) }
    ensures { result ≡ lowest_in other_rules (context_at P.program here.now) (node_of n.now) }
{
    let from_branches = broken(branches_differ(n), 39, None);
    let from_series = broken(series_flag(here, n, k), 38, from_branches);
    let from_braces = broken(is_braces(n.what), 35, from_series);
    let from_this = broken(is_this(n.what), 30, from_braces);
    let from_pointers = broken(on_pointer(n.what), 29, from_this);
    broken(is_new(n.what), 27, from_pointers)
}

/// The lowest rule of expressions that a node breaks, if it breaks one. What the node calls, and the call of
/// functions that it is, are given.
#[tactic(auto, unfolding(crate::specs::Rules::lowest))]
pub(crate) fn lowest<P: ProgramFacts>(
    alloc: Global,
    here: &Here<'_, P>,
    n: &NodeView,
    k: Option<Callee>,
    h: &Option<Handed>,
) -> Result<Option<u8>, OutOfMemory>
    requires callee { k ≡ callee_of (context_at P.program here.now) (node_of n.now) }
    requires handed { h.now ≡ handed_at (context_at P.program here.now) (node_of n.now) }
    ensures { IfOk result (λ r. r ≡ lowest (context_at P.program here.now) (node_of n.now)) }
{
    let names = lowest_of_names(alloc, here, n, k)?;
    let calls = lowest_of_calls(here, n, k, h);
    let operands = lowest_of_operands(here, n, k)?;
    let values = lowest_of_values(here, n, k, h);
    let others = lowest_of_others(here, n, k);
    let from_values = either(values, others);
    let from_operands = either(operands, from_values);
    let from_calls = either(calls, from_operands);
    Ok(either(names, from_calls))
}
