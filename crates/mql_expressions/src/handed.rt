//! What a node calls, and the functions that take what it hands over.
ghost use Rattle.std.specs.Prelude.{◌≡◌, option_map, Some, IfOk};
ghost use Rattle.std.specs.Option.{option_copied};
ghost use Rattle.mql_scope.specs.Places.{context_at};
ghost use Rattle.mql_calls.specs.Nodes.{passes, told, arguments_of};
ghost use Rattle.mql_calls.specs.NativeCalls.{wrong_arguments, lends_native, flags_no_line};
ghost use Rattle.mql_typed.specs.Operations.{on};
ghost use Rattle.mql_expressions.specs.Rules.{callee_of, is_unknown, is_other, is_functions, handed, handed_to, handed_at, chosen_for, breaks_at, none_takes, takes_equally, converts_to, ask_supplied};
ghost use Rattle.mql_expressions.specs.Views.{node_of};

use crate::node::NodeView;
use fx8::{ItemList, OutOfMemory};
use mql_arguments::{ArgumentRule, chosen_in, is_equal, is_nothing, some_pair};
use mql_calls::{arguments_of, flags_no_line, lends_native, wrong_arguments};
use mql_scope::{Callee, Here, ProgramFacts, callee_of};
use mql_typed::Info;
use mql_types::{Argument, Base, Choice, Signature, choose};
use std::alloc::Global;

/// A call of functions of the program whose arguments all tell something.
#[derive(Drop)]
pub struct Handed {
    /// What is told of the arguments.
    pub arguments: ItemList<Argument>,
    /// Which function is called.
    pub choice: Choice,
}

/// What a node calls; none where it calls no name.
#[tactic(auto, unfolding(crate::specs::Rules::callee_of))]
pub(crate) fn callee_at<P: ProgramFacts>(
    alloc: Global,
    here: &Here<'_, P>,
    n: &NodeView,
) -> Result<Option<Callee>, OutOfMemory>
    ensures { IfOk result (λ k. k ≡ callee_of (context_at P.program here.now) (node_of n.now)) }
{
    match n.called {
        None => Ok(None),
        Some(x) => {
            let k = callee_of(alloc, here, n.place, x)?;
            Ok(Some(k))
        }
    }
}

/// Whether functions of the program are called.
pub(crate) fn calls_functions(k: Option<Callee>) -> bool
    ensures { result ≡ passes is_functions k }
{
    match k {
        Some(Callee::Functions) => true,
        _ => false,
    }
}

/// Whether something is called that is no function.
pub(crate) fn calls_other(k: Option<Callee>) -> bool
    ensures { result ≡ passes is_other k }
{
    match k {
        Some(Callee::Other) => true,
        _ => false,
    }
}

/// Whether an unknown name is called.
pub(crate) fn calls_unknown(k: Option<Callee>) -> bool
    ensures { result ≡ passes is_unknown k }
{
    match k {
        Some(Callee::Unknown) => true,
        _ => false,
    }
}

/// The type that is called, if one is.
pub(crate) fn called_base(k: Option<Callee>) -> Option<Base>
    ensures { result ≡ on k converts_to }
{
    match k {
        Some(Callee::Conversion(b)) => Some(b),
        _ => None,
    }
}

fn handed_with(name: &[u16], functions: &[Signature], given: ItemList<Argument>) -> Handed
    ensures { result ≡ handed name.now functions.now given }
{
    let choice = choose(name, given.as_slice(), functions);
    Handed {
        arguments: given,
        choice,
    }
}

fn handed_to(
    functions: &[Signature],
    called: Option<&[u16]>,
    given: Option<ItemList<Argument>>,
) -> Option<Handed>
    ensures { result ≡ handed_to functions.now (option_map (λ x. x.now) called.entry) given }
{
    match called {
        None => None,
        Some(x) => match given {
            None => None,
            Some(list) => Some(handed_with(x, functions, list)),
        },
    }
}

/// The call of functions that a node is, whose callee is given.
#[tactic(auto, unfolding(crate::specs::Rules::handed_at))]
pub(crate) fn handed_at<P: ProgramFacts>(
    alloc: Global,
    here: &Here<'_, P>,
    n: &NodeView,
    k: Option<Callee>,
) -> Result<Option<Handed>, OutOfMemory>
    requires { k ≡ callee_of (context_at P.program here.now) (node_of n.now) }
    ensures { IfOk result (λ h. h ≡ handed_at (context_at P.program here.now) (node_of n.now)) }
{
    if calls_functions(k) {
        let given = arguments_of(alloc, n.parts)?;
        return Ok(handed_to(here.program.functions(), n.called, given));
    }
    Ok(None)
}

/// Whether no function takes the arguments.
pub(crate) fn none_takes(h: &Option<Handed>) -> bool
    ensures { result ≡ passes none_takes h.now }
{
    match h {
        None => false,
        Some(call) => is_nothing(call.choice),
    }
}

/// Whether functions take the arguments equally.
pub(crate) fn takes_equally(h: &Option<Handed>) -> bool
    ensures { result ≡ passes takes_equally h.now }
{
    match h {
        None => false,
        Some(call) => is_equal(call.choice),
    }
}

/// The function that is chosen for a call, if one is.
pub(crate) fn chosen_for<'a>(
    functions: &'a [Signature],
    h: &Option<Handed>,
) -> Option<&'a Signature>
    ensures { option_copied result ≡ on h.now (chosen_for functions.now) }
{
    match h {
        None => None,
        Some(call) => chosen_in(functions, call.choice),
    }
}

fn breaks_at(rule: ArgumentRule, functions: &[Signature], h: &Handed) -> bool
    ensures { result ≡ breaks_at rule functions.now h.now }
{
    match chosen_in(functions, h.choice) {
        None => false,
        Some(f) => some_pair(rule, h.arguments.as_slice(), f.parameters.as_slice()),
    }
}

/// Whether an argument breaks a rule at the parameter of the chosen function.
pub(crate) fn some_breaks(rule: ArgumentRule, functions: &[Signature], h: &Option<Handed>) -> bool
    ensures { result ≡ passes (breaks_at rule functions.now) h.now }
{
    match h {
        None => false,
        Some(call) => breaks_at(rule, functions, call),
    }
}

/// Whether a native function does not take the arguments.
pub(crate) fn native_refuses(k: Option<Callee>, parts: &[Option<Info>]) -> bool
    ensures { result ≡ passes (ask_supplied wrong_arguments (told parts.now)) k }
{
    match k {
        Some(Callee::Supplied(f)) => wrong_arguments(f, parts),
        _ => false,
    }
}

/// Whether a constant is lent to a native function for change.
pub(crate) fn native_changes(k: Option<Callee>, parts: &[Option<Info>]) -> bool
    ensures { result ≡ passes (ask_supplied lends_native (told parts.now)) k }
{
    match k {
        Some(Callee::Supplied(f)) => lends_native(f, parts),
        _ => false,
    }
}

/// Whether a series flag is set on an array that is not dynamic with one dimension.
pub(crate) fn native_flags(k: Option<Callee>, parts: &[Option<Info>]) -> bool
    ensures { result ≡ passes (ask_supplied flags_no_line (told parts.now)) k }
{
    match k {
        Some(Callee::Supplied(f)) => flags_no_line(f, parts),
        _ => false,
    }
}
