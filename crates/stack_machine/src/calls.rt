//! Calls of the program's functions, and returns.
ghost use Rattle.std.specs.Prelude.{◌≡◌, ◌+◌, ◌<◌, ◌≤◌, ◌^◌, ℕ, List, MatchOption, map};
ghost use Rattle.mql_mean.specs.Answer.{Answer};
ghost use Rattle.mql_mean.specs.declared.host.HostCall.{HostCall};
ghost use Rattle.mql_meaning.specs.Runs.{world};
ghost use Rattle.stack_code.specs.Machine as m;
ghost use Rattle.stack_machine.specs.Steps.{Acts, Reach, back, bare};
ghost use Rattle.store_frames.specs.Heads.{headed};
ghost use Rattle.store_frames.specs.Operands.{shown};

use crate::ends::{End, Fault, faulted};
use crate::operands::{give, returned, take};
use crate::state::{Back, State};
use fx8::ItemList;
use mql_mean::Value;
use stack_code::{Code, FunctionCode, Instruction};
use std::alloc::Global;
use store_frames::{Head, Operand, enter, leave};

/// What a call looks at of a function.
fn head(function: &FunctionCode) -> Head<'_>
    ensures { headed result ≡ bare function.now }
{
    Head {
        class: function.class,
        makes: function.makes,
        lent: function.lent.as_slice(),
        locals: function.locals.as_slice(),
    }
}

/// How many operands a call takes: its parameters, and before them the place of its object.
/// `None` exactly where 64 bits do not hold their number.
fn arguments_of(function: &FunctionCode) -> Option<u64>
    ensures { MatchOption result (2 ^ 64 ≤ m.arguments_of function.now)
        (λ n. n ≡ m.arguments_of function.now) }
{
    let parameters = function.lent.len();
    match function.class {
        Some(_) => parameters.checked_add(1),
        None => Some(parameters),
    }
}

/// A function begins with operands, in a frame of its own.
pub fn start(
    alloc: Global,
    code: &Code,
    function: u32,
    operands: ItemList<Operand>,
    state: &mut State,
) -> Result<(), Fault>
    ensures { (n : ℕ) (calls : List HostCall) (answers : List Answer) → Reach result state.new n calls answers
        (m.starts code.now.classes (m.function_at code.now function) function (map shown operands)
        (map shown state.old.operands) (map back state.old.backs) n (world state.old.store calls answers)) }
{
    let Some(called) = code.functions.at(function as u64) else {
        return Err(Fault::End(End::Stuck));
    };
    match enter(
        alloc,
        code.classes.as_slice(),
        head(called),
        operands,
        &mut state.store,
    ) {
        Ok(()) => {
            state.function = function;
            state.place = 0;
            Ok(())
        }
        Err(fault) => Err(faulted(fault)),
    }
}

/// Takes the arguments of a function and calls it.
pub fn call(alloc: Global, code: &Code, function: u32, state: &mut State) -> Result<(), Fault>
    requires { state.old.place + 1 < 2 ^ 64 }
    ensures { (n : ℕ) → Acts code.now (Instruction.Call function) state.old n result state.new n }
{
    let Some(called) = code.functions.at(function as u64) else {
        return Err(Fault::End(End::Stuck));
    };
    let Some(count) = arguments_of(called) else {
        return Err(Fault::OutOfMemory);
    };
    let operands = match take(alloc, &mut state.operands, count) {
        Ok(operands) => operands,
        Err(fault) => return Err(fault),
    };
    let back = Back {
        function: state.function,
        place: state.place + 1,
    };
    match state.backs.push(back) {
        Ok(()) => start(alloc, code, function, operands, state),
        Err(_) => Err(Fault::OutOfMemory),
    }
}

/// Back in the caller with a value, if one is given; where there is no caller, the run has ended.
fn go_back(gives: bool, value: Value, state: &mut State) -> Result<(), Fault>
    ensures { (n : ℕ) (calls : List HostCall) (answers : List Answer) → Reach result state.new n calls answers
        (m.goes_back (map back state.old.backs) gives value (map shown state.old.operands) n
        (world state.old.store calls answers)) }
{
    let Some(back) = state.backs.pop() else {
        return Err(Fault::End(End::Returned(value)));
    };
    state.function = back.function;
    state.place = back.place;
    give(gives, value, &mut state.operands)
}

/// Takes the value of the function, if it gives one, and goes back to the caller: the frame and its cells are
/// given back.
pub fn give_back(code: &Code, state: &mut State) -> Result<(), Fault>
    ensures { (n : ℕ) → Acts code.now Instruction.Return state.old n result state.new n }
{
    let Some(function) = code.functions.at(state.function as u64) else {
        return Err(Fault::End(End::Stuck));
    };
    let gives = function.result.is_some();
    let Some(value) = returned(gives, &mut state.operands) else {
        return Err(Fault::End(End::Stuck));
    };
    leave(&mut state.store);
    go_back(gives, value, state)
}
