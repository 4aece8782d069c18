//! Calls of the functions of events in a pass.
ghost use Rattle.std.specs.Prelude.{◌≡◌, is_some, IfOk};
ghost use Rattle.mql_meaning.specs.Means.{event};
ghost use Rattle.mql_meaning.specs.Natives.{void_value};
ghost use Rattle.stack_code.specs.Machine.{program_of};
ghost use Rattle.stack_code.specs.Paced.{Paced};
ghost use Rattle.tester_pass.specs.Pass as pass;
ghost use Rattle.tester_pass.specs.Pass.{of_code};
ghost use Rattle.tester_pass.specs.Runs.{stage};

use crate::result::PassEnd;
use fx8::{IntKind, OutOfMemory};
use mql_mean::Value;
use mql_meaning::Entry;
use stack_code::Code;
use stack_machine::{End, Machine};
use tester_world::TesterWorld;

/// A pass that runs: the machine, the steps that are left, the expert's world, and the quotes so far.
#[derive(Drop)]
pub(crate) struct Run {
    pub(crate) machine: Machine,
    pub(crate) steps: u64,
    pub(crate) world: TesterWorld,
    pub(crate) quotes: u64,
    pub(crate) loud: u64,
}

/// How the end of a call ends the pass, if it does.
fn pass_end(end: End) -> Option<PassEnd>
    ensures { result ≡ pass.pass_end end }
{
    match end {
        End::Returned(_) => None,
        End::Failed(error) => Some(PassEnd::Error(error)),
        End::Exhausted => Some(PassEnd::Exhausted),
        End::Stopped => Some(PassEnd::Stopped),
        End::Stuck => Some(PassEnd::Stuck),
    }
}

/// Whether code has the function of an event.
fn has(code: &Code, entry: Entry) -> bool
    ensures { result ≡ is_some (event (program_of code.now) entry) }
{
    match entry {
        Entry::Start => code.entries.start.is_some(),
        Entry::Init => code.entries.init.is_some(),
        Entry::Tick => code.entries.tick.is_some(),
        Entry::Trade => code.entries.trade.is_some(),
        Entry::Tester => code.entries.tester.is_some(),
        Entry::Deinit => code.entries.deinit.is_some(),
        Entry::Stop => code.entries.stop.is_some(),
    }
}

/// A call of the function of an event, which the code has.
#[tactic(auto, using(crate::proofs::Leading::called))]
fn call(code: &Code, entry: Entry, arg: i32, run: &mut Run) -> Result<End, OutOfMemory>
    requires { Paced code.now }
    ensures { IfOk result (λ e. pass.Calls (of_code code.now) entry arg (stage run.old) e (stage run.new)) }
{
    run.machine
        .call(code, entry, arg, &mut run.steps, &mut run.world)
}

/// An event: a function that is absent is skipped.
pub(crate) fn happens(
    code: &Code,
    entry: Entry,
    arg: i32,
    run: &mut Run,
) -> Result<End, OutOfMemory>
    requires { Paced code.now }
    ensures { IfOk result (λ e. pass.Happens (of_code code.now) entry arg (stage run.old) e (stage run.new)) }
{
    if !has(code, entry) {
        return Ok(End::Returned(Value::Num(IntKind::Int, 0)));
    }
    call(code, entry, arg, run)
}

/// An event, and how its end ends the pass, if it does.
pub(crate) fn does(
    code: &Code,
    entry: Entry,
    arg: i32,
    run: &mut Run,
) -> Result<Option<PassEnd>, OutOfMemory>
    requires { Paced code.now }
    ensures { IfOk result (λ halt.
        pass.Does (of_code code.now) entry arg (stage run.old) halt (stage run.new)) }
{
    let end = happens(code, entry, arg, run)?;
    Ok(pass_end(end))
}
