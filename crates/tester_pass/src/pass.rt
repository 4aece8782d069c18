//! A pass of the tester without an account.
ghost use Rattle.std.specs.Prelude.{◌≡◌, ◌+◌, ℤ, pos, List, IfOk, OnOk, All, map};
ghost use Rattle.mql_meaning.specs.declared.store.SetInput.{SetInput};
ghost use Rattle.market_data.specs.Markets.{quotes};
ghost use Rattle.stack_code.specs.Paced.{Paced};
ghost use Rattle.tester_pass.specs.Laws.{InTime, StandsInTime};
ghost use Rattle.tester_pass.specs.Pass as pass;
ghost use Rattle.tester_pass.specs.declared.result.PassEnd.TheVariants as end;
ghost use Rattle.tester_pass.specs.Pass.{of_code, Stage};
ghost use Rattle.tester_pass.specs.Runs.{stage};

use crate::events::{Run, does, happens};
use crate::result::{PassEnd, PassResult};
use fx8::{IntKind, ItemList, OutOfMemory, wrap};
use market_data::{Market, Quote, Quotes};
use mql_mean::Value;
use mql_meaning::{Entry, SetInput};
use stack_code::Code;
use stack_machine::{End, Machine};
use std::alloc::Global;
use tester_world::TesterWorld;

/// The steps that all calls of a pass may take together.
const STEPS: u64 = 50_000_000;

/// One more of a count, which 64 bits hold of any quotes.
fn one_more(count: u64) -> Result<u64, OutOfMemory>
    ensures { IfOk result (λ more. more ≡ count + 1) }
{
    match count.checked_add(1) {
        Some(more) => Ok(more),
        None => Err(OutOfMemory),
    }
}

/// The work of a quote: `OnTick` at a loud one.
fn works(code: &Code, quote: &Quote, run: &mut Run) -> Result<Option<PassEnd>, OutOfMemory>
    requires { Paced code.now }
    ensures { IfOk result (λ halt.
        pass.Works (of_code code.now) quote.now (stage run.old) halt (stage run.new)) }
{
    run.quotes = one_more(run.quotes)?;
    if !quote.loud {
        return Ok(None);
    }
    run.loud = one_more(run.loud)?;
    run.world.set_time(quote.time_ms);
    does(code, Entry::Tick, 0, run)
}

/// `OnDeinit` with its reason, which the expert can read from here on.
fn told(code: &Code, reason: i32, run: &mut Run) -> Result<Option<PassEnd>, OutOfMemory>
    requires { Paced code.now }
    ensures { IfOk result (λ halt. pass.Told (of_code code.now) reason (stage run.old) halt (stage run.new)) }
{
    run.world.set_reason(reason);
    does(code, Entry::Deinit, reason, run)
}

/// `OnDeinit` with its reason, and Stop.
fn quits(code: &Code, reason: i32, run: &mut Run) -> Result<Option<PassEnd>, OutOfMemory>
    requires { Paced code.now }
    ensures { IfOk result (λ halt.
        pass.Quits (of_code code.now) reason (stage run.old) halt (stage run.new)) }
{
    if let Some(end) = told(code, reason, run)? {
        return Ok(Some(end));
    }
    does(code, Entry::Stop, 0, run)
}

/// Behind the quotes: `OnTester`, and the end for a reason.
fn finishes(code: &Code, reason: i32, run: &mut Run) -> Result<Option<PassEnd>, OutOfMemory>
    requires { Paced code.now }
    ensures { IfOk result (λ halt.
        pass.Finishes (of_code code.now) reason (stage run.old) halt (stage run.new)) }
{
    if let Some(end) = does(code, Entry::Tester, 0, run)? {
        return Ok(Some(end));
    }
    quits(code, reason, run)
}

/// What a pass comes to that ends here.
fn ends_here(run: Run, end: PassEnd) -> PassResult
    ensures { result ≡ pass.ends_here end (stage run) }
{
    PassResult {
        end,
        prints: run.world.into_prints(),
        quotes: run.quotes,
        loud: run.loud,
    }
}

/// The end of a pass, unless an earlier one came.
fn ended_by(halt: Option<PassEnd>, end: PassEnd) -> PassEnd
    ensures { result ≡ pass.ended_by halt end }
{
    match halt {
        Some(other) => other,
        None => end,
    }
}

/// The end of a pass whose `OnInit` did not fail.
#[tactic(auto, using(crate::proofs::Times::finished_timed))]
fn completes(code: &Code, reason: i32, end: PassEnd, run: Run) -> Result<PassResult, OutOfMemory>
    requires { Paced code.now }
    ensures passes { IfOk result (pass.Last (pass.Finishes (of_code code.now) reason) end (stage run)) }
    ensures times { IfOk result (λ r. StandsInTime (stage run) → InTime r) }
{
    let mut run = run;
    let halt = finishes(code, reason, &mut run)?;
    Ok(ends_here(run, ended_by(halt, end)))
}

/// The end of a pass whose `OnInit` failed.
#[tactic(auto, using(crate::proofs::Times::quit_timed))]
fn fails(code: &Code, answer: i32, run: Run) -> Result<PassResult, OutOfMemory>
    requires { Paced code.now }
    ensures passes { IfOk result
        (pass.Last (pass.Quits (of_code code.now) (pos 8)) (end.InitFailed answer) (stage run)) }
    ensures times { IfOk result (λ r. StandsInTime (stage run) → InTime r) }
{
    let mut run = run;
    let halt = quits(code, 8, &mut run)?;
    Ok(ends_here(run, ended_by(halt, PassEnd::InitFailed(answer))))
}

/// The pass over the quotes that are left.
#[tactic(auto, using(crate::proofs::Loops::ends_now, crate::proofs::Loops::removed_now, crate::proofs::Loops::goes_on, crate::proofs::Loops::all_taken, crate::proofs::Times::works_timed))]
fn rest(code: &Code, left: Quotes<'_>, run: Run) -> Result<PassResult, OutOfMemory>
    requires { Paced code.now }
    ensures passes { IfOk result (pass.Rest (of_code code.now) left.entry (stage run)) }
    ensures times { IfOk result (λ r. StandsInTime (stage run) → InTime r) }
{
    let mut left = left;
    let mut run = run;
    while let Some(quote) = left.next() {
        if let Some(end) = works(code, &quote, &mut run)? {
            return Ok(ends_here(run, end));
        }
        if run.world.removal_asked() {
            return completes(code, 0, PassEnd::Removed, run);
        }
    }
    completes(code, 1, PassEnd::Completed, run)
}

/// The pass behind an `OnInit` that did not fail.
fn proceeds(code: &Code, left: Quotes<'_>, run: Run) -> Result<PassResult, OutOfMemory>
    requires { Paced code.now }
    ensures passes { IfOk result
        (pass.Proceeds (of_code code.now) (pass.Rest (of_code code.now) left.entry) (stage run)) }
    ensures times { IfOk result (λ r. StandsInTime (stage run) → InTime r) }
{
    if run.world.removal_asked() {
        return completes(code, 0, PassEnd::Removed, run);
    }
    rest(code, left, run)
}

/// What `OnInit` answers, as `int` holds it.
fn answer_of(value: &Value) -> i32
    ensures { result ≡ pass.answer_of value.now }
{
    match value {
        Value::Num(_, number) => wrap(IntKind::Int, *number) as i32,
        _ => 0,
    }
}

/// The pass behind an `OnInit` that has answered.
fn answered(code: &Code, left: Quotes<'_>, answer: i32, run: Run) -> Result<PassResult, OutOfMemory>
    requires { Paced code.now }
    ensures passes { IfOk result (pass.Answered (of_code code.now) left.entry answer (stage run)) }
    ensures times { IfOk result (λ r. StandsInTime (stage run) → InTime r) }
{
    if answer != 0 {
        return fails(code, answer, run);
    }
    proceeds(code, left, run)
}

/// The pass behind `OnInit`.
fn after_init(code: &Code, left: Quotes<'_>, end: End, run: Run) -> Result<PassResult, OutOfMemory>
    requires { Paced code.now }
    ensures passes { IfOk result (pass.AfterInit (of_code code.now) left.entry end (stage run)) }
    ensures times { IfOk result (λ r. StandsInTime (stage run) → InTime r) }
{
    match end {
        End::Returned(value) => answered(code, left, answer_of(&value), run),
        End::Failed(error) => Ok(ends_here(run, PassEnd::Error(error))),
        End::Exhausted => Ok(ends_here(run, PassEnd::Exhausted)),
        End::Stopped => Ok(ends_here(run, PassEnd::Stopped)),
        End::Stuck => Ok(ends_here(run, PassEnd::Stuck)),
    }
}

/// The pass from `OnInit` on.
#[tactic(auto, using(crate::proofs::Times::happens_timed))]
fn inits(code: &Code, left: Quotes<'_>, run: Run) -> Result<PassResult, OutOfMemory>
    requires { Paced code.now }
    ensures passes { IfOk result (pass.Inits (of_code code.now) left.entry (stage run)) }
    ensures times { IfOk result (λ r. StandsInTime (stage run) → InTime r) }
{
    let mut run = run;
    let end = happens(code, Entry::Init, 0, &mut run)?;
    after_init(code, left, end, run)
}

/// Before Start: nothing is done.
fn first(alloc: Global, set: ItemList<SetInput>) -> Run
    ensures { stage result ≡ pass.first_stage set }
{
    Run {
        machine: Machine::new(alloc, set),
        steps: STEPS,
        world: TesterWorld::new(alloc),
        quotes: 0,
        loud: 0,
    }
}

/// The whole pass.
#[tactic(auto, using(crate::proofs::Times::does_timed, crate::proofs::Times::first_timed))]
fn whole(
    alloc: Global,
    code: &Code,
    set: ItemList<SetInput>,
    left: Quotes<'_>,
) -> Result<PassResult, OutOfMemory>
    requires { Paced code.now }
    ensures passes { IfOk result (pass.Passes (of_code code.now) set left.entry) }
    ensures times { IfOk result InTime }
{
    let mut run = first(alloc, set);
    if let Some(end) = does(code, Entry::Start, 0, &mut run)? {
        return Ok(ends_here(run, end));
    }
    inits(code, left, run)
}

/// A pass of code over the quotes of a market, with inputs that are set to these values: Start, `OnInit`,
/// `OnTick` at each loud quote, `OnTester`, `OnDeinit` and Stop, with 50,000,000 steps for all calls
/// together.
///
/// What it comes to is what the machine makes of the code; code that stands for a source passes as the source
/// does (`code_passes_as_source`). It asks that the code spends steps, which lowering gives (MetaTrader 5
/// Help, Strategy Testing).
pub fn run_pass(
    alloc: Global,
    code: &Code,
    set: ItemList<SetInput>,
    market: &Market,
) -> Result<PassResult, OutOfMemory>
    requires { Paced code.now }
    ensures passes { IfOk result (pass.Passes (of_code code.now) set (quotes market.now)) }
    ensures times { IfOk result InTime }
{
    whole(alloc, code, set, Quotes::start(market))
}
