//! From the tokens of a program to its code.
ghost use Rattle.std.specs.Prelude.{◌≤◌, length, IfOk, IfErr};
ghost use Rattle.mql_market_calls.specs.Calls.{first_market_call};
ghost use Rattle.mql_source.specs.Limits.{most_tokens};
ghost use Rattle.tester_sources.specs.Faults.{TellsFault};
ghost use Rattle.tester_program.specs.Programs.{run_fault, IsRun, IsProgramOf, ProgramRefused};

use fx8::{OutOfMemory, Text8};
use mql_market_calls::first_market_call;
use mql_meaning::Checked;
use mql_names::Broken;
use mql_preproc::Sources;
use mql_syntax::Syntax;
use mql_tree::Tokens;
use stack_code::Code;
use stack_emission::{LowerFault, lower};
use std::alloc::Global;
use tester_answer::Status;
use tester_sources::{
    ProgramFault, judge_program_rules, judge_tree, placed, program_status, span_at,
};

/// Why the program of a tree is not run.
#[derive(Clone, Copy, Debug, PartialEq, Eq)]
pub enum RunFault {
    /// It is not of the form that is built so far, or breaks a rule of declarations or of types.
    Rules(ProgramFault),
    /// It needs an account or a market: its first name that does.
    MarketCall(Broken),
    /// It has a form that has no code.
    NotBuilt,
}

// The status of a program that is not run.
fn run_status(
    alloc: Global,
    entry: &Text8,
    sources: &Sources,
    tokens: &Tokens,
    fault: RunFault,
) -> Status
    ensures { TellsFault (run_fault entry.now sources.now tokens.now fault) result }
{
    match fault {
        RunFault::Rules(fault) => program_status(alloc, entry, sources, tokens, fault),
        RunFault::MarketCall(broken) => {
            let span = span_at(tokens, u64::from(broken.first));
            placed(alloc, entry, sources, 7, 2, span)
        }
        RunFault::NotBuilt => placed(alloc, entry, sources, 7, 1, None),
    }
}

// The code of a typed program, or why it is not run.
#[tactic(auto, using(crate::proofs::Running::called, crate::proofs::Running::coded, crate::proofs::Running::uncoded))]
fn code_of(
    alloc: Global,
    syntax: &Syntax,
    checked: &Checked,
) -> Result<Result<Code, RunFault>, OutOfMemory>
    ensures { IfOk result (IsRun (first_market_call syntax.now) checked.now) }
{
    match first_market_call(alloc, syntax)? {
        Some(broken) => Ok(Err(RunFault::MarketCall(broken))),
        None => match lower(alloc, checked) {
            Ok(code) => Ok(Ok(code)),
            Err(LowerFault::NotBuilt) => Ok(Err(RunFault::NotBuilt)),
            Err(LowerFault::OutOfMemory) => Err(OutOfMemory),
        },
    }
}

/// The code of a program's tokens, which stands for the typed program, or the status that refuses them: of stage 4
/// where they have no tree; of stage 7, rule 1, where the program is not of the form that is built so far; of
/// stages 5 and 6 where it breaks a rule of declarations or of types; of stage 7, rule 2, where it needs an account
/// or a market.
pub fn judge_program(
    alloc: Global,
    entry: &Text8,
    sources: &Sources,
    tokens: &Tokens,
) -> Result<Code, Status>
    requires { length tokens.now ≤ most_tokens }
    ensures program { IfOk result (IsProgramOf sources.now tokens.now) }
    ensures refused { IfErr result (ProgramRefused entry.now sources.now tokens.now) }
{
    let tree = judge_tree(alloc, entry, sources, tokens)?;
    let (syntax, checked) = judge_program_rules(alloc, entry, sources, tokens, &tree)?;
    match code_of(alloc, &syntax, &checked) {
        Ok(Ok(code)) => Ok(code),
        Ok(Err(fault)) => Err(run_status(alloc, entry, sources, tokens, fault)),
        Err(OutOfMemory) => Err(Status::OutOfMemory),
    }
}
