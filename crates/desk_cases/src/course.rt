//! How a text of scripts is gone through.
ghost use Rattle.std.specs.Prelude.{◌≡◌, false, length};
ghost use Rattle.account.specs.Ranges.{IsAccount};

use crate::acts::{is_comment, take_line};
use crate::setup::{account_of, copy_one};
use crate::stop::Stop;
use crate::trial::Trial;
use crate::words::Words;
use account::AccountSpec;
use desk::Desk;
use fx8::OutOfMemory;
use positions::{Hedging, Netting, PositionRule};
use std::alloc::Global;

/// Takes the lines of a script behind those of its account.
fn follow<P: PositionRule + Drop>(trial: &mut Trial, desk: Desk<P>, text: &str) -> Result<(), Stop>
    requires open { desk.closed ≡ false }
    requires one { length desk.quoted.spec.specs ≡ 1 }
{
    let mut desk = desk;
    for line in text.split('\n') {
        take_line(trial, &mut desk, line)?;
    }
    trial.end_act()?;
    Ok(())
}

/// Runs the script of an account.
fn run(alloc: Global, trial: &mut Trial, spec: AccountSpec, text: &str) -> Result<(), Stop>
    requires account { IsAccount spec }
    requires one { length spec.specs ≡ 1 }
{
    let specs = copy_one(alloc, &spec.specs)?;
    if spec.hedging {
        let desk = Desk::start(alloc, spec, Hedging::new(alloc, specs))?;
        follow(trial, desk, text)
    } else {
        let desk = Desk::start(alloc, spec, Netting::new(alloc, specs))?;
        follow(trial, desk, text)
    }
}

/// What stands before the first script is to be a comment.
fn pass_over(text: &str) -> Result<(), Stop> {
    for line in text.split('\n') {
        if !is_comment(line) {
            return Err(Stop::BadLine);
        }
    }
    Ok(())
}

/// Takes the next line of a text.
fn cut(text: &str) -> Result<(&str, &str), Stop> {
    match text.split_once("\n") {
        Some(parts) => Ok(parts),
        None => Err(Stop::BadLine),
    }
}

/// Runs a script: a line each for its number, its account and its symbol, and acts with what they are to
/// give.
fn attempt(alloc: Global, trial: &mut Trial, text: &str) -> Result<(), Stop> {
    let Some(script) = text.strip_prefix("script ") else {
        return pass_over(text);
    };
    let (number, rest) = cut(script)?;
    let number = Words::of(number).code()?;
    trial.begin_script(number);
    trial.count_line();
    let (account, rest) = cut(rest)?;
    trial.count_line();
    let (symbol, acts) = cut(rest)?;
    let spec = account_of(alloc, account, symbol)?;
    run(alloc, trial, spec, acts)
}

/// Runs the script that begins at a line of the text, and tells where it stops.
fn attempt_at(alloc: Global, trial: &mut Trial, first: u32, text: &str) -> Result<(), OutOfMemory> {
    trial.set_line(first);
    match attempt(alloc, trial, text) {
        Ok(()) => Ok(()),
        Err(stop) => trial.tell_stop(stop),
    }
}

/// Runs all scripts of a text.
pub fn attempt_all(alloc: Global, trial: &mut Trial, text: &str) -> Result<(), OutOfMemory> {
    let mut script = String::new(alloc);
    let mut line_number = 0u32;
    let mut first = 1u32;
    for line in text.split('\n') {
        line_number = line_number.saturating_add(1);
        if line.strip_prefix("script ").is_some() {
            attempt_at(alloc, trial, first, script.as_str())?;
            script.clear();
            first = line_number;
        }
        script.push_str(line)?;
        script.push('\n')?;
    }
    attempt_at(alloc, trial, first, script.as_str())
}
