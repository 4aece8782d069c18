//! Compiles a source, and tells how its Start and then its OnTick end within numbers of steps.
#![tactic(auto)]

ghost use Rattle.std.specs.Prelude.{IfOk, IfSome};
ghost use Rattle.stack_code.specs.Paced.{Paced};

use fx8::{ItemList, OutOfMemory, Text8};
use mql_meaning::Entry;
use mql_preproc::{Source, Sources, all_short};
use mql_tree::text_of_bytes;
use stack_code::Code;
use stack_machine::{End, Machine};
use std::alloc::Global;
use std::io;
use std::process::ExitCode;
use tester_program::compile;
use tester_world::TesterWorld;

/// The end of an event in a word.
fn word(end: &End) -> &'static str {
    match end {
        End::Returned(_) => "returned",
        End::Failed(_) => "failed",
        End::Exhausted => "exhausted",
        End::Stopped => "stopped",
        End::Stuck => "stuck",
    }
}

/// The code of a source; none where it does not compile.
fn code_of(alloc: Global, source: &str) -> Result<Option<Code>, OutOfMemory>
    ensures { IfOk result (λ code. IfSome code Paced) }
{
    let text = match text_of_bytes(alloc, source.as_bytes()) {
        Ok(text) => text,
        Err(_) => return Ok(None),
    };
    let mut sources = Sources::new(alloc);
    let name = Text8::from_slice(alloc, b"a.mq5")?;
    sources.push(Source { name, text })?;
    if !all_short(&sources) || sources.len() > 10_000 {
        return Ok(None);
    }
    let entry = Text8::from_slice(alloc, b"a.mq5")?;
    match compile(alloc, &entry, &sources) {
        Ok(code) => Ok(Some(code)),
        Err(_) => Ok(None),
    }
}

/// How Start and then OnTick end within so many steps, the steps that are left, and how many lines were printed.
fn ends(alloc: Global, code: &Code, steps: u64) -> Result<String, OutOfMemory>
    requires { Paced code.now }
{
    let mut steps = steps;
    let mut line = String::new(alloc);
    let mut machine = Machine::new(alloc, ItemList::new(alloc));
    let mut world = TesterWorld::new(alloc);
    for event in [Entry::Start, Entry::Tick] {
        let end = machine.call(code, event, 0, &mut steps, &mut world)?;
        line.push_str(word(&end))?;
        line.push(' ')?;
    }
    line.push_str(format!(in alloc; "{steps} {}\n", world.into_prints().len())?.as_str())?;
    Ok(line)
}

/// A line for each number of steps in the first line of a text, whose other lines are the source.
fn told(alloc: Global, text: &str) -> Result<String, OutOfMemory> {
    let mut lines = String::new(alloc);
    let Some((numbers, source)) = text.split_once('\n') else {
        return Ok(lines);
    };
    let Some(code) = code_of(alloc, source)? else {
        return Ok(lines);
    };
    for number in numbers.split(' ') {
        if let Ok(steps) = number.parse::<u64>() {
            lines.push_str(ends(alloc, &code, steps)?.as_str())?;
        }
    }
    Ok(lines)
}

fn main(rt: HostRuntime) -> io::Result<ExitCode> {
    let text = io::read_to_string(rt.alloc(), rt.reader())?;
    match told(rt.alloc(), text.as_str()) {
        Ok(lines) => {
            print!(rt; "{lines}")?;
            Ok(ExitCode::from(0))
        }
        Err(OutOfMemory) => Ok(ExitCode::from(2)),
    }
}
