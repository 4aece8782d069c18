//! Tries the worked cases that it reads, and writes what each gives that gives something else than it should.
#![tactic(auto)]

mod case;
mod commands;
mod stages;

use case::Case;
use fx8::{OutOfMemory, Text8};
use std::alloc::Global;
use std::io;
use std::io::Write;
use std::process::ExitCode;

/// What a case gives.
fn given(alloc: Global, case: &Case) -> Result<Text8, OutOfMemory> {
    let stage = match case.words.first() {
        Some(word) => word.as_str(),
        None => "",
    };
    let line = match stage {
        "preprocess" => stages::preprocessed(alloc, case)?,
        "tokens" => stages::tokens_of(alloc, case)?,
        "parse" => stages::parsed(alloc, case, false)?,
        "tree" => stages::parsed(alloc, case, true)?,
        _ => return commands::written(alloc, case),
    };
    let mut text = Text8::from_slice(alloc, line.as_bytes())?;
    text.push(b'\n')?;
    Ok(text)
}

/// How many cases were tried, and what is to be written of those that gave something else.
#[derive(Debug, Drop)]
struct Tried {
    cases: u64,
    differ: u64,
    lines: Text8,
}

impl Tried {
    /// Tries a case.
    fn attempt(&mut self, alloc: Global, case: &Case) -> Result<(), OutOfMemory> {
        if case.title.is_empty() {
            return Ok(());
        }
        self.cases = self.cases.saturating_add(1);
        let given = given(alloc, case)?;
        if given.as_slice() == case.wanted.as_slice() {
            return Ok(());
        }
        self.differ = self.differ.saturating_add(1);
        self.lines.extend_from_slice(case.title.as_bytes())?;
        self.lines.extend_from_slice(b" gives\n")?;
        self.lines.extend_from_slice(given.as_slice())
    }

    /// Tries the cases of a text.
    fn attempt_all(&mut self, alloc: Global, text: &str) -> Result<(), OutOfMemory> {
        let mut case = Case::new(alloc, "")?;
        for line in text.split('\n') {
            match line.strip_prefix("case ") {
                Some(title) => {
                    self.attempt(alloc, &case)?;
                    case = Case::new(alloc, title)?;
                }
                None => case.take(alloc, line)?,
            }
        }
        self.attempt(alloc, &case)
    }
}

fn main(rt: HostRuntime) -> io::Result<ExitCode> {
    let text = io::read_to_string(rt.alloc(), rt.reader())?;
    let mut tried = Tried {
        cases: 0,
        differ: 0,
        lines: Text8::new(rt.alloc()),
    };
    if tried.attempt_all(rt.alloc(), text.as_str()).is_err() {
        println!(rt; "out of memory")?;
        return Ok(ExitCode::from(2));
    }
    rt.stdout().write_all(tried.lines.as_slice())?;
    println!(rt; "{} cases, {} differ", tried.cases, tried.differ)?;
    Ok(ExitCode::from(if tried.differ == 0 { 0 } else { 1 }))
}
