//! Runs the scripts of a desk that it reads, and writes each act that answers or leaves something else
//! than its script says.
#![tactic(auto)]

mod acts;
mod course;
mod setup;
mod state;
mod stop;
mod trial;
mod words;

use course::attempt_all;
use std::io;
use std::io::Write;
use std::process::ExitCode;
use trial::Trial;

fn main(rt: HostRuntime) -> io::Result<ExitCode> {
    let text = io::read_to_string(rt.alloc(), rt.reader())?;
    let mut trial = Trial::new(rt.alloc());
    if attempt_all(rt.alloc(), &mut trial, text.as_str()).is_err() {
        println!(rt; "out of memory")?;
        return Ok(ExitCode::from(2));
    }
    rt.stdout().write_all(trial.report().as_bytes())?;
    let (scripts, acts, differ) = trial.counts();
    println!(rt; "{scripts} scripts, {acts} acts, {differ} differ")?;
    Ok(ExitCode::from(if differ == 0 { 0 } else { 1 }))
}
