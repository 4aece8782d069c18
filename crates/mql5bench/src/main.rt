//! The program: it makes the real files, the real sink and the allocator, and calls the library.
#![tactic(auto)]

use std::io::Write;
use std::process::ExitCode;
use std::{env, io};
use tester_cli::{Status, fault_text, run_single};
use tester_io::{DiskFiles, OutSink};

// The words after the program's name. A word that is not UTF-8 makes a faulty command line.
fn words(rt: &HostRuntime) -> Result<Vec<String>, Status> {
    let args = match env::args(rt) {
        Ok(args) => args,
        Err(error) => {
            return Err(match error.kind() {
                io::ErrorKind::OutOfMemory => Status::OutOfMemory,
                _ => Status::Usage(1),
            });
        }
    };
    let mut words = Vec::new(rt.alloc());
    for word in args.skip(1) {
        if words.push(word).is_err() {
            return Err(Status::OutOfMemory);
        }
    }
    Ok(words)
}

fn run(rt: &HostRuntime) -> io::Result<Status> {
    let words = match words(rt) {
        Ok(words) => words,
        Err(status) => return Ok(status),
    };
    let mut files = DiskFiles::new(rt.clone()?, rt.alloc());
    let mut out = OutSink::new(rt.clone()?);
    Ok(run_single(rt.alloc(), words.as_slice(), &mut files, &mut out))
}

// Standard error gets the fault line, where there is memory for it; the exit status tells the fault in any case.
fn tell(rt: &HostRuntime, status: &Status) {
    if let Ok(line) = fault_text(rt.alloc(), status) {
        let _ = rt.stderr().write_all(line.as_slice());
    }
}

fn main(rt: HostRuntime) -> ExitCode {
    let status = match run(&rt) {
        Ok(status) => status,
        Err(_) => Status::OutOfMemory,
    };
    tell(&rt, &status);
    ExitCode::from(status.number())
}
