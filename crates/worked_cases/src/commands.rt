//! What a command writes.
use crate::case::Case;
use fx8::{Numbers, OutOfMemory, Text8};
use std::alloc::Global;
use tester_cli::{Status, fault_text, run_single};
use tester_io::{CalmFiles, CalmSink, MemFiles, MemSink};

/// The files of a case.
fn files_of(alloc: Global, case: &Case) -> Result<MemFiles, OutOfMemory> {
    let fails = Numbers::from_slice(alloc, case.fails.as_slice())?;
    let mut files = MemFiles::new(alloc, fails);
    for held in &case.files {
        files.set(&held.name, held.bytes.as_slice())?;
    }
    Ok(files)
}

/// What was written, and the fault line behind it.
fn with_fault(alloc: Global, written: &[u8], status: &Status) -> Result<Text8, OutOfMemory> {
    let mut text = Text8::from_slice(alloc, written)?;
    let line = fault_text(alloc, status)?;
    text.extend_from_slice(line.as_slice())?;
    Ok(text)
}

/// What the command of a case writes over files and a sink that may fail, and the fault line behind it.
fn written_over_failing(alloc: Global, case: &Case) -> Result<Text8, OutOfMemory> {
    let mut files = files_of(alloc, case)?;
    let refused = Numbers::from_slice(alloc, case.refused.as_slice())?;
    let mut out = MemSink::new(alloc, refused);
    let status = run_single(alloc, case.words.as_slice(), &mut files, &mut out);
    with_fault(alloc, out.bytes().as_slice(), &status)
}

/// The same over files and a sink that never fail.
fn written_over_calm(alloc: Global, case: &Case) -> Result<Text8, OutOfMemory> {
    let mut files = CalmFiles::new(alloc);
    for held in &case.files {
        files.set(&held.name, held.bytes.as_slice())?;
    }
    let mut out = CalmSink::new(alloc);
    let status = run_single(alloc, case.words.as_slice(), &mut files, &mut out);
    with_fault(alloc, out.bytes().as_slice(), &status)
}

/// What the command of a case writes, and the fault line behind it.
pub fn written(alloc: Global, case: &Case) -> Result<Text8, OutOfMemory> {
    if case.calm {
        written_over_calm(alloc, case)
    } else {
        written_over_failing(alloc, case)
    }
}
