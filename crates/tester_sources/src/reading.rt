//! The files of a program, in the order of need, and its tokens.
ghost use Rattle.std.specs.Prelude.{◌≡◌, ◌≤◌, ◌-◌, ◌^◌, ℕ, Ok, length, All, IfOk, IfErr};
ghost use Rattle.mql_tree.specs.Text.{text_of};
ghost use Rattle.mql_preproc.specs.Reading.{Preprocesses};
ghost use Rattle.mql_preproc.specs.Turns.{NeededInTurn};
ghost use Rattle.mql_preproc.specs.Resume.{Stands};
ghost use Rattle.mql_preproc.specs.Onward.{Fits};
ghost use Rattle.tester_io.specs.Outside.{WhereTold};
ghost use Rattle.tester_answer.specs.Clauses.{OnlyRead, Refused, Never};
ghost use Rattle.tester_sources.specs.Reading.{IsSource, IsWanted, FewTokens, FilesRefused, TextRefused, MayGoOn, IsNext, IsTurn, ReadInTurn, file_plan, sources_plan, program_plan};
ghost use Rattle.tester_answer.specs.Answer.{never};
ghost use Rattle.mql_source.specs.Limits.{most_tokens, most_units};

use crate::fault::{fault_status, refusal, text_status};
use fx8::{Text, Text8};
use mql_preproc::{
    Reading, Source, Sources, Stop, begin, goes_on, needed_in_turn, preprocess, run,
};
use mql_tree::{Tokens, text_of_bytes};
use std::alloc::Global;
use tester_answer::Status;
use tester_answer::outside::read;
use tester_io::Files;

/// The most bytes of a source.
const SOURCE_LIMIT: u64 = 4_194_304;

/// What preprocessing makes of the files so far.
#[derive(Drop)]
pub enum Wanted {
    /// The program's tokens.
    Tokens(Tokens),
    /// The name of a file that is needed.
    File(Text8),
}

/// What preprocessing makes of the files so far, or the status that refuses them.
pub fn make_wanted(alloc: Global, entry: &Text8, sources: &Sources) -> Result<Wanted, Status>
    requires few { length sources.now ≤ 2 ^ 32 }
    requires texts { All (λ s. length s.text ≤ most_units) sources.now }
    ensures found { IfOk result (IsWanted entry.now sources.now) }
    ensures few { IfOk result FewTokens }
    ensures refused { IfErr result (FilesRefused entry.now sources.now) }
{
    match preprocess(alloc, entry, sources) {
        Ok(tokens) => Ok(Wanted::Tokens(tokens)),
        Err(fault) => match refusal(alloc, sources, fault) {
            Ok(name) => Ok(Wanted::File(name)),
            Err(status) => Err(status),
        },
    }
}

/// What the reading of the files so far comes to.
#[derive(Drop)]
enum Next {
    /// The program's tokens.
    Tokens(Tokens),
    /// The name of a file that is needed, and the reading that goes on with it, where it was begun.
    File(Text8, Option<Reading>),
}

/// What becomes of a program's files in one turn.
#[derive(Drop)]
enum Turned {
    /// The program's tokens.
    Made(Tokens),
    /// One more file was read; the reading goes on with it, where it was begun.
    More(Option<Reading>),
}

// Begins to read a program, or tells that its entry is needed, or the status that refuses it.
fn begin_next(alloc: Global, entry: &Text8, sources: &Sources) -> Result<Next, Status>
    requires few { length sources.now ≤ 2 ^ 32 }
    requires texts { All (λ s. length s.text ≤ most_units) sources.now }
    ensures found { IfOk result (IsNext entry.now sources.now) }
    ensures refused { IfErr result (FilesRefused entry.now sources.now) }
{
    match begin(alloc, entry, sources) {
        Ok(reading) => run_next(alloc, entry, sources, reading),
        Err(fault) => match refusal(alloc, sources, fault) {
            Ok(name) => Ok(Next::File(name, None)),
            Err(status) => Err(status),
        },
    }
}

// Goes on with a reading, or tells the status that refuses the files.
fn run_next(
    alloc: Global,
    entry: &Text8,
    sources: &Sources,
    reading: Reading,
) -> Result<Next, Status>
    requires few { length sources.now ≤ 2 ^ 32 }
    requires texts { All (λ s. length s.text ≤ most_units) sources.now }
    requires stands { Stands entry.now sources.now reading }
    requires fits { Fits sources.now reading }
    ensures found { IfOk result (IsNext entry.now sources.now) }
    ensures refused { IfErr result (FilesRefused entry.now sources.now) }
{
    let stop = match run(alloc, sources, reading) {
        Ok(stop) => stop,
        Err(fault) => return Err(fault_status(alloc, sources, fault)),
    };
    match stop {
        Stop::Made(tokens) => Ok(Next::Tokens(tokens)),
        Stop::Needs(name, reading) => Ok(Next::File(name, Some(reading))),
    }
}

// Goes on with a reading that was begun, or begins it.
fn read_next(
    alloc: Global,
    entry: &Text8,
    sources: &Sources,
    reading: Option<Reading>,
) -> Result<Next, Status>
    requires few { length sources.now ≤ 2 ^ 32 }
    requires texts { All (λ s. length s.text ≤ most_units) sources.now }
    requires reading { MayGoOn entry.now sources.now reading }
    ensures found { IfOk result (IsNext entry.now sources.now) }
    ensures refused { IfErr result (FilesRefused entry.now sources.now) }
{
    match reading {
        Some(reading) => run_next(alloc, entry, sources, reading),
        None => begin_next(alloc, entry, sources),
    }
}

// The text of a file's bytes, or the status that refuses it.
fn judge_text(alloc: Global, name: &Text8, bytes: &[u8]) -> Result<Text, Status>
    ensures text { IfOk result (λ text. text_of bytes.now ≡ Ok text) }
    ensures few { IfOk result (λ text. length text ≤ most_units) }
    ensures refused { IfErr result (TextRefused name.now bytes.now) }
{
    match text_of_bytes(alloc, bytes) {
        Ok(text) => Ok(text),
        Err(fault) => Err(text_status(alloc, name, fault)),
    }
}

// Reads a file and judges its text.
fn read_source<F: Files>(alloc: Global, files: &mut F, name: Text8) -> Result<Source, Status>
    ensures only_read { OnlyRead (F.seen files.old) (F.seen files.new) }
    ensures read { IfOk result (IsSource (F.seen files.old).told name) }
    ensures refused { IfErr result (Refused Never (file_plan name) (F.seen files.old) (F.seen files.new)) }
{
    let bytes = read(alloc, files, &name, SOURCE_LIMIT)?;
    let text = judge_text(alloc, &name, bytes.as_slice())?;
    Ok(Source { name, text })
}

// The program's tokens, where the files so far are all that it needs; else one more file is read.
fn turn<F: Files>(
    alloc: Global,
    entry: &Text8,
    sources: &mut Sources,
    files: &mut F,
    reading: Option<Reading>,
) -> Result<Turned, Status>
    requires turns { NeededInTurn entry.now sources.old }
    requires texts { All (λ s. length s.text ≤ most_units) sources.old }
    requires reading { MayGoOn entry.now sources.old reading }
    ensures only_read { OnlyRead (F.seen files.old) (F.seen files.new) }
    ensures read { IfOk result (IsTurn entry.now (F.seen files.old).told sources.old sources.new) }
    ensures still_short { IfOk result (λ found. All (λ s. length s.text ≤ most_units) sources.new) }
    ensures refused { IfErr result (Refused Never
        (sources_plan (513 - length sources.old) entry.now sources.old (λ sources tokens. never))
        (F.seen files.old) (F.seen files.new)) }
{
    needed_in_turn();
    goes_on();
    let next = read_next(alloc, entry, sources, reading)?;
    match next {
        Next::Tokens(tokens) => Ok(Turned::Made(tokens)),
        Next::File(name, reading) => {
            let source = read_source(alloc, files, name)?;
            sources.push(source)?;
            Ok(Turned::More(reading))
        }
    }
}

/// Reads the files of a program in the order of need, each judged as it is read, and preprocesses them.
///
/// It answers the files in that order, the entry first, and the program's tokens.
pub fn read_sources<F: Files>(
    alloc: Global,
    entry: &Text8,
    files: &mut F,
) -> Result<(Sources, Tokens), Status>
    ensures only_read { OnlyRead (F.seen files.old) (F.seen files.new) }
    ensures read { IfOk result (λ found. WhereTold (F.seen files.old).told
        (λ held. ReadInTurn entry.now held found.0)) }
    ensures tokens { IfOk result (λ found. Preprocesses entry.now found.0 (Ok found.1)) }
    ensures few { IfOk result (λ found. length found.0 ≤ 512) }
    ensures short { IfOk result (λ found. length found.1 ≤ most_tokens) }
    ensures refused { IfErr result (Refused Never (program_plan entry.now (λ sources tokens. never))
        (F.seen files.old) (F.seen files.new)) }
{
    needed_in_turn();
    let mut sources = Sources::new(alloc);
    let mut reading = None;
    loop {
        let turned = turn(alloc, entry, &mut sources, files, reading)?;
        match turned {
            Turned::Made(tokens) => return Ok((sources, tokens)),
            Turned::More(next) => reading = next,
        }
    }
}
