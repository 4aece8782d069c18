//! The reading of a program, which stops before an include whose file is needed and goes on when that is
//! given.
ghost use Rattle.std.specs.Prelude.{◌≡◌, ℕ, ◌<◌, ◌≤◌, ◌^◌, List, length, All, Err, false, IfOk, IfErr};
ghost use Rattle.mql_preproc.specs.Answers.{Unless};
ghost use Rattle.mql_preproc.specs.Parts.{is_hash};
ghost use Rattle.mql_preproc.specs.Reading.{begun, entered, end_of, Preprocesses};
ghost use Rattle.mql_preproc.specs.Resume.{Stands};
ghost use Rattle.mql_preproc.specs.Onward.{left_open, IsReplaced, IsPastRun, IsPaused, IsOpened, Fits, IsAdvanced, IsStopped, StopFits, HasFewTokens};
ghost use Rattle.mql_source.specs.Limits.{most_units};

use crate::deed::deed;
use crate::fault::{PreFault, expand_fault, lex_fault};
use crate::part::{Placed, is_hash, put_back, take_line, take_run};
use crate::setting::{Conditions, is_active};
use crate::source::{Source, Sources, place_of};
use crate::state::{Advance, Deed, Left, Open, Pause, Progress, Reading, State, Stop};
use crate::string_run::joined;
use fx8::{Numbers, OutOfMemory, Stack, Text, Text8};
use mql_macros::{Macro, MacroTable, expand};
use mql_source::MOST_TOKENS;
use mql_tree::{Tokens, lex};
use std::alloc::Global;

/// The name that is defined from the start.
const MQL5: [u16; 8] = [95, 95, 77, 81, 76, 53, 95, 95];

/// What stands before the entry.
fn begun(alloc: Global) -> Result<State, OutOfMemory>
    ensures { IfOk result (λ s. s ≡ begun) }
{
    let mql5 = Macro {
        name: Text::from_slice(alloc, MQL5.as_slice())?,
        parameters: None,
        body: Tokens::new(alloc),
    };
    Ok(State {
        macros: MacroTable::new(alloc).with(alloc, mql5)?,
        read: Numbers::new(alloc),
        made: Tokens::new(alloc),
    })
}

/// At the end of a file no condition is open, else the outermost one is told.
fn end_of(progress: Progress) -> Result<State, PreFault>
    ensures { result ≡ end_of progress }
{
    let Progress { state, conditions } = progress;
    match conditions.as_slice() {
        [] => Ok(state),
        [outermost, ..] => Err(PreFault::UnclosedIf(outermost.span)),
    }
}

/// A state behind a run in an active part.
fn replaced(alloc: Global, state: State, run: Tokens) -> Result<State, PreFault>
    ensures { IsReplaced state run result }
{
    let State {
        macros,
        read,
        mut made,
    } = state;
    let room = MOST_TOKENS.saturating_sub(made.len());
    match expand(alloc, &macros, run, room) {
        Ok(more) => {
            made.append(more)?;
            Ok(State { macros, read, made })
        }
        Err(fault) => Err(expand_fault(fault)),
    }
}

/// A file that is entered: it was read, and has no open condition yet.
fn entered(alloc: Global, state: State, file: u32) -> Result<Progress, OutOfMemory>
    ensures { IfOk result (λ p. p ≡ entered state file) }
{
    let State {
        macros,
        mut read,
        made,
    } = state;
    read.push(file)?;
    Ok(Progress {
        state: State { macros, read, made },
        conditions: Conditions::new(alloc),
    })
}

/// Behind a run of which the first token is taken.
fn past_run(
    alloc: Global,
    progress: Progress,
    first: Placed,
    rest: &mut Stack<Placed>,
) -> Result<Progress, PreFault>
    requires { is_hash first.0 ≡ false }
    ensures { IsPastRun progress first rest.old rest.new result }
{
    let run = take_run(alloc, first, rest)?;
    if !is_active(&progress.conditions) {
        return Ok(progress);
    }
    let Progress { state, conditions } = progress;
    let state = replaced(alloc, state, run)?;
    Ok(Progress { state, conditions })
}

/// What stands behind what was read of a file at that place.
fn left_open(file: u32, rest: Stack<Placed>, progress: Progress) -> Left
    ensures { result ≡ left_open file rest progress }
{
    let Progress { state, conditions } = progress;
    Left {
        inner: Open {
            file,
            rest,
            conditions,
        },
        state,
    }
}

/// Reads an open file on, to its end or to the next file that is to be read first.
#[tactic(auto, unfolding(crate::specs::Onward::IsPaused))]
fn read_on(
    alloc: Global,
    sources: &Sources,
    source: &Source,
    depth: u32,
    left: Left,
) -> Result<Pause, PreFault>
    requires { length sources.now ≤ 2 ^ 32 }
    ensures { IsPaused sources.now source.now depth left result }
{
    let Left { inner, state } = left;
    let Open {
        file,
        mut rest,
        conditions,
    } = inner;
    let mut progress = Progress { state, conditions };
    while let Some(first) = rest.pop() {
        if !is_hash(&first.0) {
            progress = past_run(alloc, progress, first, &mut rest)?;
            continue;
        }
        let line = take_line(alloc, &mut rest)?;
        match deed(
            alloc,
            sources,
            source,
            depth,
            first.1,
            line.tokens.as_slice(),
            progress,
        )? {
            Deed::Goes(next) => progress = next,
            Deed::Includes(next, place) => {
                return Ok(Pause::Includes(left_open(file, rest, next), place));
            }
            Deed::Needs(next, name) => {
                let rest = put_back(first, line, rest)?;
                return Ok(Pause::Needs(left_open(file, rest, next), name));
            }
        }
    }
    Ok(Pause::Ends(end_of(progress)?))
}

/// The file at that place is opened, within those that are open.
#[tactic(auto, unfolding(crate::specs::Onward::IsOpened))]
fn opened(
    alloc: Global,
    sources: &Sources,
    file: u32,
    state: State,
    files: Stack<Open>,
) -> Result<Reading, PreFault>
    requires place { file < length sources.now }
    requires short { All (λ s. length s.text ≤ most_units) sources.now }
    ensures { IsOpened sources.now file state files result }
{
    let source = &sources.as_slice()[file as usize];
    let tokens = match lex(alloc, file, &source.text) {
        Ok(tokens) => tokens,
        Err(fault) => return Err(lex_fault(fault)),
    };
    let Progress { state, conditions } = entered(alloc, state, file)?;
    let mut files = files;
    files.push(Open {
        file,
        rest: Stack::of_list(tokens),
        conditions,
    })?;
    Ok(Reading { state, files })
}

/// Reads the innermost open file on.
#[tactic(auto, unfolding(crate::specs::Onward::IsAdvanced))]
fn advance(alloc: Global, sources: &Sources, reading: Reading) -> Result<Advance, PreFault>
    requires few { length sources.now ≤ 2 ^ 32 }
    requires short { All (λ s. length s.text ≤ most_units) sources.now }
    requires fits { Fits sources.now reading }
    ensures { IsAdvanced sources.now reading result }
{
    let Reading { state, mut files } = reading;
    let Some(inner) = files.pop() else {
        return Ok(Advance::Made(state));
    };
    let source = &sources.as_slice()[inner.file as usize];
    let depth = files.len() as u32 + 1;
    match read_on(alloc, sources, source, depth, Left { inner, state })? {
        Pause::Ends(state) => Ok(Advance::On(Reading { state, files })),
        Pause::Includes(left, place) => {
            let Left { inner, state } = left;
            files.push(inner)?;
            Ok(Advance::On(opened(alloc, sources, place, state, files)?))
        }
        Pause::Needs(left, name) => {
            let Left { inner, state } = left;
            files.push(inner)?;
            Ok(Advance::Needs(name, Reading { state, files }))
        }
    }
}

/// Begins to read the program whose entry is the file of that name.
pub fn begin(alloc: Global, entry: &Text8, sources: &Sources) -> Result<Reading, PreFault>
    requires few { length sources.now ≤ 2 ^ 32 }
    requires short { All (λ s. length s.text ≤ most_units) sources.now }
    ensures stands { IfOk result (Stands entry.now sources.now) }
    ensures fits { IfOk result (Fits sources.now) }
    ensures told { IfErr result (λ fault. Unless fault (Preprocesses entry.now sources.now (Err fault))) }
{
    let Some(file) = place_of(sources, entry.as_slice()) else {
        return Err(PreFault::Need(Text8::from_slice(alloc, entry.as_slice())?));
    };
    opened(alloc, sources, file, begun(alloc)?, Stack::new(alloc))
}

/// Reads on, to the end of the program or to an include whose file is needed. When that file was added behind
/// the others the reading goes on where it stopped.
pub fn run(alloc: Global, sources: &Sources, reading: Reading) -> Result<Stop, PreFault>
    requires few { length sources.now ≤ 2 ^ 32 }
    requires short { All (λ s. length s.text ≤ most_units) sources.now }
    requires fits { Fits sources.now reading }
    ensures exact { (entry : List ℕ) → Stands entry sources.now reading → IsStopped entry sources.now result }
    ensures fits { IfOk result (StopFits sources.now) }
    ensures few { (entry : List ℕ) → Stands entry sources.now reading → IfOk result HasFewTokens }
{
    let mut reading = reading;
    loop {
        match advance(alloc, sources, reading)? {
            Advance::On(next) => reading = next,
            Advance::Made(state) => return Ok(Stop::Made(joined(alloc, state.made)?)),
            Advance::Needs(name, reading) => return Ok(Stop::Needs(name, reading)),
        }
    }
}
