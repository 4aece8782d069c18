//! What a directive does.
ghost use Rattle.std.specs.Prelude.{◌≡◌, ◌<◌, ◌≤◌, ◌^◌, length, IfOk, IfSome};
ghost use Rattle.mql_preproc.specs.Answers.{Gives};
ghost use Rattle.mql_preproc.specs.Conditions.{macros_behind, conditions_behind};
ghost use Rattle.mql_preproc.specs.Reading.{is_read, admission, admitted, settled, obeyed, deed};
ghost use Rattle.mql_macros.specs.Pieces.{is_among};
ghost use Rattle.mql_preproc.specs.Onward.{Did, IncludesWithin};

use crate::directive::{Directive, Setting, directive_of};
use crate::fault::PreFault;
use crate::file_name::included_name;
use crate::part::Placed;
use crate::setting::{conditions_behind, is_active, macros_behind};
use crate::source::{Source, Sources, place_of};
use crate::state::{Deed, Progress, State};
use crate::word::{is_condition, word_at};
use fx8::{Numbers, Text8};
use mql_source::{MOST_DEPTH, MOST_FILES};
use mql_tree::Span;
use std::alloc::Global;

fn is_among(file: u32, files: &Numbers) -> bool
    ensures { result ≡ is_among file files.now }
{
    let mut rest = files.as_slice();
    while let Some((first, others)) = rest.split_first() {
        if *first == file {
            return true;
        }
        rest = others;
    }
    false
}

fn is_read(place: Option<u32>, files: &Numbers) -> bool
    ensures { result ≡ is_read place files.now }
{
    match place {
        None => false,
        Some(k) => is_among(k, files),
    }
}

/// The place of a file that is to be read by a directive in a file of that depth; `None`: it was read
/// already.
#[tactic(auto, unfolding(crate::specs::Reading::admission))]
fn admission(
    sources: &Sources,
    files: &Numbers,
    depth: u32,
    span: Span,
    name: Text8,
) -> Result<Option<u32>, PreFault>
    requires { length sources.now ≤ 2 ^ 32 }
    ensures exact { Gives (admission sources.now files.now depth span name) result }
    ensures within { IfOk result (λ found. IfSome found (λ k. (k < length sources.now) × (depth < 32)
        × (length files.now < 512))) }
{
    let place = place_of(sources, name.as_slice());
    if is_read(place, files) {
        return Ok(None);
    }
    if depth >= MOST_DEPTH {
        return Err(PreFault::Depth(span));
    }
    if files.len() >= MOST_FILES {
        return Err(PreFault::TooManyFiles(span));
    }
    match place {
        None => Err(PreFault::Need(name)),
        Some(k) => Ok(Some(k)),
    }
}

/// What a setting leaves in force and open.
fn settled(
    alloc: Global,
    span: Span,
    setting: Setting,
    progress: Progress,
) -> Result<Deed, PreFault>
    ensures exact { Did progress (settled span progress (macros_behind setting progress.state.macros)
        (conditions_behind span setting progress.state.macros progress.conditions)) result }
    ensures within { IfOk result (λ d. IncludesWithin 0 32 d) }
{
    let Progress { state, conditions } = progress;
    let State { macros, read, made } = state;
    let Some(conditions) = conditions_behind(span, &setting, &macros, conditions)? else {
        return Err(PreFault::BadDirective(span));
    };
    let macros = macros_behind(alloc, setting, macros)?;
    Ok(Deed::Goes(Progress {
        state: State { macros, read, made },
        conditions,
    }))
}

/// What the inclusion of the file of that name does.
fn included(
    sources: &Sources,
    depth: u32,
    span: Span,
    progress: Progress,
    name: Text8,
) -> Result<Deed, PreFault>
    requires { length sources.now ≤ 2 ^ 32 }
    ensures exact { Did progress (admitted progress
        (admission sources.now progress.state.read depth span name)) result }
    ensures within { IfOk result (λ d. IncludesWithin (length sources.now) depth d) }
{
    match admission(sources, &progress.state.read, depth, span, name) {
        Ok(None) => Ok(Deed::Goes(progress)),
        Ok(Some(k)) => Ok(Deed::Includes(progress, k)),
        Err(PreFault::Need(name)) => Ok(Deed::Needs(progress, name)),
        Err(fault) => Err(fault),
    }
}

/// What a directive of that form does.
fn obeyed(
    alloc: Global,
    sources: &Sources,
    source: &Source,
    depth: u32,
    span: Span,
    progress: Progress,
    directive: Option<Directive>,
) -> Result<Deed, PreFault>
    requires { length sources.now ≤ 2 ^ 32 }
    ensures exact { Did progress (obeyed sources.now source.now depth span progress directive) result }
    ensures within { IfOk result (λ d. IncludesWithin (length sources.now) depth d) }
{
    match directive {
        None => Err(PreFault::BadDirective(span)),
        Some(Directive::Include { name, place }) => {
            let name = included_name(alloc, source, &name, place)?;
            included(sources, depth, span, progress, name)
        }
        Some(Directive::Sets(setting)) => settled(alloc, span, setting, progress),
    }
}

/// What a directive with that line does, whose `#` stands there.
#[tactic(auto, unfolding(crate::specs::Reading::deed))]
pub fn deed(
    alloc: Global,
    sources: &Sources,
    source: &Source,
    depth: u32,
    span: Span,
    line: &[Placed],
    progress: Progress,
) -> Result<Deed, PreFault>
    requires { length sources.now ≤ 2 ^ 32 }
    ensures exact { Did progress (deed sources.now source.now depth span line.now progress) result }
    ensures within { IfOk result (λ d. IncludesWithin (length sources.now) depth d) }
{
    if is_active(&progress.conditions) || is_condition(word_at(line)) {
        let directive = directive_of(alloc, line)?;
        obeyed(alloc, sources, source, depth, span, progress, directive)
    } else {
        Ok(Deed::Goes(progress))
    }
}
