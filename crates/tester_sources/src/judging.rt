//! The tree of a program's tokens.
ghost use Rattle.std.specs.Prelude.{◌≡◌, ◌≤◌, Ok, length, IfOk, IfErr};
ghost use Rattle.mql_parse.specs.Parsed.{Parsing};
ghost use Rattle.tester_sources.specs.Faults.{TellsFault};
ghost use Rattle.tester_sources.specs.Judging.{span_at, last_span, span_near, placed, TreeRefused};
ghost use Rattle.mql_source.specs.Limits.{most_tokens};

use crate::fault::span_status;
use fx8::{OutOfMemory, Text8};
use mql_parse::{ParseFault, parse};
use mql_preproc::Sources;
use mql_tree::{Span, Tokens, Tree};
use std::alloc::Global;
use tester_answer::{SourceFault, Status};

/// The place of a token, if it is there.
pub fn span_at(tokens: &Tokens, place: u64) -> Option<Span>
    ensures { result ≡ span_at tokens.now place }
{
    match tokens.at(place) {
        Some((_, span)) => Some(*span),
        None => None,
    }
}

// The place of the last token.
fn last_span(tokens: &Tokens) -> Option<Span>
    ensures { result ≡ last_span tokens.now }
{
    span_at(tokens, tokens.len().saturating_sub(1))
}

// The place of a token; where the end of the tokens is at fault, that of the last one.
fn span_near(tokens: &Tokens, place: u32) -> Option<Span>
    ensures { result ≡ span_near tokens.now place }
{
    match span_at(tokens, u64::from(place)) {
        Some(span) => Some(span),
        None => last_span(tokens),
    }
}

/// The status of a rule of a stage that is broken at a place, else at line 1 of the entry.
pub fn placed(
    alloc: Global,
    entry: &Text8,
    sources: &Sources,
    stage: u8,
    rule: u8,
    span: Option<Span>,
) -> Status
    ensures { TellsFault (placed entry.now sources.now stage rule span) result }
{
    match span {
        Some(span) => span_status(alloc, sources, stage, rule, span),
        None => match Text8::from_slice(alloc, entry.as_slice()) {
            Ok(file) => Status::Source(SourceFault {
                stage,
                rule,
                file,
                line: 1,
            }),
            Err(OutOfMemory) => Status::OutOfMemory,
        },
    }
}

/// The tree of a program's tokens, or the status of stage 4 that refuses them.
pub fn judge_tree(
    alloc: Global,
    entry: &Text8,
    sources: &Sources,
    tokens: &Tokens,
) -> Result<Tree, Status>
    requires { length tokens.now ≤ most_tokens }
    ensures tree { IfOk result (λ tree. Parsing tokens.now (Ok tree)) }
    ensures refused { IfErr result (TreeRefused entry.now sources.now tokens.now) }
{
    match parse(alloc, tokens) {
        Ok(tree) => Ok(tree),
        Err(ParseFault::Syntax(place)) => Err(placed(
            alloc,
            entry,
            sources,
            4,
            1,
            span_near(tokens, place),
        )),
        Err(ParseFault::Depth(place)) => Err(placed(
            alloc,
            entry,
            sources,
            4,
            2,
            span_near(tokens, place),
        )),
        Err(ParseFault::Nodes(place)) => Err(placed(
            alloc,
            entry,
            sources,
            4,
            3,
            span_near(tokens, place),
        )),
        Err(ParseFault::OutOfMemory) => Err(Status::OutOfMemory),
    }
}
