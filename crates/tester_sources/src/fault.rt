//! The statuses that tell the fault of a source.
ghost use Rattle.std.specs.Prelude.{◌≡◌, IfOk, IfErr};
ghost use Rattle.mql_preproc.specs.declared.fault.PreFault.TheVariants as faults;
ghost use Rattle.tester_sources.specs.Faults.{text_rule, text_fault, file_name, at_span, token_fault, source_fault, TellsFault, TellsText, TellsPreFault, TellsRefusal};

use fx8::{OutOfMemory, Text8};
use mql_preproc::{PreFault, Sources};
use mql_tree::{LexFault, Span, TextFault};
use std::alloc::Global;
use tester_answer::{SourceFault, Status};

// The number of the rule of stage 1 that a text breaks.
fn text_rule(fault: TextFault) -> u8
    ensures { result ≡ text_rule fault }
{
    match fault {
        TextFault::NotUtf8(_) => 1,
        TextFault::OddLength => 2,
        TextFault::LoneSurrogate(_) => 3,
        TextFault::TooLong => 4,
        TextFault::OutOfMemory => 0,
    }
}

/// The status of a file whose bytes are no text.
pub fn text_status(alloc: Global, name: &Text8, fault: TextFault) -> Status
    ensures { TellsText name.now fault result }
{
    if let TextFault::OutOfMemory = fault {
        return Status::OutOfMemory;
    }
    match Text8::from_slice(alloc, name.as_slice()) {
        Ok(file) => Status::Source(SourceFault {
            stage: 1,
            rule: text_rule(fault),
            file,
            line: 0,
        }),
        Err(OutOfMemory) => Status::OutOfMemory,
    }
}

// The name of the file at a place.
fn file_name(alloc: Global, sources: &Sources, file: u32) -> Result<Text8, OutOfMemory>
    ensures { IfOk result (λ name. name ≡ file_name sources.now file) }
{
    match sources.at(u64::from(file)) {
        Some(source) => Text8::from_slice(alloc, source.name.as_slice()),
        None => Ok(Text8::new(alloc)),
    }
}

/// The status of a rule of a stage that is broken at a place.
pub fn span_status(alloc: Global, sources: &Sources, stage: u8, rule: u8, span: Span) -> Status
    ensures { TellsFault (at_span sources.now stage rule span) result }
{
    match file_name(alloc, sources, span.file) {
        Ok(file) => Status::Source(SourceFault {
            stage,
            rule,
            file,
            line: span.line,
        }),
        Err(OutOfMemory) => Status::OutOfMemory,
    }
}

// The status of a fault of tokens.
fn token_status(alloc: Global, sources: &Sources, fault: LexFault) -> Status
    ensures { TellsFault (token_fault sources.now fault) result }
{
    match fault {
        LexFault::NoToken(span) => span_status(alloc, sources, 2, 1, span),
        LexFault::NameTooLong(span) => span_status(alloc, sources, 2, 2, span),
        LexFault::NumberTooLarge(span) => span_status(alloc, sources, 2, 3, span),
        LexFault::OpenComment(span) => span_status(alloc, sources, 2, 4, span),
        LexFault::OpenString(span) => span_status(alloc, sources, 2, 5, span),
        LexFault::OutOfMemory => Status::OutOfMemory,
    }
}

/// The status of a fault of preprocessing; the need of a file, too, has one.
pub fn fault_status(alloc: Global, sources: &Sources, fault: PreFault) -> Status
    ensures { TellsPreFault sources.now fault result }
{
    match fault {
        PreFault::Need(file) => Status::Source(SourceFault {
            stage: 3,
            rule: 1,
            file,
            line: 0,
        }),
        PreFault::BadDirective(span) => span_status(alloc, sources, 3, 2, span),
        PreFault::UnclosedIf(span) => span_status(alloc, sources, 3, 3, span),
        PreFault::MacroArity(span) => span_status(alloc, sources, 3, 4, span),
        PreFault::Depth(span) => span_status(alloc, sources, 3, 5, span),
        PreFault::TooManyTokens(span) => span_status(alloc, sources, 3, 6, span),
        PreFault::TooManyFiles(span) => span_status(alloc, sources, 3, 7, span),
        PreFault::Lex(fault) => token_status(alloc, sources, fault),
        PreFault::OutOfMemory => Status::OutOfMemory,
    }
}

/// The name of the file that a fault of preprocessing asks for, or the status of any other fault.
pub fn refusal(alloc: Global, sources: &Sources, fault: PreFault) -> Result<Text8, Status>
    ensures needs { IfOk result (λ name. fault ≡ faults.Need name) }
    ensures told { IfErr result (TellsRefusal sources.now fault) }
{
    match fault {
        PreFault::Need(name) => Ok(name),
        other => Err(fault_status(alloc, sources, other)),
    }
}
