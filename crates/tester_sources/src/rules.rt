//! The rules that a program's declarations and types must keep.
ghost use Rattle.std.specs.Prelude.{◌≡◌, ◌≤◌, Ok, None, length, IfOk, IfErr};
ghost use Rattle.mql_parse.specs.Parsed.{IsParsed};
ghost use Rattle.mql_source.specs.Limits.{most_tokens};
ghost use Rattle.tester_sources.specs.Faults.{TellsFault};
ghost use Rattle.tester_sources.specs.Rules.{file_text, file_texts, syntax_of, syntax_typed, by_types, syntax_judged, program_judged, program_fault, program_refused, RulesRefused};

use crate::judging::{placed, span_at};
use fx8::{ItemList, OutOfMemory, Text, Text8};
use mql_decls::{DeclFault, Refusal, expand};
use mql_meaning::Checked;
use mql_names::Broken;
use mql_preproc::Sources;
use mql_syntax::Syntax;
use mql_syntax_total::read_parsed;
use mql_tree::{TextFault, Tokens, Tree, text_of_bytes};
use mql_typing::check_source;
use std::alloc::Global;
use tester_answer::Status;

/// Why a program is refused whose tree is right.
#[derive(Clone, Copy, Debug, PartialEq, Eq)]
pub enum ProgramFault {
    /// Its form or its declarations.
    Declarations(Refusal),
    /// Its types.
    Types(Broken),
}

/// The status of a rule that a program breaks, at the first token of its node.
pub fn program_status(
    alloc: Global,
    entry: &Text8,
    sources: &Sources,
    tokens: &Tokens,
    fault: ProgramFault,
) -> Status
    ensures { TellsFault (program_fault entry.now sources.now tokens.now fault) result }
{
    match fault {
        ProgramFault::Declarations(Refusal::NotPlain(broken)) => {
            let span = span_at(tokens, u64::from(broken.first));
            placed(alloc, entry, sources, 7, 1, span)
        }
        ProgramFault::Declarations(Refusal::Rule(broken)) => {
            let span = span_at(tokens, u64::from(broken.first));
            placed(alloc, entry, sources, 5, broken.rule, span)
        }
        ProgramFault::Types(broken) => {
            let span = span_at(tokens, u64::from(broken.first));
            placed(alloc, entry, sources, 6, broken.rule, span)
        }
    }
}

// Bytes as units.
fn units_of(alloc: Global, bytes: &[u8]) -> Result<Text, OutOfMemory>
    ensures { IfOk result (λ t. t ≡ bytes.now) }
{
    let mut text = Text::new(alloc);
    for byte in bytes {
        text.push(u16::from(*byte))?;
    }
    Ok(text)
}

// The name of a file as a text.
fn file_text(alloc: Global, name: &[u8]) -> Result<Text, OutOfMemory>
    ensures { IfOk result (λ t. t ≡ file_text name.now) }
{
    match text_of_bytes(alloc, name) {
        Ok(text) => Ok(text),
        Err(TextFault::OutOfMemory) => Err(OutOfMemory),
        Err(_) => units_of(alloc, name),
    }
}

// The names of files as texts.
fn file_texts(alloc: Global, sources: &Sources) -> Result<ItemList<Text>, OutOfMemory>
    ensures { IfOk result (λ ts. ts ≡ file_texts sources.now) }
{
    let mut texts = ItemList::new(alloc);
    let list = sources.as_slice();
    for source in list {
        texts.push(file_text(alloc, source.name.as_slice())?)?;
    }
    Ok(texts)
}

// The typed program of a syntax, or the broken rule of types that is told.
#[tactic(auto, unfolding(crate::specs::Rules::syntax_typed))]
fn typed(
    alloc: Global,
    sources: &Sources,
    tokens: &Tokens,
    syntax: &Syntax,
) -> Result<Result<Checked, Broken>, OutOfMemory>
    ensures { IfOk result (λ r. r ≡ syntax_typed sources.now tokens.now syntax.now) }
{
    let files = file_texts(alloc, sources)?;
    check_source(alloc, syntax, tokens, &files)
}

// The typed program, or why it is refused.
fn by_types(typed: Result<Checked, Broken>) -> Result<Checked, ProgramFault>
    ensures { result ≡ by_types typed }
{
    match typed {
        Ok(checked) => Ok(checked),
        Err(broken) => Err(ProgramFault::Types(broken)),
    }
}

// The typed program, or the rule that it breaks: of its declarations, else of its types.
fn judged(
    alloc: Global,
    sources: &Sources,
    tokens: &Tokens,
    syntax: &Syntax,
) -> Result<Result<Checked, ProgramFault>, OutOfMemory>
    ensures { IfOk result (λ r. r ≡ syntax_judged sources.now tokens.now syntax.now) }
{
    match expand(alloc, syntax) {
        Err(DeclFault::OutOfMemory) => Err(OutOfMemory),
        Err(DeclFault::Refused(refusal)) => Ok(Err(ProgramFault::Declarations(refusal))),
        Ok(_) => {
            let typed = typed(alloc, sources, tokens, syntax)?;
            Ok(by_types(typed))
        }
    }
}

/// The syntax of a tree and the typed program that it means, where the program is of the form that is built so far
/// and breaks no rule of declarations and of types; else the status of stage 7, 5 or 6 that refuses it.
pub fn judge_program_rules(
    alloc: Global,
    entry: &Text8,
    sources: &Sources,
    tokens: &Tokens,
    tree: &Tree,
) -> Result<(Syntax, Checked), Status>
    requires few { length tokens.now ≤ most_tokens }
    requires parsed { IsParsed tokens.now (Ok tree.now) }
    ensures syntax { IfOk result (λ r. syntax_of tokens.now tree.now ≡ r.0) }
    ensures typed { IfOk result (λ r. program_judged sources.now tokens.now tree.now ≡ Ok r.1) }
    ensures refused { IfErr result (RulesRefused entry.now sources.now tokens.now tree.now) }
{
    let syntax = match read_parsed(alloc, tokens, tree) {
        Ok(syntax) => syntax,
        Err(OutOfMemory) => return Err(Status::OutOfMemory),
    };
    match judged(alloc, sources, tokens, &syntax) {
        Ok(Ok(checked)) => Ok((syntax, checked)),
        Ok(Err(fault)) => Err(program_status(alloc, entry, sources, tokens, fault)),
        Err(OutOfMemory) => Err(Status::OutOfMemory),
    }
}

/// Whether the program of a tree is of the form that is built so far and breaks no rule of declarations and of
/// types; else the status of stage 7, 5 or 6 that refuses it.
#[tactic(auto, using(crate::proofs::Refusing::is_kept))]
pub fn judge_rules(
    alloc: Global,
    entry: &Text8,
    sources: &Sources,
    tokens: &Tokens,
    tree: &Tree,
) -> Result<(), Status>
    requires few { length tokens.now ≤ most_tokens }
    requires parsed { IsParsed tokens.now (Ok tree.now) }
    ensures kept { IfOk result (λ _. program_refused sources.now tokens.now tree.now ≡ None) }
    ensures refused { IfErr result (RulesRefused entry.now sources.now tokens.now tree.now) }
{
    match judge_program_rules(alloc, entry, sources, tokens, tree) {
        Ok((_syntax, _checked)) => Ok(()),
        Err(status) => Err(status),
    }
}
