//! From the tree of the parser to the syntax of the program.
ghost use Rattle.std.specs.Prelude.{◌≤◌, Ok, length, IfOk};
ghost use Rattle.mql_parse.specs.Parsed.{IsParsed};
ghost use Rattle.mql_source.specs.Limits.{most_tokens};
ghost use Rattle.mql_syntax_total.specs.Laws.{IsSyntax};

use fx8::OutOfMemory;
use mql_parse::classes_of;
use mql_syntax::{Syntax, Unread};
use mql_syntax_read::read_program;
use mql_tree::{Tokens, Tree};
use std::alloc::Global;

/// How deep nodes may go in one another: as deep as the parser lets them.
const DEPTH: u32 = 200;

/// The syntax of the program whose tree the parser answered for these tokens (MQL5 Reference, Language Basics). It
/// asks for at most 400,000 tokens. The only error is want of memory: each tree of the parser is read.
#[tactic(auto, using(crate::proofs::Read::never_nothing))]
pub fn read_parsed(alloc: Global, tokens: &Tokens, tree: &Tree) -> Result<Syntax, OutOfMemory>
    requires few { length tokens.now ≤ most_tokens }
    requires parsed { IsParsed tokens.now (Ok tree.now) }
    ensures { IfOk result (λ syntax. IsSyntax tokens.now tree.now syntax) }
{
    let classes = classes_of(alloc, tokens)?;
    match read_program(alloc, tokens.as_slice(), classes.as_slice(), DEPTH, tree) {
        Ok(syntax) => Ok(syntax),
        Err(Unread::OutOfMemory) => Err(OutOfMemory),
        Err(Unread::Nothing) => unreachable!(),
    }
}
