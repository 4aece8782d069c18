//! `check SOURCE`: the stages that are built so far judge a source.
ghost use Rattle.std.specs.Prelude.{◌≡◌, IfOk, IfErr};
ghost use Rattle.tester_io.specs.Outside.{WhereTold};
ghost use Rattle.tester_answer.specs.Answer.{Gives};
ghost use Rattle.tester_answer.specs.Clauses.{OnlyRead, Has, Refused, Never};
ghost use Rattle.tester_cli.specs.Commands.{check_plan};

use crate::quick::named;
use fx8::Text8;
use std::alloc::Global;
use tester_answer::Status;
use tester_io::Files;
use tester_sources::{judge_rules, judge_tree, read_sources};

/// What is written of a source in which no stage so far finds a fault.
const OK: [u8; 3] = *b"ok\n";

/// `ok` where the stages that are built so far find no fault in the source, or why not.
pub fn check<F: Files>(alloc: Global, entry: &str, files: &mut F) -> Result<Text8, Status>
    ensures only_read { OnlyRead (F.seen files.old) (F.seen files.new) }
    ensures ready { IfOk result (Has (check_plan entry.now) (F.seen files.old)) }
    ensures refused { IfErr result (Refused Never (check_plan entry.now) (F.seen files.old)
        (F.seen files.new)) }
{
    let name = named(alloc, entry)?;
    let (sources, tokens) = read_sources(alloc, &name, files)?;
    let tree = judge_tree(alloc, &name, &sources, &tokens)?;
    judge_rules(alloc, &name, &sources, &tokens, &tree)?;
    let text = Text8::from_slice(alloc, OK.as_slice())?;
    Ok(text)
}
