//! The top call.
ghost use Rattle.std.specs.Prelude.{◌≡◌, IfOk, IfErr};
ghost use Rattle.tester_answer.specs.Clauses.{OnlyRead, Has, RefusedBy, IsRefused, AtJudgement, AtUnread, Wrote, Unwritten, NoMemory, Completes};
ghost use Rattle.tester_cli.specs.Commands.{command_of, plan_of_names, plan_of, words_of};

use crate::check::check;
use crate::quick::quick;
use fx8::Text8;
use mql_parse::one_answer as tokens_have_one_answer;
use mql_preproc::one_answer as files_have_one_answer;
use std::alloc::Global;
use tester_answer::Status;
use tester_answer::outside::write_whole;
use tester_io::{Files, Sink, WriteError};
use tester_market::quotes;
use tester_pass::one_outcome;

/// The commands.
#[derive(Clone, Copy, Debug, PartialEq, Eq)]
pub enum Command {
    Quick,
    Check,
    Quotes,
}

// The command of a word.
#[tactic(auto, unfolding(crate::specs::Commands::command_of))]
fn command_of(word: &str) -> Option<Command>
    ensures { result ≡ command_of word.now }
{
    if word == "quick" {
        return Some(Command::Quick);
    }
    if word == "check" {
        return Some(Command::Check);
    }
    if word == "quotes" {
        return Some(Command::Quotes);
    }
    None
}

// What a command writes of these names, or why it writes nothing.
fn run_names<F: Files>(
    alloc: Global,
    command: Command,
    names: &[String],
    files: &mut F,
) -> Result<Text8, Status>
    ensures only_read { OnlyRead (F.seen files.old) (F.seen files.new) }
    ensures ready { IfOk result (Has (plan_of_names command (words_of names.now)) (F.seen files.old)) }
    ensures refused { IfErr result (RefusedBy (plan_of_names command (words_of names.now))
        (F.seen files.old) (F.seen files.new)) }
{
    match names {
        [name] => match command {
            Command::Quick => Err(Status::Usage(3)),
            Command::Check => check(alloc, name.as_str(), files),
            Command::Quotes => quotes(alloc, name.as_str(), files),
        },
        [expert, bars] => match command {
            Command::Quick => quick(alloc, expert.as_str(), bars.as_str(), files),
            Command::Check => Err(Status::Usage(3)),
            Command::Quotes => Err(Status::Usage(3)),
        },
        _ => Err(Status::Usage(3)),
    }
}

// What a command line writes, or why it writes nothing.
fn prepare<F: Files>(alloc: Global, words: &[String], files: &mut F) -> Result<Text8, Status>
    ensures only_read { OnlyRead (F.seen files.old) (F.seen files.new) }
    ensures ready { IfOk result (Has (plan_of (words_of words.now)) (F.seen files.old)) }
    ensures refused { IfErr result (RefusedBy (plan_of (words_of words.now)) (F.seen files.old)
        (F.seen files.new)) }
{
    match words {
        [] => Err(Status::Usage(2)),
        [word, names @ ..] => match command_of(word.as_str()) {
            None => Err(Status::Usage(2)),
            Some(command) => run_names(alloc, command, names, files),
        },
    }
}

/// What the program does for `quick`, `check` and `quotes`: it reads and judges the words and the files, and
/// writes the answer to the sink. It returns for every input.
///
/// The clauses speak of the plan of the words (`plan_of`), over what the files told at entry and what the
/// sink tells.
pub fn run_single<F: Files, S: Sink>(
    alloc: Global,
    words: &[String],
    files: &mut F,
    out: &mut S,
) -> Status
    // At Done the sink gained a text that the plan has with Done, and the files are as the plan has them with
    // it.
    ensures done { result ≡ Status.Done → Wrote (plan_of (words_of words.now))
        (F.seen files.old) (F.seen files.new) (S.seen out.old) (S.seen out.new) }

    // At Usage to Grid the plan has that very status, the sink is as it was and no file changed; Usage is by
    // the words alone.
    ensures judged { AtJudgement result ((out.new ≡ out.old)
        × IsRefused (plan_of (words_of words.now)) (F.seen files.old) (F.seen files.new) result) }

    // At Absent, ReadFault or TooLarge that count rose, and the plan reaches the reading of that name.
    ensures unread { AtUnread result ((out.new ≡ out.old)
        × IsRefused (plan_of (words_of words.now)) (F.seen files.old) (F.seen files.new) result) }

    // At WriteFault the sink's count rose, and the sink gained a beginning of a text that the plan has with
    // Done; or that of the files rose, and the writing of a file of the plan was cut short.
    ensures unwritten { result ≡ Status.WriteFault → Unwritten (plan_of (words_of words.now))
        (F.seen files.old) (F.seen files.new) (S.seen out.old) (S.seen out.new) }

    // At OutOfMemory nothing was written, or such a beginning, or the writing of such a file was cut short.
    ensures memory { result ≡ Status.OutOfMemory → NoMemory (plan_of (words_of words.now))
        (F.seen files.old) (F.seen files.new) (S.seen out.old) (S.seen out.new) }

    // Where the plan has Done over what is told, and no fault of reading or writing was counted, all is done
    // but for memory.
    ensures complete { Completes (plan_of (words_of words.now))
        (F.seen files.old) (F.seen files.new) (S.seen out.old) (S.seen out.new) result }
{
    files_have_one_answer();
    tokens_have_one_answer();
    one_outcome();
    match prepare(alloc, words, files) {
        Err(status) => status,
        Ok(text) => match write_whole(out, text.as_slice()) {
            Ok(()) => Status::Done,
            Err(WriteError::Failed) => Status::WriteFault,
            Err(WriteError::OutOfMemory) => Status::OutOfMemory,
        },
    }
}
