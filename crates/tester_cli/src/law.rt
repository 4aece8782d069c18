//! A law of the commands.
ghost use Rattle.std.specs.Prelude.{ℕ, List};
ghost use Rattle.tester_answer.specs.Answer.{OneEnd};
ghost use Rattle.tester_cli.specs.Commands.{plan_of};

use mql_parse::one_answer as tokens_have_one_answer;
use mql_preproc::one_answer as files_have_one_answer;
use tester_pass::one_outcome;

/// Over given contents a command line has one answer: one status, one text, and one contents of the files
/// after it. The call does nothing.
pub fn one_answer()
    ensures { (words : List (List ℕ)) → OneEnd (plan_of words) }
{
    files_have_one_answer();
    tokens_have_one_answer();
    one_outcome();
}
