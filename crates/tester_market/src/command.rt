//! `quotes SETTINGS`: the quotes that a test over the settings takes.
ghost use Rattle.std.specs.Prelude.{◌≡◌, IfOk, IfErr};
ghost use Rattle.tester_answer.specs.Clauses.{OnlyRead, Has, Refused, Never};
ghost use Rattle.tester_market.specs.Quotes.{quotes_plan};

use crate::market::read_market;
use crate::reading::read_test_settings;
use fx8::Text8;
use report::quotes_text;
use settings_file::Expert;
use std::alloc::Global;
use tester_answer::Status;
use tester_io::Files;

/// The lines of the quotes that the settings of that name give, or why there are none.
pub fn quotes<F: Files>(alloc: Global, settings: &str, files: &mut F) -> Result<Text8, Status>
    ensures only_read { OnlyRead (F.seen files.old) (F.seen files.new) }
    ensures ready { IfOk result (Has (quotes_plan settings.now) (F.seen files.old)) }
    ensures refused { IfErr result (Refused Never (quotes_plan settings.now) (F.seen files.old)
        (F.seen files.new)) }
{
    let name = Text8::from_slice(alloc, settings.as_bytes())?;
    let file = read_test_settings(alloc, Expert::NotNeeded, &name, files)?;
    let market = read_market(alloc, &file.settings, files)?;
    let text = quotes_text(alloc, &market)?;
    Ok(text)
}
