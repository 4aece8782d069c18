//! `quick EXPERT BARS`: an expert over a bars file, at opening prices and with the default settings.
ghost use Rattle.std.specs.Prelude.{◌≡◌, Ok, IfOk, IfErr};
ghost use Rattle.mql_meaning.specs.declared.tree.Checked.{Checked};
ghost use Rattle.stack_code.specs.Paced.{Paced};
ghost use Rattle.stack_follows.specs.Stands.{Stands};
ghost use Rattle.market_types.specs.Ordered.{AreBars};
ghost use Rattle.market_data.specs.Markets.{quotes};
ghost use Rattle.price_rows.specs.Files.{bars_of_file};
ghost use Rattle.tester_io.specs.Outside.{WhereTold};
ghost use Rattle.tester_answer.specs.Answer.{Gives};
ghost use Rattle.tester_answer.specs.Clauses.{OnlyRead, Has, Refused, Never};
ghost use Rattle.tester_cli.specs.Refusals.{BarsStatus};
ghost use Rattle.tester_cli.specs.Commands.{quick_plan, quick_bars, opening_quotes, Reports};

use crate::test_report::report_text;
use fx8::{ItemList, OutOfMemory, Text8};
use market_data::{BarList, Market, Mode, Period, RowFault, Rows, SymbolSpec, read_bars};
use stack_code::Code;
use std::alloc::Global;
use tester_answer::Status;
use tester_answer::outside::read;
use tester_io::Files;
use tester_market::PRICE_LIMIT;
use tester_pass::{code_passes_as_source, run_pass};
use tester_program::judge_program;
use tester_sources::read_sources;

// A name as bytes.
pub fn named(alloc: Global, name: &str) -> Result<Text8, OutOfMemory>
    ensures { IfOk result (λ text. text ≡ name.now) }
{
    Text8::from_slice(alloc, name.as_bytes())
}

// The bars of a file, or the status that refuses it.
fn judge_bars(alloc: Global, name: Text8, bytes: &[u8]) -> Result<BarList, Status>
    ensures bars { IfOk result (λ bars. bars_of_file bytes.now ≡ Ok bars) }
    ensures are { IfOk result AreBars }
    ensures refused { IfErr result (BarsStatus name bytes.now) }
{
    match read_bars(alloc, bytes) {
        Ok(bars) => Ok(bars),
        Err(RowFault::Rule { row, rule }) => Err(Status::Prices {
            file: name,
            row,
            rule,
        }),
        Err(RowFault::OutOfMemory) => Err(Status::OutOfMemory),
    }
}

/// The market of `quick`: the symbol `SYMBOL` with the default numbers, at opening prices of the period M1,
/// over bars as `read_bars` gives them.
#[tactic(auto, using(crate::proofs::QuoteLemmas::symbol_name))]
fn market_of(alloc: Global, file: &str, bars: BarList) -> Result<Market, OutOfMemory>
    requires { AreBars bars }
    ensures { IfOk result (λ market. quotes market ≡ opening_quotes bars) }
{
    let name = Text8::from_slice(alloc, b"SYMBOL")?;
    let file = Text8::from_slice(alloc, file.as_bytes())?;
    let mut market = Market::new(alloc, Mode::Opening, Period::M1);
    market.add(SymbolSpec::with_defaults(name, file), Rows::Bars(bars))?;
    Ok(market)
}

// The report of code over the bars of a file.
fn report(alloc: Global, code: &Code, file: &str, bars: BarList) -> Result<Text8, OutOfMemory>
    requires bars { AreBars bars }
    requires paced { Paced code.now }
    ensures { IfOk result (λ text. (checked : Checked) → Stands checked code.now
        → Reports checked bars text) }
{
    code_passes_as_source();
    let market = market_of(alloc, file, bars)?;
    let outcome = run_pass(alloc, code, ItemList::new(alloc), &market)?;
    report_text(alloc, &outcome)
}

// From the code on: the bars are read and judged, and the report is made.
fn over_bars<F: Files>(
    alloc: Global,
    code: &Code,
    bars: &str,
    files: &mut F,
) -> Result<Text8, Status>
    requires { Paced code.now }
    ensures only_read { OnlyRead (F.seen files.old) (F.seen files.new) }
    ensures ready { IfOk result (λ text. (checked : Checked) → Stands checked code.now
        → Has (quick_bars bars.now checked) (F.seen files.old) text) }
    ensures refused { IfErr result (λ status. (checked : Checked)
        → Refused Never (quick_bars bars.now checked) (F.seen files.old) (F.seen files.new) status) }
{
    let name = named(alloc, bars)?;
    let bytes = read(alloc, files, &name, PRICE_LIMIT)?;
    let rows = judge_bars(alloc, name, bytes.as_slice())?;
    let text = report(alloc, code, bars, rows)?;
    Ok(text)
}

/// The report of the expert over the bars, or why there is none.
pub fn quick<F: Files>(
    alloc: Global,
    expert: &str,
    bars: &str,
    files: &mut F,
) -> Result<Text8, Status>
    ensures only_read { OnlyRead (F.seen files.old) (F.seen files.new) }
    ensures ready { IfOk result (Has (quick_plan expert.now bars.now) (F.seen files.old)) }
    ensures refused { IfErr result (Refused Never (quick_plan expert.now bars.now) (F.seen files.old)
        (F.seen files.new)) }
{
    let name = named(alloc, expert)?;
    let (sources, tokens) = read_sources(alloc, &name, files)?;
    let code = judge_program(alloc, &name, &sources, &tokens)?;
    over_bars(alloc, &code, bars, files)
}
