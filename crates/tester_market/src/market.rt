//! The market of settings.
ghost use Rattle.std.specs.Prelude.{◌≡◌, length, IfOk, IfErr};
ghost use Rattle.tester_answer.specs.Clauses.{OnlyRead, Refused, Never};
ghost use Rattle.tester_settings.specs.Ranges.{AreSettings};
ghost use Rattle.tester_market.specs.Reading.{HasMarket, market_plan};
ghost use Rattle.tester_answer.specs.Answer.{never};

use crate::reading::read_rows;
use fx8::{OutOfMemory, Text8};
use market_data::Market;
use market_types::SymbolSpec;
use std::alloc::Global;
use tester_answer::Status;
use tester_io::Files;
use tester_settings::Settings;

// The same numbers of a symbol.
fn copy_spec(alloc: Global, spec: &SymbolSpec) -> Result<SymbolSpec, OutOfMemory>
    ensures { IfOk result (λ copy. copy ≡ spec.now) }
{
    let name = Text8::from_slice(alloc, spec.name.as_slice())?;
    let file = Text8::from_slice(alloc, spec.file.as_slice())?;
    Ok(SymbolSpec {
        name,
        file,
        digits: spec.digits,
        contract: spec.contract,
        volume_min: spec.volume_min,
        volume_max: spec.volume_max,
        volume_step: spec.volume_step,
        stops_level: spec.stops_level,
        spread: spec.spread,
        commission: spec.commission,
        swap_long: spec.swap_long,
        swap_short: spec.swap_short,
        swap_day: spec.swap_day,
    })
}

/// Reads the price file of the symbol of settings, judges it, and makes the market.
pub fn read_market<F: Files>(
    alloc: Global,
    settings: &Settings,
    files: &mut F,
) -> Result<Market, Status>
    requires range { AreSettings settings.now }
    requires one { length settings.now.symbols ≡ 1 }
    ensures only_read { OnlyRead (F.seen files.old) (F.seen files.new) }
    ensures read { IfOk result (HasMarket settings.now (F.seen files.old).told) }
    ensures refused { IfErr result (Refused Never (market_plan settings.now (λ market. never))
        (F.seen files.old) (F.seen files.new)) }
{
    match settings.symbols.as_slice() {
        [spec] => {
            let rows = read_rows(alloc, settings.mode, &spec.file, files)?;
            let spec = copy_spec(alloc, spec)?;
            let mut market = Market::new(alloc, settings.mode, settings.period);
            market.add(spec, rows)?;
            Ok(market)
        }
        _ => unreachable!(),
    }
}
