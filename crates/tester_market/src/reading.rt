//! Settings files and price files.
ghost use Rattle.std.specs.Prelude.{◌≡◌, Ok, IfOk, IfErr, length};
ghost use Rattle.tester_answer.specs.Clauses.{OnlyRead, Refused, Never};
ghost use Rattle.tester_settings.specs.Ranges.{AreSettings};
ghost use Rattle.settings_file.specs.Settings.{AreSettingsOf};
ghost use Rattle.market_data.specs.Markets.{AreRows};
ghost use Rattle.tester_market.specs.Reading.{HasSettings, HasRows, SettingsStatus, RowsStatus, settings_plan, rows_plan, rows_of, row_status};
ghost use Rattle.tester_answer.specs.Answer.{never};

use fx8::Text8;
use market_types::{Mode, Rows};
use price_rows::{RowFault, read_bars, read_ticks};
use settings_file::{Expert, SettingsFault, SettingsFile, read_settings};
use std::alloc::Global;
use tester_answer::Status;
use tester_answer::outside::read;
use tester_io::Files;

/// The most bytes of a settings file.
pub const SETTINGS_LIMIT: u64 = 1_048_576;

/// The most bytes of a price file.
pub const PRICE_LIMIT: u64 = 536_870_912;

// The settings of bytes, or the status that refuses them.
fn judge_settings(alloc: Global, need: Expert, bytes: &[u8]) -> Result<SettingsFile, Status>
    ensures are { IfOk result (λ file. AreSettingsOf need bytes.now (Ok file)) }
    ensures range { IfOk result (λ file. AreSettings file.settings) }
    ensures one { IfOk result (λ file. length file.settings.symbols ≡ 1) }
    ensures refused { IfErr result (SettingsStatus need bytes.now) }
{
    match read_settings(alloc, need, bytes) {
        Ok(file) => Ok(file),
        Err(SettingsFault::Rule { rule, key }) => Err(Status::Settings { rule, key }),
        Err(SettingsFault::OutOfMemory) => Err(Status::OutOfMemory),
    }
}

/// Reads the settings file of that name and judges it.
pub fn read_test_settings<F: Files>(
    alloc: Global,
    need: Expert,
    name: &Text8,
    files: &mut F,
) -> Result<SettingsFile, Status>
    ensures only_read { OnlyRead (F.seen files.old) (F.seen files.new) }
    ensures read { IfOk result (HasSettings need name.now (F.seen files.old).told) }
    ensures range { IfOk result (λ file. AreSettings file.settings) }
    ensures one { IfOk result (λ file. length file.settings.symbols ≡ 1) }
    ensures refused { IfErr result (Refused Never (settings_plan need name.now (λ file. never))
        (F.seen files.old) (F.seen files.new)) }
{
    let bytes = read(alloc, files, name, SETTINGS_LIMIT)?;
    judge_settings(alloc, need, bytes.as_slice())
}

// The rows of bytes as a mode needs them, or the status that refuses the file of that name.
fn judge_rows(alloc: Global, mode: Mode, name: Text8, bytes: &[u8]) -> Result<Rows, Status>
    ensures are { IfOk result (λ found. rows_of mode bytes.now ≡ Ok found) }
    ensures range { IfOk result (AreRows mode) }
    ensures refused { IfErr result (RowsStatus mode name bytes.now) }
{
    match mode {
        Mode::Ticks => match read_ticks(alloc, bytes) {
            Ok(ticks) => Ok(Rows::Ticks(ticks)),
            Err(fault) => Err(row_status(name, fault)),
        },
        Mode::Ohlc | Mode::Opening => match read_bars(alloc, bytes) {
            Ok(bars) => Ok(Rows::Bars(bars)),
            Err(fault) => Err(row_status(name, fault)),
        },
    }
}

// The status that tells a fault of rows.
fn row_status(name: Text8, fault: RowFault) -> Status
    ensures { result ≡ row_status name fault }
{
    match fault {
        RowFault::Rule { row, rule } => Status::Prices {
            file: name,
            row,
            rule,
        },
        RowFault::OutOfMemory => Status::OutOfMemory,
    }
}

/// Reads the price file of that name, whose rows a mode needs, and judges it.
pub fn read_rows<F: Files>(
    alloc: Global,
    mode: Mode,
    name: &Text8,
    files: &mut F,
) -> Result<Rows, Status>
    ensures only_read { OnlyRead (F.seen files.old) (F.seen files.new) }
    ensures read { IfOk result (HasRows mode name.now (F.seen files.old).told) }
    ensures range { IfOk result (AreRows mode) }
    ensures refused { IfErr result (Refused Never (rows_plan mode name.now (λ found. never))
        (F.seen files.old) (F.seen files.new)) }
{
    let bytes = read(alloc, files, name, PRICE_LIMIT)?;
    let told = Text8::from_slice(alloc, name.as_slice())?;
    judge_rows(alloc, mode, told, bytes.as_slice())
}
