//! The reading of price files.
ghost use Rattle.std.specs.Prelude.{◌≡◌, IfOk, None, false};
ghost use Rattle.csv.specs.Reading.{strip_bom};
ghost use Rattle.market_types.specs.Ordered.{AreBars, AreTicks};
ghost use Rattle.price_records.specs.Records.{is_line_end, records};
ghost use Rattle.price_rows.specs.Rows.{judged_bar, judged_tick};
ghost use Rattle.price_rows.specs.Files.{rows_from, separator, bars_under_header, ticks_under_header, bars_of_file, ticks_of_file};
ghost use Rattle.price_rows.specs.Views.{Answers};

use crate::RowFault;
use crate::bar_row::judged_bar;
use crate::fields::{is_bar_header, tick_width};
use crate::text::{units, utf16};
use crate::tick_row::judged_tick;
use csv::ByteRecord;
use fx8::{ItemList, OutOfMemory};
use market_types::{BarList, TickList};
use price_records::Records;
use std::alloc::Global;

/// The fault of a text whose first line that is not empty is not the header.
const NO_HEADER: RowFault = RowFault::Rule { row: 1, rule: 1 };

/// The fault of a text of UTF-16 with an odd number of bytes.
const ODD_LENGTH: RowFault = RowFault::Rule { row: 0, rule: 9 };

/// The bars of the records that are left.
fn bars_in(alloc: Global, mut records: Records<'_>) -> Result<BarList, RowFault>
    ensures exact { Answers (rows_from judged_bar 2 None records.entry) result }
    ensures bars { IfOk result AreBars }
{
    let mut bars = ItemList::new(alloc);
    let mut record = ByteRecord::new(alloc);
    let mut row = 2u32;
    while records.next(&mut record)? {
        match judged_bar(row, bars.as_slice().last(), &record) {
            Ok(next) => {
                bars.push(next)?;
                row += 1;
            }
            Err(rule) => return Err(RowFault::Rule { row, rule }),
        }
    }
    Ok(bars)
}

/// The ticks of the records that are left, each of so many fields.
fn ticks_in(alloc: Global, mut records: Records<'_>, width: usize) -> Result<TickList, RowFault>
    ensures exact { Answers (rows_from (judged_tick width) 2 None records.entry) result }
    ensures ticks { IfOk result AreTicks }
{
    let mut ticks = ItemList::new(alloc);
    let mut record = ByteRecord::new(alloc);
    let mut row = 2u32;
    while records.next(&mut record)? {
        match judged_tick(width, row, ticks.as_slice().last(), &record) {
            Ok(next) => {
                ticks.push(next)?;
                row += 1;
            }
            Err(rule) => return Err(RowFault::Rule { row, rule }),
        }
    }
    Ok(ticks)
}

/// The separator of a text: a tab where its header has one, else a comma.
fn separator_of(alloc: Global, text: &[u8]) -> Result<u8, OutOfMemory>
    ensures value { IfOk result (λ s. s ≡ separator (strip_bom text.now)) }
    ensures fits { IfOk result (λ s. is_line_end s ≡ false) }
{
    let mut records = Records::of(alloc, text, b'\t');
    let mut first = ByteRecord::new(alloc);
    if !records.next(&mut first)? {
        return Ok(b',');
    }
    if first.get(1).is_some() {
        Ok(b'\t')
    } else {
        Ok(b',')
    }
}

/// The records of a text after a byte order mark.
fn records_of<'a>(alloc: Global, text: &'a [u8]) -> Result<Records<'a>, OutOfMemory>
    ensures { IfOk result (λ r. r ≡ records (separator (strip_bom text.now)) (strip_bom text.now)) }
{
    let separator = separator_of(alloc, text)?;
    Ok(Records::of(alloc, text, separator))
}

/// The bars of a text after a byte order mark.
fn bars_of_text(alloc: Global, text: &[u8]) -> Result<BarList, RowFault>
    ensures exact { Answers (bars_under_header
        (records (separator (strip_bom text.now)) (strip_bom text.now))) result }
    ensures bars { IfOk result AreBars }
{
    let mut records = records_of(alloc, text)?;
    let mut first = ByteRecord::new(alloc);
    if !records.next(&mut first)? {
        return Err(NO_HEADER);
    }
    if is_bar_header(&first) {
        bars_in(alloc, records)
    } else {
        Err(NO_HEADER)
    }
}

/// The ticks of a text after a byte order mark.
fn ticks_of_text(alloc: Global, text: &[u8]) -> Result<TickList, RowFault>
    ensures exact { Answers (ticks_under_header
        (records (separator (strip_bom text.now)) (strip_bom text.now))) result }
    ensures ticks { IfOk result AreTicks }
{
    let mut records = records_of(alloc, text)?;
    let mut first = ByteRecord::new(alloc);
    if !records.next(&mut first)? {
        return Err(NO_HEADER);
    }
    match tick_width(&first) {
        Some(width) => ticks_in(alloc, records, width),
        None => Err(NO_HEADER),
    }
}

/// Reads a bars file as MetaTrader 5 exports it (MetaTrader 5 Help, Bars: export of history).
///
/// The text is UTF-8, with or without a byte order mark, or UTF-16 little-endian after one. Lines end in LF,
/// CR or CRLF; an empty line is no row, and a quotation mark has no meaning of its own. Fields stand between
/// tabs where the header has one, else between commas. The header, which is row 1, is `<DATE> <TIME> <OPEN>
/// <HIGH> <LOW> <CLOSE> <TICKVOL> <VOL> <SPREAD>`. A row has a date such as 2020.01.02, a time such as
/// 10:00:00 at second 0, four prices with up to 8 decimals, above 0 and at most 10,000,000, two volumes that
/// fit 64 bits, and a spread of at most 1,000,000 points.
///
/// # Errors
///
/// `Rule` with the first row that breaks a rule and the first rule that it breaks: 1 another header, 2 number
/// of fields, 3 date or time (years 1970 to 2999), 4 number, 5 time not after that of the bar before, 6 a
/// high below or a low above another price of the bar, 8 over 4,000,000 rows, and 9, told with row 0, an odd
/// number of bytes of UTF-16. A character past ASCII breaks rule 9 too, but always a lower one before it. And
/// `OutOfMemory`.
pub fn read_bars(alloc: Global, bytes: &[u8]) -> Result<BarList, RowFault>
    ensures exact { Answers (bars_of_file bytes.now) result }
    ensures bars { IfOk result AreBars }
{
    match utf16(bytes) {
        Some(rest) => match units(alloc, rest)? {
            Some(text) => bars_of_text(alloc, text.as_slice()),
            None => Err(ODD_LENGTH),
        },
        None => bars_of_text(alloc, bytes),
    }
}

/// Reads a ticks file as MetaTrader 5 exports it (MetaTrader 5 Help, Ticks: export).
///
/// Encodings, lines and separators are those of `read_bars`. The header is `<DATE> <TIME> <BID> <ASK> <LAST>
/// <VOLUME> <FLAGS>`, whose last name may be absent; each row has as many fields. A time may have three
/// decimals, as 10:00:00.100. An empty price or volume is that of the tick before, where `<LAST>` and
/// `<VOLUME>` are at first 0; empty flags are 0. Bid and Ask lie above 0, and no price is above 10,000,000.
///
/// # Errors
///
/// `Rule` as `read_bars` has it, where rule 5 is a time before that of the tick before, rule 7 is a first
/// tick without Bid or Ask, and rule 6 is never broken. And `OutOfMemory`.
pub fn read_ticks(alloc: Global, bytes: &[u8]) -> Result<TickList, RowFault>
    ensures exact { Answers (ticks_of_file bytes.now) result }
    ensures ticks { IfOk result AreTicks }
{
    match utf16(bytes) {
        Some(rest) => match units(alloc, rest)? {
            Some(text) => ticks_of_text(alloc, text.as_slice()),
            None => Err(ODD_LENGTH),
        },
        None => ticks_of_text(alloc, bytes),
    }
}
