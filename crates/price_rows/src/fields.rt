//! The fields of a row, by their names.
ghost use Rattle.std.specs.Prelude.{◌≡◌, codes};
ghost use Rattle.std.specs.Str.{bytes_eq};
ghost use Rattle.csv.specs.Records.{fields_of};
ghost use Rattle.price_rows.specs.Rows.{field, bar_text, is_bar_header, are_bar_names, tick_text, are_tick_names, tick_width};
ghost use Rattle.price_rows.specs.Views.{bar_texts, tick_texts};

use csv::ByteRecord;

const DATE: &[u8] = b"<DATE>";

const TIME: &[u8] = b"<TIME>";

const OPEN: &[u8] = b"<OPEN>";

const HIGH: &[u8] = b"<HIGH>";

const LOW: &[u8] = b"<LOW>";

const CLOSE: &[u8] = b"<CLOSE>";

const TICKVOL: &[u8] = b"<TICKVOL>";

const VOL: &[u8] = b"<VOL>";

const SPREAD: &[u8] = b"<SPREAD>";

const BID: &[u8] = b"<BID>";

const ASK: &[u8] = b"<ASK>";

const LAST: &[u8] = b"<LAST>";

const VOLUME: &[u8] = b"<VOLUME>";

const FLAGS: &[u8] = b"<FLAGS>";

/// The fields of a bar, in the order of the header.
#[derive(Clone, Copy)]
pub(crate) struct BarFields<'a> {
    pub(crate) date: &'a [u8],
    pub(crate) time: &'a [u8],
    pub(crate) opening: &'a [u8],
    pub(crate) high: &'a [u8],
    pub(crate) low: &'a [u8],
    pub(crate) closing: &'a [u8],
    pub(crate) tick_volume: &'a [u8],
    pub(crate) volume: &'a [u8],
    pub(crate) spread: &'a [u8],
}

/// The fields of a tick, in the order of the header.
#[derive(Clone, Copy)]
pub(crate) struct TickFields<'a> {
    pub(crate) date: &'a [u8],
    pub(crate) time: &'a [u8],
    pub(crate) bid: &'a [u8],
    pub(crate) ask: &'a [u8],
    pub(crate) last: &'a [u8],
    pub(crate) volume: &'a [u8],
    pub(crate) flags: &'a [u8],
}

/// The field at a place, empty where there is none.
fn field(line: &ByteRecord, place: usize) -> &[u8]
    ensures { result.now ≡ field (fields_of line.now) place }
{
    match line.get(place) {
        Some(text) => text,
        None => &[],
    }
}

impl<'a> BarFields<'a> {
    /// The fields of a bar, each empty where there is none.
    pub(crate) fn of(line: &'a ByteRecord) -> BarFields<'a>
        ensures { bar_texts result ≡ bar_text (fields_of line.now) }
    {
        BarFields {
            date: field(line, 0),
            time: field(line, 1),
            opening: field(line, 2),
            high: field(line, 3),
            low: field(line, 4),
            closing: field(line, 5),
            tick_volume: field(line, 6),
            volume: field(line, 7),
            spread: field(line, 8),
        }
    }

    /// Whether these are the names of the header.
    fn are_names(self) -> bool
        ensures { result ≡ are_bar_names (bar_texts self.entry) }
    {
        self.date == DATE
            && self.time == TIME
            && self.opening == OPEN
            && self.high == HIGH
            && self.low == LOW
            && self.closing == CLOSE
            && self.tick_volume == TICKVOL
            && self.volume == VOL
            && self.spread == SPREAD
    }
}

impl<'a> TickFields<'a> {
    /// The fields of a tick, each empty where there is none.
    pub(crate) fn of(line: &'a ByteRecord) -> TickFields<'a>
        ensures { tick_texts result ≡ tick_text (fields_of line.now) }
    {
        TickFields {
            date: field(line, 0),
            time: field(line, 1),
            bid: field(line, 2),
            ask: field(line, 3),
            last: field(line, 4),
            volume: field(line, 5),
            flags: field(line, 6),
        }
    }

    /// Whether these are the names of the header, without the last.
    fn are_names(self) -> bool
        ensures { result ≡ are_tick_names (tick_texts self.entry) }
    {
        self.date == DATE
            && self.time == TIME
            && self.bid == BID
            && self.ask == ASK
            && self.last == LAST
            && self.volume == VOLUME
    }
}

/// Whether a record is the header of bars.
pub(crate) fn is_bar_header(line: &ByteRecord) -> bool
    ensures { result ≡ is_bar_header (fields_of line.now) }
{
    line.len() == 9 && BarFields::of(line).are_names()
}

/// Whether the seventh field is the name of the flags.
fn has_flags(line: &ByteRecord) -> bool
    ensures { result ≡ bytes_eq (field (fields_of line.now) 6) (codes "<FLAGS>") }
{
    field(line, 6) == FLAGS
}

/// How many fields the header of ticks has; `None` exactly where the record is no such header.
pub(crate) fn tick_width(line: &ByteRecord) -> Option<usize>
    ensures { result ≡ tick_width (fields_of line.now) }
{
    if !TickFields::of(line).are_names() {
        return None;
    }
    if line.len() == 6 {
        return Some(6);
    }
    if line.len() == 7 && has_flags(line) {
        return Some(7);
    }
    None
}
