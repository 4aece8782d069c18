//! Bars of the quotes so far.
ghost use Rattle.std.specs.Prelude.{◌≡◌, ◌≤◌, ◌<◌, ◌+◌, ◌++◌, ℕ, List, [], ◌∷◌, length, map, All, IfOk, IfSome, OnOk, OnErr, slice_get, slice_index_or, slice_set, position};
ghost use Rattle.market_types.specs.declared.quote.Quote.{Quote};
ghost use Rattle.market_types.specs.declared.symbol_spec.SymbolSpec.{SymbolSpec};
ghost use Rattle.market_data.specs.Quotes.{IsQuote};
ghost use Rattle.indicators.specs.Prices.{IsPriced};
ghost use Rattle.indicators.specs.Averages.{newest};
ghost use Rattle.indicators.specs.Values.{IsIndicator};
ghost use Rattle.series.specs.declared.held.Held.{Held};
ghost use Rattle.series.specs.Bars.{of_symbol, all_bars, told_bars, most_told};
ghost use Rattle.series.specs.Stored.{Histories};
ghost use Rattle.series.specs.Symbols.{histories, without_bars, with_quote_each, FitEach};
ghost use Rattle.series.specs.Filled.{kept_bars};
ghost use Rattle.series.specs.Stands.{StandsFor, HaveVolumesOf, digits};
ghost use Rattle.series.specs.Asked.{Fills, copied, buffered_at, number_of, same_spec, judged, asked, bars_before, Numbers};

use crate::copies::{copy_bars, copy_values};
use crate::fault::SeriesFault;
use crate::held::Held;
use crate::symbol_bars::SymbolBars;
use fx8::{FixList, ItemList, OutOfMemory};
use indicators::{Indicator, IndicatorSpec};
use market_types::{Bar, BarList, Period, Quote, Specs};
use std::alloc::Global;
use std::marker::Model;

/// How many bars of a symbol and period are told.
const MOST_TOLD: u32 = 20_000;

/// How many indicators are held at most.
const MOST_HELD: u64 = 64;

/// The bars that the quotes so far make, for each symbol and period, and the indicators that were asked for.
/// It stands for every list of quotes that makes the bars which it keeps.
#[derive(Drop)]
pub struct Series {
    alloc: Global,
    symbols: Vec<SymbolBars>,
    held: ItemList<Held>,
}

impl Model for Series {
    ghost use Rattle.std.specs.Prelude.{List, map};
    ghost use Rattle.series.specs.declared.held.Held.{Held};
    ghost use Rattle.indicators.specs.Values.{IsIndicator};
    ghost use Rattle.series.specs.Symbols.{histories};
    ghost use Rattle.series.specs.Stands.{Kept, AreHeld};

    ghost Value = { Kept };

    ghost view = { λ s. record { symbols = map histories s.symbols.items; held = s.held } };

    ghost invariant = { λ s. AreHeld s.held };
}

/// Takes a quote into the bars of its symbol.
fn take(symbols: &mut Vec<SymbolBars>, quote: &Quote) -> Result<(), OutOfMemory>
    requires symbol { quote.now.symbol < length symbols.old.items }
    requires quote { IsQuote quote.now }
    requires volumes { (none : Histories)
        → FitEach quote.now (slice_index_or (map histories symbols.old.items) quote.now.symbol none) }
    ensures taken { OnOk result ((none : Histories) → map histories symbols.new.items
        ≡ slice_set (map histories symbols.old.items) quote.now.symbol
        (with_quote_each quote.now (slice_index_or (map histories symbols.old.items) quote.now.symbol none))) }
    ensures refused { OnErr result (map histories symbols.new.items ≡ map histories symbols.old.items) }
{
    let bars = &mut symbols[quote.symbol as usize];
    bars.reserve()?;
    bars.take(quote);
    Ok(())
}

/// Whether two specs are equal.
fn is_same(a: &IndicatorSpec, b: &IndicatorSpec) -> bool
    ensures { result ≡ same_spec a.now b.now }
{
    a.kind == b.kind
        && a.symbol == b.symbol
        && a.period.seconds() == b.period.seconds()
        && a.length == b.length
        && a.shift == b.shift
        && a.method == b.method
        && a.price == b.price
}

impl Series {
    /// The series before the first quote, which holds no indicator.
    pub fn new(alloc: Global, specs: &Specs) -> Result<Series, OutOfMemory>
        ensures stands { IfOk result (λ s. StandsFor s []) }
        ensures digits { IfOk result (λ s. digits s ≡ map (λ (spec : SymbolSpec). spec.digits) specs.now) }
        ensures held { IfOk result (λ s. s.held ≡ []) }
    {
        let mut symbols = Vec::new(alloc);
        for spec in specs.as_slice() {
            symbols.push(SymbolBars::new(alloc, spec.digits))?;
        }
        Ok(Series {
            alloc,
            symbols,
            held: ItemList::new(alloc),
        })
    }

    /// Takes a quote: the series then stands for the quotes so far with this one. Its symbol is one of the
    /// specs, and no volume of a bar leaves its type. A refused quote changes nothing.
    pub fn push(&mut self, quote: &Quote) -> Result<(), OutOfMemory>
        requires symbol { quote.now.symbol < length self.old.symbols }
        requires quote { IsQuote quote.now }
        requires volumes { (quotes : List Quote) × StandsFor self.old quotes
            × HaveVolumesOf self.old (quotes ++ quote.now ∷ []) }
        ensures taken { OnOk result ((quotes : List Quote) → StandsFor self.old quotes
            → StandsFor self.new (quotes ++ quote.now ∷ [])) }
        ensures digits { digits self.new ≡ digits self.old }
        ensures held { self.new.held ≡ self.old.held }
        ensures refused { OnErr result (self.new ≡ self.old) }
    {
        take(&mut self.symbols, quote)
    }

    /// All bars of a symbol and period; none of a symbol that is not there.
    fn all(&self, symbol: u8, period: Period) -> &[Bar]
        ensures value { result.now ≡ kept_bars self.now.symbols symbol period }
        ensures priced { All IsPriced result.now }
    {
        match self.symbols.get(symbol as usize) {
            Some(bars) => bars.of(period).as_slice(),
            None => &[],
        }
    }

    /// The bars of a symbol and period that are told.
    fn told(&self, symbol: u8, period: Period) -> &[Bar]
        ensures value { result.now ≡ newest most_told (kept_bars self.now.symbols symbol period) }
        ensures few { length result.now ≤ most_told }
    {
        let bars = self.all(symbol, period);
        let (_, told) = bars.split_at(bars.len().saturating_sub(MOST_TOLD as usize));
        told
    }

    /// How many bars of a symbol and period are told: at most 20,000, and 0 of a symbol that is not there.
    pub fn bars(&self, symbol: u8, period: Period) -> u32
        ensures { (quotes : List Quote) → StandsFor self.now quotes
            → result ≡ length (told_bars (digits self.now) symbol period quotes) }
    {
        self.told(symbol, period).len() as u32
    }

    /// Fills a list with so many bars, the oldest first, of which the last has `start` bars behind it.
    /// `NotEnough` comes exactly where there are not so many bars; the list then stays as it was.
    pub fn copy(
        &self,
        symbol: u8,
        period: Period,
        start: u32,
        count: u32,
        out: &mut BarList,
    ) -> Result<(), SeriesFault>
        ensures { (quotes : List Quote) → StandsFor self.now quotes
            → Fills (copied start count (told_bars (digits self.now) symbol period quotes))
            out.old result out.new }
    {
        copy_bars(self.alloc, self.told(symbol, period), start, count, out)
    }

    /// The number of the indicator that is held for a spec.
    fn number_of(&self, spec: &IndicatorSpec) -> Option<usize>
        ensures { result ≡ number_of spec.now self.now.held }
    {
        self.held
            .as_slice()
            .iter()
            .position(|held| is_same(&held.spec, spec))
    }

    /// The indicator that is meant; `None` exactly where its symbol is not there or a number is out of range.
    fn judged(&self, spec: &IndicatorSpec) -> Option<Indicator>
        ensures value { result ≡ judged (digits self.now) spec.now }
        ensures ranges { IfSome result IsIndicator }
    {
        if spec.symbol as usize >= self.symbols.len() {
            return None;
        }
        spec.indicator()
    }

    /// The number of an indicator, which is the same for an equal spec. Its bar 0 is the oldest bar that is
    /// told when it is first asked for. `BadSpec` comes exactly where a number of the spec that is read is out
    /// of range, `TooMany` exactly where 64 others are held. A refused call changes nothing.
    pub fn indicator(&mut self, spec: IndicatorSpec) -> Result<u32, SeriesFault>
        ensures { (quotes : List Quote) → StandsFor self.old quotes
            → Numbers (asked (judged (digits self.old) spec) spec
            (bars_before (digits self.old) spec quotes) self.old.held)
            self.old result self.new }
    {
        let Some(indicator) = self.judged(&spec) else {
            return Err(SeriesFault::BadSpec);
        };
        if let Some(number) = self.number_of(&spec) {
            return Ok(number as u32);
        }
        let number = self.held.len();
        if number >= MOST_HELD {
            return Err(SeriesFault::TooMany);
        }
        let bars = self.all(spec.symbol, spec.period).len();
        let first = bars.saturating_sub(MOST_TOLD as usize) as u64;
        self.held.push(Held {
            spec,
            indicator,
            first,
        })?;
        Ok(number as u32)
    }

    /// Fills a list with so many values of an indicator, the oldest first, of which the last has `start` bars
    /// behind it. `BadNumber` comes exactly where no indicator has the number, `NotEnough` exactly where there
    /// are not so many bars; the list then stays as it was.
    pub fn copy_buffer(
        &self,
        number: u32,
        start: u32,
        count: u32,
        out: &mut FixList,
    ) -> Result<(), SeriesFault>
        ensures { (quotes : List Quote) → StandsFor self.now quotes
            → Fills (buffered_at (digits self.now) (slice_get self.now.held number) start count quotes)
            out.old result out.new }
    {
        let Some(held) = self.held.at(number as u64) else {
            return Err(SeriesFault::BadNumber);
        };
        let bars = self.all(held.spec.symbol, held.spec.period);
        copy_values(self.alloc, held, bars, start, count, out)
    }
}
