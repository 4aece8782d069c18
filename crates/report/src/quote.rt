//! The lines of quotes.
ghost use Rattle.std.specs.Prelude.{◌≡◌, ◌<◌, [], ◌∷◌, ◌++◌, length, IfOk, OnOk};
ghost use Rattle.market_data.specs.Markets.{quotes};
ghost use Rattle.report.specs.Pieces.{Appends};
ghost use Rattle.report.specs.Times.{IsReportTime};
ghost use Rattle.report.specs.Quotes.{loudness, prices_text, IsQuoteLine, IsLineIn, AreQuoteLines};

use crate::time::push_time;
use fx8::{OutOfMemory, Text8};
use market_data::{Market, Quotes};
use market_types::Quote;
use std::alloc::Global;

fn loudness(loud: bool) -> &'static str
    ensures { result.now ≡ loudness loud }
{
    if loud { "loud" } else { "silent" }
}

#[tactic(auto, unfolding(crate::specs::Quotes::prices_text))]
fn push_prices(text: &mut Text8, quote: &Quote) -> Result<(), OutOfMemory>
    ensures { OnOk result (text.new ≡ text.old ++ prices_text quote.now) }
{
    text.push(b' ')?;
    quote.bid.print(text)?;
    text.push(b' ')?;
    quote.ask.print(text)?;
    text.push(b' ')?;
    quote.last.print(text)?;
    text.push(b' ')?;
    quote.volume.print(text)
}

fn push_name(text: &mut Text8, name: &[u8]) -> Result<(), OutOfMemory>
    ensures { OnOk result (text.new ≡ text.old ++ 32 ∷ name.now) }
{
    text.push(b' ')?;
    text.extend_from_slice(name)
}

fn push_loudness(text: &mut Text8, loud: bool) -> Result<(), OutOfMemory>
    ensures { OnOk result (text.new ≡ text.old ++ (32 ∷ loudness loud ++ 10 ∷ [])) }
{
    text.push(b' ')?;
    text.extend_from_slice(loudness(loud).as_bytes())?;
    text.push(b'\n')
}

/// Adds the line of a quote of the symbol of that name, as
/// `2020.01.02 10:00:00.100 EURUSD 1.1 1.1002 0.0 0.0 loud`. It asks for a time of the years 1970 to 2999.
pub fn push_quote_line(text: &mut Text8, name: &[u8], quote: &Quote) -> Result<(), OutOfMemory>
    requires { IsReportTime quote.now.time_ms }
    ensures { OnOk result (Appends (IsQuoteLine name.now quote.now) text.old text.new) }
{
    push_time(text, quote.time_ms)?;
    push_name(text, name)?;
    push_prices(text, quote)?;
    push_loudness(text, quote.loud)
}

/// Adds the line of a quote of a market.
fn push_line(text: &mut Text8, market: &Market, quote: &Quote) -> Result<(), OutOfMemory>
    requires symbol { quote.now.symbol < length market.now.listed }
    requires time { IsReportTime quote.now.time_ms }
    ensures { OnOk result (Appends (IsLineIn market.now quote.now) text.old text.new) }
{
    match market.spec(quote.symbol) {
        Some(spec) => push_quote_line(text, spec.name.as_slice(), quote),
        None => unreachable!(),
    }
}

/// The line of a quote of a market, as `2020.01.02 10:00:00.100 EURUSD 1.1 1.1002 0.0 0.0 loud`: its time,
/// symbol, Bid, Ask, last price and volume, and `silent` where the expert does not see it. It asks for a
/// symbol of the market and a time of the years 1970 to 2999.
pub fn quote_line(alloc: Global, market: &Market, quote: &Quote) -> Result<Text8, OutOfMemory>
    requires symbol { quote.now.symbol < length market.now.listed }
    requires time { IsReportTime quote.now.time_ms }
    ensures { IfOk result (IsLineIn market.now quote.now) }
{
    let mut text = Text8::new(alloc);
    push_line(&mut text, market, quote)?;
    Ok(text)
}

/// The lines of all the quotes of a market.
pub fn quotes_text(alloc: Global, market: &Market) -> Result<Text8, OutOfMemory>
    ensures { IfOk result (AreQuoteLines market.now (quotes market.now)) }
{
    let mut text = Text8::new(alloc);
    let mut stream = Quotes::start(market);
    while let Some(quote) = stream.next() {
        push_line(&mut text, market, &quote)?;
    }
    Ok(text)
}
