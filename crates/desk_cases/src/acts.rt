//! The acts of a script.
ghost use Rattle.std.specs.Prelude.{◌≡◌, false, length, OnOk, IfOk};
ghost use Rattle.market_types.specs.Ordered.{IsMoment, IsPrice};
ghost use Rattle.market_data.specs.Quotes.{IsAsk};
ghost use Rattle.desk.specs.Quotes.{MayQuote};

use crate::state::{tell_state, tell_stats};
use crate::stop::Stop;
use crate::trial::Trial;
use crate::words::Words;
use desk::{Desk, DeskFault};
use fx8::{Fix8, OutOfMemory};
use judgement::{Answer, Request};
use market_types::Quote;
use positions::PositionRule;
use std::alloc::Global;

/// Takes a Bid that a quote of a price file may have.
fn bid_price(words: &mut Words<'_>) -> Result<Fix8, Stop>
    ensures { IfOk result IsPrice }
{
    let units = words.number(1, 1_000_000_000_000_000)?;
    Ok(Fix8::of_units(units))
}

/// Takes an Ask that a quote of a price file may have: it may lie 1,000,000 points above the greatest price.
fn ask_price(words: &mut Words<'_>) -> Result<Fix8, Stop>
    ensures { IfOk result IsAsk }
{
    let units = words.number(1, 1_100_000_000_000_000)?;
    Ok(Fix8::of_units(units))
}

/// Takes a time of the years 1970 to 2999, in milliseconds.
fn moment(words: &mut Words<'_>) -> Result<i64, Stop>
    ensures { IfOk result IsMoment }
{
    words.number(0, 32_503_679_999_999)
}

/// A loud quote of the one symbol.
fn quote_of(time_ms: i64, bid: Fix8, ask: Fix8) -> Quote
    ensures symbol { result.symbol ≡ 0 }
    ensures time { result.time_ms ≡ time_ms }
    ensures bid { result.bid ≡ bid }
    ensures ask { result.ask ≡ ask }
{
    Quote {
        symbol: 0,
        time_ms,
        bid,
        ask,
        last: Fix8::of_units(0),
        volume: Fix8::of_units(0),
        flags: 6,
        loud: true,
    }
}

/// Tells that the desk takes no more deals or requests.
fn tell_exhausted(trial: &mut Trial, what: &str) -> Result<(), Stop> {
    trial.give("= too many ")?;
    trial.give(what)?;
    trial.give("\n")?;
    Ok(())
}

/// Does the work of a quote.
fn do_quote<P: PositionRule + Drop>(
    trial: &mut Trial,
    desk: &mut Desk<P>,
    quote: &Quote,
) -> Result<(), Stop>
    requires open { desk.old.closed ≡ false }
    requires quote { MayQuote desk.old.quoted quote.now }
    ensures open { OnOk result (desk.new.closed ≡ false) }
    ensures spec { OnOk result (desk.new.quoted.spec ≡ desk.old.quoted.spec) }
{
    match desk.quote(quote) {
        Ok(()) => Ok(()),
        Err(DeskFault::OutOfMemory) => Err(Stop::OutOfMemory),
        Err(DeskFault::DealsExhausted) => tell_exhausted(trial, "deals"),
        Err(DeskFault::RequestsExhausted) => tell_exhausted(trial, "requests"),
    }
}

/// Takes a quote, and does its work.
fn quote<P: PositionRule + Drop>(
    trial: &mut Trial,
    desk: &mut Desk<P>,
    words: &mut Words<'_>,
) -> Result<(), Stop>
    requires open { desk.old.closed ≡ false }
    requires one { length desk.old.quoted.spec.specs ≡ 1 }
    ensures open { OnOk result (desk.new.closed ≡ false) }
    ensures spec { OnOk result (desk.new.quoted.spec ≡ desk.old.quoted.spec) }
{
    let time_ms = moment(words)?;
    let bid = bid_price(words)?;
    let ask = ask_price(words)?;
    if time_ms < desk.last_time() {
        return Err(Stop::BadLine);
    }
    do_quote(trial, desk, &quote_of(time_ms, bid, ask))
}

/// Takes the fields of a request, in the order of MqlTradeRequest.
fn request(alloc: Global, words: &mut Words<'_>) -> Result<Request, Stop> {
    Ok(Request {
        action: words.code()?,
        magic: words.ticket()?,
        order: words.ticket()?,
        symbol: words.text(alloc)?,
        volume: words.units()?,
        price: words.units()?,
        stoplimit: words.units()?,
        sl: words.units()?,
        tp: words.units()?,
        deviation: words.ticket()?,
        kind: words.code()?,
        filling: words.code()?,
        type_time: words.code()?,
        expiration: words.number(i64::MIN, i64::MAX)?,
        comment: words.text(alloc)?,
        position: words.ticket()?,
        position_by: words.ticket()?,
    })
}

/// Tells the answer to a request.
fn tell_answer(trial: &mut Trial, answer: &Answer) -> Result<(), Stop> {
    let numbers = [
        i128::from(answer.retcode),
        i128::from(answer.order),
        i128::from(answer.deal),
        i128::from(answer.volume.units()),
        i128::from(answer.price.units()),
    ];
    trial.give_line("=", numbers.as_slice())?;
    Ok(())
}

/// Sends a request, and tells the answer.
fn do_send<P: PositionRule + Drop>(
    trial: &mut Trial,
    desk: &mut Desk<P>,
    request: &Request,
    time_ms: i64,
) -> Result<(), Stop>
    requires open { desk.old.closed ≡ false }
    ensures open { OnOk result (desk.new.closed ≡ false) }
    ensures spec { OnOk result (desk.new.quoted.spec ≡ desk.old.quoted.spec) }
{
    match desk.send(request, time_ms) {
        Ok(answer) => tell_answer(trial, &answer),
        Err(DeskFault::OutOfMemory) => Err(Stop::OutOfMemory),
        Err(DeskFault::DealsExhausted) => tell_exhausted(trial, "deals"),
        Err(DeskFault::RequestsExhausted) => tell_exhausted(trial, "requests"),
    }
}

/// Takes a request and sends it so many times. Only the last answer is told: what is left of the line is what
/// it is to be.
fn send<P: PositionRule + Drop>(
    trial: &mut Trial,
    desk: &mut Desk<P>,
    times: u32,
    words: &mut Words<'_>,
) -> Result<(), Stop>
    requires open { desk.old.closed ≡ false }
    ensures open { OnOk result (desk.new.closed ≡ false) }
    ensures spec { OnOk result (desk.new.quoted.spec ≡ desk.old.quoted.spec) }
{
    let time_ms = words.number(i64::MIN, i64::MAX)?;
    let request = request(trial.alloc(), words)?;
    'turns: for _ in 0..times {
        trial.forget_given();
        do_send(trial, desk, &request, time_ms)?;
    }
    trial.want(words.rest())?;
    Ok(())
}

/// Takes a number and a request, and sends it so many times.
fn send_again<P: PositionRule + Drop>(
    trial: &mut Trial,
    desk: &mut Desk<P>,
    words: &mut Words<'_>,
) -> Result<(), Stop>
    requires open { desk.old.closed ≡ false }
    ensures open { OnOk result (desk.new.closed ≡ false) }
    ensures spec { OnOk result (desk.new.quoted.spec ≡ desk.old.quoted.spec) }
{
    let times = words.small(1, 1_000_000)?;
    if words.word() != "send" {
        return Err(Stop::BadLine);
    }
    send(trial, desk, times, words)
}

/// Closes all.
fn close<P: PositionRule + Drop>(trial: &mut Trial, desk: &mut Desk<P>) -> Result<(), Stop>
    requires open { desk.old.closed ≡ false }
    ensures open { OnOk result (desk.new.closed ≡ false) }
    ensures spec { OnOk result (desk.new.quoted.spec ≡ desk.old.quoted.spec) }
{
    match desk.close_all() {
        Ok(()) => Ok(()),
        Err(DeskFault::OutOfMemory) => Err(Stop::OutOfMemory),
        Err(DeskFault::DealsExhausted) => tell_exhausted(trial, "deals"),
        Err(DeskFault::RequestsExhausted) => tell_exhausted(trial, "requests"),
    }
}

/// Does the act that a word names, and tells what it answers.
fn act<P: PositionRule + Drop>(
    trial: &mut Trial,
    desk: &mut Desk<P>,
    name: &str,
    words: &mut Words<'_>,
) -> Result<(), Stop>
    requires open { desk.old.closed ≡ false }
    requires one { length desk.old.quoted.spec.specs ≡ 1 }
    ensures open { OnOk result (desk.new.closed ≡ false) }
    ensures spec { OnOk result (desk.new.quoted.spec ≡ desk.old.quoted.spec) }
{
    match name {
        "quote" => quote(trial, desk, words),
        "send" => send(trial, desk, 1, words),
        "again" => send_again(trial, desk, words),
        "close" => close(trial, desk),
        _ => Err(Stop::BadLine),
    }
}

/// How many deals there are.
fn deals<P: PositionRule + Drop>(desk: &Desk<P>) -> u64 {
    desk.ledger().deals().len()
}

/// Tells what an act left of a desk that had so many deals: nothing after a request that was sent again.
fn tell_left<P: PositionRule + Drop>(
    trial: &mut Trial,
    desk: &Desk<P>,
    name: &str,
    from: u64,
) -> Result<(), OutOfMemory>
    requires { desk.now.closed ≡ false }
{
    if name == "again" {
        return Ok(());
    }
    tell_state(trial, desk, from)?;
    if name == "close" {
        tell_stats(trial, desk)?;
    }
    Ok(())
}

/// Does the act of a line, and tells what it answers and leaves.
fn do_line<P: PositionRule + Drop>(
    trial: &mut Trial,
    desk: &mut Desk<P>,
    line: &str,
) -> Result<(), Stop>
    requires open { desk.old.closed ≡ false }
    requires one { length desk.old.quoted.spec.specs ≡ 1 }
    ensures open { OnOk result (desk.new.closed ≡ false) }
    ensures spec { OnOk result (desk.new.quoted.spec ≡ desk.old.quoted.spec) }
{
    trial.begin_act()?;
    let from = deals(desk);
    let mut words = Words::of(line);
    let name = words.word();
    act(trial, desk, name, &mut words)?;
    tell_left(trial, desk, name, from)?;
    Ok(())
}

/// Whether a line says nothing: an empty one, and one that begins with `#`.
pub fn is_comment(line: &str) -> bool {
    line.is_empty() || line.strip_prefix("#").is_some()
}

/// Whether a line is an act: else it is one that an act is to give.
fn is_act(line: &str) -> bool {
    let mut words = Words::of(line);
    matches!(words.word(), "quote" | "send" | "again" | "close")
}

/// Takes a line of a script.
pub fn take_line<P: PositionRule + Drop>(
    trial: &mut Trial,
    desk: &mut Desk<P>,
    line: &str,
) -> Result<(), Stop>
    requires open { desk.old.closed ≡ false }
    requires one { length desk.old.quoted.spec.specs ≡ 1 }
    ensures open { OnOk result (desk.new.closed ≡ false) }
    ensures spec { OnOk result (desk.new.quoted.spec ≡ desk.old.quoted.spec) }
{
    trial.count_line();
    if is_comment(line) {
        return Ok(());
    }
    if is_act(line) {
        return do_line(trial, desk, line);
    }
    trial.want(line)?;
    Ok(())
}
