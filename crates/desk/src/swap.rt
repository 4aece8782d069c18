//! Swap: what positions earn or cost in the nights between two loud quotes.
ghost use Rattle.std.specs.Prelude.{◌≡◌, ◌≤◌, ◌<◌, ◌++◌, ◌∷◌, [], ◌^◌, ◌*◌, ◌*ℤ◌, pos, true, false, unsigned_abs, map, OnOk, OnErr, IfOk};
ghost use Rattle.fx8.specs.Rounding.{rounded};
ghost use Rattle.market_types.specs.Ranges.{IsSpec, IsSwap};
ghost use Rattle.desk.specs.Books.{gained};
ghost use Rattle.desk.specs.Effect.{swaps, with_quote};
ghost use Rattle.desk.specs.Nights.{night_after, nights_from, nights_between, swap_rate, swap_amount, swap_event, swap_events, accrual};
ghost use Rattle.desk.specs.Quotes.{MayQuote};
ghost use Rattle.desk.specs.Sound.{day_of, MayFollow};

use crate::books::Books;
use account::Position;
use fx8::{Fix8, Money, OutOfMemory, rounded};
use market_types::{Quote, SymbolSpec};
use positions::{PositionRule, spec_at};
use std::alloc::Global;

/// The day of a time in milliseconds, counted from 1970-01-01.
fn day_of(time_ms: i64) -> u64
    ensures value { result ≡ day_of time_ms }
    ensures small { result < 2 ^ 40 }
{
    time_ms.unsigned_abs() / 86_400_000
}

/// How often the night after a day counts: not after Saturday and Sunday, three times after the triple day.
#[tactic(auto, unfolding(crate::specs::Nights::night_after))]
fn night_after(swap_day: u8, day: u64) -> u64
    requires { day < 2 ^ 41 }
    ensures value { result ≡ night_after swap_day day }
    ensures most { result ≤ 3 }
{
    let weekday = (day + 4) % 7;
    if weekday == 6 || weekday == 0 {
        0
    } else if weekday == swap_day as u64 {
        3
    } else {
        1
    }
}

/// The nights after so many days from a day on.
fn nights_from(swap_day: u8, day: u64, days: u64) -> u64
    requires from { day < 2 ^ 40 }
    requires to { days < 2 ^ 40 }
    ensures value { result ≡ nights_from swap_day day days }
    ensures most { result ≤ 3 * days }
{
    let mut nights = 0;
    let mut done = 0;
    while done < days {
        nights += night_after(swap_day, day + done);
        done += 1;
    }
    nights
}

/// The nights from one loud quote to the next; none before the first.
fn nights_between(swap_day: u8, before: Option<i64>, time_ms: i64) -> u64
    ensures value { result ≡ nights_between swap_day before time_ms }
    ensures most { result ≤ 2 ^ 42 }
{
    match before {
        Some(from) => {
            let day = day_of(from);
            nights_from(swap_day, day, day_of(time_ms).saturating_sub(day))
        }
        None => 0,
    }
}

/// A product that 128 bits hold.
fn times(a: i128, b: i128) -> i128
    requires { unsigned_abs a * unsigned_abs b < 2 ^ 127 }
    ensures value { result ≡ a *ℤ b }
    ensures size { unsigned_abs result ≡ unsigned_abs a * unsigned_abs b }
{
    a * b
}

/// The same number in more bits.
fn wide(units: i64) -> i128
    ensures value { result ≡ units }
    ensures at_most { unsigned_abs result ≤ 2 ^ 63 }
{
    units as i128
}

/// What a volume earns or costs a night, rounded to hundredths.
fn night_swap(rate: Money, volume: Fix8) -> i128
    requires { IsSwap rate }
    ensures value { result ≡ rounded (rate *ℤ volume) (pos (10 ^ 8)) }
    ensures most { unsigned_abs result ≤ 2 ^ 63 }
{
    rounded(times(rate.cents(), wide(volume.units())), 100_000_000)
}

/// What a bought, or sold, lot earns or costs a night.
fn swap_rate(spec: &SymbolSpec, position: &Position) -> Money
    requires { IsSpec spec.now }
    ensures value { result ≡ swap_rate spec.now position.now }
    ensures range { IsSwap result }
{
    if position.buy {
        spec.swap_long
    } else {
        spec.swap_short
    }
}

/// What a position earns or costs in so many nights.
#[tactic(auto, unfolding(crate::specs::Nights::swap_amount))]
fn swap_amount(spec: &SymbolSpec, nights: u64, position: &Position) -> Money
    requires spec { IsSpec spec.now }
    requires nights { nights ≤ 2 ^ 42 }
    ensures { result ≡ swap_amount spec.now nights position.now }
{
    let night = night_swap(swap_rate(spec, position), position.volume);
    Money::of_cents(times(night, nights as i128))
}

/// Adds ticket and amount of that, where the position is of the symbol at a place and it is not 0.
#[tactic(auto, using(crate::proofs::Accrued::skipped, crate::proofs::Accrued::nothing_accrued, crate::proofs::Accrued::one_accrued))]
fn push_swap(
    out: &mut Vec<(u64, Money)>,
    spec: &SymbolSpec,
    place: u8,
    nights: u64,
    position: &Position,
) -> Result<(), OutOfMemory>
    requires spec { IsSpec spec.now }
    requires nights { nights ≤ 2 ^ 42 }
    ensures { OnOk result (map accrual out.new.items
        ≡ map accrual out.old.items ++ swap_events spec.now place nights (position.now ∷ [])) }
{
    if position.symbol != place {
        return Ok(());
    }
    let amount = swap_amount(spec, nights, position);
    if amount == Money::of_cents(0) {
        return Ok(());
    }
    out.push((position.ticket, amount))?;
    Ok(())
}

/// The swap of the positions of a symbol at a place, in the order of their tickets.
fn swaps_of(
    alloc: Global,
    spec: &SymbolSpec,
    place: u8,
    nights: u64,
    positions: &[Position],
) -> Result<Vec<(u64, Money)>, OutOfMemory>
    requires spec { IsSpec spec.now }
    requires nights { nights ≤ 2 ^ 42 }
    ensures { IfOk result (λ list. map accrual list.items ≡ swap_events spec.now place nights positions.now) }
{
    let mut out = Vec::new(alloc);
    let mut rest = positions;
    while let Some((position, others)) = rest.split_first() {
        push_swap(&mut out, spec, place, nights, position)?;
        rest = others;
    }
    Ok(out)
}

/// The swap of the positions of the quote's symbol, for the nights since its loud quote before.
#[tactic(auto, using(crate::proofs::Accrued::no_symbol, crate::proofs::Accrued::no_nights, crate::proofs::Accrued::swaps_are))]
fn swaps<P: PositionRule + Drop>(
    books: &Books<P>,
    quote: &Quote,
) -> Result<Vec<(u64, Money)>, OutOfMemory>
    requires { MayQuote books.now.quoted quote.now }
    ensures { IfOk result (λ list. map accrual list.items ≡ swaps books.now.quoted quote.now) }
{
    let alloc = books.alloc();
    let Some(spec) = spec_at(&books.ledger().spec().specs, quote.symbol) else {
        return Ok(Vec::new(alloc));
    };
    let before = books.time_of(quote.symbol);
    let nights = nights_between(spec.swap_day, before, quote.time_ms);
    if nights == 0 {
        return Ok(Vec::new(alloc));
    }
    let positions = books.ledger().positions();
    swaps_of(alloc, spec, quote.symbol, nights, positions)
}

/// Positions accrue swap one after another.
fn accrue_all<P: PositionRule + Drop>(
    books: &mut Books<P>,
    list: &[(u64, Money)],
) -> Result<(), OutOfMemory>
    requires whole { books.old.broken ≡ false }
    requires follow { MayFollow books.old.quoted.spec books.old.quoted.prices books.old.quoted.times
        books.old.quoted.events (map accrual list.now) }
    ensures ok { OnOk result (books.new ≡ gained (map accrual list.now) books.old) }
    ensures err { OnErr result (books.new.broken ≡ true) }
{
    let mut rest = list;
    while let Some((swap, others)) = rest.split_first() {
        books.add_swap(swap.0, swap.1)?;
        rest = others;
    }
    Ok(())
}

/// The prices and the time of a loud quote stand from then on, and positions accrue their swap.
#[tactic(auto, using(crate::proofs::Accrued::swaps_follow))]
pub(crate) fn accrue<P: PositionRule + Drop>(
    books: &mut Books<P>,
    quote: &Quote,
) -> Result<(), OutOfMemory>
    requires whole { books.old.broken ≡ false }
    requires quote { MayQuote books.old.quoted quote.now }
    ensures ok { OnOk result (books.new ≡ gained (swaps books.old.quoted quote.now)
        (record books.old { quoted = with_quote quote.now books.old.quoted })) }
    ensures err { OnErr result (books.new.broken ≡ true) }
{
    books.is_sound();
    let Ok(list) = swaps(books, quote) else {
        books.close();
        return Err(OutOfMemory);
    };
    books.set_quote(quote);
    accrue_all(books, list.as_slice())
}
