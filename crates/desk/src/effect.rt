//! The effect of a loud quote: swap, expiry, what fires, stop-out.
ghost use Rattle.std.specs.Prelude.{◌≡◌, false, None, OnOk};
ghost use Rattle.account.specs.StopOut.{worst};
ghost use Rattle.desk.specs.Effect.{effect, with_quote};
ghost use Rattle.desk.specs.Quotes.{MayQuote};
ghost use Rattle.desk.specs.Runs.{Runs};

use crate::DeskFault;
use crate::books::Books;
use crate::expiry::expire;
use crate::firing::fire_all;
use crate::stop_out::stop_out;
use crate::swap::accrue;
use market_types::Quote;
use positions::PositionRule;

/// What a loud quote does to an account before the expert sees it.
#[tactic(auto, using(crate::proofs::Whole::effect_stops, crate::proofs::Whole::effect_ends))]
pub(crate) fn effect<P: PositionRule + Drop>(
    books: &mut Books<P>,
    quote: &Quote,
) -> Result<(), DeskFault>
    requires whole { books.old.broken ≡ false }
    requires quote { MayQuote books.old.quoted quote.now }
    ensures runs { Runs (record books.old { quoted = with_quote quote.now books.old.quoted })
        (effect books.old.quoted quote.now) result books.new }
    ensures done { OnOk result (worst books.new.quoted.spec books.new.quoted.prices
        books.new.quoted.events ≡ None) }
{
    if accrue(books, quote).is_err() {
        return Err(DeskFault::OutOfMemory);
    }
    if expire(books, quote).is_err() {
        return Err(DeskFault::OutOfMemory);
    }
    let fired = fire_all(books, quote);
    if fired.is_err() {
        return fired;
    }
    stop_out(books, quote.time_ms)
}
