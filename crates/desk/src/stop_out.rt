//! Stop-out.
ghost use Rattle.std.specs.Prelude.{◌≡◌, false, None, OnOk};
ghost use Rattle.account.specs.StopOut.{worst};
ghost use Rattle.desk.specs.Effect.{stopped_out_run};
ghost use Rattle.desk.specs.Runs.{Runs};

use crate::DeskFault;
use crate::books::Books;
use crate::closing::close_position;
use account::DealReason;
use positions::PositionRule;

/// The ticket of the position that stop-out closes, where one is due.
#[tactic(auto, using(crate::proofs::StopOutDue::is_priced))]
fn worst<P: PositionRule + Drop>(books: &Books<P>) -> Option<u64>
    ensures { result
        ≡ worst books.now.quoted.spec books.now.quoted.prices books.now.quoted.events }
{
    books.is_sound();
    let prices = books.prices();
    prices.ranges();
    books.ledger().worst(prices)
}

/// While a stop-out is due, closes the position of least floating profit (MetaTrader 5 Help, Stop Out).
#[tactic(auto, using(crate::proofs::StopOutDue::stopping_begins, crate::proofs::StopOutDue::stopping_goes, crate::proofs::StopOutDue::stopping_done, crate::proofs::StopOutDue::stopping_ends, crate::proofs::StopOutEnds::none_worst))]
pub(crate) fn stop_out<P: PositionRule + Drop>(
    books: &mut Books<P>,
    time_ms: i64,
) -> Result<(), DeskFault>
    requires { books.old.broken ≡ false }
    ensures runs { Runs books.old (stopped_out_run books.old.quoted.spec books.old.quoted.prices time_ms
        (record { events = books.old.quoted.events; full = false })) result books.new }
    ensures done { OnOk result (worst books.new.quoted.spec books.new.quoted.prices
        books.new.quoted.events ≡ None) }
{
    let mut left = books.rule().len();
    while left > 0 {
        let Some(ticket) = worst(books) else {
            return Ok(());
        };
        books.is_sound();
        close_position(books, time_ms, DealReason::StopOut, ticket)?;
        left -= 1;
    }
    Ok(())
}
