//! What a request does to the books.
ghost use Rattle.std.specs.Prelude.{◌≡◌, ◌≤◌, ◌<◌, ◌+◌, ◌^◌, ◌∷◌, [], length, false, true, IfOk, None, Some, is_some};
ghost use Rattle.account.specs.declared.event.Event.TheVariants as event;
ghost use Rattle.account.specs.declared.event.RemovalCause.TheVariants as cause;
ghost use Rattle.account.specs.Deals.{deals};
ghost use Rattle.account.specs.Orders.{orders_in_force};
ghost use Rattle.account.specs.Positions.{position_ticket, open_positions};
ghost use Rattle.std.specs.Option.{option_copied};
ghost use Rattle.account.specs.Keyed.{item};
ghost use Rattle.positions.specs.Fills.{filled};
ghost use Rattle.positions.specs.CloseBy.{common, closed_by};
ghost use Rattle.desk.specs.declared.fault.DeskFault.TheVariants as fault;
ghost use Rattle.judgement.specs.declared.return_code.ReturnCode.TheVariants as code;
ghost use Rattle.desk.specs.Books.{IsFillable, IsPlaceable, IsChangeable, IsPairable};
ghost use Rattle.desk.specs.State.{journal_of};
ghost use Rattle.desk.specs.Requests.{answer_of, pair_answer, done, dealt_outcome, outcome_of, judged, IsReady, Answers};
ghost use Rattle.judgement.specs.Accept.{IsJudged};
ghost use Rattle.desk.specs.Tickets.{last_order, next_of};

use crate::DeskFault;
use crate::books::Books;
use account::{Order, Position, RemovalCause};
use fx8::{Fix8, OutOfMemory};
use judgement::{Act, Answer, Judged, Request, ReturnCode, judge_request};
use positions::{Fill, PositionRule};

/// The answer to a request without a deal.
fn answer_without(code: ReturnCode, order: u64) -> Answer
    ensures { result ≡ answer_of code order None }
{
    let none = Fix8::of_units(0);
    Answer {
        retcode: code.number(),
        order,
        deal: 0,
        volume: none,
        price: none,
    }
}

/// The answer to a deal.
fn answer_to(fill: &Fill) -> Answer
    ensures { result ≡ record {
      retcode = 10009;
      order = fill.now.order;
      deal = fill.now.deal;
      volume = fill.now.volume;
      price = fill.now.price;
    } }
{
    Answer {
        retcode: 10009,
        order: fill.order,
        deal: fill.deal,
        volume: fill.volume,
        price: fill.price,
    }
}

/// Whether no more deal may be added.
pub(crate) fn is_full<P: PositionRule + Drop>(books: &Books<P>) -> bool
    ensures full { result ≡ true → 50000 ≤ length (deals books.now.quoted.events) }
    ensures room { result ≡ false → length (deals books.now.quoted.events) < 50000 }
{
    books.deals() >= 50_000
}

/// Deals.
#[tactic(auto, using(crate::proofs::Outcomes::deal_answers, crate::proofs::Outcomes::deal_exhausts))]
fn do_deal<P: PositionRule + Drop>(books: &mut Books<P>, fill: &Fill) -> Result<Answer, DeskFault>
    requires whole { books.old.broken ≡ false }
    requires fill { IsFillable books.old.quoted fill.now }
    ensures { Answers books.old (dealt_outcome fill.now.order (filled books.old.quoted.spec.hedging
        books.old.quoted.spec.specs (open_positions books.old.quoted.events) fill.now)) result books.new }
{
    if is_full(books) {
        return Err(DeskFault::DealsExhausted);
    }
    if books.deal(fill).is_err() {
        return Err(DeskFault::OutOfMemory);
    }
    Ok(answer_to(fill))
}

/// The smaller volume of two positions.
fn common(one: &Position, other: &Position) -> Fix8
    ensures { result ≡ common one.now other.now }
{
    if one.volume < other.volume {
        one.volume
    } else {
        other.volume
    }
}

/// The answer to a close-by.
fn answer_by(one: Option<&Position>, other: Option<&Position>, at: &Fill) -> Answer
    ensures { result ≡ pair_answer at.now (option_copied one.entry) (option_copied other.entry) }
{
    let Some(first) = one else {
        return answer_without(ReturnCode::Done, at.order);
    };
    let Some(second) = other else {
        return answer_without(ReturnCode::Done, at.order);
    };
    Answer {
        retcode: 10009,
        order: at.order,
        deal: at.deal,
        volume: common(first, second),
        price: second.price,
    }
}

/// The answer to a close-by of two tickets.
#[tactic(auto, using(crate::proofs::Paired::pair_answer_at))]
fn pair_answer<P: PositionRule + Drop>(books: &Books<P>, one: u64, other: u64, at: &Fill) -> Answer
    requires { books.now.broken ≡ false }
    ensures { result ≡ pair_answer at.now
        (item position_ticket one (open_positions books.now.quoted.events))
        (item position_ticket other (open_positions books.now.quoted.events)) }
{
    let rule = books.rule();
    answer_by(rule.get(one), rule.get(other), at)
}

/// Whether two more deals may not be added.
fn is_nearly_full<P: PositionRule + Drop>(books: &Books<P>) -> bool
    ensures full { result ≡ true → 49999 ≤ length (deals books.now.quoted.events) }
    ensures room { result ≡ false → length (deals books.now.quoted.events) + 1 < 50000 }
{
    books.deals() >= 49_999
}

/// Closes two positions by each other.
#[tactic(auto, using(crate::proofs::Paired::pair_answers, crate::proofs::Paired::pair_exhausts))]
fn do_close_by<P: PositionRule + Drop>(
    books: &mut Books<P>,
    one: u64,
    other: u64,
    at: &Fill,
) -> Result<Answer, DeskFault>
    requires whole { books.old.broken ≡ false }
    requires pair { IsPairable books.old.quoted one other at.now }
    ensures { Answers books.old (dealt_outcome at.now.order (closed_by books.old.quoted.spec.hedging
        books.old.quoted.spec.specs (open_positions books.old.quoted.events) one other at.now)) result
        books.new }
{
    if is_nearly_full(books) {
        return Err(DeskFault::DealsExhausted);
    }
    let answer = pair_answer(books, one, other, at);
    if books.close_by(one, other, at).is_err() {
        return Err(DeskFault::OutOfMemory);
    }
    Ok(answer)
}

/// Places an order.
#[tactic(auto, using(crate::proofs::Outcomes::quiet_answers))]
fn do_place<P: PositionRule + Drop>(books: &mut Books<P>, order: Order) -> Result<Answer, DeskFault>
    requires whole { books.old.broken ≡ false }
    requires order { IsPlaceable books.old.quoted order }
    ensures { Answers books.old (done code.Placed order.ticket (event.Placed order ∷ [])) result books.new }
{
    books.is_sound();
    let ticket = order.ticket;
    if books.place(order).is_err() {
        return Err(DeskFault::OutOfMemory);
    }
    Ok(answer_without(ReturnCode::Placed, ticket))
}

/// Changes an order.
#[tactic(auto, using(crate::proofs::Outcomes::quiet_answers))]
fn do_change<P: PositionRule + Drop>(
    books: &mut Books<P>,
    order: Order,
) -> Result<Answer, DeskFault>
    requires whole { books.old.broken ≡ false }
    requires order { IsChangeable books.old.quoted order }
    ensures { Answers books.old (done code.Done order.ticket (event.Modified order ∷ [])) result books.new }
{
    books.is_sound();
    let ticket = order.ticket;
    if books.change(order).is_err() {
        return Err(DeskFault::OutOfMemory);
    }
    Ok(answer_without(ReturnCode::Done, ticket))
}

/// Removes an order.
#[tactic(auto, using(crate::proofs::Outcomes::quiet_answers))]
fn do_remove<P: PositionRule + Drop>(books: &mut Books<P>, ticket: u64) -> Result<Answer, DeskFault>
    requires whole { books.old.broken ≡ false }
    ensures { Answers books.old (done code.Done ticket (event.Removed ticket cause.Request ∷ [])) result
        books.new }
{
    books.is_sound();
    if books.remove(ticket, RemovalCause::Request).is_err() {
        return Err(DeskFault::OutOfMemory);
    }
    Ok(answer_without(ReturnCode::Done, ticket))
}

/// Sets the stops of a position.
#[tactic(auto, using(crate::proofs::Outcomes::quiet_answers))]
fn do_stops<P: PositionRule + Drop>(
    books: &mut Books<P>,
    ticket: u64,
    sl: Fix8,
    tp: Fix8,
) -> Result<Answer, DeskFault>
    requires whole { books.old.broken ≡ false }
    ensures { Answers books.old (done code.Done 0 (event.Stops ticket sl tp ∷ [])) result books.new }
{
    books.is_sound();
    if books.set_stops(ticket, sl, tp).is_err() {
        return Err(DeskFault::OutOfMemory);
    }
    Ok(answer_without(ReturnCode::Done, 0))
}

/// There is no memory: the books are closed for good.
pub(crate) fn close<P: PositionRule + Drop>(books: &mut Books<P>) -> DeskFault
    ensures fault { result ≡ fault.OutOfMemory }
    ensures closed { books.new.broken ≡ true }
{
    books.close();
    DeskFault::OutOfMemory
}

/// Does what is to be done.
fn do_act<P: PositionRule + Drop>(books: &mut Books<P>, act: Act) -> Result<Answer, DeskFault>
    requires whole { books.old.broken ≡ false }
    requires ready { IsReady books.old.quoted act }
    ensures { Answers books.old (outcome_of books.old.quoted.spec (open_positions books.old.quoted.events)
        act) result books.new }
{
    match act {
        Act::Deal(fill) => do_deal(books, &fill),
        Act::Place(order) => do_place(books, order),
        Act::Change(order) => do_change(books, order),
        Act::Remove(ticket) => do_remove(books, ticket),
        Act::SetStops { ticket, sl, tp } => do_stops(books, ticket, sl, tp),
        Act::CloseBy { one, other, at } => do_close_by(books, one, other, &at),
    }
}

/// What is told to a request.
#[tactic(auto, using(crate::proofs::Room::has_room_at, crate::proofs::Room::fresh_next))]
fn told<P: PositionRule + Drop>(
    books: &Books<P>,
    time_ms: i64,
    request: &Request,
) -> Result<Judged, OutOfMemory>
    requires whole { books.now.broken ≡ false }
    requires small { last_order books.now.quoted.events < 2 ^ 63 }
    ensures { IfOk result (IsJudged (journal_of books.now.quoted) (orders_in_force books.now.quoted.events)
        books.now.quoted.prices time_ms (next_of books.now.quoted.events) request.now) }
{
    books.is_sound();
    judge_request(
        books.alloc(),
        books.ledger(),
        books.orders(),
        books.rule(),
        books.prices(),
        time_ms,
        books.next(),
        request,
    )
}

/// Does what is told.
#[tactic(auto, using(crate::proofs::Judged::ready, crate::proofs::Paying::code_answers, crate::proofs::Paying::done_answers))]
fn do_told<P: PositionRule + Drop>(
    books: &mut Books<P>,
    time_ms: i64,
    request: &Request,
    verdict: Judged,
) -> Result<Answer, DeskFault>
    requires whole { books.old.broken ≡ false }
    requires told { IsJudged (journal_of books.old.quoted) (orders_in_force books.old.quoted.events)
        books.old.quoted.prices time_ms (next_of books.old.quoted.events) request.now verdict }
    ensures { Answers books.old (judged books.old.quoted time_ms request.now) result books.new }
{
    books.is_sound();
    match verdict {
        Judged::Refused(code) => Ok(answer_without(code, 0)),
        Judged::Accepted(act) => do_act(books, act),
    }
}

/// Judges a request, and does it where no rule fails.
pub(crate) fn answer<P: PositionRule + Drop>(
    books: &mut Books<P>,
    time_ms: i64,
    request: &Request,
) -> Result<Answer, DeskFault>
    requires whole { books.old.broken ≡ false }
    requires small { last_order books.old.quoted.events < 2 ^ 63 }
    ensures { Answers books.old (judged books.old.quoted time_ms request.now) result books.new }
{
    let Ok(verdict) = told(books, time_ms, request) else {
        return Err(close(books));
    };
    do_told(books, time_ms, request, verdict)
}
