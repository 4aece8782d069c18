//! What the numbers of a request mean.
ghost use Rattle.std.specs.Prelude.{◌≡◌};
ghost use Rattle.judgement.specs.Numbers.{action_of, side_of, pending_kind_of, filling_of, time_of};

use account::{OrderKind, OrderTime};

/// What a request asks for (MQL5 Reference, ENUM_TRADE_REQUEST_ACTIONS).
#[derive(Clone, Copy, Debug, PartialEq, Eq)]
pub enum Action {
    /// Deals at the present prices (TRADE_ACTION_DEAL).
    Deal,
    /// Places a pending order (TRADE_ACTION_PENDING).
    Pending,
    /// Changes the stops of a position (TRADE_ACTION_SLTP).
    Sltp,
    /// Changes a pending order (TRADE_ACTION_MODIFY).
    Modify,
    /// Removes a pending order (TRADE_ACTION_REMOVE).
    Remove,
    /// Closes a position by an opposite one (TRADE_ACTION_CLOSE_BY).
    CloseBy,
}

/// How an order may be filled (MQL5 Reference, ENUM_ORDER_TYPE_FILLING). A test fills each order whole, so
/// it is only judged to be one of these.
#[derive(Clone, Copy, Debug, PartialEq, Eq)]
pub enum Filling {
    /// The whole volume or nothing (ORDER_FILLING_FOK).
    FillOrKill,
    /// As much as there is (ORDER_FILLING_IOC).
    ImmediateOrCancel,
    /// As much as there is, and the rest later (ORDER_FILLING_RETURN).
    Return,
}

impl Action {
    /// The action of a number; `None` exactly where it is of none.
    pub fn of_number(number: u32) -> Option<Action>
        ensures { result ≡ action_of number }
    {
        match number {
            1 => Some(Action::Deal),
            5 => Some(Action::Pending),
            6 => Some(Action::Sltp),
            7 => Some(Action::Modify),
            8 => Some(Action::Remove),
            10 => Some(Action::CloseBy),
            _ => None,
        }
    }
}

impl Filling {
    /// The way of filling of a number; `None` exactly where it is of none.
    pub fn of_number(number: u32) -> Option<Filling>
        ensures { result ≡ filling_of number }
    {
        match number {
            0 => Some(Filling::FillOrKill),
            1 => Some(Filling::ImmediateOrCancel),
            2 => Some(Filling::Return),
            _ => None,
        }
    }
}

/// Whether an order of the type of a number deals at once by a buy, or a sell; `None` exactly where it does
/// not deal at once.
pub fn side_of(kind: u32) -> Option<bool>
    ensures { result ≡ side_of kind }
{
    match kind {
        0 => Some(true),
        1 => Some(false),
        _ => None,
    }
}

/// The kind of pending order of a number; `None` exactly where it is of none.
pub fn pending_kind_of(kind: u32) -> Option<OrderKind>
    ensures { result ≡ pending_kind_of kind }
{
    match kind {
        2 => Some(OrderKind::BuyLimit),
        3 => Some(OrderKind::SellLimit),
        4 => Some(OrderKind::BuyStop),
        5 => Some(OrderKind::SellStop),
        6 => Some(OrderKind::BuyStopLimit),
        7 => Some(OrderKind::SellStopLimit),
        _ => None,
    }
}

/// The kind of time of a number; `None` exactly where it is of none.
pub fn time_of(type_time: u32) -> Option<OrderTime>
    ensures { result ≡ time_of type_time }
{
    match type_time {
        0 => Some(OrderTime::Gtc),
        1 => Some(OrderTime::Day),
        2 => Some(OrderTime::Specified),
        3 => Some(OrderTime::SpecifiedDay),
        _ => None,
    }
}
