//! What a quote fires.
ghost use Rattle.std.specs.Prelude.{◌≡◌};
ghost use Rattle.desk.specs.Effect.{ticket_of};

use account::DealReason;

/// An order or a stop that a quote fires.
#[derive(Clone, Copy, Debug, PartialEq, Eq)]
pub enum Trigger {
    /// The order of a ticket.
    Order(u64),
    /// The stop loss or take profit of the position of a ticket that is bought, or sold.
    Stop {
        ticket: u64,
        buy: bool,
        reason: DealReason,
    },
}

impl Trigger {
    /// The ticket of the order or position.
    pub fn ticket(&self) -> u64
        ensures { result ≡ ticket_of self.now }
    {
        match self {
            Trigger::Order(ticket) => *ticket,
            Trigger::Stop { ticket, .. } => *ticket,
        }
    }
}
