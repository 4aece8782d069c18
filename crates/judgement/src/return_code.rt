//! Return codes.
ghost use Rattle.std.specs.Prelude.{◌≡◌};
ghost use Rattle.judgement.specs.Numbers.{code_number};

/// What became of a request (MQL5 Reference, Trade Server Return Codes).
#[derive(Clone, Copy, Debug, PartialEq, Eq)]
pub enum ReturnCode {
    /// An order was placed (TRADE_RETCODE_PLACED).
    Placed,
    /// The request was done (TRADE_RETCODE_DONE).
    Done,
    /// The request is none (TRADE_RETCODE_INVALID).
    Invalid,
    /// The volume is none of the symbol's (TRADE_RETCODE_INVALID_VOLUME).
    InvalidVolume,
    /// The price of an order is none that it may wait for (TRADE_RETCODE_INVALID_PRICE).
    InvalidPrice,
    /// A stop is on the wrong side or too near (TRADE_RETCODE_INVALID_STOPS).
    InvalidStops,
    /// There is no money for the deal (TRADE_RETCODE_NO_MONEY).
    NoMoney,
    /// There are no prices yet (TRADE_RETCODE_PRICE_OFF).
    PriceOff,
    /// The order would expire before it stands (TRADE_RETCODE_INVALID_EXPIRATION).
    InvalidExpiration,
    /// Nothing would change (TRADE_RETCODE_NO_CHANGES).
    NoChanges,
    /// The way of filling is unknown (TRADE_RETCODE_INVALID_FILL).
    InvalidFill,
    /// As many orders stand as may (TRADE_RETCODE_LIMIT_ORDERS).
    LimitOrders,
    /// The order does not stand, or its type is none of the action's (TRADE_RETCODE_INVALID_ORDER).
    InvalidOrder,
    /// The position is not open (TRADE_RETCODE_POSITION_CLOSED).
    PositionClosed,
    /// More would be closed than is open (TRADE_RETCODE_INVALID_CLOSE_VOLUME).
    InvalidCloseVolume,
}

impl ReturnCode {
    /// The number of the code.
    pub fn number(self) -> u32
        ensures { result ≡ code_number self }
    {
        match self {
            ReturnCode::Placed => 10008,
            ReturnCode::Done => 10009,
            ReturnCode::Invalid => 10013,
            ReturnCode::InvalidVolume => 10014,
            ReturnCode::InvalidPrice => 10015,
            ReturnCode::InvalidStops => 10016,
            ReturnCode::NoMoney => 10019,
            ReturnCode::PriceOff => 10021,
            ReturnCode::InvalidExpiration => 10022,
            ReturnCode::NoChanges => 10025,
            ReturnCode::InvalidFill => 10030,
            ReturnCode::LimitOrders => 10033,
            ReturnCode::InvalidOrder => 10035,
            ReturnCode::PositionClosed => 10036,
            ReturnCode::InvalidCloseVolume => 10038,
        }
    }
}
