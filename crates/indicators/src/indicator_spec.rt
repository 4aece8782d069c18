//! An indicator as an expert asks for it.
ghost use Rattle.std.specs.Prelude.{◌≡◌, IfSome};
ghost use Rattle.indicators.specs.Values.{method_of, price_of, moving_average, kind_of, is_in_range, with_kind, indicator_of, IsIndicator};

use crate::kinds::{AppliedPrice, Indicator, Kind, Method};
use market_types::Period;

/// An indicator as an expert asks for it (MQL5 Reference, iMA, iATR, iRSI).
#[derive(Clone, Copy, Debug, PartialEq, Eq)]
pub struct IndicatorSpec {
    /// 0 for iMA, 1 for iATR, 2 for iRSI.
    pub kind: u8,
    /// The symbol's place in the market, from 0.
    pub symbol: u8,
    /// The period of the bars.
    pub period: Period,
    /// How many bars it averages, 1 to 10,000.
    pub length: u32,
    /// Of how many bars before a bar it tells the value there, 0 to 1,000.
    pub shift: u32,
    /// ENUM_MA_METHOD, 0 to 3; read for iMA alone.
    pub method: u8,
    /// ENUM_APPLIED_PRICE, 1 to 7; read for iMA and iRSI.
    pub price: u8,
}

/// The method of a number; `None` exactly where it has none.
fn method_of(number: u8) -> Option<Method>
    ensures { result ≡ method_of number }
{
    match number {
        0 => Some(Method::Simple),
        1 => Some(Method::Exponential),
        2 => Some(Method::Smoothed),
        3 => Some(Method::LinearWeighted),
        _ => None,
    }
}

/// The price of a number; `None` exactly where it has none.
fn price_of(number: u8) -> Option<AppliedPrice>
    ensures { result ≡ price_of number }
{
    match number {
        1 => Some(AppliedPrice::Close),
        2 => Some(AppliedPrice::Open),
        3 => Some(AppliedPrice::High),
        4 => Some(AppliedPrice::Low),
        5 => Some(AppliedPrice::Median),
        6 => Some(AppliedPrice::Typical),
        7 => Some(AppliedPrice::Weighted),
        _ => None,
    }
}

/// The moving average of a method and a price.
fn moving_average(method: Option<Method>, price: Option<AppliedPrice>) -> Option<Kind>
    ensures { result ≡ moving_average method price }
{
    match method {
        Some(method) => match price {
            Some(price) => Some(Kind::MovingAverage(method, price)),
            None => None,
        },
        None => None,
    }
}

impl IndicatorSpec {
    /// The kind that is meant; `None` exactly where a number that is read is none.
    fn kind_of(&self) -> Option<Kind>
        ensures { result ≡ kind_of self.now }
    {
        match self.kind {
            0 => moving_average(method_of(self.method), price_of(self.price)),
            1 => Some(Kind::AverageTrueRange),
            2 => match price_of(self.price) {
                Some(price) => Some(Kind::RelativeStrength(price)),
                None => None,
            },
            _ => None,
        }
    }

    /// Whether length and shift are in range.
    fn is_in_range(&self) -> bool
        ensures { result ≡ is_in_range self.now }
    {
        1 <= self.length && self.length <= 10_000 && self.shift <= 1_000
    }

    /// The indicator that is meant; `None` exactly where a number that is read is out of its range.
    #[tactic(auto, unfolding(crate::specs::Values::indicator_of))]
    pub fn indicator(&self) -> Option<Indicator>
        ensures value { result ≡ indicator_of self.now }
        ensures ranges { IfSome result IsIndicator }
    {
        if !self.is_in_range() {
            return None;
        }
        match self.kind_of() {
            Some(kind) => Some(Indicator {
                kind,
                length: self.length,
                shift: self.shift,
            }),
            None => None,
        }
    }
}
