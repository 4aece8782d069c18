//! The supplied types.
ghost use Rattle.std.specs.Prelude.{◌≡◌, ◌↔◌, ℕ, List, Some};
ghost use Rattle.natives.specs.declared.supplied.SuppliedType as supplieds;
ghost use Rattle.natives.specs.Structures.{supplied_spelling, supplied_named, structure_of};
ghost use Rattle.mql_spelling.specs.Spelled.{spelled_among};

use crate::types::Structure;
use mql_spelling::is_spelled;

/// A supplied type: a structure, or another name of `int`.
#[derive(Clone, Copy, Debug, PartialEq, Eq)]
pub enum SuppliedType {
    /// `MqlTradeRequest`
    MqlTradeRequest,
    /// `MqlTradeResult`
    MqlTradeResult,
    /// `MqlTick`
    MqlTick,
    /// `MqlRates`
    MqlRates,
    /// `MqlDateTime`
    MqlDateTime,
    /// `ENUM_TIMEFRAMES`
    EnumTimeframes,
    /// `ENUM_MA_METHOD`
    EnumMaMethod,
    /// `ENUM_APPLIED_PRICE`
    EnumAppliedPrice,
    /// `ENUM_TRADE_REQUEST_ACTIONS`
    EnumTradeRequestActions,
    /// `ENUM_ORDER_TYPE`
    EnumOrderType,
    /// `ENUM_ORDER_TYPE_FILLING`
    EnumOrderTypeFilling,
    /// `ENUM_ORDER_TYPE_TIME`
    EnumOrderTypeTime,
    /// `ENUM_POSITION_TYPE`
    EnumPositionType,
    /// `ENUM_DEAL_TYPE`
    EnumDealType,
    /// `ENUM_DEAL_ENTRY`
    EnumDealEntry,
}

/// Each of them, in order.
pub const SUPPLIEDS: [SuppliedType; 15] = [
    SuppliedType::MqlTradeRequest,
    SuppliedType::MqlTradeResult,
    SuppliedType::MqlTick,
    SuppliedType::MqlRates,
    SuppliedType::MqlDateTime,
    SuppliedType::EnumTimeframes,
    SuppliedType::EnumMaMethod,
    SuppliedType::EnumAppliedPrice,
    SuppliedType::EnumTradeRequestActions,
    SuppliedType::EnumOrderType,
    SuppliedType::EnumOrderTypeFilling,
    SuppliedType::EnumOrderTypeTime,
    SuppliedType::EnumPositionType,
    SuppliedType::EnumDealType,
    SuppliedType::EnumDealEntry,
];

impl SuppliedType {
    /// How it is spelled.
    #[tactic(auto, unfolding(crate::specs::Structures::supplied_spelling))]
    pub fn spelling(self) -> &'static [u8]
        ensures { result.now ≡ supplied_spelling self }
    {
        match self {
            SuppliedType::MqlTradeRequest => b"MqlTradeRequest".as_slice(),
            SuppliedType::MqlTradeResult => b"MqlTradeResult".as_slice(),
            SuppliedType::MqlTick => b"MqlTick".as_slice(),
            SuppliedType::MqlRates => b"MqlRates".as_slice(),
            SuppliedType::MqlDateTime => b"MqlDateTime".as_slice(),
            SuppliedType::EnumTimeframes => b"ENUM_TIMEFRAMES".as_slice(),
            SuppliedType::EnumMaMethod => b"ENUM_MA_METHOD".as_slice(),
            SuppliedType::EnumAppliedPrice => b"ENUM_APPLIED_PRICE".as_slice(),
            SuppliedType::EnumTradeRequestActions => b"ENUM_TRADE_REQUEST_ACTIONS".as_slice(),
            SuppliedType::EnumOrderType => b"ENUM_ORDER_TYPE".as_slice(),
            SuppliedType::EnumOrderTypeFilling => b"ENUM_ORDER_TYPE_FILLING".as_slice(),
            SuppliedType::EnumOrderTypeTime => b"ENUM_ORDER_TYPE_TIME".as_slice(),
            SuppliedType::EnumPositionType => b"ENUM_POSITION_TYPE".as_slice(),
            SuppliedType::EnumDealType => b"ENUM_DEAL_TYPE".as_slice(),
            SuppliedType::EnumDealEntry => b"ENUM_DEAL_ENTRY".as_slice(),
        }
    }

    /// The structure that it is; another name of `int` is none.
    pub fn structure(self) -> Option<Structure>
        ensures { result ≡ structure_of self }
    {
        match self {
            SuppliedType::MqlTradeRequest => Some(Structure::MqlTradeRequest),
            SuppliedType::MqlTradeResult => Some(Structure::MqlTradeResult),
            SuppliedType::MqlTick => Some(Structure::MqlTick),
            SuppliedType::MqlRates => Some(Structure::MqlRates),
            SuppliedType::MqlDateTime => Some(Structure::MqlDateTime),
            _ => None,
        }
    }
}

/// The first of some of them that is spelled so.
fn supplied_among(supplieds: &[SuppliedType], units: &[u16]) -> Option<SuppliedType>
    ensures { result ≡ spelled_among supplied_spelling supplieds.now units.now }
{
    let mut rest = supplieds;
    while let [supplied, others @ ..] = rest {
        if is_spelled(units, supplied.spelling()) {
            return Some(*supplied);
        }
        rest = others;
    }
    None
}

/// The one that is spelled so, if there is one.
#[tactic(auto, unfolding(crate::specs::Structures::supplied_named))]
pub fn supplied_named(units: &[u16]) -> Option<SuppliedType>
    ensures { result ≡ supplied_named units.now }
{
    supplied_among(&SUPPLIEDS, units)
}

/// A text is a supplied type's name exactly where it is that type's spelling.
pub fn supplieds_by_spelling()
    ensures { (units : List ℕ) (supplied : supplieds.SuppliedType) → (supplied_named units ≡ Some supplied)
        ↔ (units ≡ supplied_spelling supplied) }
{}
