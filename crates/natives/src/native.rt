//! The native functions and their numbers.
ghost use Rattle.std.specs.Prelude.{◌≡◌, ◌↔◌, ℕ, List, Some, slice_get};
ghost use Rattle.natives.specs.declared.native.Native as natives;
ghost use Rattle.natives.specs.Names.{native_spelling, native_number, native_named, native_at};
ghost use Rattle.mql_spelling.specs.Spelled.{spelled_among};

use mql_spelling::is_spelled;

/// A native function: one that the language supplies (MQL5 Reference), in the order of their numbers.
#[derive(Clone, Copy, Debug, PartialEq, Eq)]
pub enum Native {
    /// `StringLen`
    StringLen,
    /// `StringSubstr`
    StringSubstr,
    /// `StringFind`
    StringFind,
    /// `StringReplace`
    StringReplace,
    /// `StringTrimLeft`
    StringTrimLeft,
    /// `StringTrimRight`
    StringTrimRight,
    /// `StringToLower`
    StringToLower,
    /// `StringToUpper`
    StringToUpper,
    /// `StringGetCharacter`
    StringGetCharacter,
    /// `StringSetCharacter`
    StringSetCharacter,
    /// `StringSplit`
    StringSplit,
    /// `StringCompare`
    StringCompare,
    /// `StringToInteger`
    StringToInteger,
    /// `StringToDouble`
    StringToDouble,
    /// `IntegerToString`
    IntegerToString,
    /// `DoubleToString`
    DoubleToString,
    /// `TimeToString`
    TimeToString,
    /// `CharToString`
    CharToString,
    /// `ShortToString`
    ShortToString,
    /// `EnumToString`
    EnumToString,
    /// `StringFormat`
    StringFormat,
    /// `ArraySize`
    ArraySize,
    /// `ArrayRange`
    ArrayRange,
    /// `ArrayResize`
    ArrayResize,
    /// `ArrayFree`
    ArrayFree,
    /// `ArrayInitialize`
    ArrayInitialize,
    /// `ArrayCopy`
    ArrayCopy,
    /// `ArraySetAsSeries`
    ArraySetAsSeries,
    /// `ArrayGetAsSeries`
    ArrayGetAsSeries,
    /// `ArraySort`
    ArraySort,
    /// `ArrayMaximum`
    ArrayMaximum,
    /// `ArrayMinimum`
    ArrayMinimum,
    /// `ArrayIsDynamic`
    ArrayIsDynamic,
    /// `ZeroMemory`
    ZeroMemory,
    /// `MathAbs`
    MathAbs,
    /// `MathMax`
    MathMax,
    /// `MathMin`
    MathMin,
    /// `MathFloor`
    MathFloor,
    /// `MathCeil`
    MathCeil,
    /// `MathRound`
    MathRound,
    /// `MathSqrt`
    MathSqrt,
    /// `MathMod`
    MathMod,
    /// `MathPow`
    MathPow,
    /// `MathRand`
    MathRand,
    /// `MathSrand`
    MathSrand,
    /// `MathIsValidNumber`
    MathIsValidNumber,
    /// `NormalizeDouble`
    NormalizeDouble,
    /// `GetPointer`
    GetPointer,
    /// `CheckPointer`
    CheckPointer,
    /// `Print`
    Print,
    /// `PrintFormat`
    PrintFormat,
    /// `Comment`
    Comment,
    /// `TimeCurrent`
    TimeCurrent,
    /// `TimeLocal`
    TimeLocal,
    /// `TimeGMT`
    TimeGMT,
    /// `TimeToStruct`
    TimeToStruct,
    /// `StructToTime`
    StructToTime,
    /// `ExpertRemove`
    ExpertRemove,
    /// `GetLastError`
    GetLastError,
    /// `ResetLastError`
    ResetLastError,
    /// `Symbol`
    Symbol,
    /// `Period`
    Period,
    /// `IsStopped`
    IsStopped,
    /// `UninitializeReason`
    UninitializeReason,
    /// `MQLInfoInteger`
    MQLInfoInteger,
    /// `TesterStatistics`
    TesterStatistics,
    /// `AccountInfoDouble`
    AccountInfoDouble,
    /// `AccountInfoInteger`
    AccountInfoInteger,
    /// `AccountInfoString`
    AccountInfoString,
    /// `SymbolInfoDouble`
    SymbolInfoDouble,
    /// `SymbolInfoInteger`
    SymbolInfoInteger,
    /// `SymbolInfoTick`
    SymbolInfoTick,
    /// `iTime`
    ITime,
    /// `iOpen`
    IOpen,
    /// `iHigh`
    IHigh,
    /// `iLow`
    ILow,
    /// `iClose`
    IClose,
    /// `iVolume`
    IVolume,
    /// `Bars`
    Bars,
    /// `CopyRates`
    CopyRates,
    /// `CopyTime`
    CopyTime,
    /// `CopyOpen`
    CopyOpen,
    /// `CopyHigh`
    CopyHigh,
    /// `CopyLow`
    CopyLow,
    /// `CopyClose`
    CopyClose,
    /// `CopyTickVolume`
    CopyTickVolume,
    /// `iMA`
    IMA,
    /// `iATR`
    IATR,
    /// `iRSI`
    IRSI,
    /// `CopyBuffer`
    CopyBuffer,
    /// `BarsCalculated`
    BarsCalculated,
    /// `OrderSend`
    OrderSend,
    /// `PositionsTotal`
    PositionsTotal,
    /// `PositionGetTicket`
    PositionGetTicket,
    /// `PositionGetSymbol`
    PositionGetSymbol,
    /// `PositionSelect`
    PositionSelect,
    /// `PositionSelectByTicket`
    PositionSelectByTicket,
    /// `PositionGetDouble`
    PositionGetDouble,
    /// `PositionGetInteger`
    PositionGetInteger,
    /// `PositionGetString`
    PositionGetString,
    /// `OrdersTotal`
    OrdersTotal,
    /// `OrderGetTicket`
    OrderGetTicket,
    /// `OrderSelect`
    OrderSelect,
    /// `OrderGetDouble`
    OrderGetDouble,
    /// `OrderGetInteger`
    OrderGetInteger,
    /// `OrderGetString`
    OrderGetString,
    /// `HistorySelect`
    HistorySelect,
    /// `HistoryDealsTotal`
    HistoryDealsTotal,
    /// `HistoryDealGetTicket`
    HistoryDealGetTicket,
    /// `HistoryDealGetDouble`
    HistoryDealGetDouble,
    /// `HistoryDealGetInteger`
    HistoryDealGetInteger,
    /// `HistoryDealGetString`
    HistoryDealGetString,
}

/// Each of them, in order.
pub const NATIVES: [Native; 112] = [
    Native::StringLen,
    Native::StringSubstr,
    Native::StringFind,
    Native::StringReplace,
    Native::StringTrimLeft,
    Native::StringTrimRight,
    Native::StringToLower,
    Native::StringToUpper,
    Native::StringGetCharacter,
    Native::StringSetCharacter,
    Native::StringSplit,
    Native::StringCompare,
    Native::StringToInteger,
    Native::StringToDouble,
    Native::IntegerToString,
    Native::DoubleToString,
    Native::TimeToString,
    Native::CharToString,
    Native::ShortToString,
    Native::EnumToString,
    Native::StringFormat,
    Native::ArraySize,
    Native::ArrayRange,
    Native::ArrayResize,
    Native::ArrayFree,
    Native::ArrayInitialize,
    Native::ArrayCopy,
    Native::ArraySetAsSeries,
    Native::ArrayGetAsSeries,
    Native::ArraySort,
    Native::ArrayMaximum,
    Native::ArrayMinimum,
    Native::ArrayIsDynamic,
    Native::ZeroMemory,
    Native::MathAbs,
    Native::MathMax,
    Native::MathMin,
    Native::MathFloor,
    Native::MathCeil,
    Native::MathRound,
    Native::MathSqrt,
    Native::MathMod,
    Native::MathPow,
    Native::MathRand,
    Native::MathSrand,
    Native::MathIsValidNumber,
    Native::NormalizeDouble,
    Native::GetPointer,
    Native::CheckPointer,
    Native::Print,
    Native::PrintFormat,
    Native::Comment,
    Native::TimeCurrent,
    Native::TimeLocal,
    Native::TimeGMT,
    Native::TimeToStruct,
    Native::StructToTime,
    Native::ExpertRemove,
    Native::GetLastError,
    Native::ResetLastError,
    Native::Symbol,
    Native::Period,
    Native::IsStopped,
    Native::UninitializeReason,
    Native::MQLInfoInteger,
    Native::TesterStatistics,
    Native::AccountInfoDouble,
    Native::AccountInfoInteger,
    Native::AccountInfoString,
    Native::SymbolInfoDouble,
    Native::SymbolInfoInteger,
    Native::SymbolInfoTick,
    Native::ITime,
    Native::IOpen,
    Native::IHigh,
    Native::ILow,
    Native::IClose,
    Native::IVolume,
    Native::Bars,
    Native::CopyRates,
    Native::CopyTime,
    Native::CopyOpen,
    Native::CopyHigh,
    Native::CopyLow,
    Native::CopyClose,
    Native::CopyTickVolume,
    Native::IMA,
    Native::IATR,
    Native::IRSI,
    Native::CopyBuffer,
    Native::BarsCalculated,
    Native::OrderSend,
    Native::PositionsTotal,
    Native::PositionGetTicket,
    Native::PositionGetSymbol,
    Native::PositionSelect,
    Native::PositionSelectByTicket,
    Native::PositionGetDouble,
    Native::PositionGetInteger,
    Native::PositionGetString,
    Native::OrdersTotal,
    Native::OrderGetTicket,
    Native::OrderSelect,
    Native::OrderGetDouble,
    Native::OrderGetInteger,
    Native::OrderGetString,
    Native::HistorySelect,
    Native::HistoryDealsTotal,
    Native::HistoryDealGetTicket,
    Native::HistoryDealGetDouble,
    Native::HistoryDealGetInteger,
    Native::HistoryDealGetString,
];

impl Native {
    /// How it is spelled.
    #[tactic(auto, unfolding(crate::specs::Names::native_spelling))]
    pub fn spelling(self) -> &'static [u8]
        ensures { result.now ≡ native_spelling self }
    {
        match self {
            Native::StringLen => b"StringLen".as_slice(),
            Native::StringSubstr => b"StringSubstr".as_slice(),
            Native::StringFind => b"StringFind".as_slice(),
            Native::StringReplace => b"StringReplace".as_slice(),
            Native::StringTrimLeft => b"StringTrimLeft".as_slice(),
            Native::StringTrimRight => b"StringTrimRight".as_slice(),
            Native::StringToLower => b"StringToLower".as_slice(),
            Native::StringToUpper => b"StringToUpper".as_slice(),
            Native::StringGetCharacter => b"StringGetCharacter".as_slice(),
            Native::StringSetCharacter => b"StringSetCharacter".as_slice(),
            Native::StringSplit => b"StringSplit".as_slice(),
            Native::StringCompare => b"StringCompare".as_slice(),
            Native::StringToInteger => b"StringToInteger".as_slice(),
            Native::StringToDouble => b"StringToDouble".as_slice(),
            Native::IntegerToString => b"IntegerToString".as_slice(),
            Native::DoubleToString => b"DoubleToString".as_slice(),
            Native::TimeToString => b"TimeToString".as_slice(),
            Native::CharToString => b"CharToString".as_slice(),
            Native::ShortToString => b"ShortToString".as_slice(),
            Native::EnumToString => b"EnumToString".as_slice(),
            Native::StringFormat => b"StringFormat".as_slice(),
            Native::ArraySize => b"ArraySize".as_slice(),
            Native::ArrayRange => b"ArrayRange".as_slice(),
            Native::ArrayResize => b"ArrayResize".as_slice(),
            Native::ArrayFree => b"ArrayFree".as_slice(),
            Native::ArrayInitialize => b"ArrayInitialize".as_slice(),
            Native::ArrayCopy => b"ArrayCopy".as_slice(),
            Native::ArraySetAsSeries => b"ArraySetAsSeries".as_slice(),
            Native::ArrayGetAsSeries => b"ArrayGetAsSeries".as_slice(),
            Native::ArraySort => b"ArraySort".as_slice(),
            Native::ArrayMaximum => b"ArrayMaximum".as_slice(),
            Native::ArrayMinimum => b"ArrayMinimum".as_slice(),
            Native::ArrayIsDynamic => b"ArrayIsDynamic".as_slice(),
            Native::ZeroMemory => b"ZeroMemory".as_slice(),
            Native::MathAbs => b"MathAbs".as_slice(),
            Native::MathMax => b"MathMax".as_slice(),
            Native::MathMin => b"MathMin".as_slice(),
            Native::MathFloor => b"MathFloor".as_slice(),
            Native::MathCeil => b"MathCeil".as_slice(),
            Native::MathRound => b"MathRound".as_slice(),
            Native::MathSqrt => b"MathSqrt".as_slice(),
            Native::MathMod => b"MathMod".as_slice(),
            Native::MathPow => b"MathPow".as_slice(),
            Native::MathRand => b"MathRand".as_slice(),
            Native::MathSrand => b"MathSrand".as_slice(),
            Native::MathIsValidNumber => b"MathIsValidNumber".as_slice(),
            Native::NormalizeDouble => b"NormalizeDouble".as_slice(),
            Native::GetPointer => b"GetPointer".as_slice(),
            Native::CheckPointer => b"CheckPointer".as_slice(),
            Native::Print => b"Print".as_slice(),
            Native::PrintFormat => b"PrintFormat".as_slice(),
            Native::Comment => b"Comment".as_slice(),
            Native::TimeCurrent => b"TimeCurrent".as_slice(),
            Native::TimeLocal => b"TimeLocal".as_slice(),
            Native::TimeGMT => b"TimeGMT".as_slice(),
            Native::TimeToStruct => b"TimeToStruct".as_slice(),
            Native::StructToTime => b"StructToTime".as_slice(),
            Native::ExpertRemove => b"ExpertRemove".as_slice(),
            Native::GetLastError => b"GetLastError".as_slice(),
            Native::ResetLastError => b"ResetLastError".as_slice(),
            Native::Symbol => b"Symbol".as_slice(),
            Native::Period => b"Period".as_slice(),
            Native::IsStopped => b"IsStopped".as_slice(),
            Native::UninitializeReason => b"UninitializeReason".as_slice(),
            Native::MQLInfoInteger => b"MQLInfoInteger".as_slice(),
            Native::TesterStatistics => b"TesterStatistics".as_slice(),
            Native::AccountInfoDouble => b"AccountInfoDouble".as_slice(),
            Native::AccountInfoInteger => b"AccountInfoInteger".as_slice(),
            Native::AccountInfoString => b"AccountInfoString".as_slice(),
            Native::SymbolInfoDouble => b"SymbolInfoDouble".as_slice(),
            Native::SymbolInfoInteger => b"SymbolInfoInteger".as_slice(),
            Native::SymbolInfoTick => b"SymbolInfoTick".as_slice(),
            Native::ITime => b"iTime".as_slice(),
            Native::IOpen => b"iOpen".as_slice(),
            Native::IHigh => b"iHigh".as_slice(),
            Native::ILow => b"iLow".as_slice(),
            Native::IClose => b"iClose".as_slice(),
            Native::IVolume => b"iVolume".as_slice(),
            Native::Bars => b"Bars".as_slice(),
            Native::CopyRates => b"CopyRates".as_slice(),
            Native::CopyTime => b"CopyTime".as_slice(),
            Native::CopyOpen => b"CopyOpen".as_slice(),
            Native::CopyHigh => b"CopyHigh".as_slice(),
            Native::CopyLow => b"CopyLow".as_slice(),
            Native::CopyClose => b"CopyClose".as_slice(),
            Native::CopyTickVolume => b"CopyTickVolume".as_slice(),
            Native::IMA => b"iMA".as_slice(),
            Native::IATR => b"iATR".as_slice(),
            Native::IRSI => b"iRSI".as_slice(),
            Native::CopyBuffer => b"CopyBuffer".as_slice(),
            Native::BarsCalculated => b"BarsCalculated".as_slice(),
            Native::OrderSend => b"OrderSend".as_slice(),
            Native::PositionsTotal => b"PositionsTotal".as_slice(),
            Native::PositionGetTicket => b"PositionGetTicket".as_slice(),
            Native::PositionGetSymbol => b"PositionGetSymbol".as_slice(),
            Native::PositionSelect => b"PositionSelect".as_slice(),
            Native::PositionSelectByTicket => b"PositionSelectByTicket".as_slice(),
            Native::PositionGetDouble => b"PositionGetDouble".as_slice(),
            Native::PositionGetInteger => b"PositionGetInteger".as_slice(),
            Native::PositionGetString => b"PositionGetString".as_slice(),
            Native::OrdersTotal => b"OrdersTotal".as_slice(),
            Native::OrderGetTicket => b"OrderGetTicket".as_slice(),
            Native::OrderSelect => b"OrderSelect".as_slice(),
            Native::OrderGetDouble => b"OrderGetDouble".as_slice(),
            Native::OrderGetInteger => b"OrderGetInteger".as_slice(),
            Native::OrderGetString => b"OrderGetString".as_slice(),
            Native::HistorySelect => b"HistorySelect".as_slice(),
            Native::HistoryDealsTotal => b"HistoryDealsTotal".as_slice(),
            Native::HistoryDealGetTicket => b"HistoryDealGetTicket".as_slice(),
            Native::HistoryDealGetDouble => b"HistoryDealGetDouble".as_slice(),
            Native::HistoryDealGetInteger => b"HistoryDealGetInteger".as_slice(),
            Native::HistoryDealGetString => b"HistoryDealGetString".as_slice(),
        }
    }

    /// Its number, from 0 on.
    #[tactic(auto, unfolding(crate::specs::Names::native_number))]
    pub fn number(self) -> u8
        ensures { result ≡ native_number self }
    {
        self as u8
    }
}

/// The first of some of them that is spelled so.
fn native_among(natives: &[Native], units: &[u16]) -> Option<Native>
    ensures { result ≡ spelled_among native_spelling natives.now units.now }
{
    let mut rest = natives;
    while let [native, others @ ..] = rest {
        if is_spelled(units, native.spelling()) {
            return Some(*native);
        }
        rest = others;
    }
    None
}

/// The one that is spelled so, if there is one.
#[tactic(auto, unfolding(crate::specs::Names::native_named))]
pub fn native_named(units: &[u16]) -> Option<Native>
    ensures { result ≡ native_named units.now }
{
    native_among(&NATIVES, units)
}

/// A text is the full name of a native function exactly where it is that function's spelling.
pub fn natives_by_spelling()
    ensures { (units : List ℕ) (native : natives.Native) → (native_named units ≡ Some native)
        ↔ (units ≡ native_spelling native) }
{}

/// The function at a place among some.
fn native_in(natives: &[Native], place: u16) -> Option<Native>
    ensures { result ≡ slice_get natives.now place }
{
    natives.get(usize::from(place)).copied()
}

/// The function of a number, if there is one.
#[tactic(auto, unfolding(crate::specs::Names::native_at))]
pub fn native_at(number: u16) -> Option<Native>
    ensures { result ≡ native_at number }
{
    native_in(&NATIVES, number)
}

/// A number is that of a function exactly where the function's number is this one.
pub fn natives_by_number()
    ensures { (number : ℕ) (native : natives.Native) → (native_at number ≡ Some native)
        ↔ (native_number native ≡ number) }
{}
