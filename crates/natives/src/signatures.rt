//! The table of signatures.
ghost use Rattle.std.specs.Prelude.{◌≡◌, ◌≤◌, length};
ghost use Rattle.natives.specs.Signatures.{signature, least_arguments, takes_more};

use crate::native::Native;
use crate::signature::{
    Elements, Evaluation, LastError, Parameter, ParameterKind, Passing, ResultType,
};
use crate::types::{SimpleType, Structure};
use fx8::IntKind;

const ARRAY_ANY: Parameter = Parameter {
    kind: ParameterKind::Array(Elements::Any),
    passing: Passing::Value,
    default: None,
};

const ARRAY_MATCHING: Parameter = Parameter {
    kind: ParameterKind::Array(Elements::Matching),
    passing: Passing::Value,
    default: None,
};

const ARRAY_NUMBERS: Parameter = Parameter {
    kind: ParameterKind::Array(Elements::Numbers),
    passing: Passing::Value,
    default: None,
};

const BOOL: Parameter = Parameter {
    kind: ParameterKind::Simple(SimpleType::Integer(IntKind::Bool)),
    passing: Passing::Value,
    default: None,
};

const CHANGED_ARRAY_ANY: Parameter = Parameter {
    kind: ParameterKind::Array(Elements::Any),
    passing: Passing::Reference,
    default: None,
};

const CHANGED_ARRAY_NUMBERS: Parameter = Parameter {
    kind: ParameterKind::Array(Elements::Numbers),
    passing: Passing::Reference,
    default: None,
};

const CHANGED_ARRAY_OF_DATETIME: Parameter = Parameter {
    kind: ParameterKind::Array(Elements::Simple(SimpleType::Integer(IntKind::Datetime))),
    passing: Passing::Reference,
    default: None,
};

const CHANGED_ARRAY_OF_DOUBLE: Parameter = Parameter {
    kind: ParameterKind::Array(Elements::Simple(SimpleType::Double)),
    passing: Passing::Reference,
    default: None,
};

const CHANGED_ARRAY_OF_LONG: Parameter = Parameter {
    kind: ParameterKind::Array(Elements::Simple(SimpleType::Integer(IntKind::Long))),
    passing: Passing::Reference,
    default: None,
};

const CHANGED_ARRAY_OF_STRING: Parameter = Parameter {
    kind: ParameterKind::Array(Elements::Simple(SimpleType::String)),
    passing: Passing::Reference,
    default: None,
};

const CHANGED_ARRAY_STRUCTURES_MQLRATES: Parameter = Parameter {
    kind: ParameterKind::Array(Elements::Structures(Structure::MqlRates)),
    passing: Passing::Reference,
    default: None,
};

const CHANGED_STRING: Parameter = Parameter {
    kind: ParameterKind::Simple(SimpleType::String),
    passing: Passing::Reference,
    default: None,
};

const CHANGED_STRUCTURE_MQLDATETIME: Parameter = Parameter {
    kind: ParameterKind::Structure(Structure::MqlDateTime),
    passing: Passing::Reference,
    default: None,
};

const CHANGED_STRUCTURE_MQLTICK: Parameter = Parameter {
    kind: ParameterKind::Structure(Structure::MqlTick),
    passing: Passing::Reference,
    default: None,
};

const CHANGED_STRUCTURE_MQLTRADERESULT: Parameter = Parameter {
    kind: ParameterKind::Structure(Structure::MqlTradeResult),
    passing: Passing::Reference,
    default: None,
};

const CHANGED_VARIABLE: Parameter = Parameter {
    kind: ParameterKind::Variable,
    passing: Passing::Reference,
    default: None,
};

const COMMON: Parameter = Parameter {
    kind: ParameterKind::Common,
    passing: Passing::Value,
    default: None,
};

const DATETIME: Parameter = Parameter {
    kind: ParameterKind::Simple(SimpleType::Integer(IntKind::Datetime)),
    passing: Passing::Value,
    default: None,
};

const DOUBLE: Parameter = Parameter {
    kind: ParameterKind::Simple(SimpleType::Double),
    passing: Passing::Value,
    default: None,
};

const ENUMERATION: Parameter = Parameter {
    kind: ParameterKind::Enumeration,
    passing: Passing::Value,
    default: None,
};

const INT: Parameter = Parameter {
    kind: ParameterKind::Simple(SimpleType::Integer(IntKind::Int)),
    passing: Passing::Value,
    default: None,
};

const LONG: Parameter = Parameter {
    kind: ParameterKind::Simple(SimpleType::Integer(IntKind::Long)),
    passing: Passing::Value,
    default: None,
};

const NUMBER: Parameter = Parameter {
    kind: ParameterKind::Number,
    passing: Passing::Value,
    default: None,
};

const OBJECT: Parameter = Parameter {
    kind: ParameterKind::Object,
    passing: Passing::Value,
    default: None,
};

const OPTIONAL_BOOL_OR_1: Parameter = Parameter {
    kind: ParameterKind::Simple(SimpleType::Integer(IntKind::Bool)),
    passing: Passing::Value,
    default: Some(1),
};

const OPTIONAL_INT_OR_0: Parameter = Parameter {
    kind: ParameterKind::Simple(SimpleType::Integer(IntKind::Int)),
    passing: Passing::Value,
    default: Some(0),
};

const OPTIONAL_INT_OR_3: Parameter = Parameter {
    kind: ParameterKind::Simple(SimpleType::Integer(IntKind::Int)),
    passing: Passing::Value,
    default: Some(3),
};

const OPTIONAL_INT_OR_8: Parameter = Parameter {
    kind: ParameterKind::Simple(SimpleType::Integer(IntKind::Int)),
    passing: Passing::Value,
    default: Some(8),
};

const OPTIONAL_INT_OR_MINUS_1: Parameter = Parameter {
    kind: ParameterKind::Simple(SimpleType::Integer(IntKind::Int)),
    passing: Passing::Value,
    default: Some(-1),
};

const OPTIONAL_USHORT_OR_32: Parameter = Parameter {
    kind: ParameterKind::Simple(SimpleType::Integer(IntKind::Ushort)),
    passing: Passing::Value,
    default: Some(32),
};

const POINTER: Parameter = Parameter {
    kind: ParameterKind::Pointer,
    passing: Passing::Value,
    default: None,
};

const REST: Parameter = Parameter {
    kind: ParameterKind::Rest,
    passing: Passing::Value,
    default: None,
};

const STRING: Parameter = Parameter {
    kind: ParameterKind::Simple(SimpleType::String),
    passing: Passing::Value,
    default: None,
};

const STRUCTURE_MQLDATETIME: Parameter = Parameter {
    kind: ParameterKind::Structure(Structure::MqlDateTime),
    passing: Passing::Value,
    default: None,
};

const STRUCTURE_MQLTRADEREQUEST: Parameter = Parameter {
    kind: ParameterKind::Structure(Structure::MqlTradeRequest),
    passing: Passing::Value,
    default: None,
};

const UCHAR: Parameter = Parameter {
    kind: ParameterKind::Simple(SimpleType::Integer(IntKind::Uchar)),
    passing: Passing::Value,
    default: None,
};

const ULONG: Parameter = Parameter {
    kind: ParameterKind::Simple(SimpleType::Integer(IntKind::Ulong)),
    passing: Passing::Value,
    default: None,
};

const USHORT: Parameter = Parameter {
    kind: ParameterKind::Simple(SimpleType::Integer(IntKind::Ushort)),
    passing: Passing::Value,
    default: None,
};

/// The least number of arguments for some parameters.
#[tactic(auto, unfolding(crate::specs::Signatures::least_arguments))]
fn least_of(parameters: &[Parameter]) -> usize
    ensures value { result ≡ least_arguments parameters.now }
    ensures at_most { result ≤ length parameters.now }
{
    match parameters {
        [] => 0,
        [parameter, others @ ..] => {
            if parameter.may_lack() {
                least_of(others)
            } else {
                1 + least_of(others)
            }
        }
    }
}

/// Whether one of some parameters takes any number of values.
#[tactic(auto, unfolding(crate::specs::Signatures::takes_more))]
fn more_of(parameters: &[Parameter]) -> bool
    ensures { result ≡ takes_more parameters.now }
{
    match parameters {
        [] => false,
        [parameter, others @ ..] => parameter.kind.is_rest() || more_of(others),
    }
}

impl Native {
    /// Where a call is answered.
    #[tactic(auto, unfolding(crate::specs::Signatures::signature))]
    pub fn evaluation(self) -> Evaluation
        ensures { result ≡ (signature self).answered }
    {
        match self {
            Native::StringLen => Evaluation::Pure,
            Native::StringSubstr => Evaluation::Pure,
            Native::StringFind => Evaluation::Pure,
            Native::StringReplace => Evaluation::Pure,
            Native::StringTrimLeft => Evaluation::Pure,
            Native::StringTrimRight => Evaluation::Pure,
            Native::StringToLower => Evaluation::Pure,
            Native::StringToUpper => Evaluation::Pure,
            Native::StringGetCharacter => Evaluation::Pure,
            Native::StringSetCharacter => Evaluation::Pure,
            Native::StringSplit => Evaluation::Pure,
            Native::StringCompare => Evaluation::Pure,
            Native::StringToInteger => Evaluation::Pure,
            Native::StringToDouble => Evaluation::Pure,
            Native::IntegerToString => Evaluation::Pure,
            Native::DoubleToString => Evaluation::Pure,
            Native::TimeToString => Evaluation::Pure,
            Native::CharToString => Evaluation::Pure,
            Native::ShortToString => Evaluation::Pure,
            Native::EnumToString => Evaluation::Compiler,
            Native::StringFormat => Evaluation::Pure,
            Native::ArraySize => Evaluation::Pure,
            Native::ArrayRange => Evaluation::Store,
            Native::ArrayResize => Evaluation::Pure,
            Native::ArrayFree => Evaluation::Pure,
            Native::ArrayInitialize => Evaluation::Pure,
            Native::ArrayCopy => Evaluation::Pure,
            Native::ArraySetAsSeries => Evaluation::Store,
            Native::ArrayGetAsSeries => Evaluation::Store,
            Native::ArraySort => Evaluation::Pure,
            Native::ArrayMaximum => Evaluation::Pure,
            Native::ArrayMinimum => Evaluation::Pure,
            Native::ArrayIsDynamic => Evaluation::Store,
            Native::ZeroMemory => Evaluation::Store,
            Native::MathAbs => Evaluation::Pure,
            Native::MathMax => Evaluation::Pure,
            Native::MathMin => Evaluation::Pure,
            Native::MathFloor => Evaluation::Pure,
            Native::MathCeil => Evaluation::Pure,
            Native::MathRound => Evaluation::Pure,
            Native::MathSqrt => Evaluation::Pure,
            Native::MathMod => Evaluation::Pure,
            Native::MathPow => Evaluation::Pure,
            Native::MathRand => Evaluation::World,
            Native::MathSrand => Evaluation::World,
            Native::MathIsValidNumber => Evaluation::Pure,
            Native::NormalizeDouble => Evaluation::Pure,
            Native::GetPointer => Evaluation::Store,
            Native::CheckPointer => Evaluation::Store,
            Native::Print => Evaluation::World,
            Native::PrintFormat => Evaluation::World,
            Native::Comment => Evaluation::Pure,
            Native::TimeCurrent => Evaluation::World,
            Native::TimeLocal => Evaluation::World,
            Native::TimeGMT => Evaluation::World,
            Native::TimeToStruct => Evaluation::Pure,
            Native::StructToTime => Evaluation::Pure,
            Native::ExpertRemove => Evaluation::World,
            Native::GetLastError => Evaluation::World,
            Native::ResetLastError => Evaluation::World,
            Native::Symbol => Evaluation::World,
            Native::Period => Evaluation::World,
            Native::IsStopped => Evaluation::Pure,
            Native::UninitializeReason => Evaluation::World,
            Native::MQLInfoInteger => Evaluation::World,
            Native::TesterStatistics => Evaluation::World,
            Native::AccountInfoDouble => Evaluation::World,
            Native::AccountInfoInteger => Evaluation::World,
            Native::AccountInfoString => Evaluation::World,
            Native::SymbolInfoDouble => Evaluation::World,
            Native::SymbolInfoInteger => Evaluation::World,
            Native::SymbolInfoTick => Evaluation::World,
            Native::ITime => Evaluation::World,
            Native::IOpen => Evaluation::World,
            Native::IHigh => Evaluation::World,
            Native::ILow => Evaluation::World,
            Native::IClose => Evaluation::World,
            Native::IVolume => Evaluation::World,
            Native::Bars => Evaluation::World,
            Native::CopyRates => Evaluation::World,
            Native::CopyTime => Evaluation::World,
            Native::CopyOpen => Evaluation::World,
            Native::CopyHigh => Evaluation::World,
            Native::CopyLow => Evaluation::World,
            Native::CopyClose => Evaluation::World,
            Native::CopyTickVolume => Evaluation::World,
            Native::IMA => Evaluation::World,
            Native::IATR => Evaluation::World,
            Native::IRSI => Evaluation::World,
            Native::CopyBuffer => Evaluation::World,
            Native::BarsCalculated => Evaluation::World,
            Native::OrderSend => Evaluation::World,
            Native::PositionsTotal => Evaluation::World,
            Native::PositionGetTicket => Evaluation::World,
            Native::PositionGetSymbol => Evaluation::World,
            Native::PositionSelect => Evaluation::World,
            Native::PositionSelectByTicket => Evaluation::World,
            Native::PositionGetDouble => Evaluation::World,
            Native::PositionGetInteger => Evaluation::World,
            Native::PositionGetString => Evaluation::World,
            Native::OrdersTotal => Evaluation::World,
            Native::OrderGetTicket => Evaluation::World,
            Native::OrderSelect => Evaluation::World,
            Native::OrderGetDouble => Evaluation::World,
            Native::OrderGetInteger => Evaluation::World,
            Native::OrderGetString => Evaluation::World,
            Native::HistorySelect => Evaluation::World,
            Native::HistoryDealsTotal => Evaluation::World,
            Native::HistoryDealGetTicket => Evaluation::World,
            Native::HistoryDealGetDouble => Evaluation::World,
            Native::HistoryDealGetInteger => Evaluation::World,
            Native::HistoryDealGetString => Evaluation::World,
        }
    }

    /// What it gives.
    #[tactic(auto, unfolding(crate::specs::Signatures::signature))]
    pub fn result(self) -> ResultType
        ensures { result ≡ (signature self).result }
    {
        match self {
            Native::StringLen => ResultType::Simple(SimpleType::Integer(IntKind::Int)),
            Native::StringSubstr => ResultType::Simple(SimpleType::String),
            Native::StringFind => ResultType::Simple(SimpleType::Integer(IntKind::Int)),
            Native::StringReplace => ResultType::Simple(SimpleType::Integer(IntKind::Int)),
            Native::StringTrimLeft => ResultType::Simple(SimpleType::Integer(IntKind::Int)),
            Native::StringTrimRight => ResultType::Simple(SimpleType::Integer(IntKind::Int)),
            Native::StringToLower => ResultType::Simple(SimpleType::Integer(IntKind::Bool)),
            Native::StringToUpper => ResultType::Simple(SimpleType::Integer(IntKind::Bool)),
            Native::StringGetCharacter => ResultType::Simple(SimpleType::Integer(IntKind::Ushort)),
            Native::StringSetCharacter => ResultType::Simple(SimpleType::Integer(IntKind::Bool)),
            Native::StringSplit => ResultType::Simple(SimpleType::Integer(IntKind::Int)),
            Native::StringCompare => ResultType::Simple(SimpleType::Integer(IntKind::Int)),
            Native::StringToInteger => ResultType::Simple(SimpleType::Integer(IntKind::Long)),
            Native::StringToDouble => ResultType::Simple(SimpleType::Double),
            Native::IntegerToString => ResultType::Simple(SimpleType::String),
            Native::DoubleToString => ResultType::Simple(SimpleType::String),
            Native::TimeToString => ResultType::Simple(SimpleType::String),
            Native::CharToString => ResultType::Simple(SimpleType::String),
            Native::ShortToString => ResultType::Simple(SimpleType::String),
            Native::EnumToString => ResultType::Simple(SimpleType::String),
            Native::StringFormat => ResultType::Simple(SimpleType::String),
            Native::ArraySize => ResultType::Simple(SimpleType::Integer(IntKind::Int)),
            Native::ArrayRange => ResultType::Simple(SimpleType::Integer(IntKind::Int)),
            Native::ArrayResize => ResultType::Simple(SimpleType::Integer(IntKind::Int)),
            Native::ArrayFree => ResultType::Void,
            Native::ArrayInitialize => ResultType::Simple(SimpleType::Integer(IntKind::Int)),
            Native::ArrayCopy => ResultType::Simple(SimpleType::Integer(IntKind::Int)),
            Native::ArraySetAsSeries => ResultType::Simple(SimpleType::Integer(IntKind::Bool)),
            Native::ArrayGetAsSeries => ResultType::Simple(SimpleType::Integer(IntKind::Bool)),
            Native::ArraySort => ResultType::Simple(SimpleType::Integer(IntKind::Bool)),
            Native::ArrayMaximum => ResultType::Simple(SimpleType::Integer(IntKind::Int)),
            Native::ArrayMinimum => ResultType::Simple(SimpleType::Integer(IntKind::Int)),
            Native::ArrayIsDynamic => ResultType::Simple(SimpleType::Integer(IntKind::Bool)),
            Native::ZeroMemory => ResultType::Void,
            Native::MathAbs => ResultType::Common,
            Native::MathMax => ResultType::Common,
            Native::MathMin => ResultType::Common,
            Native::MathFloor => ResultType::Simple(SimpleType::Double),
            Native::MathCeil => ResultType::Simple(SimpleType::Double),
            Native::MathRound => ResultType::Simple(SimpleType::Double),
            Native::MathSqrt => ResultType::Simple(SimpleType::Double),
            Native::MathMod => ResultType::Simple(SimpleType::Double),
            Native::MathPow => ResultType::Simple(SimpleType::Double),
            Native::MathRand => ResultType::Simple(SimpleType::Integer(IntKind::Int)),
            Native::MathSrand => ResultType::Void,
            Native::MathIsValidNumber => ResultType::Simple(SimpleType::Integer(IntKind::Bool)),
            Native::NormalizeDouble => ResultType::Simple(SimpleType::Double),
            Native::GetPointer => ResultType::Pointer,
            Native::CheckPointer => ResultType::Simple(SimpleType::Integer(IntKind::Int)),
            Native::Print => ResultType::Void,
            Native::PrintFormat => ResultType::Void,
            Native::Comment => ResultType::Void,
            Native::TimeCurrent => ResultType::Simple(SimpleType::Integer(IntKind::Datetime)),
            Native::TimeLocal => ResultType::Simple(SimpleType::Integer(IntKind::Datetime)),
            Native::TimeGMT => ResultType::Simple(SimpleType::Integer(IntKind::Datetime)),
            Native::TimeToStruct => ResultType::Simple(SimpleType::Integer(IntKind::Bool)),
            Native::StructToTime => ResultType::Simple(SimpleType::Integer(IntKind::Datetime)),
            Native::ExpertRemove => ResultType::Void,
            Native::GetLastError => ResultType::Simple(SimpleType::Integer(IntKind::Int)),
            Native::ResetLastError => ResultType::Void,
            Native::Symbol => ResultType::Simple(SimpleType::String),
            Native::Period => ResultType::Simple(SimpleType::Integer(IntKind::Int)),
            Native::IsStopped => ResultType::Simple(SimpleType::Integer(IntKind::Bool)),
            Native::UninitializeReason => ResultType::Simple(SimpleType::Integer(IntKind::Int)),
            Native::MQLInfoInteger => ResultType::Simple(SimpleType::Integer(IntKind::Int)),
            Native::TesterStatistics => ResultType::Simple(SimpleType::Double),
            Native::AccountInfoDouble => ResultType::Simple(SimpleType::Double),
            Native::AccountInfoInteger => ResultType::Simple(SimpleType::Integer(IntKind::Long)),
            Native::AccountInfoString => ResultType::Simple(SimpleType::String),
            Native::SymbolInfoDouble => ResultType::Simple(SimpleType::Double),
            Native::SymbolInfoInteger => ResultType::Simple(SimpleType::Integer(IntKind::Long)),
            Native::SymbolInfoTick => ResultType::Simple(SimpleType::Integer(IntKind::Bool)),
            Native::ITime => ResultType::Simple(SimpleType::Integer(IntKind::Datetime)),
            Native::IOpen => ResultType::Simple(SimpleType::Double),
            Native::IHigh => ResultType::Simple(SimpleType::Double),
            Native::ILow => ResultType::Simple(SimpleType::Double),
            Native::IClose => ResultType::Simple(SimpleType::Double),
            Native::IVolume => ResultType::Simple(SimpleType::Integer(IntKind::Long)),
            Native::Bars => ResultType::Simple(SimpleType::Integer(IntKind::Int)),
            Native::CopyRates => ResultType::Simple(SimpleType::Integer(IntKind::Int)),
            Native::CopyTime => ResultType::Simple(SimpleType::Integer(IntKind::Int)),
            Native::CopyOpen => ResultType::Simple(SimpleType::Integer(IntKind::Int)),
            Native::CopyHigh => ResultType::Simple(SimpleType::Integer(IntKind::Int)),
            Native::CopyLow => ResultType::Simple(SimpleType::Integer(IntKind::Int)),
            Native::CopyClose => ResultType::Simple(SimpleType::Integer(IntKind::Int)),
            Native::CopyTickVolume => ResultType::Simple(SimpleType::Integer(IntKind::Int)),
            Native::IMA => ResultType::Simple(SimpleType::Integer(IntKind::Int)),
            Native::IATR => ResultType::Simple(SimpleType::Integer(IntKind::Int)),
            Native::IRSI => ResultType::Simple(SimpleType::Integer(IntKind::Int)),
            Native::CopyBuffer => ResultType::Simple(SimpleType::Integer(IntKind::Int)),
            Native::BarsCalculated => ResultType::Simple(SimpleType::Integer(IntKind::Int)),
            Native::OrderSend => ResultType::Simple(SimpleType::Integer(IntKind::Bool)),
            Native::PositionsTotal => ResultType::Simple(SimpleType::Integer(IntKind::Int)),
            Native::PositionGetTicket => ResultType::Simple(SimpleType::Integer(IntKind::Ulong)),
            Native::PositionGetSymbol => ResultType::Simple(SimpleType::String),
            Native::PositionSelect => ResultType::Simple(SimpleType::Integer(IntKind::Bool)),
            Native::PositionSelectByTicket => ResultType::Simple(SimpleType::Integer(
                IntKind::Bool,
            )),
            Native::PositionGetDouble => ResultType::Simple(SimpleType::Double),
            Native::PositionGetInteger => ResultType::Simple(SimpleType::Integer(IntKind::Long)),
            Native::PositionGetString => ResultType::Simple(SimpleType::String),
            Native::OrdersTotal => ResultType::Simple(SimpleType::Integer(IntKind::Int)),
            Native::OrderGetTicket => ResultType::Simple(SimpleType::Integer(IntKind::Ulong)),
            Native::OrderSelect => ResultType::Simple(SimpleType::Integer(IntKind::Bool)),
            Native::OrderGetDouble => ResultType::Simple(SimpleType::Double),
            Native::OrderGetInteger => ResultType::Simple(SimpleType::Integer(IntKind::Long)),
            Native::OrderGetString => ResultType::Simple(SimpleType::String),
            Native::HistorySelect => ResultType::Simple(SimpleType::Integer(IntKind::Bool)),
            Native::HistoryDealsTotal => ResultType::Simple(SimpleType::Integer(IntKind::Int)),
            Native::HistoryDealGetTicket => ResultType::Simple(SimpleType::Integer(IntKind::Ulong)),
            Native::HistoryDealGetDouble => ResultType::Simple(SimpleType::Double),
            Native::HistoryDealGetInteger => ResultType::Simple(SimpleType::Integer(IntKind::Long)),
            Native::HistoryDealGetString => ResultType::Simple(SimpleType::String),
        }
    }

    /// Its parameters, in order.
    #[tactic(auto, unfolding(crate::specs::Signatures::signature))]
    pub fn parameters(self) -> &'static [Parameter]
        ensures { result.now ≡ (signature self).parameters }
    {
        match self {
            Native::StringLen => &[STRING],
            Native::StringSubstr => &[STRING, INT, OPTIONAL_INT_OR_MINUS_1],
            Native::StringFind => &[STRING, STRING, OPTIONAL_INT_OR_0],
            Native::StringReplace => &[CHANGED_STRING, STRING, STRING],
            Native::StringTrimLeft => &[CHANGED_STRING],
            Native::StringTrimRight => &[CHANGED_STRING],
            Native::StringToLower => &[CHANGED_STRING],
            Native::StringToUpper => &[CHANGED_STRING],
            Native::StringGetCharacter => &[STRING, INT],
            Native::StringSetCharacter => &[CHANGED_STRING, INT, USHORT],
            Native::StringSplit => &[STRING, USHORT, CHANGED_ARRAY_OF_STRING],
            Native::StringCompare => &[STRING, STRING, OPTIONAL_BOOL_OR_1],
            Native::StringToInteger => &[STRING],
            Native::StringToDouble => &[STRING],
            Native::IntegerToString => &[LONG, OPTIONAL_INT_OR_0, OPTIONAL_USHORT_OR_32],
            Native::DoubleToString => &[DOUBLE, OPTIONAL_INT_OR_8],
            Native::TimeToString => &[DATETIME, OPTIONAL_INT_OR_3],
            Native::CharToString => &[UCHAR],
            Native::ShortToString => &[USHORT],
            Native::EnumToString => &[ENUMERATION],
            Native::StringFormat => &[STRING, REST],
            Native::ArraySize => &[ARRAY_ANY],
            Native::ArrayRange => &[ARRAY_ANY, INT],
            Native::ArrayResize => &[CHANGED_ARRAY_ANY, INT, OPTIONAL_INT_OR_0],
            Native::ArrayFree => &[CHANGED_ARRAY_ANY],
            Native::ArrayInitialize => &[CHANGED_ARRAY_NUMBERS, NUMBER],
            Native::ArrayCopy => &[
                CHANGED_ARRAY_ANY,
                ARRAY_MATCHING,
                OPTIONAL_INT_OR_0,
                OPTIONAL_INT_OR_0,
                OPTIONAL_INT_OR_MINUS_1,
            ],
            Native::ArraySetAsSeries => &[CHANGED_ARRAY_ANY, BOOL],
            Native::ArrayGetAsSeries => &[ARRAY_ANY],
            Native::ArraySort => &[CHANGED_ARRAY_NUMBERS],
            Native::ArrayMaximum => &[ARRAY_NUMBERS, OPTIONAL_INT_OR_0, OPTIONAL_INT_OR_MINUS_1],
            Native::ArrayMinimum => &[ARRAY_NUMBERS, OPTIONAL_INT_OR_0, OPTIONAL_INT_OR_MINUS_1],
            Native::ArrayIsDynamic => &[ARRAY_ANY],
            Native::ZeroMemory => &[CHANGED_VARIABLE],
            Native::MathAbs => &[COMMON],
            Native::MathMax => &[COMMON, COMMON],
            Native::MathMin => &[COMMON, COMMON],
            Native::MathFloor => &[DOUBLE],
            Native::MathCeil => &[DOUBLE],
            Native::MathRound => &[DOUBLE],
            Native::MathSqrt => &[DOUBLE],
            Native::MathMod => &[DOUBLE, DOUBLE],
            Native::MathPow => &[DOUBLE, DOUBLE],
            Native::MathRand => &[],
            Native::MathSrand => &[INT],
            Native::MathIsValidNumber => &[DOUBLE],
            Native::NormalizeDouble => &[DOUBLE, INT],
            Native::GetPointer => &[OBJECT],
            Native::CheckPointer => &[POINTER],
            Native::Print => &[REST],
            Native::PrintFormat => &[STRING, REST],
            Native::Comment => &[REST],
            Native::TimeCurrent => &[],
            Native::TimeLocal => &[],
            Native::TimeGMT => &[],
            Native::TimeToStruct => &[DATETIME, CHANGED_STRUCTURE_MQLDATETIME],
            Native::StructToTime => &[STRUCTURE_MQLDATETIME],
            Native::ExpertRemove => &[],
            Native::GetLastError => &[],
            Native::ResetLastError => &[],
            Native::Symbol => &[],
            Native::Period => &[],
            Native::IsStopped => &[],
            Native::UninitializeReason => &[],
            Native::MQLInfoInteger => &[INT],
            Native::TesterStatistics => &[INT],
            Native::AccountInfoDouble => &[INT],
            Native::AccountInfoInteger => &[INT],
            Native::AccountInfoString => &[INT],
            Native::SymbolInfoDouble => &[STRING, INT],
            Native::SymbolInfoInteger => &[STRING, INT],
            Native::SymbolInfoTick => &[STRING, CHANGED_STRUCTURE_MQLTICK],
            Native::ITime => &[STRING, INT, INT],
            Native::IOpen => &[STRING, INT, INT],
            Native::IHigh => &[STRING, INT, INT],
            Native::ILow => &[STRING, INT, INT],
            Native::IClose => &[STRING, INT, INT],
            Native::IVolume => &[STRING, INT, INT],
            Native::Bars => &[STRING, INT],
            Native::CopyRates => &[STRING, INT, INT, INT, CHANGED_ARRAY_STRUCTURES_MQLRATES],
            Native::CopyTime => &[STRING, INT, INT, INT, CHANGED_ARRAY_OF_DATETIME],
            Native::CopyOpen => &[STRING, INT, INT, INT, CHANGED_ARRAY_OF_DOUBLE],
            Native::CopyHigh => &[STRING, INT, INT, INT, CHANGED_ARRAY_OF_DOUBLE],
            Native::CopyLow => &[STRING, INT, INT, INT, CHANGED_ARRAY_OF_DOUBLE],
            Native::CopyClose => &[STRING, INT, INT, INT, CHANGED_ARRAY_OF_DOUBLE],
            Native::CopyTickVolume => &[STRING, INT, INT, INT, CHANGED_ARRAY_OF_LONG],
            Native::IMA => &[STRING, INT, INT, INT, INT, INT],
            Native::IATR => &[STRING, INT, INT],
            Native::IRSI => &[STRING, INT, INT, INT],
            Native::CopyBuffer => &[INT, INT, INT, INT, CHANGED_ARRAY_OF_DOUBLE],
            Native::BarsCalculated => &[INT],
            Native::OrderSend => &[STRUCTURE_MQLTRADEREQUEST, CHANGED_STRUCTURE_MQLTRADERESULT],
            Native::PositionsTotal => &[],
            Native::PositionGetTicket => &[INT],
            Native::PositionGetSymbol => &[INT],
            Native::PositionSelect => &[STRING],
            Native::PositionSelectByTicket => &[ULONG],
            Native::PositionGetDouble => &[INT],
            Native::PositionGetInteger => &[INT],
            Native::PositionGetString => &[INT],
            Native::OrdersTotal => &[],
            Native::OrderGetTicket => &[INT],
            Native::OrderSelect => &[ULONG],
            Native::OrderGetDouble => &[INT],
            Native::OrderGetInteger => &[INT],
            Native::OrderGetString => &[INT],
            Native::HistorySelect => &[DATETIME, DATETIME],
            Native::HistoryDealsTotal => &[],
            Native::HistoryDealGetTicket => &[INT],
            Native::HistoryDealGetDouble => &[ULONG, INT],
            Native::HistoryDealGetInteger => &[ULONG, INT],
            Native::HistoryDealGetString => &[ULONG, INT],
        }
    }

    /// What it may set the last error to where it fails.
    #[tactic(auto, unfolding(crate::specs::Signatures::signature))]
    pub fn last_errors(self) -> &'static [LastError]
        ensures { result.now ≡ (signature self).may_set }
    {
        match self {
            Native::StringLen => &[],
            Native::StringSubstr => &[LastError::InvalidParameter],
            Native::StringFind => &[LastError::InvalidParameter],
            Native::StringReplace => &[],
            Native::StringTrimLeft => &[],
            Native::StringTrimRight => &[],
            Native::StringToLower => &[],
            Native::StringToUpper => &[],
            Native::StringGetCharacter => &[LastError::InvalidParameter],
            Native::StringSetCharacter => &[LastError::InvalidParameter],
            Native::StringSplit => &[LastError::InvalidParameter],
            Native::StringCompare => &[],
            Native::StringToInteger => &[],
            Native::StringToDouble => &[],
            Native::IntegerToString => &[],
            Native::DoubleToString => &[],
            Native::TimeToString => &[LastError::InvalidParameter],
            Native::CharToString => &[],
            Native::ShortToString => &[],
            Native::EnumToString => &[],
            Native::StringFormat => &[],
            Native::ArraySize => &[],
            Native::ArrayRange => &[LastError::InvalidParameter],
            Native::ArrayResize => &[LastError::InvalidParameter],
            Native::ArrayFree => &[LastError::InvalidParameter],
            Native::ArrayInitialize => &[],
            Native::ArrayCopy => &[LastError::InvalidParameter],
            Native::ArraySetAsSeries => &[],
            Native::ArrayGetAsSeries => &[],
            Native::ArraySort => &[],
            Native::ArrayMaximum => &[LastError::InvalidParameter],
            Native::ArrayMinimum => &[LastError::InvalidParameter],
            Native::ArrayIsDynamic => &[],
            Native::ZeroMemory => &[],
            Native::MathAbs => &[],
            Native::MathMax => &[],
            Native::MathMin => &[],
            Native::MathFloor => &[],
            Native::MathCeil => &[],
            Native::MathRound => &[],
            Native::MathSqrt => &[],
            Native::MathMod => &[],
            Native::MathPow => &[],
            Native::MathRand => &[],
            Native::MathSrand => &[],
            Native::MathIsValidNumber => &[],
            Native::NormalizeDouble => &[],
            Native::GetPointer => &[],
            Native::CheckPointer => &[],
            Native::Print => &[],
            Native::PrintFormat => &[],
            Native::Comment => &[],
            Native::TimeCurrent => &[],
            Native::TimeLocal => &[],
            Native::TimeGMT => &[],
            Native::TimeToStruct => &[LastError::InvalidParameter],
            Native::StructToTime => &[LastError::InvalidParameter],
            Native::ExpertRemove => &[],
            Native::GetLastError => &[],
            Native::ResetLastError => &[],
            Native::Symbol => &[],
            Native::Period => &[],
            Native::IsStopped => &[],
            Native::UninitializeReason => &[],
            Native::MQLInfoInteger => &[LastError::InvalidParameter],
            Native::TesterStatistics => &[LastError::InvalidParameter],
            Native::AccountInfoDouble => &[LastError::InvalidParameter],
            Native::AccountInfoInteger => &[LastError::InvalidParameter],
            Native::AccountInfoString => &[LastError::InvalidParameter],
            Native::SymbolInfoDouble => &[LastError::InvalidParameter, LastError::UnknownSymbol],
            Native::SymbolInfoInteger => &[LastError::InvalidParameter, LastError::UnknownSymbol],
            Native::SymbolInfoTick => &[LastError::UnknownSymbol],
            Native::ITime => &[LastError::InvalidParameter, LastError::UnknownSymbol],
            Native::IOpen => &[LastError::InvalidParameter, LastError::UnknownSymbol],
            Native::IHigh => &[LastError::InvalidParameter, LastError::UnknownSymbol],
            Native::ILow => &[LastError::InvalidParameter, LastError::UnknownSymbol],
            Native::IClose => &[LastError::InvalidParameter, LastError::UnknownSymbol],
            Native::IVolume => &[LastError::InvalidParameter, LastError::UnknownSymbol],
            Native::Bars => &[LastError::InvalidParameter, LastError::UnknownSymbol],
            Native::CopyRates => &[
                LastError::InvalidParameter,
                LastError::UnknownSymbol,
                LastError::HistoryNotFound,
            ],
            Native::CopyTime => &[
                LastError::InvalidParameter,
                LastError::UnknownSymbol,
                LastError::HistoryNotFound,
            ],
            Native::CopyOpen => &[
                LastError::InvalidParameter,
                LastError::UnknownSymbol,
                LastError::HistoryNotFound,
            ],
            Native::CopyHigh => &[
                LastError::InvalidParameter,
                LastError::UnknownSymbol,
                LastError::HistoryNotFound,
            ],
            Native::CopyLow => &[
                LastError::InvalidParameter,
                LastError::UnknownSymbol,
                LastError::HistoryNotFound,
            ],
            Native::CopyClose => &[
                LastError::InvalidParameter,
                LastError::UnknownSymbol,
                LastError::HistoryNotFound,
            ],
            Native::CopyTickVolume => &[
                LastError::InvalidParameter,
                LastError::UnknownSymbol,
                LastError::HistoryNotFound,
            ],
            Native::IMA => &[LastError::InvalidParameter, LastError::UnknownSymbol],
            Native::IATR => &[LastError::InvalidParameter, LastError::UnknownSymbol],
            Native::IRSI => &[LastError::InvalidParameter, LastError::UnknownSymbol],
            Native::CopyBuffer => &[
                LastError::InvalidParameter,
                LastError::HistoryNotFound,
                LastError::WrongIndicatorHandle,
            ],
            Native::BarsCalculated => &[LastError::WrongIndicatorHandle],
            Native::OrderSend => &[LastError::TradeSendFailed],
            Native::PositionsTotal => &[],
            Native::PositionGetTicket => &[
                LastError::InvalidParameter,
                LastError::PositionNotFound,
            ],
            Native::PositionGetSymbol => &[
                LastError::InvalidParameter,
                LastError::PositionNotFound,
            ],
            Native::PositionSelect => &[LastError::UnknownSymbol, LastError::PositionNotFound],
            Native::PositionSelectByTicket => &[LastError::PositionNotFound],
            Native::PositionGetDouble => &[
                LastError::InvalidParameter,
                LastError::PositionNotFound,
            ],
            Native::PositionGetInteger => &[
                LastError::InvalidParameter,
                LastError::PositionNotFound,
            ],
            Native::PositionGetString => &[
                LastError::InvalidParameter,
                LastError::PositionNotFound,
            ],
            Native::OrdersTotal => &[],
            Native::OrderGetTicket => &[LastError::InvalidParameter, LastError::OrderNotFound],
            Native::OrderSelect => &[LastError::OrderNotFound],
            Native::OrderGetDouble => &[LastError::InvalidParameter, LastError::OrderNotFound],
            Native::OrderGetInteger => &[LastError::InvalidParameter, LastError::OrderNotFound],
            Native::OrderGetString => &[LastError::InvalidParameter, LastError::OrderNotFound],
            Native::HistorySelect => &[],
            Native::HistoryDealsTotal => &[],
            Native::HistoryDealGetTicket => &[LastError::InvalidParameter, LastError::DealNotFound],
            Native::HistoryDealGetDouble => &[LastError::InvalidParameter, LastError::DealNotFound],
            Native::HistoryDealGetInteger => &[
                LastError::InvalidParameter,
                LastError::DealNotFound,
            ],
            Native::HistoryDealGetString => &[LastError::InvalidParameter, LastError::DealNotFound],
        }
    }

    /// The least number of arguments.
    pub fn least_arguments(self) -> usize
        ensures { result ≡ least_arguments (signature self).parameters }
    {
        least_of(self.parameters())
    }

    /// Whether any number of arguments may follow; else no more may come than there are parameters.
    pub fn takes_more(self) -> bool
        ensures { result ≡ takes_more (signature self).parameters }
    {
        more_of(self.parameters())
    }
}
