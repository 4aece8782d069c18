//! The named constants and their values.
ghost use Rattle.std.specs.Prelude.{◌≡◌, ◌↔◌, ℕ, List, Some};
ghost use Rattle.natives.specs.declared.constant.Constant as constants;
ghost use Rattle.natives.specs.Constants.{constant_spelling, constant_named, constant_value};
ghost use Rattle.mql_spelling.specs.Spelled.{spelled_among};

use crate::types::ConstantValue;
use fx8::{Fix8, IntKind};
use mql_spelling::is_spelled;

/// A named constant (MQL5 Reference, Standard Constants, Enumerations and Structures).
#[derive(Clone, Copy, PartialEq, Eq)]
pub enum Constant {
    /// `TIME_DATE`
    TimeDate,
    /// `TIME_MINUTES`
    TimeMinutes,
    /// `TIME_SECONDS`
    TimeSeconds,
    /// `MQL_TESTER`
    MqlTester,
    /// `MQL_OPTIMIZATION`
    MqlOptimization,
    /// `STAT_INITIAL_DEPOSIT`
    StatInitialDeposit,
    /// `STAT_PROFIT`
    StatProfit,
    /// `STAT_GROSS_PROFIT`
    StatGrossProfit,
    /// `STAT_GROSS_LOSS`
    StatGrossLoss,
    /// `STAT_DEALS`
    StatDeals,
    /// `STAT_TRADES`
    StatTrades,
    /// `STAT_PROFIT_TRADES`
    StatProfitTrades,
    /// `STAT_LOSS_TRADES`
    StatLossTrades,
    /// `STAT_BALANCE_DD`
    StatBalanceDd,
    /// `STAT_EQUITY_DD`
    StatEquityDd,
    /// `ACCOUNT_BALANCE`
    AccountBalance,
    /// `ACCOUNT_PROFIT`
    AccountProfit,
    /// `ACCOUNT_EQUITY`
    AccountEquity,
    /// `ACCOUNT_MARGIN`
    AccountMargin,
    /// `ACCOUNT_MARGIN_FREE`
    AccountMarginFree,
    /// `ACCOUNT_MARGIN_LEVEL`
    AccountMarginLevel,
    /// `ACCOUNT_LEVERAGE`
    AccountLeverage,
    /// `ACCOUNT_MARGIN_MODE`
    AccountMarginMode,
    /// `ACCOUNT_CURRENCY`
    AccountCurrency,
    /// `SYMBOL_BID`
    SymbolBid,
    /// `SYMBOL_ASK`
    SymbolAsk,
    /// `SYMBOL_LAST`
    SymbolLast,
    /// `SYMBOL_POINT`
    SymbolPoint,
    /// `SYMBOL_TRADE_TICK_SIZE`
    SymbolTradeTickSize,
    /// `SYMBOL_TRADE_TICK_VALUE`
    SymbolTradeTickValue,
    /// `SYMBOL_TRADE_CONTRACT_SIZE`
    SymbolTradeContractSize,
    /// `SYMBOL_VOLUME_MIN`
    SymbolVolumeMin,
    /// `SYMBOL_VOLUME_MAX`
    SymbolVolumeMax,
    /// `SYMBOL_VOLUME_STEP`
    SymbolVolumeStep,
    /// `SYMBOL_DIGITS`
    SymbolDigits,
    /// `SYMBOL_SPREAD`
    SymbolSpread,
    /// `SYMBOL_TRADE_STOPS_LEVEL`
    SymbolTradeStopsLevel,
    /// `POSITION_VOLUME`
    PositionVolume,
    /// `POSITION_PRICE_OPEN`
    PositionPriceOpen,
    /// `POSITION_PRICE_CURRENT`
    PositionPriceCurrent,
    /// `POSITION_SL`
    PositionSl,
    /// `POSITION_TP`
    PositionTp,
    /// `POSITION_PROFIT`
    PositionProfit,
    /// `POSITION_SWAP`
    PositionSwap,
    /// `POSITION_TICKET`
    PositionTicket,
    /// `POSITION_TYPE`
    PositionType,
    /// `POSITION_MAGIC`
    PositionMagic,
    /// `POSITION_IDENTIFIER`
    PositionIdentifier,
    /// `POSITION_TIME`
    PositionTime,
    /// `POSITION_SYMBOL`
    PositionSymbol,
    /// `POSITION_COMMENT`
    PositionComment,
    /// `POSITION_TYPE_BUY`
    PositionTypeBuy,
    /// `POSITION_TYPE_SELL`
    PositionTypeSell,
    /// `ORDER_VOLUME_CURRENT`
    OrderVolumeCurrent,
    /// `ORDER_PRICE_OPEN`
    OrderPriceOpen,
    /// `ORDER_SL`
    OrderSl,
    /// `ORDER_TP`
    OrderTp,
    /// `ORDER_PRICE_STOPLIMIT`
    OrderPriceStoplimit,
    /// `ORDER_TICKET`
    OrderTicket,
    /// `ORDER_TYPE`
    OrderType,
    /// `ORDER_MAGIC`
    OrderMagic,
    /// `ORDER_TIME_SETUP`
    OrderTimeSetup,
    /// `ORDER_TIME_EXPIRATION`
    OrderTimeExpiration,
    /// `ORDER_TYPE_TIME`
    OrderTypeTime,
    /// `ORDER_SYMBOL`
    OrderSymbol,
    /// `ORDER_COMMENT`
    OrderComment,
    /// `ORDER_TYPE_BUY`
    OrderTypeBuy,
    /// `ORDER_TYPE_SELL`
    OrderTypeSell,
    /// `ORDER_TYPE_BUY_LIMIT`
    OrderTypeBuyLimit,
    /// `ORDER_TYPE_SELL_LIMIT`
    OrderTypeSellLimit,
    /// `ORDER_TYPE_BUY_STOP`
    OrderTypeBuyStop,
    /// `ORDER_TYPE_SELL_STOP`
    OrderTypeSellStop,
    /// `ORDER_TYPE_BUY_STOP_LIMIT`
    OrderTypeBuyStopLimit,
    /// `ORDER_TYPE_SELL_STOP_LIMIT`
    OrderTypeSellStopLimit,
    /// `ORDER_TYPE_CLOSE_BY`
    OrderTypeCloseBy,
    /// `ORDER_FILLING_FOK`
    OrderFillingFok,
    /// `ORDER_FILLING_IOC`
    OrderFillingIoc,
    /// `ORDER_FILLING_RETURN`
    OrderFillingReturn,
    /// `ORDER_TIME_GTC`
    OrderTimeGtc,
    /// `ORDER_TIME_DAY`
    OrderTimeDay,
    /// `ORDER_TIME_SPECIFIED`
    OrderTimeSpecified,
    /// `ORDER_TIME_SPECIFIED_DAY`
    OrderTimeSpecifiedDay,
    /// `DEAL_VOLUME`
    DealVolume,
    /// `DEAL_PRICE`
    DealPrice,
    /// `DEAL_PROFIT`
    DealProfit,
    /// `DEAL_SWAP`
    DealSwap,
    /// `DEAL_COMMISSION`
    DealCommission,
    /// `DEAL_TICKET`
    DealTicket,
    /// `DEAL_ORDER`
    DealOrder,
    /// `DEAL_TIME`
    DealTime,
    /// `DEAL_TYPE`
    DealType,
    /// `DEAL_ENTRY`
    DealEntry,
    /// `DEAL_MAGIC`
    DealMagic,
    /// `DEAL_POSITION_ID`
    DealPositionId,
    /// `DEAL_REASON`
    DealReason,
    /// `DEAL_SYMBOL`
    DealSymbol,
    /// `DEAL_COMMENT`
    DealComment,
    /// `DEAL_TYPE_BUY`
    DealTypeBuy,
    /// `DEAL_TYPE_SELL`
    DealTypeSell,
    /// `DEAL_TYPE_BALANCE`
    DealTypeBalance,
    /// `DEAL_ENTRY_IN`
    DealEntryIn,
    /// `DEAL_ENTRY_OUT`
    DealEntryOut,
    /// `DEAL_ENTRY_INOUT`
    DealEntryInout,
    /// `DEAL_ENTRY_OUT_BY`
    DealEntryOutBy,
    /// `TRADE_ACTION_DEAL`
    TradeActionDeal,
    /// `TRADE_ACTION_PENDING`
    TradeActionPending,
    /// `TRADE_ACTION_SLTP`
    TradeActionSltp,
    /// `TRADE_ACTION_MODIFY`
    TradeActionModify,
    /// `TRADE_ACTION_REMOVE`
    TradeActionRemove,
    /// `TRADE_ACTION_CLOSE_BY`
    TradeActionCloseBy,
    /// `TRADE_RETCODE_PLACED`
    TradeRetcodePlaced,
    /// `TRADE_RETCODE_DONE`
    TradeRetcodeDone,
    /// `TRADE_RETCODE_INVALID`
    TradeRetcodeInvalid,
    /// `TRADE_RETCODE_INVALID_VOLUME`
    TradeRetcodeInvalidVolume,
    /// `TRADE_RETCODE_INVALID_PRICE`
    TradeRetcodeInvalidPrice,
    /// `TRADE_RETCODE_INVALID_STOPS`
    TradeRetcodeInvalidStops,
    /// `TRADE_RETCODE_NO_MONEY`
    TradeRetcodeNoMoney,
    /// `TRADE_RETCODE_PRICE_OFF`
    TradeRetcodePriceOff,
    /// `TRADE_RETCODE_INVALID_EXPIRATION`
    TradeRetcodeInvalidExpiration,
    /// `TRADE_RETCODE_NO_CHANGES`
    TradeRetcodeNoChanges,
    /// `TRADE_RETCODE_INVALID_FILL`
    TradeRetcodeInvalidFill,
    /// `TRADE_RETCODE_LIMIT_ORDERS`
    TradeRetcodeLimitOrders,
    /// `TRADE_RETCODE_INVALID_ORDER`
    TradeRetcodeInvalidOrder,
    /// `TRADE_RETCODE_POSITION_CLOSED`
    TradeRetcodePositionClosed,
    /// `TRADE_RETCODE_INVALID_CLOSE_VOLUME`
    TradeRetcodeInvalidCloseVolume,
    /// `PERIOD_CURRENT`
    PeriodCurrent,
    /// `PERIOD_M1`
    PeriodM1,
    /// `PERIOD_M5`
    PeriodM5,
    /// `PERIOD_M15`
    PeriodM15,
    /// `PERIOD_M30`
    PeriodM30,
    /// `PERIOD_H1`
    PeriodH1,
    /// `PERIOD_H4`
    PeriodH4,
    /// `PERIOD_D1`
    PeriodD1,
    /// `PRICE_CLOSE`
    PriceClose,
    /// `PRICE_OPEN`
    PriceOpen,
    /// `PRICE_HIGH`
    PriceHigh,
    /// `PRICE_LOW`
    PriceLow,
    /// `PRICE_MEDIAN`
    PriceMedian,
    /// `PRICE_TYPICAL`
    PriceTypical,
    /// `PRICE_WEIGHTED`
    PriceWeighted,
    /// `MODE_SMA`
    ModeSma,
    /// `MODE_EMA`
    ModeEma,
    /// `MODE_SMMA`
    ModeSmma,
    /// `MODE_LWMA`
    ModeLwma,
    /// `INIT_SUCCEEDED`
    InitSucceeded,
    /// `INIT_FAILED`
    InitFailed,
    /// `INIT_PARAMETERS_INCORRECT`
    InitParametersIncorrect,
    /// `INIT_AGENT_NOT_SUITABLE`
    InitAgentNotSuitable,
    /// `REASON_PROGRAM`
    ReasonProgram,
    /// `REASON_REMOVE`
    ReasonRemove,
    /// `REASON_INITFAILED`
    ReasonInitfailed,
    /// `INVALID_HANDLE`
    InvalidHandle,
    /// `WHOLE_ARRAY`
    WholeArray,
    /// `INT_MIN`
    IntMin,
    /// `INT_MAX`
    IntMax,
    /// `UINT_MAX`
    UintMax,
    /// `LONG_MIN`
    LongMin,
    /// `LONG_MAX`
    LongMax,
    /// `ULONG_MAX`
    UlongMax,
    /// `DBL_MAX`
    DblMax,
    /// `EMPTY_VALUE`
    EmptyValue,
    /// `clrBlack`
    ClrBlack,
    /// `clrWhite`
    ClrWhite,
    /// `clrRed`
    ClrRed,
    /// `clrGreen`
    ClrGreen,
    /// `clrBlue`
    ClrBlue,
    /// `clrYellow`
    ClrYellow,
}

/// Each of them, in order.
pub const CONSTANTS: [Constant; 167] = [
    Constant::TimeDate,
    Constant::TimeMinutes,
    Constant::TimeSeconds,
    Constant::MqlTester,
    Constant::MqlOptimization,
    Constant::StatInitialDeposit,
    Constant::StatProfit,
    Constant::StatGrossProfit,
    Constant::StatGrossLoss,
    Constant::StatDeals,
    Constant::StatTrades,
    Constant::StatProfitTrades,
    Constant::StatLossTrades,
    Constant::StatBalanceDd,
    Constant::StatEquityDd,
    Constant::AccountBalance,
    Constant::AccountProfit,
    Constant::AccountEquity,
    Constant::AccountMargin,
    Constant::AccountMarginFree,
    Constant::AccountMarginLevel,
    Constant::AccountLeverage,
    Constant::AccountMarginMode,
    Constant::AccountCurrency,
    Constant::SymbolBid,
    Constant::SymbolAsk,
    Constant::SymbolLast,
    Constant::SymbolPoint,
    Constant::SymbolTradeTickSize,
    Constant::SymbolTradeTickValue,
    Constant::SymbolTradeContractSize,
    Constant::SymbolVolumeMin,
    Constant::SymbolVolumeMax,
    Constant::SymbolVolumeStep,
    Constant::SymbolDigits,
    Constant::SymbolSpread,
    Constant::SymbolTradeStopsLevel,
    Constant::PositionVolume,
    Constant::PositionPriceOpen,
    Constant::PositionPriceCurrent,
    Constant::PositionSl,
    Constant::PositionTp,
    Constant::PositionProfit,
    Constant::PositionSwap,
    Constant::PositionTicket,
    Constant::PositionType,
    Constant::PositionMagic,
    Constant::PositionIdentifier,
    Constant::PositionTime,
    Constant::PositionSymbol,
    Constant::PositionComment,
    Constant::PositionTypeBuy,
    Constant::PositionTypeSell,
    Constant::OrderVolumeCurrent,
    Constant::OrderPriceOpen,
    Constant::OrderSl,
    Constant::OrderTp,
    Constant::OrderPriceStoplimit,
    Constant::OrderTicket,
    Constant::OrderType,
    Constant::OrderMagic,
    Constant::OrderTimeSetup,
    Constant::OrderTimeExpiration,
    Constant::OrderTypeTime,
    Constant::OrderSymbol,
    Constant::OrderComment,
    Constant::OrderTypeBuy,
    Constant::OrderTypeSell,
    Constant::OrderTypeBuyLimit,
    Constant::OrderTypeSellLimit,
    Constant::OrderTypeBuyStop,
    Constant::OrderTypeSellStop,
    Constant::OrderTypeBuyStopLimit,
    Constant::OrderTypeSellStopLimit,
    Constant::OrderTypeCloseBy,
    Constant::OrderFillingFok,
    Constant::OrderFillingIoc,
    Constant::OrderFillingReturn,
    Constant::OrderTimeGtc,
    Constant::OrderTimeDay,
    Constant::OrderTimeSpecified,
    Constant::OrderTimeSpecifiedDay,
    Constant::DealVolume,
    Constant::DealPrice,
    Constant::DealProfit,
    Constant::DealSwap,
    Constant::DealCommission,
    Constant::DealTicket,
    Constant::DealOrder,
    Constant::DealTime,
    Constant::DealType,
    Constant::DealEntry,
    Constant::DealMagic,
    Constant::DealPositionId,
    Constant::DealReason,
    Constant::DealSymbol,
    Constant::DealComment,
    Constant::DealTypeBuy,
    Constant::DealTypeSell,
    Constant::DealTypeBalance,
    Constant::DealEntryIn,
    Constant::DealEntryOut,
    Constant::DealEntryInout,
    Constant::DealEntryOutBy,
    Constant::TradeActionDeal,
    Constant::TradeActionPending,
    Constant::TradeActionSltp,
    Constant::TradeActionModify,
    Constant::TradeActionRemove,
    Constant::TradeActionCloseBy,
    Constant::TradeRetcodePlaced,
    Constant::TradeRetcodeDone,
    Constant::TradeRetcodeInvalid,
    Constant::TradeRetcodeInvalidVolume,
    Constant::TradeRetcodeInvalidPrice,
    Constant::TradeRetcodeInvalidStops,
    Constant::TradeRetcodeNoMoney,
    Constant::TradeRetcodePriceOff,
    Constant::TradeRetcodeInvalidExpiration,
    Constant::TradeRetcodeNoChanges,
    Constant::TradeRetcodeInvalidFill,
    Constant::TradeRetcodeLimitOrders,
    Constant::TradeRetcodeInvalidOrder,
    Constant::TradeRetcodePositionClosed,
    Constant::TradeRetcodeInvalidCloseVolume,
    Constant::PeriodCurrent,
    Constant::PeriodM1,
    Constant::PeriodM5,
    Constant::PeriodM15,
    Constant::PeriodM30,
    Constant::PeriodH1,
    Constant::PeriodH4,
    Constant::PeriodD1,
    Constant::PriceClose,
    Constant::PriceOpen,
    Constant::PriceHigh,
    Constant::PriceLow,
    Constant::PriceMedian,
    Constant::PriceTypical,
    Constant::PriceWeighted,
    Constant::ModeSma,
    Constant::ModeEma,
    Constant::ModeSmma,
    Constant::ModeLwma,
    Constant::InitSucceeded,
    Constant::InitFailed,
    Constant::InitParametersIncorrect,
    Constant::InitAgentNotSuitable,
    Constant::ReasonProgram,
    Constant::ReasonRemove,
    Constant::ReasonInitfailed,
    Constant::InvalidHandle,
    Constant::WholeArray,
    Constant::IntMin,
    Constant::IntMax,
    Constant::UintMax,
    Constant::LongMin,
    Constant::LongMax,
    Constant::UlongMax,
    Constant::DblMax,
    Constant::EmptyValue,
    Constant::ClrBlack,
    Constant::ClrWhite,
    Constant::ClrRed,
    Constant::ClrGreen,
    Constant::ClrBlue,
    Constant::ClrYellow,
];

impl Constant {
    /// How it is spelled.
    #[tactic(auto, unfolding(crate::specs::Constants::constant_spelling))]
    pub fn spelling(self) -> &'static [u8]
        ensures { result.now ≡ constant_spelling self }
    {
        match self {
            Constant::TimeDate => b"TIME_DATE".as_slice(),
            Constant::TimeMinutes => b"TIME_MINUTES".as_slice(),
            Constant::TimeSeconds => b"TIME_SECONDS".as_slice(),
            Constant::MqlTester => b"MQL_TESTER".as_slice(),
            Constant::MqlOptimization => b"MQL_OPTIMIZATION".as_slice(),
            Constant::StatInitialDeposit => b"STAT_INITIAL_DEPOSIT".as_slice(),
            Constant::StatProfit => b"STAT_PROFIT".as_slice(),
            Constant::StatGrossProfit => b"STAT_GROSS_PROFIT".as_slice(),
            Constant::StatGrossLoss => b"STAT_GROSS_LOSS".as_slice(),
            Constant::StatDeals => b"STAT_DEALS".as_slice(),
            Constant::StatTrades => b"STAT_TRADES".as_slice(),
            Constant::StatProfitTrades => b"STAT_PROFIT_TRADES".as_slice(),
            Constant::StatLossTrades => b"STAT_LOSS_TRADES".as_slice(),
            Constant::StatBalanceDd => b"STAT_BALANCE_DD".as_slice(),
            Constant::StatEquityDd => b"STAT_EQUITY_DD".as_slice(),
            Constant::AccountBalance => b"ACCOUNT_BALANCE".as_slice(),
            Constant::AccountProfit => b"ACCOUNT_PROFIT".as_slice(),
            Constant::AccountEquity => b"ACCOUNT_EQUITY".as_slice(),
            Constant::AccountMargin => b"ACCOUNT_MARGIN".as_slice(),
            Constant::AccountMarginFree => b"ACCOUNT_MARGIN_FREE".as_slice(),
            Constant::AccountMarginLevel => b"ACCOUNT_MARGIN_LEVEL".as_slice(),
            Constant::AccountLeverage => b"ACCOUNT_LEVERAGE".as_slice(),
            Constant::AccountMarginMode => b"ACCOUNT_MARGIN_MODE".as_slice(),
            Constant::AccountCurrency => b"ACCOUNT_CURRENCY".as_slice(),
            Constant::SymbolBid => b"SYMBOL_BID".as_slice(),
            Constant::SymbolAsk => b"SYMBOL_ASK".as_slice(),
            Constant::SymbolLast => b"SYMBOL_LAST".as_slice(),
            Constant::SymbolPoint => b"SYMBOL_POINT".as_slice(),
            Constant::SymbolTradeTickSize => b"SYMBOL_TRADE_TICK_SIZE".as_slice(),
            Constant::SymbolTradeTickValue => b"SYMBOL_TRADE_TICK_VALUE".as_slice(),
            Constant::SymbolTradeContractSize => b"SYMBOL_TRADE_CONTRACT_SIZE".as_slice(),
            Constant::SymbolVolumeMin => b"SYMBOL_VOLUME_MIN".as_slice(),
            Constant::SymbolVolumeMax => b"SYMBOL_VOLUME_MAX".as_slice(),
            Constant::SymbolVolumeStep => b"SYMBOL_VOLUME_STEP".as_slice(),
            Constant::SymbolDigits => b"SYMBOL_DIGITS".as_slice(),
            Constant::SymbolSpread => b"SYMBOL_SPREAD".as_slice(),
            Constant::SymbolTradeStopsLevel => b"SYMBOL_TRADE_STOPS_LEVEL".as_slice(),
            Constant::PositionVolume => b"POSITION_VOLUME".as_slice(),
            Constant::PositionPriceOpen => b"POSITION_PRICE_OPEN".as_slice(),
            Constant::PositionPriceCurrent => b"POSITION_PRICE_CURRENT".as_slice(),
            Constant::PositionSl => b"POSITION_SL".as_slice(),
            Constant::PositionTp => b"POSITION_TP".as_slice(),
            Constant::PositionProfit => b"POSITION_PROFIT".as_slice(),
            Constant::PositionSwap => b"POSITION_SWAP".as_slice(),
            Constant::PositionTicket => b"POSITION_TICKET".as_slice(),
            Constant::PositionType => b"POSITION_TYPE".as_slice(),
            Constant::PositionMagic => b"POSITION_MAGIC".as_slice(),
            Constant::PositionIdentifier => b"POSITION_IDENTIFIER".as_slice(),
            Constant::PositionTime => b"POSITION_TIME".as_slice(),
            Constant::PositionSymbol => b"POSITION_SYMBOL".as_slice(),
            Constant::PositionComment => b"POSITION_COMMENT".as_slice(),
            Constant::PositionTypeBuy => b"POSITION_TYPE_BUY".as_slice(),
            Constant::PositionTypeSell => b"POSITION_TYPE_SELL".as_slice(),
            Constant::OrderVolumeCurrent => b"ORDER_VOLUME_CURRENT".as_slice(),
            Constant::OrderPriceOpen => b"ORDER_PRICE_OPEN".as_slice(),
            Constant::OrderSl => b"ORDER_SL".as_slice(),
            Constant::OrderTp => b"ORDER_TP".as_slice(),
            Constant::OrderPriceStoplimit => b"ORDER_PRICE_STOPLIMIT".as_slice(),
            Constant::OrderTicket => b"ORDER_TICKET".as_slice(),
            Constant::OrderType => b"ORDER_TYPE".as_slice(),
            Constant::OrderMagic => b"ORDER_MAGIC".as_slice(),
            Constant::OrderTimeSetup => b"ORDER_TIME_SETUP".as_slice(),
            Constant::OrderTimeExpiration => b"ORDER_TIME_EXPIRATION".as_slice(),
            Constant::OrderTypeTime => b"ORDER_TYPE_TIME".as_slice(),
            Constant::OrderSymbol => b"ORDER_SYMBOL".as_slice(),
            Constant::OrderComment => b"ORDER_COMMENT".as_slice(),
            Constant::OrderTypeBuy => b"ORDER_TYPE_BUY".as_slice(),
            Constant::OrderTypeSell => b"ORDER_TYPE_SELL".as_slice(),
            Constant::OrderTypeBuyLimit => b"ORDER_TYPE_BUY_LIMIT".as_slice(),
            Constant::OrderTypeSellLimit => b"ORDER_TYPE_SELL_LIMIT".as_slice(),
            Constant::OrderTypeBuyStop => b"ORDER_TYPE_BUY_STOP".as_slice(),
            Constant::OrderTypeSellStop => b"ORDER_TYPE_SELL_STOP".as_slice(),
            Constant::OrderTypeBuyStopLimit => b"ORDER_TYPE_BUY_STOP_LIMIT".as_slice(),
            Constant::OrderTypeSellStopLimit => b"ORDER_TYPE_SELL_STOP_LIMIT".as_slice(),
            Constant::OrderTypeCloseBy => b"ORDER_TYPE_CLOSE_BY".as_slice(),
            Constant::OrderFillingFok => b"ORDER_FILLING_FOK".as_slice(),
            Constant::OrderFillingIoc => b"ORDER_FILLING_IOC".as_slice(),
            Constant::OrderFillingReturn => b"ORDER_FILLING_RETURN".as_slice(),
            Constant::OrderTimeGtc => b"ORDER_TIME_GTC".as_slice(),
            Constant::OrderTimeDay => b"ORDER_TIME_DAY".as_slice(),
            Constant::OrderTimeSpecified => b"ORDER_TIME_SPECIFIED".as_slice(),
            Constant::OrderTimeSpecifiedDay => b"ORDER_TIME_SPECIFIED_DAY".as_slice(),
            Constant::DealVolume => b"DEAL_VOLUME".as_slice(),
            Constant::DealPrice => b"DEAL_PRICE".as_slice(),
            Constant::DealProfit => b"DEAL_PROFIT".as_slice(),
            Constant::DealSwap => b"DEAL_SWAP".as_slice(),
            Constant::DealCommission => b"DEAL_COMMISSION".as_slice(),
            Constant::DealTicket => b"DEAL_TICKET".as_slice(),
            Constant::DealOrder => b"DEAL_ORDER".as_slice(),
            Constant::DealTime => b"DEAL_TIME".as_slice(),
            Constant::DealType => b"DEAL_TYPE".as_slice(),
            Constant::DealEntry => b"DEAL_ENTRY".as_slice(),
            Constant::DealMagic => b"DEAL_MAGIC".as_slice(),
            Constant::DealPositionId => b"DEAL_POSITION_ID".as_slice(),
            Constant::DealReason => b"DEAL_REASON".as_slice(),
            Constant::DealSymbol => b"DEAL_SYMBOL".as_slice(),
            Constant::DealComment => b"DEAL_COMMENT".as_slice(),
            Constant::DealTypeBuy => b"DEAL_TYPE_BUY".as_slice(),
            Constant::DealTypeSell => b"DEAL_TYPE_SELL".as_slice(),
            Constant::DealTypeBalance => b"DEAL_TYPE_BALANCE".as_slice(),
            Constant::DealEntryIn => b"DEAL_ENTRY_IN".as_slice(),
            Constant::DealEntryOut => b"DEAL_ENTRY_OUT".as_slice(),
            Constant::DealEntryInout => b"DEAL_ENTRY_INOUT".as_slice(),
            Constant::DealEntryOutBy => b"DEAL_ENTRY_OUT_BY".as_slice(),
            Constant::TradeActionDeal => b"TRADE_ACTION_DEAL".as_slice(),
            Constant::TradeActionPending => b"TRADE_ACTION_PENDING".as_slice(),
            Constant::TradeActionSltp => b"TRADE_ACTION_SLTP".as_slice(),
            Constant::TradeActionModify => b"TRADE_ACTION_MODIFY".as_slice(),
            Constant::TradeActionRemove => b"TRADE_ACTION_REMOVE".as_slice(),
            Constant::TradeActionCloseBy => b"TRADE_ACTION_CLOSE_BY".as_slice(),
            Constant::TradeRetcodePlaced => b"TRADE_RETCODE_PLACED".as_slice(),
            Constant::TradeRetcodeDone => b"TRADE_RETCODE_DONE".as_slice(),
            Constant::TradeRetcodeInvalid => b"TRADE_RETCODE_INVALID".as_slice(),
            Constant::TradeRetcodeInvalidVolume => b"TRADE_RETCODE_INVALID_VOLUME".as_slice(),
            Constant::TradeRetcodeInvalidPrice => b"TRADE_RETCODE_INVALID_PRICE".as_slice(),
            Constant::TradeRetcodeInvalidStops => b"TRADE_RETCODE_INVALID_STOPS".as_slice(),
            Constant::TradeRetcodeNoMoney => b"TRADE_RETCODE_NO_MONEY".as_slice(),
            Constant::TradeRetcodePriceOff => b"TRADE_RETCODE_PRICE_OFF".as_slice(),
            Constant::TradeRetcodeInvalidExpiration =>
                b"TRADE_RETCODE_INVALID_EXPIRATION".as_slice(),
            Constant::TradeRetcodeNoChanges => b"TRADE_RETCODE_NO_CHANGES".as_slice(),
            Constant::TradeRetcodeInvalidFill => b"TRADE_RETCODE_INVALID_FILL".as_slice(),
            Constant::TradeRetcodeLimitOrders => b"TRADE_RETCODE_LIMIT_ORDERS".as_slice(),
            Constant::TradeRetcodeInvalidOrder => b"TRADE_RETCODE_INVALID_ORDER".as_slice(),
            Constant::TradeRetcodePositionClosed => b"TRADE_RETCODE_POSITION_CLOSED".as_slice(),
            Constant::TradeRetcodeInvalidCloseVolume =>
                b"TRADE_RETCODE_INVALID_CLOSE_VOLUME".as_slice(),
            Constant::PeriodCurrent => b"PERIOD_CURRENT".as_slice(),
            Constant::PeriodM1 => b"PERIOD_M1".as_slice(),
            Constant::PeriodM5 => b"PERIOD_M5".as_slice(),
            Constant::PeriodM15 => b"PERIOD_M15".as_slice(),
            Constant::PeriodM30 => b"PERIOD_M30".as_slice(),
            Constant::PeriodH1 => b"PERIOD_H1".as_slice(),
            Constant::PeriodH4 => b"PERIOD_H4".as_slice(),
            Constant::PeriodD1 => b"PERIOD_D1".as_slice(),
            Constant::PriceClose => b"PRICE_CLOSE".as_slice(),
            Constant::PriceOpen => b"PRICE_OPEN".as_slice(),
            Constant::PriceHigh => b"PRICE_HIGH".as_slice(),
            Constant::PriceLow => b"PRICE_LOW".as_slice(),
            Constant::PriceMedian => b"PRICE_MEDIAN".as_slice(),
            Constant::PriceTypical => b"PRICE_TYPICAL".as_slice(),
            Constant::PriceWeighted => b"PRICE_WEIGHTED".as_slice(),
            Constant::ModeSma => b"MODE_SMA".as_slice(),
            Constant::ModeEma => b"MODE_EMA".as_slice(),
            Constant::ModeSmma => b"MODE_SMMA".as_slice(),
            Constant::ModeLwma => b"MODE_LWMA".as_slice(),
            Constant::InitSucceeded => b"INIT_SUCCEEDED".as_slice(),
            Constant::InitFailed => b"INIT_FAILED".as_slice(),
            Constant::InitParametersIncorrect => b"INIT_PARAMETERS_INCORRECT".as_slice(),
            Constant::InitAgentNotSuitable => b"INIT_AGENT_NOT_SUITABLE".as_slice(),
            Constant::ReasonProgram => b"REASON_PROGRAM".as_slice(),
            Constant::ReasonRemove => b"REASON_REMOVE".as_slice(),
            Constant::ReasonInitfailed => b"REASON_INITFAILED".as_slice(),
            Constant::InvalidHandle => b"INVALID_HANDLE".as_slice(),
            Constant::WholeArray => b"WHOLE_ARRAY".as_slice(),
            Constant::IntMin => b"INT_MIN".as_slice(),
            Constant::IntMax => b"INT_MAX".as_slice(),
            Constant::UintMax => b"UINT_MAX".as_slice(),
            Constant::LongMin => b"LONG_MIN".as_slice(),
            Constant::LongMax => b"LONG_MAX".as_slice(),
            Constant::UlongMax => b"ULONG_MAX".as_slice(),
            Constant::DblMax => b"DBL_MAX".as_slice(),
            Constant::EmptyValue => b"EMPTY_VALUE".as_slice(),
            Constant::ClrBlack => b"clrBlack".as_slice(),
            Constant::ClrWhite => b"clrWhite".as_slice(),
            Constant::ClrRed => b"clrRed".as_slice(),
            Constant::ClrGreen => b"clrGreen".as_slice(),
            Constant::ClrBlue => b"clrBlue".as_slice(),
            Constant::ClrYellow => b"clrYellow".as_slice(),
        }
    }

    /// Its value.
    #[tactic(auto, unfolding(crate::specs::Constants::constant_value))]
    pub fn value(self) -> ConstantValue
        ensures { result ≡ constant_value self }
    {
        match self {
            Constant::TimeDate => ConstantValue::Integer(IntKind::Int, 1),
            Constant::TimeMinutes => ConstantValue::Integer(IntKind::Int, 2),
            Constant::TimeSeconds => ConstantValue::Integer(IntKind::Int, 4),
            Constant::MqlTester => ConstantValue::Integer(IntKind::Int, 0),
            Constant::MqlOptimization => ConstantValue::Integer(IntKind::Int, 1),
            Constant::StatInitialDeposit => ConstantValue::Integer(IntKind::Int, 0),
            Constant::StatProfit => ConstantValue::Integer(IntKind::Int, 1),
            Constant::StatGrossProfit => ConstantValue::Integer(IntKind::Int, 2),
            Constant::StatGrossLoss => ConstantValue::Integer(IntKind::Int, 3),
            Constant::StatDeals => ConstantValue::Integer(IntKind::Int, 4),
            Constant::StatTrades => ConstantValue::Integer(IntKind::Int, 5),
            Constant::StatProfitTrades => ConstantValue::Integer(IntKind::Int, 6),
            Constant::StatLossTrades => ConstantValue::Integer(IntKind::Int, 7),
            Constant::StatBalanceDd => ConstantValue::Integer(IntKind::Int, 8),
            Constant::StatEquityDd => ConstantValue::Integer(IntKind::Int, 9),
            Constant::AccountBalance => ConstantValue::Integer(IntKind::Int, 0),
            Constant::AccountProfit => ConstantValue::Integer(IntKind::Int, 1),
            Constant::AccountEquity => ConstantValue::Integer(IntKind::Int, 2),
            Constant::AccountMargin => ConstantValue::Integer(IntKind::Int, 3),
            Constant::AccountMarginFree => ConstantValue::Integer(IntKind::Int, 4),
            Constant::AccountMarginLevel => ConstantValue::Integer(IntKind::Int, 5),
            Constant::AccountLeverage => ConstantValue::Integer(IntKind::Int, 0),
            Constant::AccountMarginMode => ConstantValue::Integer(IntKind::Int, 1),
            Constant::AccountCurrency => ConstantValue::Integer(IntKind::Int, 0),
            Constant::SymbolBid => ConstantValue::Integer(IntKind::Int, 0),
            Constant::SymbolAsk => ConstantValue::Integer(IntKind::Int, 1),
            Constant::SymbolLast => ConstantValue::Integer(IntKind::Int, 2),
            Constant::SymbolPoint => ConstantValue::Integer(IntKind::Int, 3),
            Constant::SymbolTradeTickSize => ConstantValue::Integer(IntKind::Int, 4),
            Constant::SymbolTradeTickValue => ConstantValue::Integer(IntKind::Int, 5),
            Constant::SymbolTradeContractSize => ConstantValue::Integer(IntKind::Int, 6),
            Constant::SymbolVolumeMin => ConstantValue::Integer(IntKind::Int, 7),
            Constant::SymbolVolumeMax => ConstantValue::Integer(IntKind::Int, 8),
            Constant::SymbolVolumeStep => ConstantValue::Integer(IntKind::Int, 9),
            Constant::SymbolDigits => ConstantValue::Integer(IntKind::Int, 0),
            Constant::SymbolSpread => ConstantValue::Integer(IntKind::Int, 1),
            Constant::SymbolTradeStopsLevel => ConstantValue::Integer(IntKind::Int, 2),
            Constant::PositionVolume => ConstantValue::Integer(IntKind::Int, 0),
            Constant::PositionPriceOpen => ConstantValue::Integer(IntKind::Int, 1),
            Constant::PositionPriceCurrent => ConstantValue::Integer(IntKind::Int, 2),
            Constant::PositionSl => ConstantValue::Integer(IntKind::Int, 3),
            Constant::PositionTp => ConstantValue::Integer(IntKind::Int, 4),
            Constant::PositionProfit => ConstantValue::Integer(IntKind::Int, 5),
            Constant::PositionSwap => ConstantValue::Integer(IntKind::Int, 6),
            Constant::PositionTicket => ConstantValue::Integer(IntKind::Int, 0),
            Constant::PositionType => ConstantValue::Integer(IntKind::Int, 1),
            Constant::PositionMagic => ConstantValue::Integer(IntKind::Int, 2),
            Constant::PositionIdentifier => ConstantValue::Integer(IntKind::Int, 3),
            Constant::PositionTime => ConstantValue::Integer(IntKind::Int, 4),
            Constant::PositionSymbol => ConstantValue::Integer(IntKind::Int, 0),
            Constant::PositionComment => ConstantValue::Integer(IntKind::Int, 1),
            Constant::PositionTypeBuy => ConstantValue::Integer(IntKind::Int, 0),
            Constant::PositionTypeSell => ConstantValue::Integer(IntKind::Int, 1),
            Constant::OrderVolumeCurrent => ConstantValue::Integer(IntKind::Int, 0),
            Constant::OrderPriceOpen => ConstantValue::Integer(IntKind::Int, 1),
            Constant::OrderSl => ConstantValue::Integer(IntKind::Int, 2),
            Constant::OrderTp => ConstantValue::Integer(IntKind::Int, 3),
            Constant::OrderPriceStoplimit => ConstantValue::Integer(IntKind::Int, 4),
            Constant::OrderTicket => ConstantValue::Integer(IntKind::Int, 0),
            Constant::OrderType => ConstantValue::Integer(IntKind::Int, 1),
            Constant::OrderMagic => ConstantValue::Integer(IntKind::Int, 2),
            Constant::OrderTimeSetup => ConstantValue::Integer(IntKind::Int, 3),
            Constant::OrderTimeExpiration => ConstantValue::Integer(IntKind::Int, 4),
            Constant::OrderTypeTime => ConstantValue::Integer(IntKind::Int, 5),
            Constant::OrderSymbol => ConstantValue::Integer(IntKind::Int, 0),
            Constant::OrderComment => ConstantValue::Integer(IntKind::Int, 1),
            Constant::OrderTypeBuy => ConstantValue::Integer(IntKind::Int, 0),
            Constant::OrderTypeSell => ConstantValue::Integer(IntKind::Int, 1),
            Constant::OrderTypeBuyLimit => ConstantValue::Integer(IntKind::Int, 2),
            Constant::OrderTypeSellLimit => ConstantValue::Integer(IntKind::Int, 3),
            Constant::OrderTypeBuyStop => ConstantValue::Integer(IntKind::Int, 4),
            Constant::OrderTypeSellStop => ConstantValue::Integer(IntKind::Int, 5),
            Constant::OrderTypeBuyStopLimit => ConstantValue::Integer(IntKind::Int, 6),
            Constant::OrderTypeSellStopLimit => ConstantValue::Integer(IntKind::Int, 7),
            Constant::OrderTypeCloseBy => ConstantValue::Integer(IntKind::Int, 8),
            Constant::OrderFillingFok => ConstantValue::Integer(IntKind::Int, 0),
            Constant::OrderFillingIoc => ConstantValue::Integer(IntKind::Int, 1),
            Constant::OrderFillingReturn => ConstantValue::Integer(IntKind::Int, 2),
            Constant::OrderTimeGtc => ConstantValue::Integer(IntKind::Int, 0),
            Constant::OrderTimeDay => ConstantValue::Integer(IntKind::Int, 1),
            Constant::OrderTimeSpecified => ConstantValue::Integer(IntKind::Int, 2),
            Constant::OrderTimeSpecifiedDay => ConstantValue::Integer(IntKind::Int, 3),
            Constant::DealVolume => ConstantValue::Integer(IntKind::Int, 0),
            Constant::DealPrice => ConstantValue::Integer(IntKind::Int, 1),
            Constant::DealProfit => ConstantValue::Integer(IntKind::Int, 2),
            Constant::DealSwap => ConstantValue::Integer(IntKind::Int, 3),
            Constant::DealCommission => ConstantValue::Integer(IntKind::Int, 4),
            Constant::DealTicket => ConstantValue::Integer(IntKind::Int, 0),
            Constant::DealOrder => ConstantValue::Integer(IntKind::Int, 1),
            Constant::DealTime => ConstantValue::Integer(IntKind::Int, 2),
            Constant::DealType => ConstantValue::Integer(IntKind::Int, 3),
            Constant::DealEntry => ConstantValue::Integer(IntKind::Int, 4),
            Constant::DealMagic => ConstantValue::Integer(IntKind::Int, 5),
            Constant::DealPositionId => ConstantValue::Integer(IntKind::Int, 6),
            Constant::DealReason => ConstantValue::Integer(IntKind::Int, 7),
            Constant::DealSymbol => ConstantValue::Integer(IntKind::Int, 0),
            Constant::DealComment => ConstantValue::Integer(IntKind::Int, 1),
            Constant::DealTypeBuy => ConstantValue::Integer(IntKind::Int, 0),
            Constant::DealTypeSell => ConstantValue::Integer(IntKind::Int, 1),
            Constant::DealTypeBalance => ConstantValue::Integer(IntKind::Int, 2),
            Constant::DealEntryIn => ConstantValue::Integer(IntKind::Int, 0),
            Constant::DealEntryOut => ConstantValue::Integer(IntKind::Int, 1),
            Constant::DealEntryInout => ConstantValue::Integer(IntKind::Int, 2),
            Constant::DealEntryOutBy => ConstantValue::Integer(IntKind::Int, 3),
            Constant::TradeActionDeal => ConstantValue::Integer(IntKind::Int, 1),
            Constant::TradeActionPending => ConstantValue::Integer(IntKind::Int, 5),
            Constant::TradeActionSltp => ConstantValue::Integer(IntKind::Int, 6),
            Constant::TradeActionModify => ConstantValue::Integer(IntKind::Int, 7),
            Constant::TradeActionRemove => ConstantValue::Integer(IntKind::Int, 8),
            Constant::TradeActionCloseBy => ConstantValue::Integer(IntKind::Int, 10),
            Constant::TradeRetcodePlaced => ConstantValue::Integer(IntKind::Int, 10008),
            Constant::TradeRetcodeDone => ConstantValue::Integer(IntKind::Int, 10009),
            Constant::TradeRetcodeInvalid => ConstantValue::Integer(IntKind::Int, 10013),
            Constant::TradeRetcodeInvalidVolume => ConstantValue::Integer(IntKind::Int, 10014),
            Constant::TradeRetcodeInvalidPrice => ConstantValue::Integer(IntKind::Int, 10015),
            Constant::TradeRetcodeInvalidStops => ConstantValue::Integer(IntKind::Int, 10016),
            Constant::TradeRetcodeNoMoney => ConstantValue::Integer(IntKind::Int, 10019),
            Constant::TradeRetcodePriceOff => ConstantValue::Integer(IntKind::Int, 10021),
            Constant::TradeRetcodeInvalidExpiration => ConstantValue::Integer(IntKind::Int, 10022),
            Constant::TradeRetcodeNoChanges => ConstantValue::Integer(IntKind::Int, 10025),
            Constant::TradeRetcodeInvalidFill => ConstantValue::Integer(IntKind::Int, 10030),
            Constant::TradeRetcodeLimitOrders => ConstantValue::Integer(IntKind::Int, 10033),
            Constant::TradeRetcodeInvalidOrder => ConstantValue::Integer(IntKind::Int, 10035),
            Constant::TradeRetcodePositionClosed => ConstantValue::Integer(IntKind::Int, 10036),
            Constant::TradeRetcodeInvalidCloseVolume => ConstantValue::Integer(IntKind::Int, 10038),
            Constant::PeriodCurrent => ConstantValue::Integer(IntKind::Int, 0),
            Constant::PeriodM1 => ConstantValue::Integer(IntKind::Int, 1),
            Constant::PeriodM5 => ConstantValue::Integer(IntKind::Int, 5),
            Constant::PeriodM15 => ConstantValue::Integer(IntKind::Int, 15),
            Constant::PeriodM30 => ConstantValue::Integer(IntKind::Int, 30),
            Constant::PeriodH1 => ConstantValue::Integer(IntKind::Int, 16385),
            Constant::PeriodH4 => ConstantValue::Integer(IntKind::Int, 16388),
            Constant::PeriodD1 => ConstantValue::Integer(IntKind::Int, 16408),
            Constant::PriceClose => ConstantValue::Integer(IntKind::Int, 1),
            Constant::PriceOpen => ConstantValue::Integer(IntKind::Int, 2),
            Constant::PriceHigh => ConstantValue::Integer(IntKind::Int, 3),
            Constant::PriceLow => ConstantValue::Integer(IntKind::Int, 4),
            Constant::PriceMedian => ConstantValue::Integer(IntKind::Int, 5),
            Constant::PriceTypical => ConstantValue::Integer(IntKind::Int, 6),
            Constant::PriceWeighted => ConstantValue::Integer(IntKind::Int, 7),
            Constant::ModeSma => ConstantValue::Integer(IntKind::Int, 0),
            Constant::ModeEma => ConstantValue::Integer(IntKind::Int, 1),
            Constant::ModeSmma => ConstantValue::Integer(IntKind::Int, 2),
            Constant::ModeLwma => ConstantValue::Integer(IntKind::Int, 3),
            Constant::InitSucceeded => ConstantValue::Integer(IntKind::Int, 0),
            Constant::InitFailed => ConstantValue::Integer(IntKind::Int, 1),
            Constant::InitParametersIncorrect => ConstantValue::Integer(IntKind::Int, 2),
            Constant::InitAgentNotSuitable => ConstantValue::Integer(IntKind::Int, 3),
            Constant::ReasonProgram => ConstantValue::Integer(IntKind::Int, 0),
            Constant::ReasonRemove => ConstantValue::Integer(IntKind::Int, 1),
            Constant::ReasonInitfailed => ConstantValue::Integer(IntKind::Int, 8),
            Constant::InvalidHandle => ConstantValue::Integer(IntKind::Int, -1),
            Constant::WholeArray => ConstantValue::Integer(IntKind::Int, -1),
            Constant::IntMin => ConstantValue::Integer(IntKind::Int, -2147483648),
            Constant::IntMax => ConstantValue::Integer(IntKind::Int, 2147483647),
            Constant::UintMax => ConstantValue::Integer(IntKind::Uint, 4294967295),
            Constant::LongMin => ConstantValue::Integer(IntKind::Long, -9223372036854775808),
            Constant::LongMax => ConstantValue::Integer(IntKind::Long, 9223372036854775807),
            Constant::UlongMax => ConstantValue::Integer(IntKind::Ulong, 18446744073709551615),
            Constant::DblMax => ConstantValue::Double(Fix8::of_units(9223372036854775807)),
            Constant::EmptyValue => ConstantValue::Double(Fix8::of_units(9223372036854775807)),
            Constant::ClrBlack => ConstantValue::Integer(IntKind::Color, 0),
            Constant::ClrWhite => ConstantValue::Integer(IntKind::Color, 16777215),
            Constant::ClrRed => ConstantValue::Integer(IntKind::Color, 255),
            Constant::ClrGreen => ConstantValue::Integer(IntKind::Color, 32768),
            Constant::ClrBlue => ConstantValue::Integer(IntKind::Color, 16711680),
            Constant::ClrYellow => ConstantValue::Integer(IntKind::Color, 65535),
        }
    }
}

/// The first of some of them that is spelled so.
fn constant_among(constants: &[Constant], units: &[u16]) -> Option<Constant>
    ensures { result ≡ spelled_among constant_spelling constants.now units.now }
{
    let mut rest = constants;
    while let [constant, others @ ..] = rest {
        if is_spelled(units, constant.spelling()) {
            return Some(*constant);
        }
        rest = others;
    }
    None
}

/// The one that is spelled so, if there is one.
#[tactic(auto, unfolding(crate::specs::Constants::constant_named))]
pub fn constant_named(units: &[u16]) -> Option<Constant>
    ensures { result ≡ constant_named units.now }
{
    constant_among(&CONSTANTS, units)
}

/// A text is a constant's name exactly where it is that constant's spelling.
pub fn constants_by_spelling()
    ensures { (units : List ℕ) (constant : constants.Constant) → (constant_named units ≡ Some constant)
        ↔ (units ≡ constant_spelling constant) }
{}
