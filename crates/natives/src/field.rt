//! The fields of the supplied structures.
ghost use Rattle.std.specs.Prelude.{◌≡◌, ◌↔◌, ℕ, List, Some};
ghost use Rattle.natives.specs.declared.field.FieldName as fields;
ghost use Rattle.natives.specs.declared.types.Structure.{Structure as structures};
ghost use Rattle.natives.specs.declared.types.SimpleType.{SimpleType as types};
ghost use Rattle.natives.specs.Structures.{field_spelling, field_named, fields_of, field_kind, HasField};
ghost use Rattle.mql_spelling.specs.Spelled.{spelled_among};

use crate::types::{SimpleType, Structure};
use fx8::IntKind;
use mql_spelling::is_spelled;

/// The name of a field of a supplied structure.
#[derive(Clone, Copy, Debug, PartialEq, Eq)]
pub enum FieldName {
    /// `action`
    Action,
    /// `magic`
    Magic,
    /// `order`
    Order,
    /// `symbol`
    Symbol,
    /// `volume`
    Volume,
    /// `price`
    Price,
    /// `stoplimit`
    Stoplimit,
    /// `sl`
    Sl,
    /// `tp`
    Tp,
    /// `deviation`
    Deviation,
    /// `type`
    Type,
    /// `type_filling`
    TypeFilling,
    /// `type_time`
    TypeTime,
    /// `expiration`
    Expiration,
    /// `comment`
    Comment,
    /// `position`
    Position,
    /// `position_by`
    PositionBy,
    /// `retcode`
    Retcode,
    /// `deal`
    Deal,
    /// `bid`
    Bid,
    /// `ask`
    Ask,
    /// `request_id`
    RequestId,
    /// `retcode_external`
    RetcodeExternal,
    /// `time`
    Time,
    /// `last`
    Last,
    /// `time_msc`
    TimeMsc,
    /// `flags`
    Flags,
    /// `volume_real`
    VolumeReal,
    /// `open`
    Open,
    /// `high`
    High,
    /// `low`
    Low,
    /// `close`
    Close,
    /// `tick_volume`
    TickVolume,
    /// `spread`
    Spread,
    /// `real_volume`
    RealVolume,
    /// `year`
    Year,
    /// `mon`
    Mon,
    /// `day`
    Day,
    /// `hour`
    Hour,
    /// `min`
    Min,
    /// `sec`
    Sec,
    /// `day_of_week`
    DayOfWeek,
    /// `day_of_year`
    DayOfYear,
}

/// Each of them, in order.
pub const FIELDS: [FieldName; 43] = [
    FieldName::Action,
    FieldName::Magic,
    FieldName::Order,
    FieldName::Symbol,
    FieldName::Volume,
    FieldName::Price,
    FieldName::Stoplimit,
    FieldName::Sl,
    FieldName::Tp,
    FieldName::Deviation,
    FieldName::Type,
    FieldName::TypeFilling,
    FieldName::TypeTime,
    FieldName::Expiration,
    FieldName::Comment,
    FieldName::Position,
    FieldName::PositionBy,
    FieldName::Retcode,
    FieldName::Deal,
    FieldName::Bid,
    FieldName::Ask,
    FieldName::RequestId,
    FieldName::RetcodeExternal,
    FieldName::Time,
    FieldName::Last,
    FieldName::TimeMsc,
    FieldName::Flags,
    FieldName::VolumeReal,
    FieldName::Open,
    FieldName::High,
    FieldName::Low,
    FieldName::Close,
    FieldName::TickVolume,
    FieldName::Spread,
    FieldName::RealVolume,
    FieldName::Year,
    FieldName::Mon,
    FieldName::Day,
    FieldName::Hour,
    FieldName::Min,
    FieldName::Sec,
    FieldName::DayOfWeek,
    FieldName::DayOfYear,
];

impl FieldName {
    /// How it is spelled.
    #[tactic(auto, unfolding(crate::specs::Structures::field_spelling))]
    pub fn spelling(self) -> &'static [u8]
        ensures { result.now ≡ field_spelling self }
    {
        match self {
            FieldName::Action => b"action".as_slice(),
            FieldName::Magic => b"magic".as_slice(),
            FieldName::Order => b"order".as_slice(),
            FieldName::Symbol => b"symbol".as_slice(),
            FieldName::Volume => b"volume".as_slice(),
            FieldName::Price => b"price".as_slice(),
            FieldName::Stoplimit => b"stoplimit".as_slice(),
            FieldName::Sl => b"sl".as_slice(),
            FieldName::Tp => b"tp".as_slice(),
            FieldName::Deviation => b"deviation".as_slice(),
            FieldName::Type => b"type".as_slice(),
            FieldName::TypeFilling => b"type_filling".as_slice(),
            FieldName::TypeTime => b"type_time".as_slice(),
            FieldName::Expiration => b"expiration".as_slice(),
            FieldName::Comment => b"comment".as_slice(),
            FieldName::Position => b"position".as_slice(),
            FieldName::PositionBy => b"position_by".as_slice(),
            FieldName::Retcode => b"retcode".as_slice(),
            FieldName::Deal => b"deal".as_slice(),
            FieldName::Bid => b"bid".as_slice(),
            FieldName::Ask => b"ask".as_slice(),
            FieldName::RequestId => b"request_id".as_slice(),
            FieldName::RetcodeExternal => b"retcode_external".as_slice(),
            FieldName::Time => b"time".as_slice(),
            FieldName::Last => b"last".as_slice(),
            FieldName::TimeMsc => b"time_msc".as_slice(),
            FieldName::Flags => b"flags".as_slice(),
            FieldName::VolumeReal => b"volume_real".as_slice(),
            FieldName::Open => b"open".as_slice(),
            FieldName::High => b"high".as_slice(),
            FieldName::Low => b"low".as_slice(),
            FieldName::Close => b"close".as_slice(),
            FieldName::TickVolume => b"tick_volume".as_slice(),
            FieldName::Spread => b"spread".as_slice(),
            FieldName::RealVolume => b"real_volume".as_slice(),
            FieldName::Year => b"year".as_slice(),
            FieldName::Mon => b"mon".as_slice(),
            FieldName::Day => b"day".as_slice(),
            FieldName::Hour => b"hour".as_slice(),
            FieldName::Min => b"min".as_slice(),
            FieldName::Sec => b"sec".as_slice(),
            FieldName::DayOfWeek => b"day_of_week".as_slice(),
            FieldName::DayOfYear => b"day_of_year".as_slice(),
        }
    }
}

/// The first of some of them that is spelled so.
fn field_among(fields: &[FieldName], units: &[u16]) -> Option<FieldName>
    ensures { result ≡ spelled_among field_spelling fields.now units.now }
{
    let mut rest = fields;
    while let [field, others @ ..] = rest {
        if is_spelled(units, field.spelling()) {
            return Some(*field);
        }
        rest = others;
    }
    None
}

/// The one that is spelled so, if there is one.
#[tactic(auto, unfolding(crate::specs::Structures::field_named))]
pub fn field_named(units: &[u16]) -> Option<FieldName>
    ensures { result ≡ field_named units.now }
{
    field_among(&FIELDS, units)
}

/// A text is a field's name exactly where it is that name's spelling.
pub fn fields_by_spelling()
    ensures { (units : List ℕ) (field : fields.FieldName) → (field_named units ≡ Some field)
        ↔ (units ≡ field_spelling field) }
{}

/// A field of a structure.
#[derive(Clone, Copy, Debug, PartialEq, Eq)]
pub struct Field {
    /// Its name.
    pub name: FieldName,
    /// Its type.
    pub kind: SimpleType,
}

const INT: SimpleType = SimpleType::Integer(IntKind::Int);

const ULONG: SimpleType = SimpleType::Integer(IntKind::Ulong);

const STRING: SimpleType = SimpleType::String;

const DOUBLE: SimpleType = SimpleType::Double;

const DATETIME: SimpleType = SimpleType::Integer(IntKind::Datetime);

const UINT: SimpleType = SimpleType::Integer(IntKind::Uint);

const LONG: SimpleType = SimpleType::Integer(IntKind::Long);

/// Fields, each with its type.
macro_rules! fields {
    ($($name:ident: $kind:expr;)*) => {
        &[$(Field { name: FieldName::$name, kind: $kind }),*]
    };
}

/// The type of the first of some fields that has this name.
fn kind_in(fields: &[Field], units: &[u16]) -> Option<SimpleType>
    ensures { result ≡ field_kind fields.now units.now }
{
    match fields {
        [] => None,
        [field, others @ ..] => {
            if is_spelled(units, field.name.spelling()) {
                Some(field.kind)
            } else {
                kind_in(others, units)
            }
        }
    }
}

impl Structure {
    /// Its fields, in order.
    #[tactic(auto, unfolding(crate::specs::Structures::fields_of))]
    pub fn fields(self) -> &'static [Field]
        ensures { result.now ≡ fields_of self }
    {
        match self {
            Structure::MqlTradeRequest => fields! {
                Action: INT;
                Magic: ULONG;
                Order: ULONG;
                Symbol: STRING;
                Volume: DOUBLE;
                Price: DOUBLE;
                Stoplimit: DOUBLE;
                Sl: DOUBLE;
                Tp: DOUBLE;
                Deviation: ULONG;
                Type: INT;
                TypeFilling: INT;
                TypeTime: INT;
                Expiration: DATETIME;
                Comment: STRING;
                Position: ULONG;
                PositionBy: ULONG;
            },
            Structure::MqlTradeResult => fields! {
                Retcode: UINT;
                Deal: ULONG;
                Order: ULONG;
                Volume: DOUBLE;
                Price: DOUBLE;
                Bid: DOUBLE;
                Ask: DOUBLE;
                Comment: STRING;
                RequestId: UINT;
                RetcodeExternal: INT;
            },
            Structure::MqlTick => fields! {
                Time: DATETIME;
                Bid: DOUBLE;
                Ask: DOUBLE;
                Last: DOUBLE;
                Volume: ULONG;
                TimeMsc: LONG;
                Flags: UINT;
                VolumeReal: DOUBLE;
            },
            Structure::MqlRates => fields! {
                Time: DATETIME;
                Open: DOUBLE;
                High: DOUBLE;
                Low: DOUBLE;
                Close: DOUBLE;
                TickVolume: LONG;
                Spread: INT;
                RealVolume: LONG;
            },
            Structure::MqlDateTime => fields! {
                Year: INT;
                Mon: INT;
                Day: INT;
                Hour: INT;
                Min: INT;
                Sec: INT;
                DayOfWeek: INT;
                DayOfYear: INT;
            },
        }
    }

    /// The type of its field of a name, if it has one.
    pub fn field(self, units: &[u16]) -> Option<SimpleType>
        ensures { result ≡ field_kind (fields_of self) units.now }
    {
        kind_in(self.fields(), units)
    }
}

/// A structure's field of a name has a type exactly where one of its fields has this name and this type.
pub fn structures_have_fields()
    ensures { (structure : structures) (units : List ℕ) (kind : types) →
        (field_kind (fields_of structure) units ≡ Some kind) ↔ HasField (fields_of structure) units kind }
{}
