//! Types of values without parts.
ghost use Rattle.std.specs.Prelude.{◌≡◌};
ghost use Rattle.mql_mean.specs.declared.value.Value.{out-Value};
ghost use Rattle.mql_meaning.specs.Cells.{alike, tag};

use fx8::IntKind;
use mql_mean::Value;

/// The number of an integer kind, in the order of the Reference.
pub fn tag(kind: IntKind) -> u8
    ensures { result ≡ tag kind }
{
    match kind {
        IntKind::Bool => 1,
        IntKind::Char => 2,
        IntKind::Uchar => 3,
        IntKind::Short => 4,
        IntKind::Ushort => 5,
        IntKind::Int => 6,
        IntKind::Uint => 7,
        IntKind::Long => 8,
        IntKind::Ulong => 9,
        IntKind::Datetime => 10,
        IntKind::Color => 11,
    }
}

/// Whether two values without parts are of one type.
pub fn alike(one: &Value, other: &Value) -> bool
    ensures { result ≡ alike (out-Value one.now) (out-Value other.now) }
{
    match one {
        Value::Num(kind, _) => match other {
            Value::Num(other_kind, _) => tag(*kind) == tag(*other_kind),
            _ => false,
        },
        Value::Dbl(_) => match other {
            Value::Dbl(_) => true,
            _ => false,
        },
        Value::Str(_) => match other {
            Value::Str(_) => true,
            _ => false,
        },
        Value::Ptr(_) => match other {
            Value::Ptr(_) => true,
            _ => false,
        },
        Value::Arr(_) | Value::Rec(_) => false,
    }
}
