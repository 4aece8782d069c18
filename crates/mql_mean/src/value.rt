//! Values.
ghost use Rattle.std.specs.Prelude.{◌≡◌, IfOk};
ghost use Rattle.mql_mean.specs.Values.{number_of};

use fx8::{Fix8, IntKind, ItemList, OutOfMemory, Text};
use std::alloc::Global;

/// A value of the language.
#[derive(Drop)]
pub enum Value {
    /// A number of an integer kind, in the kind's range.
    Num(IntKind, i128),
    /// A `double`, in units of 10^-8.
    Dbl(Fix8),
    /// A string: 16-bit units.
    Str(Text),
    /// A pointer: an object's serial, and 0 for `NULL`.
    Ptr(u64),
    /// An array: its elements.
    Arr(ItemList<Value>),
    /// A structure: its fields.
    Rec(ItemList<Value>),
}

/// Values in order.
pub type ValueList = ItemList<Value>;

impl Value {
    /// Another value that is the same.
    #[cycle(copy)]
    pub fn copy(&self, alloc: Global) -> Result<Value, OutOfMemory>
        ensures { IfOk result (λ copy. copy ≡ self.now) }
    {
        match self {
            Value::Num(kind, number) => Ok(Value::Num(*kind, *number)),
            Value::Dbl(number) => Ok(Value::Dbl(*number)),
            Value::Str(text) => Ok(Value::Str(ItemList::from_slice(alloc, text.as_slice())?)),
            Value::Ptr(serial) => Ok(Value::Ptr(*serial)),
            Value::Arr(items) => Ok(Value::Arr(copies(alloc, items.as_slice())?)),
            Value::Rec(fields) => Ok(Value::Rec(copies(alloc, fields.as_slice())?)),
        }
    }

    /// Its number, if it is one of an integer kind.
    pub fn number(&self) -> Option<i128>
        ensures { result ≡ number_of self.now }
    {
        match self {
            Value::Num(_, number) => Some(*number),
            _ => None,
        }
    }
}

#[cycle(copy)]
fn copies(alloc: Global, values: &[Value]) -> Result<ValueList, OutOfMemory>
    ensures { IfOk result (λ copies. copies ≡ values.now) }
{
    let mut copies = ItemList::new(alloc);
    for value in values {
        copies.push(value.copy(alloc)?)?;
    }
    Ok(copies)
}
