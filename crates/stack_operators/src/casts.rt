//! Casts of pointers (MQL5 Reference, Typecasting, Typecasting of Base Class Pointers to Pointers of Derivative
//! Classes).
ghost use Rattle.std.specs.Prelude.{◌≡◌, slice_get};
ghost use Rattle.mql_meaning.specs.Objects as objects;
ghost use Rattle.store_cells.specs.Changes.{Gives};
ghost use Rattle.stack_operators.specs.Steps.{cast_class, refused};

use crate::parts::serial_of;
use mql_mean::{ErrorKind, Value};
use mql_meaning::{Class, Store};
use store_cells::{End, Fault};
use store_places::{failed, object_in};

/// The parent of a class.
fn parent_of(classes: &[Class], class: u32) -> Option<u32>
    ensures { result ≡ objects.parent_of (slice_get classes.now class) }
{
    match classes.get(class as usize) {
        Some(class) => class.parent,
        None => None,
    }
}

/// Whether a class is another one or a child of it.
pub fn is_kind(classes: &[Class], class: u32, wanted: u32) -> bool
    ensures { result ≡ objects.is_kind classes.now class wanted }
{
    let mut left = classes.len();
    let mut at = class;
    while left > 0 {
        if at == wanted {
            return true;
        }
        match parent_of(classes, at) {
            Some(parent) => at = parent,
            None => return false,
        }
        left -= 1;
    }
    at == wanted
}

/// A cast that is refused: an error at the line in force where it is strict, else `NULL`.
fn refused(strict: bool, kind: ErrorKind, store: &Store) -> Result<Value, Fault>
    ensures { Gives (refused strict kind) result store.now }
{
    if strict {
        Err(Fault::End(failed(kind, store)))
    } else {
        Ok(Value::Ptr(0))
    }
}

/// A pointer to an object of one class, cast to another one.
fn cast_class(
    classes: &[Class],
    wanted: u32,
    strict: bool,
    value: Value,
    class: u32,
    store: &Store,
) -> Result<Value, Fault>
    ensures { Gives (cast_class classes.now wanted strict value class) result store.now }
{
    if is_kind(classes, class, wanted) {
        Ok(value)
    } else {
        refused(strict, ErrorKind::BadCast, store)
    }
}

/// A pointer taken as one to an object of a class or of a child; `NULL` stays. Where it points to another
/// object, or to one that has gone, it is an error at the line in force where the cast is strict, else `NULL`.
pub fn cast(
    classes: &[Class],
    class: u32,
    strict: bool,
    value: Value,
    store: &Store,
) -> Result<Value, Fault>
    ensures { Gives (objects.cast classes.now class strict value) result store.now }
{
    let Some(serial) = serial_of(&value) else {
        return Err(Fault::End(End::Stuck));
    };
    if serial == 0 {
        return Ok(value);
    }
    match object_in(store.heap.as_slice(), serial) {
        Some(object) => cast_class(classes, class, strict, value, object.class, store),
        None => refused(strict, ErrorKind::InvalidPointer, store),
    }
}
