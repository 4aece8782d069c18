//! Classes of variables.
ghost use Rattle.std.specs.Prelude.{◌≡◌, slice_get};
ghost use Rattle.mql_meaning.specs.Cells.{fields_of};
ghost use Rattle.mql_meaning.specs.Objects.{object_class};

use mql_meaning::{Base, Class, VarType};

/// The class of a variable of object type; `None` exactly where it is of another type.
pub fn object_class(t: &VarType) -> Option<u32>
    ensures { result ≡ object_class t.now }
{
    match t.base {
        Base::Object(class) => match t.dimensions.as_slice() {
            [] => Some(class),
            [_, ..] => None,
        },
        _ => None,
    }
}

/// The types of a class's fields, none where there is no such class.
pub(crate) fn fields_of(classes: &[Class], class: u32) -> &[VarType]
    ensures { result.now ≡ fields_of (slice_get classes.now class) }
{
    match classes.get(class as usize) {
        Some(class) => class.fields.as_slice(),
        None => &[],
    }
}
