//! The native functions, and the names, structures and constants that the language supplies.
#![tactic(auto)]

mod constant;
mod field;
mod native;
mod predefined;
mod short_name;
mod signature;
mod signatures;
mod supplied;
mod types;

pub use constant::{CONSTANTS, Constant, constant_named, constants_by_spelling};
pub use field::{
    FIELDS, Field, FieldName, field_named, fields_by_spelling, structures_have_fields,
};
pub use native::{
    NATIVES, Native, native_at, native_named, natives_by_number, natives_by_spelling,
};
pub use predefined::{PREDEFINEDS, Predefined, predefined_named, predefineds_by_spelling};
pub use short_name::{
    SHORTS, ShortName, named, named_by_spelling, short_named, shorts_by_spelling,
};
pub use signature::{
    Elements, Evaluation, LastError, Parameter, ParameterKind, Passing, ResultType,
};
pub use supplied::{SUPPLIEDS, SuppliedType, supplied_named, supplieds_by_spelling};
pub use types::{ConstantValue, SimpleType, Structure};
