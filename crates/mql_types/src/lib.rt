//! Types of values, conversions between them, operators on them, and the choice among overloads.
#![tactic(auto)]

mod conversion;
mod dimensions;
mod operators;
mod overloads;
mod types;

pub use conversion::{
    common_kind, common_number, cost, fits, holds, holds_kind, is_number, number, promoted, wider,
};
pub use dimensions::Dimensions;
pub use operators::{
    binary_sort, bits_of_double, branches, compares, compares_structures, is_integral,
    is_structure, no_numbers, result_base, unary_sort,
};
pub use overloads::{Argument, Choice, Judging, Parameter, Signature, choose};
pub use types::{Base, DataType, same, same_kind, same_type, sort_base, sort_of};
