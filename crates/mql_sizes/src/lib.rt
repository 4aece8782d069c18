//! Values of enumerations and sizes of arrays.
#![tactic(auto)]

mod constant;
mod enumeration;
mod member;
mod size;

pub use constant::{Values, constant_in, global_number, simple_in};
pub use enumeration::{enumerations_of, enumerations_told};
pub use member::{EnumMember, EnumMembers, MemberValue};
pub use size::{size_in, sizes_told};
