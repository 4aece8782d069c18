//! The syntax of a program: each node of its tree with its named parts.
#![tactic(auto)]

mod declaration;
mod kind;
mod leaf;
mod lists;
mod read_types;
mod read_values;
mod read_variables;
mod statement;
mod unread;
mod value;

pub use declaration::{
    Base, Body, Class, Dimension, Enumeration, Enumerator, Function, Item, Member, Param, Parent,
    Start, Syntax, Variable, Words,
};
pub use kind::{Access, BinaryOperator, ClassKind, Place, StatementKind, Step, UnaryOperator};
pub use leaf::{first, inner, name, name_in, nodes, part, place_of, token};
pub use lists::{pieces, without};
pub use read_types::type_use;
pub use read_values::{items, read_value, values_in};
pub use read_variables::{Site, scope_name, variable_of, variables, words_among};
pub use statement::Statement;
pub use unread::Unread;
pub use value::{Operation, TypeUse, Value};
