//! The named parts of the nodes of a tree.
#![tactic(auto)]

mod cuts;
mod declarations;
mod items;
mod laws;
mod part;
mod statements;
mod values;

pub use cuts::{all_to, last, may, must, next, parted, piece, sign, up_to};
pub use declarations::{
    Body, ClassParts, Enumeration, Enumerator, Function, Param, Parent, Start, Typed, Variable,
    Variables, read_class, read_enumeration, read_enumerator, read_function, read_param,
    read_type_argument, read_variable,
};
pub use items::{
    Declaration, Item, Member, Template, Templated, read_item, read_member, read_template,
};
pub use laws::{declarations_are_seen, functions_come_first, statements_are_seen, values_are_seen};
pub use part::{Head, Part, is_node, is_token};
pub use statements::{
    For, If, Simple, Switch, read_delete, read_do, read_for, read_if, read_return, read_simple,
    read_switch, read_while,
};
pub use values::{
    Between, Bracket, Call, Conditional, in_braces, pair, read_between, read_bracket, read_call,
    read_conditional, read_conversion, read_dynamic_cast, read_generic, read_index, read_new,
};
