//! The declarations of a program.
#![tactic(auto)]

mod expanding;
mod fault;
mod forms;
mod functions;
mod items;
mod judge;
mod maker;
mod statics;
mod structures;
mod variables;

pub use expanding::{Decls, expand};
pub use fault::{DeclFault, Refusal};
pub use forms::{
    FunctionForm, GlobalForm, ParamForm, StartForm, StaticForm, StructureForm, TypeForm,
    VariableForm,
};
pub use judge::refused;
