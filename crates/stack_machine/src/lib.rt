//! The machine that runs a program's code: operands and returns on stacks, calls and variables in a store,
//! steps that are counted, and a world that is asked.
#![tactic(auto)]

mod asks;
mod calls;
mod ends;
mod events;
mod flow;
mod hurry;
mod machine;
mod native_functions;
mod operands;
mod paced;
mod quick;
mod run;
mod state;
mod step;

pub use ends::End;
pub use machine::Machine;
pub use native_functions::NativeFunctions;
pub use paced::is_paced;
