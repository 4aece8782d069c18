//! Code: what a program is compiled to, and what a machine does with it.
#![tactic(auto)]

mod code;

pub use code::{Code, Effect, FunctionCode, Instruction, Label, OperandType};
