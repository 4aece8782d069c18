//! The sources of a program: they are read in the order of need, and judged stage by stage.
#![tactic(auto)]

mod fault;
mod judging;
mod reading;
mod rules;

pub use judging::{judge_tree, placed, span_at};
pub use reading::{Wanted, make_wanted, read_sources};
pub use rules::{ProgramFault, judge_program_rules, judge_rules, program_status};
