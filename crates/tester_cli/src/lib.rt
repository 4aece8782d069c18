//! The commands of the bench: from the words and files that come in to the text and status that go out.
#![tactic(auto)]

mod check;
mod law;
mod quick;
mod run;
mod test_report;

pub use law::one_answer;
pub use run::run_single;
pub use tester_answer::{SourceFault, Status, fault_text};
