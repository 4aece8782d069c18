//! How a trade request is judged: the rules of each action in their order, and what is to be done.
#![tactic(auto)]

mod accept;
mod act;
mod judge;
mod request;
mod return_code;
mod rules;
mod tables;
mod words;

pub use accept::{Judged, judge_request};
pub use act::{Act, Next, act_of};
pub use judge::refusal;
pub use request::{Answer, Request};
pub use return_code::ReturnCode;
pub use rules::{kind_buys, second_of};
pub use words::{Action, Filling};
