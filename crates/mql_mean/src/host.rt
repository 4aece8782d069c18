//! What a program asks the world.

use crate::error::ErrorKind;
use crate::value::{Value, ValueList};

/// A call to the world.
#[derive(Drop)]
pub struct HostCall {
    /// The native function's number.
    pub id: u16,
    pub args: ValueList,
    /// Whether the call has a target array that is dynamic.
    pub dynamic: bool,
}

/// What the world answers.
#[derive(Drop)]
pub struct Reply {
    pub value: Value,
    /// What is written to the reference arguments, in order.
    pub outs: ValueList,
}

/// Why a call to the world has no reply.
#[derive(Clone, Copy, Debug, PartialEq, Eq)]
pub enum HostEnd {
    /// The call ends the run with this error.
    Error(ErrorKind),
    OutOfMemory,
}
