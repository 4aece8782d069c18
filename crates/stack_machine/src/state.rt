//! A running machine.

use fx8::Stack;
use mql_meaning::Store;
use store_frames::Operand;

/// Where a return leads.
#[derive(Clone, Copy)]
pub struct Back {
    /// The function of the call.
    pub function: u32,
    /// The place behind the call.
    pub place: u64,
}

/// A running machine: its operands, where its calls return to, its store, and the place of the next
/// instruction.
#[derive(Drop)]
pub struct State {
    pub operands: Stack<Operand>,
    pub backs: Stack<Back>,
    pub store: Store,
    /// The function in force.
    pub function: u32,
    /// The place of the next instruction in it.
    pub place: u64,
}
