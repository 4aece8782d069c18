//! The store of a run.
use crate::cell::Cell;
use crate::place::Place;
use fx8::ItemList;
use mql_mean::Value;

/// A local: its own cell, or a place that was lent.
#[derive(Drop)]
pub enum Slot {
    /// What it holds.
    Own(Cell),
    /// The place that a parameter by reference stands for.
    Lent(Place),
}

/// What a call of a function holds while it runs.
#[derive(Drop)]
pub struct Frame {
    /// Its locals by number, the parameters first.
    pub locals: ItemList<Slot>,
    /// The place of the object or structure whose method it is.
    pub this: Option<Place>,
    /// The class whose constructor or destructor it is.
    pub makes: Option<u32>,
    /// The line of the innermost statement in force.
    pub line: u32,
}

/// An object (MQL5 Reference, Object-Oriented Programming).
#[derive(Drop)]
pub struct Object {
    /// Its serial, from 1. No serial is given twice.
    pub serial: u64,
    /// The number of its class.
    pub class: u32,
    /// Whether a variable or a field has it, so that it ends with it; else `new` made it.
    pub automatic: bool,
    /// Its fields, those of its parents first.
    pub fields: ItemList<Cell>,
}

/// An input that was set before the run.
#[derive(Drop)]
pub struct SetInput {
    /// The number of its global.
    pub global: u32,
    /// The value that it was given.
    pub value: Value,
}

/// What the run of a program keeps.
#[derive(Drop)]
pub struct Store {
    /// The calls in force, the innermost last.
    pub frames: ItemList<Frame>,
    /// Global and static variables.
    pub globals: ItemList<Cell>,
    /// The objects that live, by rising serial.
    pub heap: ItemList<Object>,
    /// The last serial that was given.
    pub last: u64,
    /// How many cells are in use.
    pub cells: u64,
    /// The inputs that were set, which Start writes.
    pub inputs: ItemList<SetInput>,
}
