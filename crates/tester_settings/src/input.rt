//! What settings say of an expert's inputs.

use fx8::{ItemList, Text8};

/// The value of an input, as a text.
#[derive(Debug, Drop)]
pub struct Assignment {
    /// The input's name.
    pub name: Text8,
    /// The text of its value.
    pub text: Text8,
}

/// Values of inputs, by the bytes of their names.
pub type Assignments = ItemList<Assignment>;

/// The values that an input takes in turn, as texts.
#[derive(Debug, Drop)]
pub struct InputRange {
    /// The input's name.
    pub name: Text8,
    /// The first value.
    pub start: Text8,
    /// What is added from value to value.
    pub step: Text8,
    /// What no value passes.
    pub stop: Text8,
}

/// Ranges of inputs, by the bytes of their names.
pub type InputRanges = ItemList<InputRange>;
