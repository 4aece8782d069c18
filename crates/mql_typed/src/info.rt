//! What is told of an expression.
ghost use Rattle.std.specs.Prelude.{◌≡◌};
ghost use Rattle.mql_typed.specs.Typed.{is_place, is_lasting, is_fixed, is_input};

use fx8::ItemList;
use mql_meaning::{Expression, VarType};
use mql_types::DataType;

/// What an expression gives.
#[derive(Clone, Copy, Debug, PartialEq, Eq)]
pub enum Standing {
    /// A value, or nothing.
    Value,
    /// A place in a value that is kept while the expression is evaluated.
    Kept,
    /// A place in a variable.
    Variable,
    /// A place in a constant.
    Constant,
    /// A place in an input variable.
    Input,
}

impl Standing {
    /// Whether it is a place.
    pub fn is_place(self) -> bool
        ensures { result ≡ is_place self }
    {
        match self {
            Standing::Value => false,
            _ => true,
        }
    }

    /// Whether it is a place of the program: one that may be assigned or lent, constant or not.
    pub fn is_lasting(self) -> bool
        ensures { result ≡ is_lasting self }
    {
        match self {
            Standing::Value | Standing::Kept => false,
            Standing::Variable | Standing::Constant | Standing::Input => true,
        }
    }

    /// Whether it is a place that may not be changed.
    pub fn is_fixed(self) -> bool
        ensures { result ≡ is_fixed self }
    {
        match self {
            Standing::Constant | Standing::Input => true,
            _ => false,
        }
    }

    /// Whether it is a place in an input.
    pub fn is_input(self) -> bool
        ensures { result ≡ is_input self }
    {
        match self {
            Standing::Input => true,
            _ => false,
        }
    }
}

/// What is told of an expression that breaks no rule.
#[derive(Drop)]
pub struct Info {
    /// Its type; none where it gives nothing.
    pub of: Option<DataType>,
    /// What it gives.
    pub standing: Standing,
    /// The typed expression.
    pub typed: Expression,
    /// The locals that it takes for values that it keeps.
    pub kept: ItemList<VarType>,
}
