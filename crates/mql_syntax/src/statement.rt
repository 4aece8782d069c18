//! Statements.

use crate::declaration::Variable;
use crate::kind::{Place, StatementKind};
use crate::value::Value;
use fx8::ItemList;

/// A statement: what it does, and the variables, values and statements that it does it with, each as they
/// stand in the text. A label of a `switch`, and what a `for` begins with, stand at the place of that `switch`
/// or `for`.
#[derive(Drop)]
pub enum Statement {
    Node {
        place: Place,
        what: StatementKind,
        locals: ItemList<Variable>,
        values: ItemList<Value>,
        parts: ItemList<Statement>,
    },
}
