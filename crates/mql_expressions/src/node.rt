//! A node of an expression.
ghost use Rattle.std.specs.Prelude.{◌≡◌};
ghost use Rattle.mql_expressions.specs.Rules.{base_at};
ghost use Rattle.mql_expressions.specs.Views.{node_of};

use mql_calls::nth;
use mql_scope::Callee;
use mql_syntax::{Operation, Place, TypeUse};
use mql_typed::{Info, value_base};
use mql_types::{Base, Signature};

/// A node of an expression, beside what its parts tell.
#[derive(Clone, Copy)]
pub(crate) struct Site<'a> {
    /// Where it stands.
    pub place: Place,
    /// What it does.
    pub what: &'a Operation,
    /// The types that are written in it.
    pub types: &'a [TypeUse],
    /// The name that it calls, which is no part.
    pub called: Option<&'a [u16]>,
}

/// A node of an expression with what its parts tell: none where a part breaks a rule.
#[derive(Clone, Copy)]
pub(crate) struct NodeView<'a> {
    /// Where it stands.
    pub place: Place,
    /// What it does.
    pub what: &'a Operation,
    /// The types that are written in it.
    pub types: &'a [TypeUse],
    /// The name that it calls, which is no part.
    pub called: Option<&'a [u16]>,
    /// What its parts tell.
    pub parts: &'a [Option<Info>],
}

/// What a node calls: the callee, and the function of the program that its arguments choose.
#[derive(Clone, Copy)]
pub(crate) struct Call<'a> {
    pub callee: Option<Callee>,
    pub chosen: Option<&'a Signature>,
}

/// The type of a part's value; none where there is no such part, or it tells nothing, or is an array.
pub(crate) fn base_at(k: usize, n: &NodeView) -> Option<Base>
    ensures { result ≡ base_at k (node_of n.now) }
{
    match nth(k, n.parts) {
        None => None,
        Some(i) => value_base(i),
    }
}
