//! A broken rule, and which of several is told.
ghost use Rattle.std.specs.Prelude.{◌≡◌};
ghost use Rattle.mql_names.specs.Faults.{is_before, sooner, break_if, told};

use mql_syntax::Place;

/// A rule of declarations that is broken at a node.
#[derive(Clone, Copy, Debug, PartialEq, Eq)]
pub struct Broken {
    /// The number of the rule.
    pub rule: u8,
    /// The number of the node in the tree, from 0 on, a node before its parts.
    pub node: u32,
    /// The place of the node's first token.
    pub first: u32,
}

/// Whether a break is told before another.
fn is_before(a: Broken, b: Broken) -> bool
    ensures { result ≡ is_before a b }
{
    a.first < b.first
        || (a.first == b.first && (a.rule < b.rule || (a.rule == b.rule && a.node < b.node)))
}

/// Of two breaks the one that is told.
pub fn sooner(a: Option<Broken>, b: Option<Broken>) -> Option<Broken>
    ensures { result ≡ sooner a b }
{
    match a {
        None => b,
        Some(x) => match b {
            None => a,
            Some(y) => { if is_before(y, x) { b } else { a } }
        },
    }
}

/// A rule that is broken at a place where this holds.
pub fn break_if(holds: bool, rule: u8, place: Place) -> Option<Broken>
    ensures { result ≡ told (break_if holds rule place) }
{
    if holds {
        Some(Broken {
            rule,
            node: place.at,
            first: place.first,
        })
    } else {
        None
    }
}
