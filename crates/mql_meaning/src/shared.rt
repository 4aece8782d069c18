//! Types whose values threads may be given and may share.

use crate::{Class, Expression, Function, Input, Place, Statement, Store};
use fx8::may_be_shared;

/// The parts of checked programs, stores and places are such types.
pub fn meanings_may_be_shared() {
    may_be_shared::<Class>();
    may_be_shared::<Expression>();
    may_be_shared::<Statement>();
    may_be_shared::<Function>();
    may_be_shared::<Input>();
    may_be_shared::<Place>();
    may_be_shared::<Store>();
}
