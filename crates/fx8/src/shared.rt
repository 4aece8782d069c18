//! Types whose values threads may be given and may share.

use crate::{ItemList, Stack, Tickets};

/// Is called only for a type whose values threads may be given and may share.
pub fn may_be_shared<T: Send + Sync>() {}

/// The lists are such types where their items are.
pub fn lists_may_be_shared<T: Send + Sync>() {
    may_be_shared::<ItemList<T>>();
    may_be_shared::<Stack<T>>();
    may_be_shared::<Tickets>();
}
