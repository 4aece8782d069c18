//! Types whose values threads may be given and may share.

use crate::{HostCall, Reply, Value};
use fx8::may_be_shared;

/// Values, and what is asked of the world and answered, are such types.
pub fn values_may_be_shared() {
    may_be_shared::<Value>();
    may_be_shared::<HostCall>();
    may_be_shared::<Reply>();
}
