//! Places: where values stand.
use fx8::ItemList;

/// Where a place begins.
#[derive(Clone, Copy)]
pub enum Root {
    /// A global or static variable.
    Global(u32),
    /// A local of a frame: the frame's number, from the outermost as 0, and the local's.
    Local(u32, u32),
    /// An object, by its serial.
    Object(u64),
}

/// Where a value stands. What stands there is looked up anew at each use.
#[derive(Drop)]
pub struct Place {
    /// Where it begins.
    pub root: Root,
    /// The positions of fields and elements from there, elements by storage.
    pub path: ItemList<u64>,
}
