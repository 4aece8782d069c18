//! Places, and what stands there: it is looked at where it stands, and changed there.
#![tactic(auto)]

mod elements;
mod lines;
mod locals;
mod looks;
mod places;
mod pointers;
mod puts;
mod writes;

pub use elements::{element_place, index};
pub use lines::{failed, line_in_force, set_line, top};
pub use locals::{local_place, this_place};
pub use looks::{Seen, cell_at, object_in};
pub use places::{at_root, copied_place, field_place};
pub use pointers::{pointed, pointer_of};
pub use puts::{put_base, put_in};
pub use writes::{counts, more_cells, read, replace, write};
