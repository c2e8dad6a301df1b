//! From the root of a part to the group of a key: a slot of the root, and from there along the chain.
//!
//! Any slot whose pivot is at most the key will do, whatever is rebuilt meanwhile. The last one is nearest.
#![tactic(auto)]

mod ends;
mod finding;
mod slots;
mod walking;

pub use ends::stretch_end;
pub use finding::group_for;
pub use slots::Slots;
pub use walking::{walk, walk_new};
