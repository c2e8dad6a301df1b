//! The buffer of a group: sorted lists of rows, its lanes, which callers walk and link new rows into.
//!
//! A walk meets the rows of a lane by rising keys. It ends at the row of the key, at the first one with a
//! greater key, or at the end, so what the last link said of the key held when it was loaded.
#![tactic(auto)]

mod answers;
mod counting;
mod finding;
mod inserting;
mod laws;
mod walking;

pub use answers::Found;
pub use counting::count;
pub use finding::{find, first_from};
pub use inserting::insert;
pub use laws::{
    buffers_stay_walkable_for_keepers, keepers_can_follow, keys_without_a_value_belong,
};
