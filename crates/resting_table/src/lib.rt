//! The pairs that the words of a table at rest hold: nobody is in a call, so no version lock is held.
//!
//! The words are those of an index that was not rebuilt, so its groups and their arrays are those of the opening.
#![tactic(auto)]

mod laws;
mod reading;

pub use laws::{
    arrays_are_as_opened, groups_are_as_opened, keys_have_one_place_each, no_place_forwards,
    rows_are_in_their_group,
};
pub use reading::pairs_of;
