//! Where the value of each key is, at every stage of a rebuild: the agreement of the table with the
//! history of the map.
//!
//! The live place of a key is moved by callers' changes and by the keeper's copying alone, so that
//! it has one value needs no group and no stage. That it stands where a reader looks is a second
//! theorem over all executions.
#![tactic(auto)]

mod laws;

pub use laws::{
    at_most_one_live_place, histories_are_legal, linked_rows_are_inserts,
    live_places_stand_in_their_groups, map_agrees_with_live_places,
};
