//! Whole rebuilds, event by event, as valid executions: the conditions of their steps can be met
//! together. And tables that open with several groups in a part.
//!
//! They show no more than what happens in them. No caller is inside a part at a step of the part's
//! keeper, but at one install. No group that an install replaces has a left neighbour in the chain,
//! nobody stores a slot or a root, no group is thawed, no install has two old groups, and no lane
//! has two rows.
#![tactic(auto)]

mod laws;

pub use laws::{
    names_are_used_again, no_group_is_begun_meanwhile, several_groups_are_opened,
    two_parts_are_rebuilt_at_once, whole_rebuild_is_valid,
};
