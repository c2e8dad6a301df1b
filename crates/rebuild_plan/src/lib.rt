//! The numbers of a rebuild: when a group is rebuilt, into how many groups its records go, how many each of
//! them gets, into how many lanes a group's buffer is cut, and which groups the root's slots name. A table that
//! opens with rows is planned in the same way.
//!
//! By the plan each new group is given at least one record, where there are any, and is at most three quarters full.
#![tactic(auto)]

mod lanes;
mod laws;
mod sizes;
mod triggers;

pub use lanes::{lane_width, lanes_for};
pub use laws::{
    cuts_divide_the_keys, cuts_lie_in_their_group, groups_have_their_keys, pivots_are_listed,
    pivots_divide_the_keys, plans_as_worked, slots_divide_the_pivots,
};
pub use sizes::{groups_for, root_step, share};
pub use triggers::{can_merge, is_due};
