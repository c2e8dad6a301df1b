//! What each barrier of a rebuild ends.
//!
//! A caller relies on what it loaded in its present read section, and drops it as it leaves. Once
//! nobody can come to rely on something anew, a barrier ends it for all.
#![tactic(auto)]

mod laws;

pub use laws::{
    barrier_ends_unused_side, begun_groups_are_gone, callers_outside_rely_on_nothing,
    first_barrier_ends_inserts, gone_groups_stay, never_begun_groups_are_left_alone,
    opened_groups_are_closed, replaced_groups_are_left_alone, second_barrier_ends_old_groups,
    third_barrier_ends_old_places, unopened_groups_are_left_alone,
};
