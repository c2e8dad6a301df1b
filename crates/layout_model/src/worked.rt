//! Replays that were worked out by hand, and are computed. Each function is a law and does nothing.
#![tactic(auto, unfolding(line_window::specs::Line::guess_between, line_window::specs::Search::comparisons))]

mod calls;
mod groups;
mod parts;
mod rebuilds;
mod scans;

pub use calls::{
    arrays_revive_nothing, copies_renew_versions, frozen_before_full, held_callers_call,
    removed_rows_wear, revivals_take_no_row, rows_come_back, versions_end, worn_arrays_get_rows,
};
pub use groups::{
    looks_go_round, no_root_yet, one_into_three, one_into_two, opened_with_rows, roots_skip_groups,
};
pub use parts::parts_are_rebuilt_apart;
pub use rebuilds::{
    changed_before_each_turn, changed_meanwhile, held_callers_stall, one_rebuild,
    removed_meanwhile, removed_through_forwarding, the_least_held_is_named, too_few_groups,
    worn_until_copied,
};
pub use scans::{gaps_end_with_lanes, lanes_add_probes, scans_add_probes, scans_meanwhile};
