//! The layout of an index as one thread sees it: what each call and each turn of a keeper answers, and leaves.
//!
//! All of it stands in specs/. The functions here are laws, and do nothing.
#![tactic(auto)]

mod calls;
mod layouts;
mod worked;

pub use calls::{
    gets_change_only_probes, puts_are_refused_for_causes, puts_change_one_part,
    removes_are_refused_for_causes, removes_change_one_part, scans_change_only_probes,
};
pub use layouts::{
    calls_are_those_of_a_map, calls_keep_layouts, lines_keep_layouts, openings_have_their_rows,
};
pub use worked::{
    arrays_revive_nothing, changed_before_each_turn, changed_meanwhile, copies_renew_versions,
    frozen_before_full, gaps_end_with_lanes, held_callers_call, held_callers_stall,
    lanes_add_probes, looks_go_round, no_root_yet, one_into_three, one_into_two, one_rebuild,
    opened_with_rows, parts_are_rebuilt_apart, removed_meanwhile, removed_rows_wear,
    removed_through_forwarding, revivals_take_no_row, roots_skip_groups, rows_come_back,
    scans_add_probes, scans_meanwhile, the_least_held_is_named, too_few_groups, versions_end,
    worn_arrays_get_rows, worn_until_copied,
};
