//! What a caller may conclude from its loads, at every stage of a rebuild.
//!
//! A caller stands in a group, reaches places, and keeps what it reached until it leaves. A value
//! that it reads at one version is the key's value at a moment between; a key without a value in
//! the places of its group is not in the map.
#![tactic(auto)]

mod laws;

pub use laws::{
    array_tombstones_stay, buffer_tombstones_stay, callers_meet_records, callers_stay_behind,
    equal_versions_enclose_the_value, gaps_have_no_row, groups_have_one_place_each,
    groups_hold_records, installed_redirects_lead_back, late_callers_are_behind,
    may_insert_behind_opened, may_insert_where_seen_open, new_redirects_lead_into_the_group,
    not_found_behind_is_absent, not_found_is_absent, places_of_keys_are_not_blank,
    places_stay_where_callers_stand, places_without_value_stay, reached_places_do_not_forward,
    reached_places_have_keys, reached_places_stay, read_value_is_in_map,
    redirect_targets_are_direct, redirects_lead_to_old_places, rows_do_not_forward,
    versions_count_changes,
};
