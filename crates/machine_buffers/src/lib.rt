//! What a walk along the link words of a buffer meets, at every stage of a rebuild.
//!
//! The head of each lane leads to its first row, and each row to the one with the next key of the lane. So a
//! link before a key that leads to no row, or to one with a greater key, says that the key had no row at its
//! load.
#![tactic(auto)]

mod laws;

pub use laws::{
    arrays_without_value_stay, buffers_are_walkable_or_out_of_use, buffers_before_are_walkable,
    buffers_of_keys_are_walkable, cuts_are_keys, cuts_rise, cuts_stay_of_the_group,
    frozen_groups_answer, gaps_are_absent, gaps_behind_are_absent,
    groups_have_lanes_for_their_keys, insert_permissions_last, keys_of_groups_have_lanes,
    keys_of_rows_rise, lane_links_decide, lane_links_lead_into_the_lane, lane_links_rise,
    lane_words_stay, lanes_are_apart, lanes_are_in_order, lanes_have_no_gaps, lanes_stay,
    lanes_stay_until_begun, left_lane_links_do_not_come_back, left_links_do_not_come_back,
    linked_rows_have_lanes, linked_rows_stay, linked_rows_stay_until_begun,
    linked_rows_take_their_place, links_before_a_key_decide, links_before_a_key_stay,
    links_lead_as_before, links_lead_into_the_buffer, links_lead_to_the_next_row, links_rise,
    may_link_behind_opened, may_link_where_seen_open, new_cuts_are_of_the_group,
    new_groups_are_open, none_is_linked_out_of_use, old_buffers_are_walkable,
    opened_buffers_without_value_stay, opened_groups_are_not_new, opened_phases_stay,
    opening_cuts_are_of_the_group, other_lanes_stay_linked, phases_before_are_true,
    phases_of_keys_are_true, rows_have_keys_of_their_group, rows_have_lanes,
    rows_of_the_chain_are_in_range, rows_stand_until_retired, true_phases_stay,
    walkable_buffers_are_linked, walkable_buffers_have_lane_words, walkable_buffers_stay,
    whole_buffers_stay_walkable, whole_lanes_stay_linked,
};
