//! That the words lead a caller to the group of its key, at every stage of a rebuild.
//!
//! From the root to a slot, from there to a group, and along next words: where the next group's
//! pivot is greater than the key, the caller has come to the group that answers for it, or did
//! before the last install.
#![tactic(auto)]

mod laws;

pub use laws::{
    answers_stay, answers_while_unopened, buffers_where_callers_stand,
    callers_stand_in_groups_of_keys, each_key_has_a_group, groups_are_chained, groups_lead_on,
    installs_end_rebuilds, keepers_alone_change_structure, last_keys_have_next_words,
    new_answers_are_behind, new_groups_lead_on, new_walks_begin, new_walks_end, new_walks_go_on,
    new_walks_stay, next_pivots_are_greater, next_words_are_reachable, next_words_of_the_chain,
    no_rebuild_is_under_way_at_first, old_groups_are_chained, old_groups_are_unchained,
    phases_where_callers_stand, pivots_are_least_keys, pivots_of_the_chain_are_least,
    pivots_of_the_chain_rise, pivots_stay, rebuilds_under_way_hold, slot_groups_are_true,
    slots_are_at_or_behind_their_groups, slots_lead_to_groups, slots_seen_stay,
    the_chain_begins_at_the_first_slot, walks_begin, walks_end, walks_end_at_the_group_of_the_key,
    walks_go_on, walks_stay_behind_the_key,
};
