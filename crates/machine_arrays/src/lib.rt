//! The sorted arrays of groups, at every stage of a rebuild.
//!
//! An array is filled from index 0 on, with rising keys of its group, and where a caller stands in a
//! group that answers for a key, or did, the words for the size and for the error of the line are those
//! of these keys, and stay.
#![tactic(auto)]

mod laws;

pub use laws::{
    arrays_are_filled_in_order, arrays_have_keys_of_their_group, arrays_have_their_keys,
    arrays_in_use_are_sized, arrays_of_the_chain_are_in_range, arrays_of_the_chain_are_sized,
    arrays_stay_until_changed, arrays_stay_where_callers_stand,
    arrays_where_callers_stand_are_sized, begun_arrays_are_empty, gaps_of_lists_have_no_place,
    keepers_alone_change_arrays, keys_of_arrays_are_in_range, keys_of_arrays_are_keys,
    keys_of_arrays_rise, keys_of_lists_may_be_loaded, lists_of_keys_are_whole, lists_of_keys_fit,
    lists_of_keys_rise, loads_meet_one_array, new_keys_come_last, opened_arrays_have_their_shares,
    sizes_are_of_the_keys,
};
