//! What the keeper of a part may conclude.
//!
//! Between a mark and its check the keeper changes no structure, and the other keepers change their own
//! parts. So what a barrier ends does not begin again.
#![tactic(auto)]

mod clearing;
mod laws;
mod staying;

pub use clearing::{
    cleared_parts_stay, groups_of_cleared_parts_are_needed_by_none, parts_are_cleared_at_first,
    rebuilds_clear_parts,
};
pub use laws::{
    barrier_frees_side, closed_buffers_gain_no_row, first_barrier_closes, held_rows_are_unreached,
    install_takes_old_groups_out, live_places_are_merged, locks_stay, redirects_are_pending,
    second_barrier_frees, third_barrier_frees,
};
pub use staying::{
    can_begin_stays, can_try_to_close_stays, live_places_of_merged_keys, may_copy_stays,
    may_direct_stays, may_fill_array_stays, may_fill_header_stays, may_freeze_stays,
    may_install_stays, may_move_stays, may_open_stays, may_redirect_stays, may_retire_stays,
    may_store_root_stays, may_store_slot_stays, may_store_unused_stays, may_thaw_stays,
    merged_keys_stay, tries_to_close_end,
};
