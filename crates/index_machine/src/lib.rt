//! The steps on the shared table as a pure machine: no thread, no table, no address arithmetic.
//!
//! An execution is a list of events. It is valid where each event met its condition when it was
//! made. What a hand holds or observes is a function of the execution, and each invariant is a
//! theorem over all valid executions.
#![tactic(auto)]

mod events;
mod laws;
mod opening;
mod refusals;

pub use events::{Action, Event, InstallWord};
pub use laws::{
    all_steps_represent, each_row_is_in_one_place, epochs_count_crossings, free_stack_is_linked,
    grace_period_ends_observed_heads, held_rows_stay, holders_are_inside, links_name_rows,
    observed_heads_hold, read_sections_alternate, words_stand_for_the_state,
};
pub use opening::Opening;
pub use refusals::{
    beginnings_wait_for_installs, closing_waits_for_readers, copies_hold_the_lock,
    copying_waits_for_readers, forwarding_places_have_no_value, installs_merge_live_places,
    links_where_none_lives, opening_waits_for_inserters, pushes_wait_for_readers,
    retiring_waits_for_readers, revives_in_buffers_alone, slots_wait_for_readers,
};
