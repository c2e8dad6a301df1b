//! The one order of all callers' calls: the weave of a history with the logs of its callers.
//!
//! Between two changes of the map stand the looks of all logs at that place, by the caller's number. So the order is
//! a function of the history and the logs, and nothing has to keep it.
#![tactic(auto)]

mod laws;

pub use laws::{logs_stand_in_the_weave, others_have_no_entry, weaves_agree};
