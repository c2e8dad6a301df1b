//! The phases of a trace, run over an index: in each phase every caller makes its calls in a thread of its own.
//!
//! What the replies tell is explained by the one history that all passes know at the end, and by their own logs.
#![tactic(auto)]

mod cutting;
mod laws;
mod phases;
mod telling;
mod workers;

pub use laws::{enough_refuses_nothing, what_all_know_is_all};
pub use phases::{Ran, run_phases};
