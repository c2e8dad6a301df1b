//! A learned search in a rising list of keys: a straight line guesses a key's place, and halving a
//! window around the guess finds it.
//!
//! The number of keys below a key, present or not, lies in that key's window, both ends included.
#![tactic(auto)]

mod bounds;
mod keys;
mod line;
mod probes;
mod scaling;

pub use bounds::lower_bound;
pub use keys::{Keys, is_rising};
pub use line::Line;
pub use probes::Probes;
pub use scaling::{scaled, scaled_by_long_division};
