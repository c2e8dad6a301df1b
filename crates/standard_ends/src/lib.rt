//! Standard input and standard output as the ends of a session, or any reader and writer in their place.
//!
//! They tell a session no bytes, since no contract can say what a stream holds. Each counts its errors.
#![tactic(auto)]

mod input;
mod output;
mod progress;

pub use input::StandardInput;
pub use output::StandardOutput;
pub use progress::Progress;
