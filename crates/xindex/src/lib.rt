//! The program as one call: words, a source and a sink in, a status out.
//!
//! `xindex` does all that the program does, so what is proved of it is proved of the program, but for the real
//! streams under it, which tell no bytes.
#![tactic(auto)]

mod generating;
mod outcome;
mod piping;
mod running;
mod serving;
mod status;
mod summary;
mod telling;
mod top;

pub use caller_phases::{Ran, run_phases};
pub use line_session::{Gate, NoGate};
pub use outcome::Outcome;
pub use standard_ends::{Progress, StandardInput, StandardOutput};
pub use status::Status;
pub use top::xindex;
