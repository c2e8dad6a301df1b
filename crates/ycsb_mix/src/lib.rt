//! Traces in the proportions of YCSB's core mixes, as a function of a seed.
//!
//! A key is chosen by whole-number weights, so that few keys are asked for often. Each get finds its key, while no
//! put was refused.
#![tactic(auto)]

mod choice;
mod drawing;
mod lines;
mod mixes;
mod steps;
mod writing;

pub use lines::mix_lines;
pub use mixes::{Mix, MixError, Step};
pub use steps::mix_steps;
pub use writing::{mix_text, write_mix};
