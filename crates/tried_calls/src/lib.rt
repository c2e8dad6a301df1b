//! What a call that is tried once comes to.
#![tactic(auto)]

mod tried;

pub use tried::{Tried, Why};
