//! The words of a table as it is opened, and what it is opened with.
//!
//! A table is laid out before any hand is made, so this needs no board and no rule.
#![tactic(auto)]

mod laying;
mod opening;

pub use laying::laid_words;
pub use opening::opening_with;
