//! Sessions over an index that nobody else changes, beside sessions over a plain map.
//!
//! Where an index refuses no call, its session is one over a plain map. No program calls these laws.
#![tactic(auto)]

mod laws;

pub use laws::{
    bytes_alone_have_one_text, plain_sessions_have_the_same_replies, sessions_alone_are_plain,
};
