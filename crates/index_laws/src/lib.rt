//! What holds of calls on an index, and no body needs.
//!
//! A try that nobody disturbs ends, and a caller that is alone has an answer to each call.
#![tactic(auto)]

mod laws;

pub use laws::{calls_alone_have_answers, undisturbed_tries_end};
