//! Read sections of callers, and the barrier by which a keeper waits for those that were inside.
//!
//! A barrier is over once each caller was outside at its mark, or has left that read section since. What a caller can
//! come to rely on only before the barrier, it has lost by then.
#![tactic(auto)]

mod marks;
mod sections;

pub use marks::{Barrier, Marks};
pub use sections::{enter, leave};
