//! The words of the shared table: how many there are, where each stands, and what a state or a
//! phase word says.
//!
//! All arithmetic on addresses and all masks of words are here. Every other crate asks by name.
#![tactic(auto)]

mod headers;
mod layout;
mod limits;
mod parts;
mod phase;
mod places;
mod state;

pub use headers::HeaderWord;
pub use layout::Layout;
pub use limits::{BadLimit, Limits};
pub use parts::{BadBound, Parts};
pub use phase::Phase;
pub use places::{Part, link_word, state_word, value_word};
pub use state::{
    LAST_VERSION, State, locked_word, released_word, says_locked, says_removed, version_in,
};
