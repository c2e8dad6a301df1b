//! The sorted map that every answer is held against: its changes, the calls on it, and the plainest
//! thing that answers them.
//!
//! A map is a list of pairs with rising keys. Whoever answers calls meets `Answerer`, whose relation says
//! what an answer tells of the map; `PlainMap` is the definition run as it stands.
#![tactic(auto)]

mod answerer;
mod calls;
mod entries;
mod laws;
mod plain_map;

pub use answerer::Answerer;
pub use calls::{Answer, Call, Near, Value};
pub use entries::{Change, Entry};
pub use laws::{
    a_call_of_one_key_has_one_answer, changes_end_logs, logs_end_in_the_history, looks_end_logs,
    others_keep_logs,
};
pub use plain_map::{NoRoom, PlainMap};
