//! A key is read, put and removed within one read section, tried once each.
//!
//! Every call says why it did not come to its end. The one entry of a call that did stands at a
//! moment of the call: where the load, the exchange or the store was made that decided it.
#![tactic(auto)]

mod acting;
mod arrays;
mod found;
mod getting;
mod linking;
mod lookup;
mod making_room;
mod phases;
mod putting;
mod refusing;
mod removing;
mod reviving;
mod seeking;
mod updating;

pub use getting::get;
pub use putting::put;
pub use removing::remove;
