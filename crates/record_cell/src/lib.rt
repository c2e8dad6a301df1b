//! One record: it is read, and changed in place under its version lock.
//!
//! Every call is tried once and says why it did not come to its end. What forwards is followed, so
//! a caller sees the record wherever a rebuild has it.
#![tactic(auto)]

mod answers;
mod changing;
mod finding;
mod laws;
mod reading;
mod reviving;

pub use answers::{Read, Wrote};
pub use changing::{kill, update};
pub use laws::what_may_be_revived_stays_so;
pub use reading::read;
pub use reviving::revive;
