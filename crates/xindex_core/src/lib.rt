//! The concurrent index as its users hold it: an index that all threads share, a pass for each caller, and
//! a keeper for each part.
//!
//! No call of a pass takes memory, waits or takes a mutex: each is tried once and says what it came to. A
//! `Waiter` tries until a call is answered.
#![tactic(auto)]

mod calling;
mod closing;
mod held;
mod index;
mod keeper;
mod laws;
mod named;
mod naming;
mod opening;
mod pass;
mod refusing;
mod telling;
mod waiter;

pub use closing::{Unclosed, UnclosedParts};
pub use held::Held;
pub use index::{Index, OpenError, Opened, OpenedParts};
pub use index_rule::Note;
pub use keeper::Keeper;
pub use laws::{
    callers_alone_tell_the_map, callers_share_one_order, closed_logs_have_one_order,
    names_settle_the_index, passes_in_order_are_all,
};
pub use named::{NamedKeeper, NamedPass};
pub use naming::Name;
pub use pass::Pass;
pub use tried_calls::{Tried, Why};
pub use waiter::Waiter;
