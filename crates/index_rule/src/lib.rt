//! The shared table of the index: a rule that every atomic step keeps, and one call for each kind
//! of step.
//!
//! The rule says only that some valid execution leaves the words, and that each hand knows a
//! beginning of it in which all its own events stand. All else is a theorem over valid executions.
#![tactic(auto)]

mod board;
mod hand;
mod laws;
mod looks;
mod memory;
mod note;
mod own_rows;
mod plays;
mod rows;
mod rule;
mod swap;
mod view;

pub use board::Board;
pub use hand::Hand;
pub use laws::moments_lie_within;
pub use looks::Sight;
pub use memory::offset_of;
pub use note::Note;
pub use own_rows::OwnRow;
pub use rows::{PrivateRow, RetiredRow};
pub use rule::{Place, Words};
pub use swap::{Linked, Swap};
pub use view::{Heard, View};
