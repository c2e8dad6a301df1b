//! What the words of a group say of its sorted array and of the lanes of its buffer.
//!
//! The lanes stay as the group was begun with them. The array, its size and the error of its line stay where a caller
//! stands in a group that answers for a key, or did. So what was loaded at different moments belongs together.
#![tactic(auto)]

mod answers;
mod choosing;
mod group_keys;
mod headers;
mod locating;
mod searching;

pub use answers::{Lane, Located};
pub use choosing::{lane_end, lane_for};
pub use group_keys::GroupKeys;
pub use headers::{lanes, pivot, size};
pub use locating::locate;
