//! Traces, which say what callers ask in each phase, and the transcripts of their replies.
//!
//! A trace is good or has a first bad line; nothing in it is asked before all of it is read.
#![tactic(auto)]

mod appending;
mod counting;
mod cutting;
mod halves;
mod keeping;
mod laws;
mod lines;
mod plays;
mod replays;
mod replying;
mod telling;
mod traces;
mod transcripts;

pub use appending::{append_number, append_pair, append_reply};
pub use counting::{Form, reply_count};
pub use keeping::{Cursor, Trace};
pub use laws::{
    each_text_has_its_lines, no_line_says_two_things, no_play_line_says_two_things,
    no_text_is_two_replays, no_text_is_two_traces, written_lines_are_read, written_plays_are_read,
};
pub use lines::{Line, read_trace_line};
pub use plays::{Play, read_play_line};
pub use replays::read_replay;
pub use replying::Replies;
pub use telling::{GroupPhase, Told, append_told};
pub use traces::{TraceError, read_trace};
pub use transcripts::{append_caller, append_phase, append_rows};
