//! The line protocol without its session: the requests that bytes ask for, and the reply lines.
//!
//! Every line reads as exactly one request, which may be a bad one with its reason. So no input is
//! an error here, and nothing takes memory.
#![tactic(auto)]

mod feed;
mod forms;
mod laws;
mod numbers;
mod reading;
mod reply;
mod request;
mod words;

pub use feed::Feed;
pub use laws::{
    a_feed_gives_what_its_bytes_ask, each_line_has_its_words, each_line_reads, each_stream_asks,
    no_line_reads_as_two_requests, no_stream_asks_in_two_ways,
};
pub use numbers::{is_number, value_within};
pub use reading::{read_line, without_return};
pub use reply::{Reply, write_number};
pub use request::{Reason, Request, Value};
pub use words::{first_word, has_no_word, line_len, only_word};
