//! One session of the line protocol: requests from a source, replies to a sink, and an answerer between them.
//!
//! Whatever comes and however it is cut, the replies are those of the lines in their order, and each is handed to
//! the sink before the next line is asked. The sink may hold them back until the session reads on, and not longer. A
//! session takes no memory and keeps none of what it served.
#![tactic(auto)]

mod ends;
mod gates;
mod laws;
mod memory;
mod replies;
mod serving;
mod texts;

pub use ends::{Ended, Ends, Gave, Sink, SinkFailed, Source, Took};
pub use gates::{Gate, NoGate};
pub use laws::{bytes_have_one_text, requests_have_one_text};
pub use memory::{BytesSink, BytesSource, CountSink, SureSource};
pub use replies::{reply_to, write_all, write_out};
pub use serving::serve_one;
pub use texts::{TextError, read_text};
