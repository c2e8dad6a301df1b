//! What holds of all lines and all streams.
//!
//! The functions do nothing: each has a law for its contract, and so the check proves the law.
ghost use Rattle.wire_commands.specs.Laws.{LinesHaveWords, LinesRead, LinesReadOnce, StreamsAsk, StreamsAskOnce, FeedsAsk};

/// A line is cut into words in one way.
pub fn each_line_has_its_words()
    ensures { LinesHaveWords }
{}

/// Nothing that can come is left without a request, which may be a bad one.
pub fn each_line_reads()
    ensures { LinesRead }
{}

/// What a line reads as is settled by its bytes.
pub fn no_line_reads_as_two_requests()
    ensures { LinesReadOnce }
{}

/// Any bytes are whole lines and a rest.
pub fn each_stream_asks()
    ensures { StreamsAsk }
{}

/// The requests of a stream, and the rest of it, are settled by its bytes.
pub fn no_stream_asks_in_two_ways()
    ensures { StreamsAskOnce }
{}

/// However its bytes come, a feed gives the requests of their lines, in order.
pub fn a_feed_gives_what_its_bytes_ask()
    ensures { FeedsAsk }
{}
