//! The two ends of a session: where bytes come from and where they go.
//!
//! An object may be both. So one state has the meanings of both, and a call says what it leaves alone of it.
ghost use Rattle.std.specs.Prelude.{◌≡◌, ◌<◌, length};
ghost use Rattle.line_session.specs.Ends.{EndsState, Reads, Writes, Flushes};

use std::error::Error;
use std::fmt;

/// What a read came to.
#[derive(Clone, Copy, Debug, PartialEq, Eq)]
pub enum Took {
    /// So many bytes, at least one, stand at the front of the buffer.
    Bytes(usize),

    /// Nothing is left.
    End,

    /// The read failed and took nothing.
    Failed,
}

/// What a write came to.
#[derive(Clone, Copy, Debug, PartialEq, Eq)]
pub enum Gave {
    /// So many bytes of the piece, at least one, were written.
    Bytes(usize),

    /// The write failed, and wrote nothing.
    Failed,
}

/// The sink failed, and counted it.
#[derive(Clone, Copy, Debug, PartialEq, Eq)]
pub struct SinkFailed;

impl fmt::Display for SinkFailed {
    fn fmt<W: fmt::Write>(&self, f: &mut fmt::Formatter<W>) -> fmt::Result {
        write!(f, "the sink failed")
    }
}

impl Error for SinkFailed {}

/// How a session ended.
#[derive(Clone, Copy, Debug, PartialEq, Eq)]
pub enum Ended {
    /// The input ended. A last line without its newline was answered.
    End,

    /// A line asked for the end. What follows it was dropped.
    Quit,

    /// A read failed. All whole lines before it were answered.
    ReadFault,

    /// A write or a flush failed. What was written is the beginning of the replies.
    WriteFault,

    /// The byte limit was reached. All whole lines before it were answered.
    Limit,
}

/// What contracts see of an object that bytes are read from or written to.
///
/// What is only one of the two tells no bytes for the other and counts no faults of it.
pub trait Ends {
    /// Its bytes and its faults.
    ghost state: { Self → EndsState };
}

/// Where bytes come from.
pub trait Source: Ends {
    /// Reads the next bytes to the front of a buffer.
    fn read(&mut self, into: &mut [u8]) -> Took
        requires { 0 < length into.old }
        ensures { Reads result into.new (Self.state self.old) (Self.state self.new) };

    /// How many reads have failed. The count stands at its greatest number.
    fn faults(&self) -> u64
        ensures { result ≡ (Self.state self.now).read_faults };
}

/// Where bytes go.
pub trait Sink: Ends {
    /// Takes the front of a piece. What it takes may be held back until a flush.
    fn take(&mut self, piece: &[u8]) -> Gave
        requires { 0 < length piece.now }
        ensures { Writes result piece.now (Self.state self.old) (Self.state self.new) };

    /// Hands on what is held back.
    fn flush(&mut self) -> Result<(), SinkFailed>
        ensures { Flushes result (Self.state self.old) (Self.state self.new) };

    /// How many writes and flushes have failed. The count stands at its greatest number.
    fn faults(&self) -> u64
        ensures { result ≡ (Self.state self.now).write_faults };
}
