//! What is written to a real stream.
//!
//! A call of the system costs more than a reply. So what is taken is gathered, and is handed to the system by a flush.
ghost use Rattle.std.specs.Prelude.{◌≡◌, ◌<◌, ◌≤◌, [], length, take, IfOk, IsOk, IsErr, OnOk, MatchResult};
ghost use Rattle.std.specs.Io.KnownBytes.{Appends};
ghost use Rattle.line_session.specs.Ends.{Writes, Flushes};
ghost use Rattle.standard_ends.specs.Real.{WritesStream, FlushesStream, sink_state};

use line_session::{Ends, Gave, Sink, SinkFailed};
use std::alloc::{AllocError, Global};
use std::io;
use std::io::Write;
use std::marker::Model;

/// The most bytes that are gathered.
const MOST: usize = 65_536;

/// A writer as a sink that gathers up to 65,536 bytes, and tells a session no bytes.
///
/// Contracts see what the writer tells of its bytes, those that wait for it, and how many writes and flushes have
/// failed. What waits when it is dropped is lost.
#[derive(Drop)]
pub struct StandardOutput<W: Write + Drop> {
    writer: W,
    gathered: Vec<u8>,
    // How many of the gathered bytes the writer has. They stay until a flush has gone well.
    given: usize,
    faults: u64,
}

impl<W: Write + Drop> Model for StandardOutput<W> {
    ghost use Rattle.std.specs.Prelude.{◌≤◌, drop, length, vec_len, vec_capacity};
    ghost use Rattle.standard_ends.specs.Real.{OutputState};

    ghost Value = { OutputState };

    ghost view = { λ s. record {
      bytes = W.contents s.writer;
      waiting = drop s.given s.gathered.items;
      held = length s.gathered.items;
      faults = s.faults;
    } };

    ghost invariant = { λ s. record {
      given : s.given ≤ vec_len s.gathered;
      most : vec_len s.gathered ≤ 65536;
      reserved : 65536 ≤ vec_capacity s.gathered;
    } };
}

impl<W: Write + Drop> StandardOutput<W> {
    /// A sink over a writer that has not failed. The error is want of memory.
    pub fn new(alloc: Global, writer: W) -> Result<Self, AllocError>
        ensures { IfOk result (λ s. s ≡ record {
          bytes = W.contents writer;
          waiting = [];
          held = 0;
          faults = 0;
        }) }
    {
        Ok(StandardOutput {
            writer,
            gathered: Vec::with_capacity(alloc, MOST)?,
            given: 0,
            faults: 0,
        })
    }
}

impl<W: Write + Drop> Ends for StandardOutput<W> {
    ghost state = { sink_state };
}

impl<W: Write + Drop> Sink for StandardOutput<W> {
    /// Where there is no room, what is gathered is flushed first. If that fails, so does this.
    fn take(&mut self, piece: &[u8]) -> Gave
        requires { 0 < length piece.now }
        ensures stream { WritesStream result piece.now self.old self.new }
        ensures ends { Writes result piece.now
            (sink_state self.old) (sink_state self.new) }
    {
        if self.gathered.len() == MOST && self.flush().is_err() {
            return Gave::Failed;
        }
        let count = piece.len().min(MOST - self.gathered.len());
        // The room was reserved when the sink was made.
        self.gathered.extend_from_slice(&piece[..count]).unwrap();
        Gave::Bytes(count)
    }

    /// A write of no byte is a failure, and so is an error of the writer's flush.
    fn flush(&mut self) -> Result<(), SinkFailed>
        ensures stream { FlushesStream result self.old self.new }
        ensures ends { Flushes result (sink_state self.old) (sink_state self.new) }
    {
        if self.gathered.is_empty() {
            return Ok(());
        }
        let (count, sent) = send(&mut self.writer, &self.gathered[self.given..]);
        self.given += count;
        match sent {
            Ok(()) => {
                self.gathered.clear();
                self.given = 0;
                Ok(())
            }
            Err(SinkFailed) => {
                self.faults = self.faults.saturating_add(1);
                Err(SinkFailed)
            }
        }
    }

    fn faults(&self) -> u64 {
        self.faults
    }
}

// Writes all bytes and flushes the writer. Tells how many were written, and whether all went out.
fn send<W: Write>(writer: &mut W, bytes: &[u8]) -> (usize, Result<(), SinkFailed>)
    ensures within { result.0 ≤ length bytes.now }
    ensures all { OnOk result.1 (result.0 ≡ length bytes.now) }
    ensures given { Appends (W.contents writer.old) (W.contents writer.new)
        (take result.0 bytes.now) }
{
    let count = write_front(writer, bytes);
    if count < bytes.len() {
        return (count, Err(SinkFailed));
    }
    (count, gone_out(writer.flush()))
}

// What was written has gone out only where the flush behind it went well.
fn gone_out(flush: io::Result<()>) -> Result<(), SinkFailed>
    ensures { MatchResult flush (λ _. IsOk result) (λ _. IsErr result) }
{
    match flush {
        Ok(()) => Ok(()),
        Err(_) => Err(SinkFailed),
    }
}

// Writes until all is written, or a write takes nothing or fails, and tells how many bytes were written.
fn write_front<W: Write>(writer: &mut W, bytes: &[u8]) -> usize
    ensures within { result ≤ length bytes.now }
    ensures given { Appends (W.contents writer.old) (W.contents writer.new)
        (take result bytes.now) }
{
    let mut count = 0;
    while count < bytes.len() {
        match writer.write(&bytes[count..]) {
            Ok(0) | Err(_) => return count,
            Ok(more) => count += more,
        }
    }
    count
}
