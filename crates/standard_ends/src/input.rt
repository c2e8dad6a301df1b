//! What is read from a real stream.
ghost use Rattle.std.specs.Prelude.{◌≡◌, ◌<◌, length};
ghost use Rattle.line_session.specs.Ends.{Reads};
ghost use Rattle.standard_ends.specs.Real.{ReadsStream, source_state};

use line_session::{Ends, Source, Took};
use std::io::Read;
use std::marker::Model;

/// A reader as a source, which tells a session no bytes. Contracts see how many of its reads have failed, and what
/// the reader tells of its bytes.
#[derive(Drop)]
pub struct StandardInput<R: Read + Drop> {
    reader: R,
    faults: u64,
}

impl<R: Read + Drop> Model for StandardInput<R> {
    ghost use Rattle.standard_ends.specs.Real.{InputState};

    ghost Value = { InputState };

    ghost view = { λ s. record { bytes = R.remaining s.reader; faults = s.faults } };
}

impl<R: Read + Drop> StandardInput<R> {
    /// A source over a reader that has not failed.
    pub fn new(reader: R) -> Self
        ensures { result ≡ record { bytes = R.remaining reader; faults = 0 } }
    {
        StandardInput { reader, faults: 0 }
    }
}

impl<R: Read + Drop> Ends for StandardInput<R> {
    ghost state = { source_state };
}

impl<R: Read + Drop> Source for StandardInput<R> {
    /// An error of the reader is a failure, and never the end.
    fn read(&mut self, into: &mut [u8]) -> Took
        requires { 0 < length into.old }
        ensures stream { ReadsStream result into.new self.old.bytes self.new.bytes }
        ensures ends { Reads result into.new
            (source_state self.old) (source_state self.new) }
    {
        match self.reader.read(into) {
            Ok(0) => Took::End,
            Ok(count) => Took::Bytes(count),
            Err(_) => {
                self.faults = self.faults.saturating_add(1);
                Took::Failed
            }
        }
    }

    fn faults(&self) -> u64 {
        self.faults
    }
}
