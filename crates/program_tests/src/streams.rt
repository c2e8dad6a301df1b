//! Readers and writers that err, and what the real ends tell of them.
use line_session::{Gave, Sink, SinkFailed, Source, Took};
use std::fmt::Display;
use std::io::{Eprint, Error, ErrorKind, IsTerminal, Read, Result, Write};
use std::sync::atomic::{AtomicU64, Ordering};
use std::test::Fail;
use xindex::{Gate, Progress, StandardInput, StandardOutput};

// A reader of which each read errs.
#[derive(Drop)]
pub(crate) struct Unreadable;

impl Read for Unreadable {
    fn read(&mut self, _into: &mut [u8]) -> Result<usize> {
        Err(Error::from(ErrorKind::Other))
    }
}

// A writer that takes nothing, errs at each write, or errs at each flush.
#[derive(Clone, Copy, Debug, PartialEq, Eq, Drop)]
pub(crate) enum Unwritable {
    TakesNothing,
    ErrsAtWrite,
    ErrsAtFlush,
}

impl Write for Unwritable {
    fn write(&mut self, piece: &[u8]) -> Result<usize> {
        match self {
            Unwritable::TakesNothing => Ok(0),
            Unwritable::ErrsAtWrite => Err(Error::from(ErrorKind::Other)),
            Unwritable::ErrsAtFlush => Ok(piece.len()),
        }
    }

    fn flush(&mut self) -> Result<()> {
        match self {
            Unwritable::ErrsAtFlush => Err(Error::from(ErrorKind::Other)),
            _ => Ok(()),
        }
    }
}

// A writer that errs at the flush with this number, from 0.
#[derive(Drop)]
pub(crate) struct ErrsAtOneFlush(pub(crate) u32);

impl Write for ErrsAtOneFlush {
    fn write(&mut self, piece: &[u8]) -> Result<usize> {
        Ok(piece.len())
    }

    fn flush(&mut self) -> Result<()> {
        match self.0.checked_sub(1) {
            Some(left) => {
                self.0 = left;
                Ok(())
            }
            None => Err(Error::from(ErrorKind::Other)),
        }
    }
}

#[test]
fn a_reader_is_read_to_its_end(rt: HostRuntime) {
    let mut source = StandardInput::new(b"get 5\n".as_slice());
    let mut buffer = [0; 4];
    assert_eq!(rt; source.read(&mut buffer), Took::Bytes(4));
    assert_eq!(rt; source.read(&mut buffer), Took::Bytes(2));
    assert_eq!(rt; source.read(&mut buffer), Took::End);
    assert_eq!(rt; source.faults(), 0);
}

#[test]
fn a_read_that_errs_is_no_end(rt: HostRuntime) {
    let mut source = StandardInput::new(b"get".as_slice().chain(Unreadable));
    let mut buffer = [0; 4];
    assert_eq!(rt; source.read(&mut buffer), Took::Bytes(3));
    assert_eq!(rt; source.read(&mut buffer), Took::Failed);
    assert_eq!(rt; source.faults(), 1);
}

// What the first full room takes.
const FULL: [u8; 65_536] = [b'a'; 65_536];

#[test]
fn a_piece_is_written_by_a_flush(rt: HostRuntime) -> std::result::Result<(), Fail> {
    let mut sink = StandardOutput::new(rt.alloc(), Vec::new(rt.alloc()))?;
    assert_eq!(rt; sink.take(b"none\n"), Gave::Bytes(5));
    assert_eq!(rt; sink.flush(), Ok(()));
    assert_eq!(rt; sink.faults(), 0);
    Ok(())
}

#[test]
fn a_write_that_takes_nothing_or_errs_or_is_not_flushed_fails_at_the_flush(
    rt: HostRuntime,
) -> std::result::Result<(), Fail> {
    for writer in [
        Unwritable::TakesNothing,
        Unwritable::ErrsAtWrite,
        Unwritable::ErrsAtFlush,
    ] {
        let mut sink = StandardOutput::new(rt.alloc(), writer)?;
        assert_eq!(rt; sink.flush(), Ok(()), "{writer:?}");
        assert_eq!(rt; sink.take(b"none\n"), Gave::Bytes(5), "{writer:?}");
        assert_eq!(rt; sink.flush(), Err(SinkFailed), "{writer:?}");
        assert_eq!(rt; sink.flush(), Err(SinkFailed), "{writer:?}");
        assert_eq!(rt; sink.faults(), 2, "{writer:?}");
    }
    Ok(())
}

#[test]
fn what_is_gathered_is_flushed_where_there_is_no_room(
    rt: HostRuntime,
) -> std::result::Result<(), Fail> {
    let mut sink = StandardOutput::new(rt.alloc(), Vec::new(rt.alloc()))?;
    assert_eq!(rt; sink.take(&FULL[1..]), Gave::Bytes(65_535));
    assert_eq!(rt; sink.take(b"none\n"), Gave::Bytes(1));
    assert_eq!(rt; sink.take(b"one\n"), Gave::Bytes(4));
    let mut sink = StandardOutput::new(rt.alloc(), Unwritable::ErrsAtWrite)?;
    assert_eq!(rt; sink.take(&FULL), Gave::Bytes(65_536));
    assert_eq!(rt; sink.faults(), 0);
    assert_eq!(rt; sink.take(b"none\n"), Gave::Failed);
    assert_eq!(rt; sink.faults(), 1);
    Ok(())
}

// A stream that counts the lines that are told on it.
#[derive(Drop)]
struct Counted<'a> {
    lines: &'a AtomicU64,
    is_terminal: bool,
}

impl<'a> Eprint for Counted<'a> {
    fn eprint<D: Display + Drop>(&self, _value: D) -> Result<()> {
        Ok(())
    }

    fn eprintln<D: Display + Drop>(&self, _value: D) -> Result<()> {
        self.lines.fetch_add(1, Ordering::SeqCst);
        Ok(())
    }
}

impl<'a> IsTerminal for Counted<'a> {
    fn is_terminal(&self) -> bool {
        self.is_terminal
    }
}

#[test]
fn progress_is_told_to_a_terminal_alone(rt: HostRuntime) -> std::result::Result<(), Fail> {
    for (is_terminal, told) in [(true, 2), (false, 0)] {
        let lines = AtomicU64::new(0);
        let gate = Progress::new(Counted {
            lines: &lines,
            is_terminal,
        });
        for request in [0, 1, 99_999, 100_000, 100_001, 200_000] {
            gate.before(&rt, 3, request);
        }
        assert_eq!(rt; lines.load(Ordering::SeqCst), told);
    }
    Ok(())
}
