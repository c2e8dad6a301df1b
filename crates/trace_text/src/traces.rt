//! A whole trace, which is given as one text.
//!
//! Room is taken at once, for as many lines and numbers as a text of this length and with these newlines can have.
ghost use Rattle.std.specs.Prelude.{◌≡◌, [], IfOk, MatchResult};
ghost use Rattle.std.specs.List.{AllByRecursion};
ghost use Rattle.trace_text.specs.Lines.{IsLineFor};
ghost use Rattle.trace_text.specs.Traces.{IsTrace, IsCause};

use crate::cutting::TextLines;
use crate::keeping::Trace;
use crate::lines::read_trace_line;
use std::alloc::{AllocError, Global};
use std::error::Error;
use std::fmt;

/// Why a text is not read as a trace or a replay.
#[derive(Clone, Copy, Debug, PartialEq, Eq)]
pub enum TraceError {
    /// This line is bad, and none before it is. The number counts all lines from 1.
    BadLine { number: u64 },
    /// There is not enough memory for the lines.
    Memory,
}

impl From<AllocError> for TraceError {
    ghost use Rattle.trace_text.specs.declared.traces.TraceError.TheVariants.{Memory};

    ghost from_gives = { λ _ e. e ≡ Memory };

    fn from(_: AllocError) -> Self {
        TraceError::Memory
    }
}

impl fmt::Display for TraceError {
    fn fmt<W: fmt::Write>(&self, f: &mut fmt::Formatter<W>) -> fmt::Result {
        match self {
            TraceError::BadLine { number } => write!(f, "bad line {number}"),
            TraceError::Memory => f.write_str("not enough memory for the lines"),
        }
    }
}

impl Error for TraceError {}

/// Reads a trace for so many callers. Lines that are skipped are counted and left out.
pub fn read_trace(alloc: Global, text: &[u8], callers: u32) -> Result<Trace, TraceError>
    ensures reads { MatchResult result (IsTrace callers text.now) (IsCause callers text.now) }
    ensures fit { IfOk result (AllByRecursion (IsLineFor callers)) }
{
    let mut trace = with_room_for(alloc, text)?;
    let mut lines = TextLines::of(text);
    while let Some(line) = lines.next_line() {
        let Some(said) = read_trace_line(line, callers) else {
            let number = lines.number();
            return Err(TraceError::BadLine { number });
        };
        trace.push(said)?;
    }
    Ok(trace)
}

/// A trace with room for the lines of a text.
///
/// Each line has a newline, but for the last. None that is kept is shorter than `phase`. A line has at most four words of
/// numbers, and four bytes of text for each of them.
fn with_room_for(alloc: Global, text: &[u8]) -> Result<Trace, AllocError>
    ensures { IfOk result (λ trace. trace ≡ []) }
{
    let newlines = text.iter().filter(|&&byte| byte == b'\n').count();
    let lines = newlines.min(text.len() / 6) + 1;
    let words = lines.saturating_mul(4).min(text.len() / 4 + 1);
    Trace::with_room(alloc, lines, words)
}
