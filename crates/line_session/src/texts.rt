//! A whole text, which is read before anything is done with it.
ghost use Rattle.std.specs.Prelude.{◌≡◌, ◌<◌, ◌≤◌, Err, MatchResult};
ghost use Rattle.line_session.specs.Ends.{CountsRead, HandsOut, TakesAtMost};
ghost use Rattle.line_session.specs.Texts.{TakesPart, TakesText};

use crate::{Source, Took};
use std::alloc::Global;
use std::error::Error;
use std::fmt;

/// The most bytes of one read.
pub(crate) const PIECE: usize = 4096;

/// Why no whole text was read.
#[derive(Clone, Copy, Debug, PartialEq, Eq)]
pub enum TextError {
    /// A read failed, and the source counted it.
    ReadFault,

    /// The byte limit was reached before the input ended.
    Limit,

    /// There is not enough memory for the text.
    Memory,
}

impl fmt::Display for TextError {
    fn fmt<W: fmt::Write>(&self, f: &mut fmt::Formatter<W>) -> fmt::Result {
        f.write_str(match self {
            TextError::ReadFault => "a read failed",
            TextError::Limit => "the text does not end before the byte limit",
            TextError::Memory => "not enough memory for the text",
        })
    }
}

impl Error for TextError {}

/// Reads a source to its end. After `most` bytes no further read is made, so a text of just as many is none.
pub fn read_text<S: Source>(alloc: Global, source: &mut S, most: u64) -> Result<Vec<u8>, TextError>
    ensures reads { MatchResult result
        (λ text. TakesText most (S.state source.old) (S.state source.new) text.items)
        (TakesPart most (S.state source.old) (S.state source.new)) }
    ensures faults { CountsRead (result ≡ Err TextError.ReadFault)
        (S.state source.old) (S.state source.new) }
{
    let mut text = Vec::new(alloc);
    let mut buffer = [0; PIECE];
    let mut left = most;
    while left > 0 {
        match read_at_most(source, &mut buffer, left) {
            Took::Bytes(count) => {
                left -= count as u64;
                if text.extend_from_slice(&buffer[..count]).is_err() {
                    return Err(TextError::Memory);
                }
            }
            Took::End => return Ok(text),
            Took::Failed => return Err(TextError::ReadFault),
        }
    }
    Err(TextError::Limit)
}

/// Reads a piece of at most so many bytes.
pub(crate) fn read_at_most<S: Source>(source: &mut S, buffer: &mut [u8; PIECE], most: u64) -> Took
    requires { 0 < most }
    ensures bytes { HandsOut result buffer.new
        (S.state source.old).left (S.state source.new).left }
    ensures limit { TakesAtMost result most }
    ensures faults { CountsRead (result ≡ Took.Failed)
        (S.state source.old) (S.state source.new) }
{
    let room = most.min(PIECE as u64) as usize;
    source.read(&mut buffer[..room])
}
