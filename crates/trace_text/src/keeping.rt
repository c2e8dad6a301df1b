//! The lines of a trace in memory: what kind each is, and the numbers that it has.
//!
//! A line takes a byte, and four for each of its numbers, or eight where one of them has more than 32 bits. So no text has
//! lines that take much more than it.
ghost use Rattle.std.specs.Prelude.{◌≡◌, ◌<◌, ◌^◌, [], ◌∷◌, ◌++◌, MatchOption, OnOk, OnErr, IfOk, length};
ghost use Rattle.std.specs.List.{filter};
ghost use Rattle.wire_commands.specs.declared.request.Request.TheVariants.{Get, Put, Remove};
ghost use Rattle.trace_text.specs.declared.lines.Line.TheVariants.{Call};
ghost use Rattle.trace_text.specs.Kept.{AreKept, lines_of};
ghost use Rattle.trace_text.specs.Lines.{IsLine};
ghost use Rattle.trace_text.specs.Traces.{is_told};

use crate::halves::{halves, whole};
use crate::lines::Line;
use std::alloc::{AllocError, Global};
use std::marker::Model;
use wire_commands::Request;

/// What a line is, without its numbers. Where it is wide, each of them is in two words.
#[derive(Clone, Copy, Debug, PartialEq, Eq)]
enum Kind {
    /// A phase ends, and the next one begins.
    Phase,
    /// The calls of a caller follow. It has the caller's number.
    Caller,
    /// It has a key.
    Get,
    WideGet,
    /// It has a key and a value.
    Put,
    WidePut,
    /// It has a key.
    Remove,
    WideRemove,
}

/// The lines of a trace. Those that are skipped are left out.
///
/// Contracts see the list of them.
#[derive(Drop)]
pub struct Trace {
    kinds: Vec<Kind>,
    words: Vec<u32>,
}

impl Model for Trace {
    ghost use Rattle.std.specs.Prelude.{List};
    ghost use Rattle.trace_text.specs.declared.lines.Line.{Line};
    ghost use Rattle.trace_text.specs.Kept.{AreKept, lines_of};

    ghost Value = { List Line };

    ghost view = { λ t. lines_of t.kinds.items t.words.items };

    ghost invariant = { λ t. AreKept t.kinds.items t.words.items };
}

impl Trace {
    /// A trace without lines.
    pub fn new(alloc: Global) -> Trace
        ensures { result ≡ [] }
    {
        Trace {
            kinds: Vec::new(alloc),
            words: Vec::new(alloc),
        }
    }

    /// A trace without lines, and with room for so many lines, and words of their numbers.
    pub(crate) fn with_room(alloc: Global, lines: usize, words: usize) -> Result<Trace, AllocError>
        ensures { IfOk result (λ trace. trace ≡ []) }
    {
        Ok(Trace {
            kinds: Vec::with_capacity(alloc, lines)?,
            words: Vec::with_capacity(alloc, words)?,
        })
    }

    /// Appends what a line says, where it says anything. The error is want of memory.
    pub fn push(&mut self, line: Line) -> Result<(), AllocError>
        requires { IsLine line }
        ensures ok { OnOk result (self.new ≡ self.old ++ filter is_told (line ∷ [])) }
        ensures err { OnErr result (self.new ≡ self.old) }
    {
        match line {
            Line::Skip => Ok(()),
            Line::Phase => self.keep(Kind::Phase, &[]),
            Line::Caller(caller) => self.keep(Kind::Caller, &[caller]),
            Line::Call(request) => match request {
                Request::Get { key } => match halves(key) {
                    (0, key) => self.keep(Kind::Get, &[key]),
                    (high, low) => self.keep(Kind::WideGet, &[high, low]),
                },
                Request::Put { key, value } => match (halves(key), halves(value)) {
                    ((0, key), (0, value)) => self.keep(Kind::Put, &[key, value]),
                    ((high, low), (above, below)) => {
                        self.keep(Kind::WidePut, &[high, low, above, below])
                    }
                },
                Request::Remove { key } => match halves(key) {
                    (0, key) => self.keep(Kind::Remove, &[key]),
                    (high, low) => self.keep(Kind::WideRemove, &[high, low]),
                },
                Request::Quit | Request::Bad(_) => unreachable!(),
            },
        }
    }

    /// Appends a line of this kind, with the words of its numbers.
    fn keep(&mut self, kind: Kind, words: &[u32]) -> Result<(), AllocError>
        requires { AreKept (kind ∷ []) words.now }
        ensures ok { OnOk result (self.new ≡ self.old ++ lines_of (kind ∷ []) words.now) }
        ensures err { OnErr result (self.new ≡ self.old) }
    {
        self.kinds.reserve(1)?;
        self.words.extend_from_slice(words)?;
        // The room was reserved above.
        self.kinds.push(kind).unwrap();
        Ok(())
    }

    /// A cursor before the first line.
    pub fn cursor(&self) -> Cursor<'_>
        ensures lines { result ≡ self.now }
        ensures few { length self.now < 2 ^ 63 }
    {
        Cursor {
            kinds: &self.kinds,
            words: &self.words,
        }
    }
}

/// A place in a trace, from which its lines are read on. Contracts see the list of the lines that are left.
#[derive(Drop)]
pub struct Cursor<'a> {
    kinds: &'a [Kind],
    words: &'a [u32],
}

impl<'a> Model for Cursor<'a> {
    ghost use Rattle.std.specs.Prelude.{List};
    ghost use Rattle.trace_text.specs.declared.lines.Line.{Line};
    ghost use Rattle.trace_text.specs.Kept.{AreKept, lines_of};

    ghost Value = { List Line };

    ghost view = { λ c. lines_of c.kinds.now c.words.now };

    ghost invariant = { λ c. AreKept c.kinds.now c.words.now };
}

impl<'a> Cursor<'a> {
    /// The next line, or `None` where none is left.
    pub fn next_line(&mut self) -> Option<Line>
        ensures { MatchOption result ((self.old ≡ []) × (self.new ≡ []))
            (λ line. self.old ≡ line ∷ self.new) }
    {
        let [kind, kinds @ ..] = self.kinds else {
            return None;
        };
        let (line, words) = match (kind, self.words) {
            (Kind::Phase, words) => (Line::Phase, words),
            (Kind::Caller, [caller, words @ ..]) => (Line::Caller(*caller), words),
            (Kind::Get, [key, words @ ..]) => (get(u64::from(*key)), words),
            (Kind::WideGet, [high, low, words @ ..]) => (get(whole(*high, *low)), words),
            (Kind::Put, [key, value, words @ ..]) => {
                (put(u64::from(*key), u64::from(*value)), words)
            }
            (Kind::WidePut, [high, low, above, below, words @ ..]) => {
                (put(whole(*high, *low), whole(*above, *below)), words)
            }
            (Kind::Remove, [key, words @ ..]) => (remove(u64::from(*key)), words),
            (Kind::WideRemove, [high, low, words @ ..]) => (remove(whole(*high, *low)), words),
            _ => unreachable!(),
        };
        self.kinds = kinds;
        self.words = words;
        Some(line)
    }

    /// A second cursor at the same place.
    pub fn again(&self) -> Cursor<'a>
        ensures lines { result ≡ self.now }
        ensures few { length self.now < 2 ^ 63 }
    {
        Cursor {
            kinds: self.kinds,
            words: self.words,
        }
    }
}

// The line of a get.
fn get(key: u64) -> Line
    ensures { result ≡ Call (Get key) }
{
    Line::Call(Request::Get { key })
}

// The line of a put.
fn put(key: u64, value: u64) -> Line
    ensures { result ≡ Call (Put key value) }
{
    Line::Call(Request::Put { key, value })
}

// The line of a removal.
fn remove(key: u64) -> Line
    ensures { result ≡ Call (Remove key) }
{
    Line::Call(Request::Remove { key })
}
