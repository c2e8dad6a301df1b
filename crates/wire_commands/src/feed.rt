//! Requests from bytes that come one by one, or some at a time.
//!
//! A line may have any length, and at most 82 bytes of it are kept: once so many have come, no
//! further byte changes what the line reads as. A line that comes whole is read where it stands.
ghost use Rattle.std.specs.Prelude.{◌≡◌, ℕ, List, [], ◌++◌, take, MatchOption};
ghost use Rattle.wire_commands.specs.Grammar.{Reads};
ghost use Rattle.wire_commands.specs.Feed.{TakesByte, TakesEnd, ReadsFor, StandsFor, EndsLine};
ghost use Rattle.wire_commands.specs.Feed.{Lengthens, room};

use crate::reading::read_line;
use crate::request::Request;
use crate::words::line_len;
use std::marker::Model;

/// How many bytes of a line are kept: the most that it may have, a carriage return, and one that
/// makes it too long.
const ROOM: usize = 82;

/// What has come of a line. Contracts see the bytes that are kept of it.
#[derive(Debug, Drop)]
pub struct Feed {
    kept: [u8; ROOM],
    len: usize,
}

impl Model for Feed {
    ghost use Rattle.std.specs.Prelude.{ℕ, ◌≤◌, List, take};
    ghost use Rattle.wire_commands.specs.Feed.{room};

    ghost Value = { List ℕ };

    ghost view = { λ feed. take feed.len feed.kept };

    ghost invariant = { λ feed. feed.len ≤ room };
}

impl Feed {
    /// A feed to which nothing has come.
    pub fn new() -> Self
        ensures { result ≡ [] }
    {
        Feed {
            kept: [0; ROOM],
            len: 0,
        }
    }

    /// Takes the next byte, and gives the request of the line that it ends.
    #[inline]
    pub fn byte(&mut self, byte: u8) -> Option<Request>
        ensures { TakesByte self.old byte result self.new }
    {
        if byte == b'\n' {
            return Some(self.finish());
        }
        // A byte beyond the room is let go: the line is too long with it or without it.
        if self.len < ROOM {
            self.kept[self.len] = byte;
            self.len += 1;
        }
        None
    }

    /// Takes bytes up to the first newline, and gives the request of the line that it ends, and the bytes behind it.
    /// Where there is no newline, it takes all of them.
    #[inline]
    pub fn line<'a>(&mut self, bytes: &'a [u8]) -> Option<(Request, &'a [u8])>
        ensures { MatchOption result (Lengthens self.old bytes.now self.new)
            (λ cut. EndsLine self.old bytes.now cut.0 cut.1.now × (self.new ≡ [])) }
    {
        let (front, rest) = bytes.split_at(line_len(bytes));
        match rest {
            [_, more @ ..] => Some((self.finish_with(front), more)),
            [] => {
                self.keep(front);
                None
            }
        }
    }

    /// Reads the line that these bytes end, and begins a new one.
    fn finish_with(&mut self, front: &[u8]) -> Request
        ensures reads { (line : List ℕ) → StandsFor self.old line
            → Reads (line ++ front.now) result }
        ensures begins { self.new ≡ [] }
    {
        if self.len > 0 {
            self.keep(front);
            return self.finish();
        }
        read_line(front)
    }

    /// Keeps these bytes, as many as there is room for.
    fn keep(&mut self, bytes: &[u8])
        ensures { self.new ≡ take room (self.old ++ bytes.now) }
    {
        let count = bytes.len().min(ROOM - self.len);
        self.kept[self.len..self.len + count].copy_from_slice(&bytes[..count]);
        self.len += count;
    }

    /// Takes the end of the input, and gives the request of a last line without newline, if a byte
    /// of it has come. The feed is then as new.
    pub fn end(&mut self) -> Option<Request>
        ensures { TakesEnd self.old result self.new }
    {
        if self.len == 0 {
            return None;
        }
        Some(self.finish())
    }

    /// Reads the line, and begins a new one.
    fn finish(&mut self) -> Request
        ensures reads { ReadsFor self.old result }
        ensures begins { self.new ≡ [] }
    {
        let request = read_line(&self.kept[..self.len]);
        self.len = 0;
        request
    }
}

impl Default for Feed {
    ghost is_default = { λ feed. feed ≡ [] };

    fn default() -> Self {
        Feed::new()
    }
}
