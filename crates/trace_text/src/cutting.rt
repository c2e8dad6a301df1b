//! How a text is cut into its lines, one after another.
ghost use Rattle.std.specs.Prelude.{◌≡◌, ◌<◌, [], MatchOption, length};
ghost use Rattle.trace_text.specs.TextLines.{CutsLine, TakesLine};

use std::marker::Model;
use wire_commands::line_len;

/// A place in a text behind some of its lines. Contracts see what is left, and how many lines those were.
#[derive(Drop)]
pub(crate) struct TextLines<'a> {
    rest: &'a [u8],
    number: u64,
}

impl<'a> Model for TextLines<'a> {
    ghost use Rattle.std.specs.Prelude.{ℕ, ◌+◌, ◌^◌, ◌<◌, length};
    ghost use Rattle.trace_text.specs.TextLines.{Left};

    ghost Value = { Left };

    ghost view = { λ t. record { rest = t.rest.now; number = t.number } };

    // No line is without a byte, so that they can be counted.
    ghost invariant = { λ t. t.number + length t.rest.now < 2 ^ 63 };
}

impl<'a> TextLines<'a> {
    /// The place before the first line.
    pub(crate) fn of(text: &'a [u8]) -> TextLines<'a>
        ensures { result ≡ record { rest = text.now; number = 0 } }
    {
        TextLines {
            rest: text,
            number: 0,
        }
    }

    /// The next line, without its newline, or `None` where none is left.
    pub(crate) fn next_line(&mut self) -> Option<&'a [u8]>
        ensures { MatchOption result (self.old.rest ≡ [])
            (λ line. TakesLine self.old line.now self.new) }
    {
        if self.rest.is_empty() {
            return None;
        }
        let (line, rest) = first_line(self.rest);
        self.rest = rest;
        self.number += 1;
        Some(line)
    }

    /// How many lines stand before this place.
    pub(crate) fn number(&self) -> u64
        ensures { result ≡ self.now.number }
    {
        self.number
    }
}

/// The first line of a text, without its newline, and what follows it.
fn first_line(text: &[u8]) -> (&[u8], &[u8])
    requires { 0 < length text.now }
    ensures cuts { CutsLine text.now result.0.now result.1.now }
    ensures shorter { length result.1.now < length text.now }
{
    let (line, rest) = text.split_at(line_len(text));
    match rest {
        [_, more @ ..] => (line, more),
        _ => (line, rest),
    }
}
