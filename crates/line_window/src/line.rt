//! The straight line through a rising list of keys: its guess of a key's place, and the window
//! around the guess.
//!
//! A line keeps four numbers of its list. They are enough for the window of any key, present or
//! not, to hold the number of keys below it.

ghost use Rattle.std.specs.Prelude.{◌≡◌, ℕ, ◌+◌, ◌<◌, ◌≤◌, List, length};
ghost use Rattle.std.specs.List.Sorted.{IsStrictlyIncreasing};
ghost use Rattle.line_window.specs.Line.{IsLine, line_with, guess_of, line_of, first_of, last_of, error_of, window_start, window_end};
ghost use Rattle.line_window.specs.Search.{HoldsCount};

use crate::keys::Keys;
use crate::scaling::scaled;
use std::marker::Model;

/// The line of a rising list of keys. It is made once, and then answers for any key without a read.
#[derive(Clone, Copy, Debug, PartialEq, Eq)]
pub struct Line {
    len: usize,
    first: u64,
    last: u64,
    error: usize,
}

impl Model for Line {
    ghost use Rattle.line_window.specs.Line.{Parts, IsLine, line_with};

    ghost Value = { Parts };

    ghost view = { λ l. line_with l.len l.first l.last l.error };

    ghost invariant = { λ l. IsLine (line_with l.len l.first l.last l.error) };

    ghost inverse = { λ p. record {
      len = p.len;
      first = p.first;
      last = p.last;
      error = p.error;
    } };
}

impl Line {
    /// The line of these keys. It reads each key once, and the first and the last once more.
    pub fn of<K: Keys>(keys: &mut K) -> Line
        requires rising { IsStrictlyIncreasing (K.list keys.old) }
        ensures line { result ≡ line_of (K.list keys.old) }

        // Reading changes neither the keys nor what their reader was made with.
        ensures list { K.list keys.new ≡ K.list keys.old }
        ensures origin { K.origin keys.new ≡ K.origin keys.old }
        ensures reads_kept { K.reads keys.old ≤ K.reads keys.new }
        ensures reads_raised { K.reads keys.new ≤ K.reads keys.old + length (K.list keys.old) + 2 }
        ensures leads { K.leads_to keys.old keys.new }
    {
        let len = keys.len();
        if len == 0 {
            return Line::from_parts(0, 0, 0, 0);
        }
        let first = keys.key(0);
        let last = keys.key(len - 1);
        let line = Line::from_parts(len, first, last, 0);
        let mut error = 0;
        for place in 0..len {
            let guess = line.guess(keys.key(place));
            error = error.max(guess.abs_diff(place));
        }
        Line::from_parts(len, first, last, error)
    }

    /// The line with these four numbers: how many keys there are, the first and the last of them, or
    /// 0 where there is none, and how far a key may be from its guess.
    pub fn from_parts(len: usize, first: u64, last: u64, error: usize) -> Line
        requires { IsLine (line_with len first last error) }
        ensures parts { result ≡ line_with len first last error }

        // It is the line of each list with these numbers.
        ensures line { (keys : List ℕ) → length keys ≡ len → first_of keys ≡ first →
            last_of keys ≡ last → error_of keys ≡ error → result ≡ line_of keys }
    {
        Line {
            len,
            first,
            last,
            error,
        }
    }

    /// The place where the line sees the key: below the number of keys, or 0 where there is none.
    #[inline]
    pub fn guess(&self, key: u64) -> usize
        ensures { result ≡ guess_of self.now key }
    {
        if self.len < 2 || key <= self.first {
            return 0;
        }
        if self.last <= key {
            return self.len - 1;
        }
        let distance = key - self.first;
        let span = self.last - self.first;
        let steps = self.len as u64 - 1;
        scaled(distance, span, steps) as usize
    }

    /// How far a key of the list may be from its guess.
    #[inline]
    pub fn error(&self) -> usize
        ensures { result ≡ self.now.error }
    {
        self.error
    }

    /// The least and the greatest number of keys that may be below the key.
    #[inline]
    pub fn window(&self, key: u64) -> (usize, usize)
        ensures start { result.0 ≡ window_start self.now key }
        ensures end { result.1 ≡ window_end self.now key }
        ensures holds { HoldsCount self.now key result.0 result.1 }
    {
        let guess = self.guess(key);
        let start = guess.saturating_sub(self.error);
        let end = if self.error < self.len - guess {
            guess + self.error + 1
        } else {
            self.len
        };
        (start, end)
    }
}
