//! Reply lines.
//!
//! The longest has one number, of at most 20 digits. So 80 bytes are room for any of them.
ghost use Rattle.std.specs.Prelude.{◌≡◌, ◌+◌, ◌<◌, ◌≤◌, ◌++◌, take, drop, length, codes, decimal};
ghost use Rattle.wire_commands.specs.Replies.{line_of, Writes};

use crate::request::{Reason, Value};

/// What a request is answered with.
#[derive(Clone, Copy, Debug, PartialEq, Eq)]
pub enum Reply {
    /// The value at the key that was asked for.
    Value(Value),
    /// The key has no value.
    NoValue,
    /// The key is new in the map.
    New,
    /// The value that the key had until now.
    Old(Value),
    /// There is no room for a new key.
    Full,
    /// The version of the key's record is exhausted.
    Worn,
    /// The session ends.
    Bye,
    /// The line asked for nothing that can be done.
    Bad(Reason),
}

impl Reply {
    /// Writes the reply's line, with its newline, at the front, and tells its length in bytes.
    #[inline]
    pub fn write(&self, into: &mut [u8; 80]) -> usize
        ensures line { take result into.new ≡ line_of self.now }
        ensures within { result ≤ 80 }
        ensures some { 0 < result }
        // What lies past the line stays as it was.
        ensures rest { drop result into.new ≡ drop result into.old }
    {
        match *self {
            Reply::Value(value) => write_number(b"value ", value, into),
            Reply::NoValue => write_text(b"none\n", into),
            Reply::New => write_text(b"new\n", into),
            Reply::Old(value) => write_number(b"old ", value, into),
            Reply::Full => write_text(b"full\n", into),
            Reply::Worn => write_text(b"worn\n", into),
            Reply::Bye => write_text(b"bye\n", into),
            Reply::Bad(reason) => write_text(bad_line(reason), into),
        }
    }
}

/// The whole line of a refusal.
fn bad_line(reason: Reason) -> &'static [u8]
    ensures { result.now ≡ line_of (Reply.Bad reason) }
{
    match reason {
        Reason::Long => b"bad long\n",
        Reason::Empty => b"bad empty\n",
        Reason::Word => b"bad word\n",
        Reason::Count => b"bad count\n",
        Reason::Number => b"bad number\n",
        Reason::Range => b"bad range\n",
    }
}

/// Writes a text at the front, and tells its length.
#[inline]
fn write_text(text: &[u8], into: &mut [u8; 80]) -> usize
    requires { length text.now ≤ 80 }
    ensures { Writes into.old into.new text.now result }
{
    append(text, into, 0)
}

/// Writes a word, a number in decimal digits and a newline at the front, and tells their length in
/// bytes. What lies past them stays as it was.
#[inline]
pub fn write_number(word: &[u8], number: u64, into: &mut [u8; 80]) -> usize
    requires { length word.now ≤ 39 }
    ensures line { Writes into.old into.new (word.now ++ decimal number ++ codes "\n") result }
    ensures within { result ≤ 80 }
{
    // A formatted number has at most 40 bytes, which with the word and the newline are 80.
    let mut digits = itoa::Buffer::new();
    let end = append(word, into, 0);
    let end = append(digits.format(number).as_bytes(), into, end);
    append(b"\n", into, end)
}

/// Writes a text from a place on, and tells where it ends.
#[inline]
fn append(text: &[u8], into: &mut [u8; 80], start: usize) -> usize
    requires { start + length text.now ≤ 80 }
    ensures end { result ≡ start + length text.now }
    ensures front { take result into.new ≡ take start into.old ++ text.now }
    ensures rest { drop result into.new ≡ drop result into.old }
{
    let end = start + text.len();
    into[start..end].copy_from_slice(text);
    end
}
