//! The replies to a caller's calls in memory: what kind each is, and the values that they tell.
//!
//! A reply takes two bytes, and where it tells a value four more, or eight for one of more than 32 bits. All of that is
//! taken before the first reply.
ghost use Rattle.std.specs.Prelude.{◌≡◌, ◌<◌, ◌≤◌, [], ◌∷◌, ◌++◌, IfOk, MatchOption, OnOk, length};
ghost use Rattle.std.specs.List.{flat_map};
ghost use Rattle.wire_commands.specs.Replies.{line_of};
ghost use Rattle.trace_text.specs.KeptReplies.{HaveTheirWords, replies_of};

use crate::appending::append_reply;
use crate::halves::{halves, whole};
use std::alloc::{AllocError, Global};
use std::marker::Model;
use wire_commands::{Reason, Reply};

/// What a reply is, without its value. A wide one has it in two words.
#[derive(Clone, Copy, Debug, PartialEq, Eq)]
enum Kind {
    /// It has the value of a key.
    Value,
    WideValue,
    /// The key has no value.
    NoValue,
    /// The key is new in the map.
    New,
    /// It has the value that the key had until then.
    Old,
    WideOld,
    /// There is no room for a new key.
    Full,
    /// The version of the key's record is exhausted.
    Worn,
    /// The session ends.
    Bye,
    /// The line asked for nothing that can be done.
    Bad(Reason),
}

/// Replies, and room for so many in all.
///
/// Contracts see the list of them, and the room.
#[derive(Drop)]
pub struct Replies {
    kinds: Vec<Kind>,
    words: Vec<u32>,
    room: usize,
}

impl Model for Replies {
    ghost use Rattle.std.specs.Prelude.{◌≤◌, ◌*◌, vec_capacity};
    ghost use Rattle.trace_text.specs.KeptReplies.{HaveTheirWords, Kept, replies_of};

    ghost Value = { Kept };

    ghost view = { λ r. record { replies = replies_of r.kinds.items r.words.items; room = r.room } };

    ghost invariant = { λ r. record {
      kept : HaveTheirWords r.kinds.items r.words.items;
      for_kinds : r.room ≤ vec_capacity r.kinds;
      for_words : r.room * 2 ≤ vec_capacity r.words;
    } };
}

impl Replies {
    /// No replies, and room for so many.
    pub fn with_room(alloc: Global, room: usize) -> Result<Replies, AllocError>
        ensures { IfOk result (λ replies. replies ≡ record { replies = []; room = room }) }
    {
        // Each may tell a value of two words.
        let Some(words) = room.checked_mul(2) else {
            return Err(AllocError);
        };
        Ok(Replies {
            kinds: Vec::with_capacity(alloc, room)?,
            words: Vec::with_capacity(alloc, words)?,
            room,
        })
    }

    /// How many replies there are.
    pub fn len(&self) -> usize
        ensures { result ≡ length self.now.replies }
    {
        self.kinds.len()
    }

    /// Appends a reply.
    pub fn push(&mut self, reply: Reply)
        requires { length self.old.replies < self.old.room }
        ensures replies { self.new.replies ≡ self.old.replies ++ reply ∷ [] }
        ensures room { self.new.room ≡ self.old.room }
    {
        match reply {
            Reply::Value(value) => match halves(value) {
                (0, value) => self.keep(Kind::Value, &[value]),
                (high, low) => self.keep(Kind::WideValue, &[high, low]),
            },
            Reply::NoValue => self.keep(Kind::NoValue, &[]),
            Reply::New => self.keep(Kind::New, &[]),
            Reply::Old(value) => match halves(value) {
                (0, value) => self.keep(Kind::Old, &[value]),
                (high, low) => self.keep(Kind::WideOld, &[high, low]),
            },
            Reply::Full => self.keep(Kind::Full, &[]),
            Reply::Worn => self.keep(Kind::Worn, &[]),
            Reply::Bye => self.keep(Kind::Bye, &[]),
            Reply::Bad(reason) => self.keep(Kind::Bad(reason), &[]),
        }
    }

    // Appends a reply of this kind, with the words of its value where it has one.
    fn keep(&mut self, kind: Kind, words: &[u32])
        requires kept { HaveTheirWords (kind ∷ []) words.now }
        requires room { length self.old.replies < self.old.room }
        ensures replies { self.new.replies
            ≡ self.old.replies ++ replies_of (kind ∷ []) words.now }
        ensures room { self.new.room ≡ self.old.room }
    {
        // The room was taken when the replies were made.
        self.kinds.push(kind).unwrap();
        self.words.extend_from_slice(words).unwrap();
    }

    /// Appends the lines of the replies to a text.
    pub(crate) fn append_to(&self, text: &mut Vec<u8>) -> Result<(), AllocError>
        ensures { OnOk result (text.new.items
            ≡ text.old.items ++ flat_map line_of self.now.replies) }
    {
        let mut left = Left {
            kinds: &self.kinds,
            words: &self.words,
        };
        while let Some(reply) = left.next_reply() {
            append_reply(text, reply)?;
        }
        Ok(())
    }
}

/// A place in replies, from which they are read on. Contracts see the list of those that are left.
#[derive(Drop)]
struct Left<'a> {
    kinds: &'a [Kind],
    words: &'a [u32],
}

impl<'a> Model for Left<'a> {
    ghost use Rattle.std.specs.Prelude.{List};
    ghost use Rattle.wire_commands.specs.declared.reply.Reply.{Reply};
    ghost use Rattle.trace_text.specs.KeptReplies.{HaveTheirWords, replies_of};

    ghost Value = { List Reply };

    ghost view = { λ l. replies_of l.kinds.now l.words.now };

    ghost invariant = { λ l. HaveTheirWords l.kinds.now l.words.now };
}

impl<'a> Left<'a> {
    // The next reply, or `None` where none is left.
    fn next_reply(&mut self) -> Option<Reply>
        ensures { MatchOption result (self.old ≡ []) (λ reply. self.old ≡ reply ∷ self.new) }
    {
        let [kind, kinds @ ..] = self.kinds else {
            return None;
        };
        let (reply, words) = match (kind, self.words) {
            (Kind::Value, [value, words @ ..]) => (Reply::Value(u64::from(*value)), words),
            (Kind::WideValue, [high, low, words @ ..]) => {
                (Reply::Value(whole(*high, *low)), words)
            }
            (Kind::NoValue, words) => (Reply::NoValue, words),
            (Kind::New, words) => (Reply::New, words),
            (Kind::Old, [value, words @ ..]) => (Reply::Old(u64::from(*value)), words),
            (Kind::WideOld, [high, low, words @ ..]) => (Reply::Old(whole(*high, *low)), words),
            (Kind::Full, words) => (Reply::Full, words),
            (Kind::Worn, words) => (Reply::Worn, words),
            (Kind::Bye, words) => (Reply::Bye, words),
            (Kind::Bad(reason), words) => (Reply::Bad(*reason), words),
            _ => unreachable!(),
        };
        self.kinds = kinds;
        self.words = words;
        Some(reply)
    }
}
