//! A caller that stays inside one read section over several calls.
ghost use Rattle.std.specs.Prelude.{◌≡◌};
ghost use Rattle.map_model.specs.declared.calls.Call.TheVariants as call;
ghost use Rattle.index_rule.specs.Notes.{known_of};
ghost use Rattle.xindex_core.specs.Held.{EntersHeld, HeedsHeld, IsHeldOf, LeavesHeld, StaysHeld};
ghost use Rattle.xindex_core.specs.HeldTries.{TriesHeld};
ghost use Rattle.xindex_core.specs.Passes.{IsNoteOf, IsPassOf, known_to, number_of, probes_of};

use crate::index::Index;
use crate::pass::Pass;
use index_rule::Note;
use point_calls::{get, put, remove};
use reader_epochs::{enter, leave};
use tried_calls::Tried;

/// The right of one caller to make calls on one index within one read section, until it is freed.
///
/// Meanwhile each barrier of a keeper waits for this caller. Whoever drops it makes them wait for ever.
#[derive(Drop)]
pub struct Held {
    pub(crate) pass: Pass,
}

impl Pass {
    /// The caller enters, and is inside until it is freed.
    #[inline]
    pub fn hold(self, index: &Index) -> Held
        requires { IsPassOf index.now self }
        ensures { EntersHeld index.now self result }
    {
        let mut pass = self;
        enter(&index.board, &mut pass.hand);
        Held { pass }
    }
}

impl Held {
    /// The caller leaves.
    #[inline]
    pub fn free(self, index: &Index) -> Pass
        requires { IsHeldOf index.now self }
        ensures { LeavesHeld index.now self result }
    {
        let Held { mut pass } = self;
        leave(&index.board, &mut pass.hand);
        pass
    }

    /// The caller's number.
    #[inline]
    pub fn number(&self) -> u32
        ensures { result ≡ number_of self.now.pass }
    {
        self.pass.hand.number()
    }

    /// How many keys the calls of this caller have compared as they halved the window of a line. The count stands at
    /// `u64::MAX`.
    #[inline]
    pub fn probes(&self) -> u64
        ensures { result ≡ probes_of self.now.pass }
    {
        self.pass.probes.count()
    }

    /// The value of the key, or `None`, tried once, as by [`Pass::try_get`].
    pub fn try_get(&mut self, index: &Index, key: u64) -> Tried<Option<u64>>
        requires { IsHeldOf index.now self.old }
        ensures held { IsHeldOf index.now self.new }
        ensures tries { TriesHeld index.now self.old (call.Get key) result self.new }
    {
        get(
            &index.board,
            &mut self.pass.hand,
            key,
            &mut self.pass.probes,
        )
    }

    /// Gives the key the value, tried once, and answers the one that it had, or `None`, as by [`Pass::try_put`].
    pub fn try_put(&mut self, index: &Index, key: u64, value: u64) -> Tried<Option<u64>>
        requires { IsHeldOf index.now self.old }
        ensures held { IsHeldOf index.now self.new }
        ensures tries { TriesHeld index.now self.old (call.Put key value) result self.new }
    {
        put(
            &index.board,
            &mut self.pass.hand,
            &mut self.pass.spare,
            key,
            value,
            &mut self.pass.probes,
        )
    }

    /// Removes the key, tried once, and answers the value that it had, or `None`, as by [`Pass::try_remove`].
    pub fn try_remove(&mut self, index: &Index, key: u64) -> Tried<Option<u64>>
        requires { IsHeldOf index.now self.old }
        ensures held { IsHeldOf index.now self.new }
        ensures tries { TriesHeld index.now self.old (call.Remove key) result self.new }
    {
        remove(
            &index.board,
            &mut self.pass.hand,
            key,
            &mut self.pass.probes,
        )
    }

    /// A note of what the caller knows, for any other caller of the index. This one stays as it is.
    #[inline]
    pub fn tell(&mut self, index: &Index) -> Note
        requires { IsHeldOf index.now self.old }
        ensures held { StaysHeld index.now self.old self.new }
        ensures note { IsNoteOf index.now result }
        ensures known { known_of result ≡ known_to self.old.pass }
    {
        index.board.tell(&mut self.pass.hand)
    }

    /// From then on the caller knows the longer of what it and the note knew.
    #[inline]
    pub fn heed(&mut self, index: &Index, note: Note)
        requires held { IsHeldOf index.now self.old }
        requires note { IsNoteOf index.now note }
        ensures { HeedsHeld index.now self.old (known_of note) self.new }
    {
        index.board.heed(&mut self.pass.hand, note);
    }
}
