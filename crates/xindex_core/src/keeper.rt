//! The keepers of an index: one for each part of its keys.
ghost use Rattle.std.specs.Prelude.{◌≡◌};
ghost use Rattle.index_rule.specs.Notes.{known_of};
ghost use Rattle.xindex_core.specs.Notes.{KeeperHeedsNews, KeeperStaysAs};
ghost use Rattle.xindex_core.specs.Passes.{IsKeeperOf, IsNoteOf, known_to_keeper, part_kept_by};

use crate::index::Index;
use index_rule::{Hand, Note};

/// The one who may rebuild a part of the index. It makes no turns.
#[derive(Drop)]
pub struct Keeper {
    pub(crate) hand: Hand,
    pub(crate) part: u32,
}

impl Keeper {
    /// The part that is its own, from 0 by rising keys.
    #[inline]
    pub fn part(&self) -> u32
        ensures { result ≡ part_kept_by self.now }
    {
        self.part
    }

    /// A note of what the keeper knows, for any pass or other keeper of the index. The keeper stays as it is.
    #[inline]
    pub fn tell(&mut self, index: &Index) -> Note
        requires { IsKeeperOf index.now self.old }
        ensures keeper { KeeperStaysAs index.now self.old self.new }
        ensures note { IsNoteOf index.now result }
        ensures known { known_of result ≡ known_to_keeper self.old }
    {
        index.board.tell(&mut self.hand)
    }

    /// From then on the keeper knows the longer of what it and the note knew.
    #[inline]
    pub fn heed(&mut self, index: &Index, note: Note)
        requires keeper { IsKeeperOf index.now self.old }
        requires note { IsNoteOf index.now note }
        ensures { KeeperHeedsNews index.now self.old (known_of note) self.new }
    {
        index.board.heed(&mut self.hand, note);
    }
}
