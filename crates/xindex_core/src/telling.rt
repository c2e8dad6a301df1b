//! Passes tell each other, and keepers, what they know.
ghost use Rattle.std.specs.Prelude.{◌≡◌};
ghost use Rattle.index_rule.specs.Notes.{known_of};
ghost use Rattle.xindex_core.specs.Notes.{HeedsNews, StaysAs};
ghost use Rattle.xindex_core.specs.Passes.{IsNoteOf, IsPassOf, known_to};

use crate::index::Index;
use crate::pass::Pass;
use index_rule::Note;

impl Pass {
    /// A note of what the pass knows, for any other pass or keeper of the index. The pass stays as it is.
    #[inline]
    pub fn tell(&mut self, index: &Index) -> Note
        requires { IsPassOf index.now self.old }
        ensures pass { StaysAs index.now self.old self.new }
        ensures note { IsNoteOf index.now result }
        ensures known { known_of result ≡ known_to self.old }
    {
        index.board.tell(&mut self.hand)
    }

    /// From then on the pass knows the longer of what it and the note knew.
    #[inline]
    pub fn heed(&mut self, index: &Index, note: Note)
        requires pass { IsPassOf index.now self.old }
        requires note { IsNoteOf index.now note }
        ensures { HeedsNews index.now self.old (known_of note) self.new }
    {
        index.board.heed(&mut self.hand, note);
    }
}
