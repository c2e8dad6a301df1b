//! Where the word of a step stands in memory.
//!
//! The kind of a call says whether its word is hot, so no call tests an address for that.
ghost use Rattle.std.specs.Prelude.{◌≡◌, ◌<◌, ◌≤◌};
ghost use Rattle.word_layout.specs.Layout.{limits_of, shape_of};
ghost use Rattle.word_layout.specs.Shape.{parts_in};
ghost use Rattle.word_layout.specs.Words.{Epoch, FreeHead, Root};
ghost use Rattle.index_rule.specs.Offsets.{cold_from, offset_of, offset_of_word};

use crate::board::Board;
use crate::memory::hot_offset;

impl Board {
    // The head of the free stack.
    #[inline]
    pub(crate) fn free_head_offset(&self) -> usize
        ensures { result ≡ offset_of_word (shape_of self.now.layout) FreeHead }
    {
        hot_offset(self.layout.free_head())
    }

    // The root word of a part.
    #[inline]
    pub(crate) fn root_offset(&self, part: u32) -> usize
        requires { part < parts_in (shape_of self.now.layout) }
        ensures { result ≡ offset_of_word (shape_of self.now.layout) (Root part) }
    {
        hot_offset(self.layout.root(part))
    }

    // The epoch word of a caller.
    #[inline]
    pub(crate) fn epoch_offset(&self, caller: u32) -> usize
        requires { caller < (limits_of self.now.layout).callers }
        ensures { result ≡ offset_of_word (shape_of self.now.layout) (Epoch caller) }
    {
        hot_offset(self.layout.epoch(caller))
    }

    // The word at an address behind those of the hot words.
    #[inline]
    pub(crate) fn cold_offset(&self, address: u32) -> usize
        requires { cold_from (shape_of self.now.layout) ≤ address }
        ensures { result ≡ offset_of (shape_of self.now.layout) address }
    {
        address as usize + self.shift
    }
}
