//! The board: the table of words that all threads share, and the calls that step on it.
ghost use Rattle.std.specs.Prelude.{◌≡◌};
ghost use Rattle.word_layout.specs.Layout.{shape_of};
ghost use Rattle.index_rule.specs.Offsets.{offset_count, shift_of};

use crate::rule::Words;
use word_layout::Layout;

mod arrays;
mod buffers;
mod chain;
mod closing;
mod epochs;
mod free_stack;
mod looking;
mod offsets;
mod opening;
mod records;
mod root;
mod telling;

/// The shared words of one index. Each call that is given a hand is one atomic step, and keeps
/// the rule.
#[derive(Drop)]
pub struct Board {
    pub(crate) words: Words,
    pub(crate) layout: Layout,
    // How much further behind than its address a word stands in memory that is not hot.
    pub(crate) shift: usize,
    ghost laid: { words.shared.key.layout ≡ layout },
    ghost wide: { words.shared.table_id.words ≡ offset_count (shape_of layout) },
    ghost shifted: { shift ≡ shift_of (shape_of layout) },
    ghost slotless: { words.shared.table_id.slots ≡ 0 },
}
