//! Where the words of the table stand in memory.
//!
//! Addresses number the words without gaps. Every call loads or stores some of the hot words: the head of
//! the free stack, the root words and the epochs. On one line of the cache a store to one of them would take
//! all of them from the other threads, so each hot word stands 128 bytes from every other word.
ghost use Rattle.std.specs.Prelude.{◌≡◌, ◌*◌, IfOk, length};
ghost use Rattle.word_layout.specs.Layout.{shape_of};
ghost use Rattle.word_layout.specs.Limits.{word_count};
ghost use Rattle.index_rule.specs.Offsets.{LieApart, Spreads, cold_from, offset_of, shift_of};

use std::alloc::{AllocError, Global};
use word_layout::Layout;

/// How many words from the front of the memory the word at an address stands.
#[inline]
pub fn offset_of(layout: &Layout, address: u32) -> usize
    ensures offset { result ≡ offset_of (shape_of layout.now) address }
    ensures apart { LieApart (shape_of layout.now) }
{
    if address < cold_from(layout) {
        hot_offset(address)
    } else {
        address as usize + shift_of(layout)
    }
}

// A line of the cache has 64 or 128 bytes, and some processors fetch two lines of 64 at once: 16 words.
#[inline]
pub(crate) fn hot_offset(address: u32) -> usize
    ensures { result ≡ 16 * address }
{
    16 * address as usize
}

// How much further behind than its address a word stands that is not hot.
pub(crate) fn shift_of(layout: &Layout) -> usize
    ensures { result ≡ shift_of (shape_of layout.now) }
{
    15 * cold_from(layout) as usize
}

// The hot words are those before the sides of the roots.
#[inline]
fn cold_from(layout: &Layout) -> u32
    ensures { result ≡ cold_from (shape_of layout.now) }
{
    layout.slot(0, 0, 0)
}

/// The memory of a table with these words, each at its offset. The gaps are 0, and nobody reads them.
pub(crate) fn spread(
    alloc: Global,
    layout: &Layout,
    words: Vec<u64>,
) -> Result<Vec<u64>, AllocError>
    requires { length words.items ≡ word_count (shape_of layout.now) }
    ensures { IfOk result (λ memory. Spreads (shape_of layout.now) words.items memory.items) }
{
    let count = layout.words() as usize + shift_of(layout);
    let mut memory = vec![in alloc; 0u64; count]?;
    for address in 0..layout.words() {
        memory[offset_of(layout, address)] = words[address as usize];
    }
    Ok(memory)
}
