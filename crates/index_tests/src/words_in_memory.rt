//! Where words stand in memory, which the contract of no call tells.
ghost use Rattle.std.specs.Prelude.{◌≡◌};
ghost use Rattle.word_layout.specs.Layout.{limits_of};

use crate::boards::SMALL;
use index_rule::offset_of;
use std::process::Abort;
use word_layout::{Layout, Limits, Parts};

// The most words that a processor takes from another one at once: 128 bytes.
const LINE: usize = 16;

// The layout of a small table for so many callers, with these parts.
fn layout_for(rt: &impl Abort, callers: u32, parts: Parts) -> Layout
    ensures { (limits_of result).callers ≡ callers }
{
    let limits = Limits { callers, ..SMALL };
    let Ok(layout) = limits.layout_in(parts) else {
        panic!(rt; "the limits are kept");
    };
    layout
}

// Asserts that the word at the address is on no line with another word of the table.
fn assert_alone(rt: &impl Abort, layout: &Layout, address: u32) {
    let offset = offset_of(layout, address);
    for other in 0..layout.words() {
        let apart = offset_of(layout, other).abs_diff(offset);
        assert!(rt; other == address || LINE <= apart, "{address} and {other}");
    }
}

#[test]
fn no_other_word_is_on_the_line_of_a_hot_one(rt: HostRuntime) {
    for (callers, parts) in [
        (1, Parts::whole()),
        (4, Parts::even(2)),
        (64, Parts::even(16)),
    ] {
        let layout = layout_for(&rt, callers, parts);
        assert_alone(&rt, &layout, layout.free_head());
        for part in 0..layout.parts().count() {
            assert_alone(&rt, &layout, layout.root(part));
        }
        for caller in 0..callers {
            assert_alone(&rt, &layout, layout.epoch(caller));
        }
    }
}

#[test]
fn all_other_words_follow_without_gaps(rt: HostRuntime) {
    let layout = layout_for(&rt, 4, Parts::whole());
    let offsets = [0, 16, 32, 48, 64, 80, 96, 97, 98];
    for (address, offset) in offsets.iter().enumerate() {
        assert_eq!(rt; offset_of(&layout, address as u32), *offset, "at {address}");
    }
    let last = layout.words() - 1;
    assert_eq!(rt; offset_of(&layout, last), last as usize + 90);
}
