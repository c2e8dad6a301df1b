//! Where the words of a table stand, by the address of each.
//!
//! The words lie behind one another: the head of the free stack, a root word of each part, the epochs, both
//! sides of each part's root, the groups of each part, the record rows.
ghost use Rattle.std.specs.Prelude.{◌≡◌, ◌+◌, ◌<◌, ◌≤◌};
ghost use Rattle.word_layout.specs.Limits.{KeepsRulesIn, group_words_of, word_count};
ghost use Rattle.word_layout.specs.Parts.{AreBounds, HasKeyAlone, part_with};
ghost use Rattle.word_layout.specs.Shape.{shape, parts_in, group_total, first_group_of};
ghost use Rattle.word_layout.specs.Addresses.{first_slot_word, first_group_word, first_row_word};
ghost use Rattle.word_layout.specs.Addresses.{root_address, epoch_address, slot_address, header_address};
ghost use Rattle.word_layout.specs.Addresses.{array_address, row_address};
ghost use Rattle.word_layout.specs.Headers.{header_word, header_words, most_lanes};
ghost use Rattle.word_layout.specs.declared.headers.HeaderWord.TheVariants.{Head, Cut};
ghost use Rattle.word_layout.specs.Places.{IsArrayPlace, IsRow};
ghost use Rattle.word_layout.specs.Words.{StandApart, StoresByName, address_of};
ghost use Rattle.word_layout.specs.Words.{FreeHead, Root, Epoch, SlotPivot, SlotGroup, Header};

use crate::limits::Limits;
use crate::parts::Parts;

/// The addresses of a table with given limits and parts. An address is the position of a word, from 0.
#[derive(Clone, Copy, Debug, PartialEq, Eq)]
pub struct Layout {
    limits: Limits,
    parts: Parts,
    group_words: u32,
    slots_from: u32,
    groups_from: u32,
    rows_from: u32,
    ghost kept: { KeepsRulesIn (shape limits parts) },
    ghost cut: { AreBounds parts },
    ghost group_width: { group_words ≡ group_words_of limits },
    ghost slots_behind_epochs: { slots_from ≡ first_slot_word (shape limits parts) },
    ghost groups_behind_slots: { groups_from ≡ first_group_word (shape limits parts) },
    ghost rows_behind_groups: { rows_from ≡ first_row_word (shape limits parts) },
}

impl Layout {
    ghost use Rattle.word_layout.specs.Layout.{limits_of, bounds_of, shape_of};

    pub(crate) fn new(limits: Limits, parts: Parts) -> Layout
        requires { KeepsRulesIn (shape limits parts) }
        ensures limits { limits_of result ≡ limits }
        ensures parts { bounds_of result ≡ parts }
    {
        let count = parts.count();
        let group_words = 24 + 4 * limits.group_size;
        let slots_from = 1 + count + limits.callers;
        let groups_from = slots_from + count * (4 * limits.slots);
        let rows_from = groups_from + count * limits.groups * group_words;
        Layout {
            limits,
            parts,
            group_words,
            slots_from,
            groups_from,
            rows_from,
        }
    }

    /// The limits that this layout was made from.
    #[inline]
    pub fn limits(&self) -> Limits
        ensures limits { result ≡ limits_of self.now }
        ensures rules { KeepsRulesIn (shape_of self.now) }
    {
        self.limits
    }

    /// The parts that this layout was made from. Each has as many slots and group rows as the limits say.
    #[inline]
    pub fn parts(&self) -> Parts
        ensures parts { result ≡ bounds_of self.now }
        ensures bounds { AreBounds (bounds_of self.now) }
    {
        self.parts
    }

    /// The part that has a key.
    #[inline]
    pub fn part_of(&self, key: u64) -> u32
        ensures part { result ≡ part_with (bounds_of self.now) key }
        ensures alone { HasKeyAlone (bounds_of self.now) result key }
    {
        self.parts.part_of(key)
    }

    /// The first group row of a part. Group rows are numbered over all parts, those of a part behind one another.
    #[inline]
    pub fn first_group(&self, part: u32) -> u32
        requires { part < parts_in (shape_of self.now) }
        ensures group { result ≡ first_group_of (shape_of self.now) part }
        ensures exists { result < group_total (shape_of self.now) }
    {
        part * self.limits.groups
    }

    /// How many words the table has.
    ///
    /// For proofs each word has a name, such as the epoch of a caller or a part of a place, and each
    /// address of the table is that of one word. What is said of the words by their names holds of
    /// the list of words.
    #[inline]
    pub fn words(&self) -> u32
        ensures count { result ≡ word_count (shape_of self.now) }
        ensures apart { StandApart (shape_of self.now) }
        ensures by_name { StoresByName (shape_of self.now) }
    {
        self.rows_from + 4 * self.limits.records
    }

    /// The head of the free stack.
    #[inline]
    pub fn free_head(&self) -> u32
        ensures address { result ≡ 0 }
        ensures named { result ≡ address_of (shape_of self.now) FreeHead }
    {
        0
    }

    /// The root word of a part, which says how many slots are in use and on which side.
    #[inline]
    pub fn root(&self, part: u32) -> u32
        requires { part < parts_in (shape_of self.now) }
        ensures address { result ≡ root_address part }
        ensures named { result ≡ address_of (shape_of self.now) (Root part) }
    {
        1 + part
    }

    /// The epoch word of a caller.
    #[inline]
    pub fn epoch(&self, caller: u32) -> u32
        requires { caller < (limits_of self.now).callers }
        ensures address { result ≡ epoch_address (shape_of self.now) caller }
        ensures named { result ≡ address_of (shape_of self.now) (Epoch caller) }
    {
        1 + self.parts.count() + caller
    }

    /// The pivot word of a slot of side 0 or 1 of a part's root.
    #[inline]
    pub fn slot(&self, part: u32, side: u32, i: u32) -> u32
        requires is_part { part < parts_in (shape_of self.now) }
        requires is_side { side < 2 }
        requires is_slot { i < (limits_of self.now).slots }
        ensures address { result ≡ slot_address (shape_of self.now) part side i }
        ensures named { result ≡ address_of (shape_of self.now) (SlotPivot part side i) }
        ensures room { result + 1 < first_group_word (shape_of self.now) }
    {
        self.slots_from + part * (4 * self.limits.slots) + side * (2 * self.limits.slots) + 2 * i
    }

    /// The group word of a slot of side 0 or 1 of a part's root.
    #[inline]
    pub fn slot_group(&self, part: u32, side: u32, i: u32) -> u32
        requires is_part { part < parts_in (shape_of self.now) }
        requires is_side { side < 2 }
        requires is_slot { i < (limits_of self.now).slots }
        ensures address { result ≡ slot_address (shape_of self.now) part side i + 1 }
        ensures named { result ≡ address_of (shape_of self.now) (SlotGroup part side i) }
    {
        self.slot(part, side, i) + 1
    }

    /// A word of a group's header, by its [number](crate::HeaderWord::number) from 0 to 23.
    #[inline]
    pub fn header(&self, group: u32, i: u32) -> u32
        requires is_group { group < group_total (shape_of self.now) }
        requires is_header_word { i < header_words }
        ensures address { result ≡ header_address (shape_of self.now) group i }
        ensures named { result ≡ address_of (shape_of self.now) (Header group (header_word i)) }
    {
        self.group_from(group) + i
    }

    /// The head of a lane of a group's buffer, which names the lane's first row. Lanes count from 0.
    #[inline]
    pub fn lane_head(&self, group: u32, lane: u32) -> u32
        requires is_group { group < group_total (shape_of self.now) }
        requires is_lane { lane < most_lanes }
        ensures named { result ≡ address_of (shape_of self.now) (Header group (Head lane)) }
    {
        self.group_from(group) + 8 + lane
    }

    /// The cut of a lane of a group's buffer, which is the lane's least key.
    #[inline]
    pub fn lane_cut(&self, group: u32, lane: u32) -> u32
        requires is_group { group < group_total (shape_of self.now) }
        requires is_lane { lane < most_lanes }
        ensures named { result ≡ address_of (shape_of self.now) (Header group (Cut lane)) }
    {
        self.group_from(group) + 16 + lane
    }

    /// A place of a group's array, which is the address of its key word.
    #[inline]
    pub fn array(&self, group: u32, i: u32) -> u32
        requires is_group { group < group_total (shape_of self.now) }
        requires is_place { i < (limits_of self.now).group_size }
        ensures address { result ≡ array_address (shape_of self.now) group i }
        ensures is_place { IsArrayPlace (shape_of self.now) group result }
    {
        self.group_from(group) + 24 + 4 * i
    }

    /// The place of a record row, which is the address of its key word.
    #[inline]
    pub fn row(&self, i: u32) -> u32
        requires { i < (limits_of self.now).records }
        ensures address { result ≡ row_address (shape_of self.now) i }
        ensures is_place { IsRow (shape_of self.now) result }
    {
        self.rows_from + 4 * i
    }

    // The last group ends where the rows begin, so the words of a group fit behind its first.
    #[inline]
    fn group_from(&self, group: u32) -> u32
        requires { group < group_total (shape_of self.now) }
        ensures from { result ≡ header_address (shape_of self.now) group 0 }
        ensures room { result + group_words_of (limits_of self.now) ≤
            first_row_word (shape_of self.now) }
    {
        self.groups_from + group * self.group_words
    }
}
