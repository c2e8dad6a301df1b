//! The loads of the roots, by which a hand comes to a group.
//!
//! Each part has a root. Its root word names a side and how many slots are in use there. A caller may
//! read the slots of the root word that it loaded, also where the root names the other side by now.
ghost use Rattle.std.specs.Prelude.{◌⊎◌};
ghost use Rattle.index_machine.specs.declared.events.Action.TheVariants.{LoadRoot, LoadSlotGroup};
ghost use Rattle.index_machine.specs.declared.events.Action.TheVariants.{LoadSlotPivot};
ghost use Rattle.index_machine.specs.Sections.{IsReading};
ghost use Rattle.index_machine.specs.Words.{shape};
ghost use Rattle.word_layout.specs.Parts.{HasKeyAlone};
ghost use Rattle.index_machine.specs.Keepers.{IsPart, IsPartKeeper};
ghost use Rattle.index_machine.specs.Reaching.{SeesSlot};
ghost use Rattle.index_rule.specs.Chains.{TellsRoot, TellsSlotGroup, TellsSlotPivot};
ghost use Rattle.index_rule.specs.Hands.{IsHandOf, Makes, known, opening_of};
ghost use Rattle.index_rule.specs.Records.{CanReadSlot};

use crate::board::Board;
use crate::hand::Hand;
use crate::plays::{LoadsRoot, LoadsSlotGroup, LoadsSlotPivot};

impl Board {
    /// The part that has a key. Its bounds stay as they were opened, so this is no step.
    #[inline]
    pub fn part_of(&self, key: u64) -> u32
        ensures { HasKeyAlone (shape (opening_of self.now)).bounds result key }
    {
        self.layout.part_of(key)
    }

    /// Loads the root word of a part.
    #[inline]
    pub fn load_root(&self, hand: &mut Hand, part: u32) -> u64
        requires hand { IsHandOf self.now hand.old }
        requires part { IsPart (opening_of self.now) part }
        requires may { IsReading (opening_of self.now) hand.old.number (known hand.old)
            ⊎ IsPartKeeper (opening_of self.now) hand.old.number part }
        ensures step { Makes self.now hand.old (LoadRoot part result) hand.new }
        ensures tells { TellsRoot (opening_of self.now) hand.new.number part result
            (known hand.new) }
    {
        let offset = self.root_offset(part);
        self.words.shared.load::<LoadsRoot>(&mut hand.seat, offset)
    }

    /// Loads the pivot of a slot of a part's root: the slot is for keys from there on.
    #[inline]
    pub fn load_slot_pivot(&self, hand: &mut Hand, part: u32, side: u32, slot: u32) -> u64
        requires hand { IsHandOf self.now hand.old }
        requires may { CanReadSlot (opening_of self.now) hand.old.number part side slot
            (known hand.old) }
        ensures step { Makes self.now hand.old (LoadSlotPivot part side slot result) hand.new }
        ensures tells { IsReading (opening_of self.now) hand.old.number (known hand.old) →
            SeesSlot hand.old.number part side slot (known hand.old) →
            TellsSlotPivot (opening_of self.now) part side slot result (known hand.old)
            (known hand.new) }
    {
        let offset = self.cold_offset(self.layout.slot(part, side, slot));
        self.words
            .shared
            .load::<LoadsSlotPivot>(&mut hand.seat, offset)
    }

    /// Loads the group word of a slot of a part's root: the number of a group.
    #[inline]
    pub fn load_slot_group(&self, hand: &mut Hand, part: u32, side: u32, slot: u32) -> u64
        requires hand { IsHandOf self.now hand.old }
        requires may { CanReadSlot (opening_of self.now) hand.old.number part side slot
            (known hand.old) }
        ensures step { Makes self.now hand.old (LoadSlotGroup part side slot result) hand.new }
        ensures tells { IsPart (opening_of self.now) part →
            IsReading (opening_of self.now) hand.old.number (known hand.old) →
            SeesSlot hand.old.number part side slot (known hand.old) →
            TellsSlotGroup (opening_of self.now) hand.new.number part side slot result
            (known hand.old) (known hand.new) }
    {
        let offset = self.cold_offset(self.layout.slot_group(part, side, slot));
        self.words
            .shared
            .load::<LoadsSlotGroup>(&mut hand.seat, offset)
    }
}
