//! Epoch words: a caller's is odd while it is inside a read section.
//!
//! Entering and leaving each add 1. A word may wrap, since it is only compared with a mark of
//! itself.
ghost use Rattle.index_machine.specs.declared.events.Action.TheVariants.{LoadEpoch, Enter, Leave};
ghost use Rattle.index_machine.specs.Sections.{IsCaller};
ghost use Rattle.index_machine.specs.Conditions.{MayEnter, MayLeave, next_epoch};
ghost use Rattle.index_rule.specs.Hands.{IsHandOf, Makes, known, opening_of};

use crate::board::Board;
use crate::hand::Hand;
use crate::plays::{LoadsEpoch, StoresEnter, StoresLeave};

impl Board {
    /// Loads the epoch word of a caller. Any hand may.
    #[inline]
    pub fn load_epoch(&self, hand: &mut Hand, caller: u32) -> u64
        requires hand { IsHandOf self.now hand.old }
        requires caller { IsCaller (opening_of self.now) caller }
        ensures { Makes self.now hand.old (LoadEpoch caller result) hand.new }
    {
        let offset = self.epoch_offset(caller);
        self.words.shared.load::<LoadsEpoch>(&mut hand.seat, offset)
    }

    /// Stores the hand's own epoch word, which is odd then.
    #[inline]
    pub fn store_enter(&self, hand: &mut Hand)
        requires hand { IsHandOf self.now hand.old }
        requires may { MayEnter (opening_of self.now) hand.old.number (known hand.old) }
        ensures { Makes self.now hand.old (Enter (next_epoch hand.old.number (known hand.old)))
            hand.new }
    {
        let word = hand.epoch.wrapping_add(1);
        let offset = self.epoch_offset(hand.number);
        self.words
            .shared
            .store::<StoresEnter>(&mut hand.seat, offset, word);
        hand.epoch = word;
    }

    /// Stores the hand's own epoch word, which is even then.
    #[inline]
    pub fn store_leave(&self, hand: &mut Hand)
        requires hand { IsHandOf self.now hand.old }
        requires may { MayLeave (opening_of self.now) hand.old.number (known hand.old) }
        ensures { Makes self.now hand.old (Leave (next_epoch hand.old.number (known hand.old)))
            hand.new }
    {
        let word = hand.epoch.wrapping_add(1);
        let offset = self.epoch_offset(hand.number);
        self.words
            .shared
            .store::<StoresLeave>(&mut hand.seat, offset, word);
        hand.epoch = word;
    }
}
