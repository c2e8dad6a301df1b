//! Where the places of a group's sorted array are, and the load of a key there.
//!
//! While a caller stands in a group that answers for a key, or did, its array stays as it is. So keys that are loaded
//! at different moments are of one list.
ghost use Rattle.std.specs.Prelude.{◌≡◌, ◌<◌, length, slice_index};
ghost use Rattle.word_layout.specs.Addresses.{array_address};
ghost use Rattle.word_layout.specs.Shape.{group_total};
ghost use Rattle.index_machine.specs.declared.events.Action.TheVariants.{LoadKey};
ghost use Rattle.index_machine.specs.RecordConditions.{MayWalk};
ghost use Rattle.index_machine.specs.Words.{limits, shape};
ghost use Rattle.machine_arrays.specs.Arrays.{array_keys};
ghost use Rattle.index_rule.specs.Chains.{KeepsKeys};
ghost use Rattle.index_rule.specs.Hands.{IsHandOf, Makes, known, opening_of};

use crate::board::Board;
use crate::hand::Hand;

impl Board {
    /// The place with this index of a group's array. It stays where it is, so this is no step.
    #[inline]
    pub fn array_place(&self, group: u32, index: u32) -> u32
        requires group { group < group_total (shape (opening_of self.now)) }
        requires index { index < (limits (opening_of self.now)).group_size }
        ensures { result ≡ array_address (shape (opening_of self.now)) group index }
    {
        self.layout.array(group, index)
    }

    /// Loads the key at an index of a group's array.
    #[inline]
    pub fn load_array_key(&self, hand: &mut Hand, group: u32, index: u32) -> u64
        requires hand { IsHandOf self.now hand.old }
        requires may { MayWalk (opening_of self.now) hand.old.number group (known hand.old) }
        requires index { index < length (array_keys (opening_of self.now) group (known hand.old)) }
        ensures step { Makes self.now hand.old
            (LoadKey (array_address (shape (opening_of self.now)) group index) result) hand.new }
        ensures key { result ≡ slice_index
            (array_keys (opening_of self.now) group (known hand.old)) index }
        ensures keeps { KeepsKeys (opening_of self.now) hand.old.number group (known hand.old)
            (known hand.new) }
    {
        self.load_key(hand, self.layout.array(group, index))
    }
}
