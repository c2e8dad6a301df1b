//! The step along the chain of the groups, and where a part ends.
//!
//! A hand that may walk a group may load its next word, whatever is rebuilt: what it names the hand can reach.
ghost use Rattle.std.specs.Prelude.{◌≡◌, ◌<◌};
ghost use Rattle.word_layout.specs.Shape.{group_total};
ghost use Rattle.index_machine.specs.declared.events.Action.TheVariants.{LoadNext};
ghost use Rattle.index_machine.specs.Keepers.{last_key, part_of};
ghost use Rattle.index_machine.specs.RecordConditions.{MayWalk};
ghost use Rattle.index_machine.specs.Words.{shape};
ghost use Rattle.index_rule.specs.Chains.{TellsNext};
ghost use Rattle.index_rule.specs.Hands.{IsHandOf, Makes, known, opening_of};

use crate::board::Board;
use crate::hand::Hand;
use crate::plays::LoadsNext;
use word_layout::HeaderWord;

impl Board {
    /// Loads the next word of a group: the number of the next group of the chain plus 1, or 0 where there is none.
    #[inline]
    pub fn load_next(&self, hand: &mut Hand, group: u32) -> u64
        requires hand { IsHandOf self.now hand.old }
        requires group { group < group_total (shape (opening_of self.now)) }
        requires may { MayWalk (opening_of self.now) hand.old.number group (known hand.old) }
        ensures step { Makes self.now hand.old (LoadNext group result) hand.new }
        ensures tells { TellsNext (opening_of self.now) hand.new.number group result
            (known hand.old) (known hand.new) }
    {
        let address = self.layout.header(group, HeaderWord::Next.number());
        let offset = self.cold_offset(address);
        self.words.shared.load::<LoadsNext>(&mut hand.seat, offset)
    }

    /// The greatest key of the part that a group is of. It stays as the table was opened, so this is no step.
    #[inline]
    pub fn last_key_beside(&self, group: u32) -> u64
        requires { group < group_total (shape (opening_of self.now)) }
        ensures { result ≡ last_key (opening_of self.now) (part_of (opening_of self.now) group) }
    {
        let part = group / self.layout.limits().groups;
        self.layout.parts().last_key(part)
    }
}
