//! Where the keys of a group end.
ghost use Rattle.std.specs.Prelude.{◌≡◌, ℕ};
ghost use Rattle.index_rule.specs.Hands.{known, opening_of};
ghost use Rattle.index_rule.specs.Moments.{AddsNoEntry};
ghost use Rattle.root_table.specs.Ends.{EndsKeys, EndsNewKeys, HasKeys, IsNewOfKey, IsOfKey, LoadsEnd};
ghost use Rattle.root_table.specs.Standing.{StandsIn};

use index_rule::{Board, Hand};
use word_layout::HeaderWord;

/// The greatest key of a group's key range: the one before the next group's pivot, or where there is no next group the
/// last one of the part.
///
/// It loads the next word of the group, and the pivot of the one that this names. It adds no entry.
pub fn stretch_end(board: &Board, hand: &mut Hand, group: u32) -> u64
    requires there { StandsIn board.now group hand.old }
    requires keys { HasKeys board.now group hand.old }
    ensures number { hand.new.number ≡ hand.old.number }
    ensures there { StandsIn board.now group hand.new }
    ensures steps { LoadsEnd board.now group hand.old result hand.new }
    ensures ends { (key : ℕ) → IsOfKey board.now group key hand.old →
        EndsKeys (opening_of board.now) group key result (known hand.new) }
    ensures ends_new { (old first key : ℕ) → IsNewOfKey board.now old first group key hand.old →
        EndsNewKeys (opening_of board.now) old group key result (known hand.old) (known hand.new) }
    ensures log { AddsNoEntry hand.old hand.new }
{
    let word = board.load_next(hand, group);
    if word == 0 {
        return board.last_key_beside(group);
    }
    board.load_header(hand, (word - 1) as u32, HeaderWord::Pivot) - 1
}
