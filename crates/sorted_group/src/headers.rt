//! What the header of a group says of its buffer and of its array.
ghost use Rattle.std.specs.Prelude.{◌≡◌, ℕ, ◌≤◌, length};
ghost use Rattle.line_window.specs.Line.{error_of};
ghost use Rattle.word_layout.specs.Headers.{most_lanes};
ghost use Rattle.index_machine.specs.declared.events.Action.TheVariants.{LoadHeader};
ghost use Rattle.index_machine.specs.Lanes.{lanes};
ghost use Rattle.index_rule.specs.Chains.{StandsForKey};
ghost use Rattle.index_rule.specs.Hands.{Makes, known, opening_of};
ghost use Rattle.index_rule.specs.Moments.{AddsNoEntry};
ghost use Rattle.machine_arrays.specs.Sizes.{HasSameArray};
ghost use Rattle.machine_chain.specs.Chain.{pivot_of};
ghost use Rattle.machine_chain.specs.Walks.{StartsAtPivot};
ghost use Rattle.sorted_group.specs.Arrays.{CanLocate};
ghost use Rattle.sorted_group.specs.Located.{keys_for};
ghost use Rattle.sorted_group.specs.Standing.{CanFollow, CanSearch};

use index_rule::{Board, Hand};
use word_layout::HeaderWord;

/// How many lanes the buffer of a group has: 1 to 8, once the group was begun. It stays until the group is
/// begun anew.
#[inline]
pub fn lanes(board: &Board, hand: &mut Hand, group: u32) -> u32
    requires { CanFollow board.now group hand.old }
    ensures number { hand.new.number ≡ hand.old.number }
    ensures can { CanFollow board.now group hand.new }
    ensures search { CanSearch board.now group hand.old → CanSearch board.now group hand.new }
    ensures step { Makes board.now hand.old (LoadHeader group HeaderWord.Lanes result) hand.new }
    ensures before { result ≡ lanes (opening_of board.now) group (known hand.old) }
    ensures lanes { result ≡ lanes (opening_of board.now) group (known hand.new) }
    ensures few { result ≤ most_lanes }
    ensures log { AddsNoEntry hand.old hand.new }
{
    board.load_header(hand, group, HeaderWord::Lanes) as u32
}

/// How many keys the array of a group has. It stays while a caller stands there.
#[inline]
pub fn size(board: &Board, hand: &mut Hand, group: u32) -> u32
    requires { CanLocate board.now group hand.old }
    ensures number { hand.new.number ≡ hand.old.number }
    ensures can { CanLocate board.now group hand.new }
    ensures search { CanSearch board.now group hand.old → CanSearch board.now group hand.new }
    ensures step { Makes board.now hand.old (LoadHeader group HeaderWord.Size result) hand.new }
    ensures size { result ≡ length (keys_for board.now group hand.new) }
    ensures array { HasSameArray (opening_of board.now) group (known hand.old) (known hand.new) }
    ensures log { AddsNoEntry hand.old hand.new }
{
    board.load_header(hand, group, HeaderWord::Size) as u32
}

/// How far the line of the keys of a group's array is off. It stays while a caller stands there.
#[inline]
pub(crate) fn line_error(board: &Board, hand: &mut Hand, group: u32) -> u32
    requires { CanLocate board.now group hand.old }
    ensures number { hand.new.number ≡ hand.old.number }
    ensures can { CanLocate board.now group hand.new }
    ensures search { CanSearch board.now group hand.old → CanSearch board.now group hand.new }
    ensures step { Makes board.now hand.old (LoadHeader group HeaderWord.LineError result)
        hand.new }
    ensures error { result ≡ error_of (keys_for board.now group hand.new) }
    ensures array { HasSameArray (opening_of board.now) group (known hand.old) (known hand.new) }
    ensures log { AddsNoEntry hand.old hand.new }
{
    board.load_header(hand, group, HeaderWord::LineError) as u32
}

/// The least key for which a group answers, or did. It stays while a caller stands there.
#[inline]
pub fn pivot(board: &Board, hand: &mut Hand, group: u32) -> u64
    requires { CanFollow board.now group hand.old }
    ensures number { hand.new.number ≡ hand.old.number }
    ensures can { CanFollow board.now group hand.new }
    ensures search { CanSearch board.now group hand.old → CanSearch board.now group hand.new }
    ensures step { Makes board.now hand.old (LoadHeader group HeaderWord.Pivot result) hand.new }
    ensures word { result ≡ pivot_of (opening_of board.now) group (known hand.new) }
    ensures least { (key : ℕ) →
        StandsForKey (opening_of board.now) hand.new.number group key (known hand.new) →
        StartsAtPivot (opening_of board.now) group key (known hand.new) }
    ensures log { AddsNoEntry hand.old hand.new }
{
    board.load_header(hand, group, HeaderWord::Pivot)
}
