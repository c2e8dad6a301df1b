//! A row is linked into its lane of a buffer.
ghost use Rattle.std.specs.Prelude.{◌≡◌};
ghost use Rattle.index_rule.specs.Hands.{known, opening_of};
ghost use Rattle.index_rule.specs.OwnRows.{place_of_private};
ghost use Rattle.sorted_group.specs.Standing.{CanSearch};
ghost use Rattle.delta_buffer.specs.Inserting.{CanInsert, Inserts, InsertTells};

use index_rule::{Board, Hand, Linked, OwnRow, PrivateRow};
use sorted_group::Lane;
use word_layout::link_word;

/// Links a filled row between two places of the lane of its key, tried once. It takes effect at the
/// exchange of the link behind `before`.
///
/// Where nothing was linked there since the gap was found, the key has no row still.
#[inline]
pub fn insert(
    board: &Board,
    hand: &mut Hand,
    lane: Lane,
    before: u32,
    next: u32,
    mut row: PrivateRow,
) -> Linked
    requires search { CanSearch board.now lane.group hand.old }
    requires may { CanInsert (opening_of board.now) hand.old.number lane.group lane.number
        (place_of_private row) before next (known hand.old) }
    ensures number { hand.new.number ≡ hand.old.number }
    ensures search { CanSearch board.now lane.group hand.new }
    ensures steps { Inserts board.now hand.old lane.group lane.number (place_of_private row)
        before next result hand.new }
    ensures tells { InsertTells board.now hand.old lane.group (place_of_private row) next result
        hand.new }
{
    let link = link_word(row.place());
    board.store_private(hand, &mut row, link, next as u64);
    board.swap_link(hand, lane.group, lane.number, before, next, row)
}
