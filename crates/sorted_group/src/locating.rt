//! The place of a key in the sorted array of a group.
ghost use Rattle.std.specs.Prelude.{◌≡◌, ◌+◌, length, min};
ghost use Rattle.line_window.specs.Line.{error_of};
ghost use Rattle.line_window.specs.Search.{probes_of};
ghost use Rattle.machine_arrays.specs.Sizes.{HasSameArray};
ghost use Rattle.index_rule.specs.Hands.{known, opening_of};
ghost use Rattle.index_rule.specs.Moments.{AddsNoEntry};
ghost use Rattle.sorted_group.specs.Arrays.{CanLocate, CanReadKeys};
ghost use Rattle.sorted_group.specs.Located.{FewKeyLoads, IsLocated, LoadsToLocate, keys_for};
ghost use Rattle.sorted_group.specs.Searches.{FindsIndex};
ghost use Rattle.sorted_group.specs.Standing.{CanSearch};

use crate::answers::Located;
use crate::group_keys::GroupKeys;
use crate::headers::{line_error, size};
use index_rule::{Board, Hand};
use line_window::Probes;

/// Where the key is in the array of the group.
///
/// The array stays meanwhile, so what is loaded at different moments is of one array. It adds no entry.
pub fn locate(board: &Board, hand: &mut Hand, group: u32, key: u64, probes: &mut Probes) -> Located
    requires { CanLocate board.now group hand.old }
    ensures number { hand.new.number ≡ hand.old.number }
    ensures can { CanLocate board.now group hand.new }
    ensures search { CanSearch board.now group hand.old → CanSearch board.now group hand.new }
    ensures located { IsLocated board.now group key result hand.new }
    ensures array { HasSameArray (opening_of board.now) group (known hand.old) (known hand.new) }
    ensures probes { probes.new
        ≡ min (probes.old + probes_of (keys_for board.now group hand.new) key) u64.MAX }
    ensures steps { LoadsToLocate board.now group hand.old hand.new }
    ensures log { AddsNoEntry hand.old hand.new }
{
    let len = size(board, hand, group);
    let error = line_error(board, hand, group);
    match index_in(
        board,
        hand,
        group,
        len as usize,
        error as usize,
        key,
        probes,
    ) {
        Ok(index) => Located::At(board.array_place(group, index as u32)),
        Err(index) => Located::Between(index as u32),
    }
}

// The hand is lent to the reader, and is back once the reader is done.
#[inline]
fn index_in(
    board: &Board,
    hand: &mut Hand,
    group: u32,
    len: usize,
    error: usize,
    key: u64,
    probes: &mut Probes,
) -> Result<usize, usize>
    requires can { CanReadKeys board.now group hand.old }
    requires len { len ≡ length (keys_for board.now group hand.old) }
    requires error { error ≡ error_of (keys_for board.now group hand.old) }
    ensures index { FindsIndex (keys_for board.now group hand.old) key result }
    ensures probes { probes.new
        ≡ min (probes.old + probes_of (keys_for board.now group hand.old) key) u64.MAX }
    ensures loads { FewKeyLoads board.now group error hand.old hand.new }
{
    let mut keys = GroupKeys::of(board, hand, group, len);
    keys.find(error, key, probes)
}
