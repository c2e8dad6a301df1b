//! A table at rest is read as the map.
//!
//! The fact to remember: the groups of a part's chain have rising keys, so they are read one behind the other, and
//! in each group the rows of the buffer and the records of the array are merged by rising keys.
ghost use Rattle.std.specs.Prelude.{◌≡◌, ◌+◌, ◌<◌, ◌≤◌, ◌^◌, ◌↔◌, ◌++◌, [], ℕ, Option, Some};
ghost use Rattle.std.specs.Prelude.{IsTrue, length, vec_capacity, slice_index};
ghost use Rattle.machine_buffers.specs.Lanes.{IsBefore};
ghost use Rattle.word_layout.specs.Layout.{shape_of};
ghost use Rattle.word_layout.specs.Shape.{parts_in, first_group_of};
ghost use Rattle.resting_table.specs.Reading.{HaveRead, HaveReadLanes, HoldsRecord, IsArrayReadTo};
ghost use Rattle.resting_table.specs.Reading.{IsLaneIn, pair_if};
ghost use Rattle.resting_table.specs.Resting.{AreAtRest, IsChainedIn, TellPairs, TellPairsBefore};
ghost use Rattle.resting_table.specs.Resting.{place_count};

use word_layout::{HeaderWord, Layout, link_word, says_removed, state_word, value_word};

/// The pairs by rising key, one for each key that has a value.
///
/// The vector has to be empty, with room for as many pairs as the table has places: so no memory is taken.
pub fn pairs_of(words: &[u64], layout: &Layout, mut pairs: Vec<(u64, u64)>) -> Vec<(u64, u64)>
    requires rest { AreAtRest layout.now words.now }
    requires none { pairs.items ≡ [] }
    requires room { place_count (shape_of layout.now) ≤ vec_capacity pairs }
    ensures { TellPairs layout.now words.now result.items }
{
    for part in 0..layout.parts().count() {
        read_part(words, layout, part, &mut pairs);
    }
    pairs
}

// The groups of the part's chain, as their next words lead.
fn read_part(words: &[u64], layout: &Layout, part: u32, pairs: &mut Vec<(u64, u64)>)
    requires rest { AreAtRest layout.now words.now }
    requires is_part { part < parts_in (shape_of layout.now) }
    requires before { TellPairsBefore layout.now words.now
        (first_group_of (shape_of layout.now) part) pairs.old.items }
    requires room { place_count (shape_of layout.now) ≤ vec_capacity pairs.old }
    ensures pairs { TellPairsBefore layout.now words.now
        (first_group_of (shape_of layout.now) (part + 1)) pairs.new.items }
    ensures room { vec_capacity pairs.old ≤ vec_capacity pairs.new }
{
    let mut group = layout.first_group(part);
    for _number in 0..layout.limits().groups {
        read_group(words, layout, group, pairs);
        let next = words[layout.header(group, HeaderWord::Next.number()) as usize] as u32;
        if next == 0 {
            break;
        }
        group = next - 1;
    }
}

// The lanes of the group's buffer, merged with its array.
fn read_group(words: &[u64], layout: &Layout, group: u32, pairs: &mut Vec<(u64, u64)>)
    requires rest { AreAtRest layout.now words.now }
    requires chained { IsChainedIn layout.now words.now group }
    requires before { TellPairsBefore layout.now words.now group pairs.old.items }
    requires room { place_count (shape_of layout.now) ≤ vec_capacity pairs.old }
    ensures pairs { TellPairsBefore layout.now words.now (group + 1) pairs.new.items }
    ensures room { vec_capacity pairs.old ≤ vec_capacity pairs.new }
{
    let lanes = words[layout.header(group, HeaderWord::Lanes.number()) as usize] as u32;
    let mut index = 0;
    for lane in 0..lanes {
        index = read_lane(words, layout, group, lane, index, pairs);
    }
    read_array(words, layout, group, index, None, pairs);
}

// The rows of a lane, each behind the records of the array with smaller keys, from this index on. It gives the index
// behind these records.
fn read_lane(
    words: &[u64],
    layout: &Layout,
    group: u32,
    lane: u32,
    from: u32,
    pairs: &mut Vec<(u64, u64)>,
) -> u32
    requires rest { AreAtRest layout.now words.now }
    requires chained { IsChainedIn layout.now words.now group }
    requires is_lane { IsLaneIn layout.now words.now group lane }
    requires read { HaveReadLanes layout.now words.now group lane from pairs.old.items }
    requires room { place_count (shape_of layout.now) ≤ vec_capacity pairs.old }
    ensures read { HaveReadLanes layout.now words.now group (lane + 1) result pairs.new.items }
    ensures room { vec_capacity pairs.old ≤ vec_capacity pairs.new }
{
    let mut index = from;
    let mut next = words[layout.lane_head(group, lane) as usize] as u32;
    while next != 0 {
        let key = words[next as usize];
        index = read_array(words, layout, group, index, Some(key), pairs);
        keep(words, next, pairs);
        next = words[link_word(next) as usize] as u32;
    }
    index
}

// The records of the array from this index on whose keys are before `end`. It gives the index behind them.
fn read_array(
    words: &[u64],
    layout: &Layout,
    group: u32,
    from: u32,
    end: Option<u64>,
    pairs: &mut Vec<(u64, u64)>,
) -> u32
    requires rest { AreAtRest layout.now words.now }
    requires chained { IsChainedIn layout.now words.now group }
    requires read { HaveRead layout.now words.now group (λ _ _. end) from pairs.old.items }
    requires room { place_count (shape_of layout.now) ≤ vec_capacity pairs.old }
    ensures read { HaveRead layout.now words.now group (λ _ _. end) result pairs.new.items }
    ensures ended { IsArrayReadTo layout.now words.now group end result }
    ensures room { vec_capacity pairs.old ≤ vec_capacity pairs.new }
{
    let size = words[layout.header(group, HeaderWord::Size.number()) as usize] as u32;
    for index in from..size {
        let place = layout.array(group, index);
        if !is_before(words[place as usize], end) {
            return index;
        }
        keep(words, place, pairs);
    }
    size
}

fn is_before(key: u64, end: Option<u64>) -> bool
    ensures { IsTrue result ↔ IsBefore key end }
{
    match end {
        Some(end) => key < end,
        None => true,
    }
}

// Adds the pair of a record that was not removed.
fn keep(words: &[u64], place: u32, pairs: &mut Vec<(u64, u64)>)
    requires { (k : ℕ) × (found : Option ℕ) × HoldsRecord words.now place k found
        × (length (pairs.old.items ++ pair_if k found) ≤ vec_capacity pairs.old) }
    ensures kept { (k : ℕ) (found : Option ℕ) → HoldsRecord words.now place k found →
        pairs.new.items ≡ pairs.old.items ++ pair_if k found }
    ensures room { vec_capacity pairs.old ≤ vec_capacity pairs.new }
{
    if !says_removed(words[state_word(place) as usize]) {
        let pair = (words[place as usize], words[value_word(place) as usize]);
        pairs.push(pair).unwrap();
    }
}
