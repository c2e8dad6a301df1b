//! When a group is rebuilt: its buffer has grown, or it and its right neighbour have shrunk.
//!
//! Growth counts all rows of the buffer, removed ones too, while shrinking counts only live records.
ghost use Rattle.std.specs.Prelude.{◌≡◌, ◌+◌, ◌/◌, ◌≤◌, ◌↔◌, IsTrue};
ghost use Rattle.rebuild_plan.specs.Plan.{group_count, IsDue, CanMerge};

/// Whether a group is to be rebuilt for its buffer, which has `rows` rows, removed ones included.
/// It is so from `due` rows on.
pub fn is_due(rows: u32, due: u32) -> bool
    ensures { IsTrue result ↔ IsDue rows due }
{
    rows >= due
}

/// Whether a group with `live` live records, in its array and its buffer, may be rebuilt together
/// with its right neighbour, which has `next_live`. A group has `group_size` places.
///
/// At these counts one new group takes the records of both, and at most a quarter of it is full.
pub fn can_merge(live: u32, next_live: u32, group_size: u32) -> bool
    requires least_size { 8 ≤ group_size }
    requires most_size { group_size ≤ 1024 }
    ensures few { IsTrue result ↔ CanMerge live next_live group_size }
    ensures quarter { IsTrue result → live + next_live ≤ group_size / 4 }
    ensures one_group { IsTrue result → group_count (live + next_live) group_size ≡ 1 }
{
    let limit = group_size / 8;
    live <= limit && next_live <= limit
}
