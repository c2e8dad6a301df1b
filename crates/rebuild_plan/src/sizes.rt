//! How many groups, how many records in a group, and how many groups from slot to slot.
//!
//! Each number is a quotient rounded up, so nothing is left over: what lies at the end has less.
ghost use Rattle.std.specs.Prelude.{◌≡◌, ℕ, ◌*◌, ◌<◌, ◌≤◌};
ghost use Rattle.rebuild_plan.specs.Plan.{fill_limit, group_count, share_of, first_record};
ghost use Rattle.rebuild_plan.specs.Plan.{DividesRecords, step_of, slot_count, ReachesGroups};

/// The number of groups into which `n` records are rebuilt, where a group has `group_size` places.
///
/// A quarter of a group's places is free when it is made. There is one group for no records too,
/// since each key belongs to a group.
pub fn groups_for(n: u64, group_size: u32) -> u64
    requires least_size { 8 ≤ group_size }
    requires most_size { group_size ≤ 1024 }
    ensures count { result ≡ group_count n group_size }

    // They are the fewest that hold the records at the fill limit, and at least one.
    ensures some { 1 ≤ result }
    ensures room { n ≤ result * fill_limit group_size }
    ensures fewest { (groups : ℕ) → 1 ≤ groups → n ≤ groups * fill_limit group_size →
        result ≤ groups }

    // Shared out evenly, each group keeps to the fill limit, and its pivot is a record's key.
    ensures fits { share_of n result ≤ fill_limit group_size }
    ensures pivots { (group : ℕ) → 1 ≤ group → group < result →
        first_record (share_of n result) group < n }
{
    n.div_ceil(u64::from(fill_limit(group_size))).max(1)
}

/// The number of records that each of `groups` groups gets of `n`: group `j`, counted from 0, gets
/// those from number `j * share` on, in key order. It is 0 where there are no records.
///
/// Where `groups` is not what [`groups_for`] gives, groups at the end may get none.
pub fn share(n: u64, groups: u64) -> u64
    requires { 1 ≤ groups }
    ensures value { result ≡ share_of n groups }

    // It is the least with which the groups hold all records.
    ensures covers { n ≤ groups * result }
    ensures least { (size : ℕ) → n ≤ groups * size → result ≤ size }

    ensures parts { DividesRecords n groups result }
{
    n.div_ceil(groups)
}

/// The number of groups from the one that a slot of the root names to the one that the next slot
/// names, where the root has room for `slots` of them. The root then has `groups / step` slots,
/// rounded up.
///
/// When the root is built, a key's group is fewer than this many steps along the chain from the one
/// that its slot names.
pub fn root_step(groups: u32, slots: u32) -> u32
    requires some_group { 1 ≤ groups }
    requires some_slot { 1 ≤ slots }
    ensures step { result ≡ step_of groups slots }

    // It is the shortest for which the slots suffice.
    ensures some { 1 ≤ result }
    ensures fits { slot_count groups result ≤ slots }
    ensures shortest { (step : ℕ) → 1 ≤ step → slot_count groups step ≤ slots → result ≤ step }

    ensures reach { ReachesGroups groups result }
{
    groups.div_ceil(slots)
}

// The most records that a new group is given.
fn fill_limit(group_size: u32) -> u32
    requires least_size { 8 ≤ group_size }
    requires most_size { group_size ≤ 1024 }
    ensures { result ≡ fill_limit group_size }
{
    3 * group_size / 4
}
