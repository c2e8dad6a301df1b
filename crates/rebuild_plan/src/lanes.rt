//! Into how many lanes the buffer of a new group is cut, and how many of the group's records lie in each.
//!
//! Lanes are cut by the records that the plan counted for the group, so each lane but the first begins at the key
//! of one of them. The first begins at the group's pivot.
ghost use Rattle.std.specs.Prelude.{◌≡◌, ℕ, ◌*◌, ◌<◌, ◌≤◌};
ghost use Rattle.rebuild_plan.specs.Plan.{most_lanes, lane_width, lane_count, first_record};
ghost use Rattle.rebuild_plan.specs.Plan.{DividesRecords};

// The most lanes that a group's buffer has.
const MOST_LANES: u64 = 8;

/// The number of records from the cut of one lane to the next, of a group for which the plan counted
/// `records`. It is at least 1.
///
/// The last lane may get fewer.
pub fn lane_width(records: u64) -> u64
    ensures width { result ≡ lane_width records }

    // It is the least with which the most lanes hold all records, and at least one.
    ensures some { 1 ≤ result }
    ensures room { records ≤ most_lanes * result }
    ensures least { (width : ℕ) → 1 ≤ width → records ≤ most_lanes * width → result ≤ width }
{
    records.div_ceil(MOST_LANES).max(1)
}

/// The number of lanes, 1 to 8, of a group for which the plan counted `records`.
///
/// There is one lane for no records too, since each key of the group's range belongs to a lane.
pub fn lanes_for(records: u64) -> u32
    ensures count { result ≡ lane_count records }

    // They are the fewest that hold the records at their width, and at least one.
    ensures some { 1 ≤ result }
    ensures most { result ≤ most_lanes }
    ensures room { records ≤ result * lane_width records }
    ensures fewest { (lanes : ℕ) → 1 ≤ lanes → records ≤ lanes * lane_width records →
        result ≤ lanes }

    // The cut of each lane after the first is a record's key, and each record lies in one lane.
    ensures cuts { (lane : ℕ) → 1 ≤ lane → lane < result →
        first_record (lane_width records) lane < records }
    ensures parts { DividesRecords records result (lane_width records) }
{
    records.div_ceil(lane_width(records)).max(1) as u32
}
