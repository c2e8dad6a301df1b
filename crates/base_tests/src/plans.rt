//! The numbers of a rebuild: groups, shares, lanes and slots, and when a group is due or merges.
use rebuild_plan::{can_merge, groups_for, is_due, lane_width, lanes_for, root_step, share};

#[test]
fn a_group_is_due_from_so_many_rows_on(rt: HostRuntime) {
    let table = [
        (0, 1, false),
        (7, 8, false),
        (8, 8, true),
        (9, 8, true),
        (u32::MAX, u32::MAX, true),
    ];
    for (rows, due, want) in table {
        assert_eq!(rt; is_due(rows, due), want, "{rows} rows, due at {due}");
    }
}

#[test]
fn two_groups_merge_where_each_has_an_eighth_of_its_places(rt: HostRuntime) {
    let table = [
        (0, 0, 8, true),
        (1, 1, 8, true),
        (2, 1, 8, false),
        (1, 2, 8, false),
        (2, 2, 15, false),
        (2, 2, 16, true),
        (128, 128, 1024, true),
        (0, 129, 1024, false),
        (u32::MAX, 0, 1024, false),
    ];
    for (live, next_live, group_size, want) in table {
        assert!(rt; 8 <= group_size && group_size <= 1024);
        assert_eq!(rt;
            can_merge(live, next_live, group_size),
            want,
            "{live} and {next_live} of {group_size}"
        );
    }
}

#[test]
fn records_go_into_the_fewest_groups_that_stay_three_quarters_full(rt: HostRuntime) {
    let table = [
        (0, 8, 1, 0),
        (1, 8, 1, 1),
        (6, 8, 1, 6),
        (7, 8, 2, 4),
        (12, 8, 2, 6),
        (13, 8, 3, 5),
        (6, 9, 1, 6),
        (7, 9, 2, 4),
        (7, 10, 1, 7),
        (768, 1024, 1, 768),
        (769, 1024, 2, 385),
        (u64::MAX, 8, 3_074_457_345_618_258_603, 6),
        (u64::MAX, 1024, 24_019_198_012_642_646, 768),
    ];
    for (n, group_size, groups, size) in table {
        assert!(rt; 8 <= group_size && group_size <= 1024);
        assert_eq!(rt;
            groups_for(n, group_size),
            groups,
            "{n} records by {group_size}"
        );
        assert_eq!(rt;
            share(n, groups_for(n, group_size)),
            size,
            "{n} records by {group_size}"
        );
    }
}

#[test]
fn the_last_group_gets_what_is_left(rt: HostRuntime) {
    let table = [
        (0, [0].as_slice()),
        (6, [6].as_slice()),
        (12, [6, 6].as_slice()),
        (13, [5, 5, 3].as_slice()),
    ];
    for (n, sizes) in table {
        let size = share(n, groups_for(n, 8));
        let mut begin = 0;
        for want in sizes {
            let end = n.min(size.saturating_add(begin));
            assert_eq!(rt; end.saturating_sub(begin), *want, "{n} records");
            begin = end;
        }
        assert_eq!(rt; begin, n, "{n} records");
    }
}

// The least size at which so many parts hold `n`, found by trying one after another.
fn least_size(n: u64, parts: u64) -> u64 {
    (0..n)
        .find(|size| n <= parts.saturating_mul(*size))
        .unwrap_or(n)
}

#[test]
fn groups_and_shares_are_those_found_by_trying(rt: HostRuntime) {
    for group_size in 8..33 {
        let limit = u64::from(group_size) * 3 / 4;
        for n in 0..150 {
            let groups = groups_for(n, group_size);
            assert_eq!(rt;
                groups,
                least_size(n, limit).max(1),
                "{n} records by {group_size}"
            );
            assert_eq!(rt;
                share(n, groups),
                least_size(n, groups),
                "{n} records by {group_size}"
            );
        }
    }
}

#[test]
fn the_slots_of_a_root_name_groups_at_equal_steps(rt: HostRuntime) {
    let table = [
        (1, 1, 1, 1),
        (3, 4, 1, 3),
        (2, 4, 1, 2),
        (5, 4, 2, 3),
        (9, 4, 3, 3),
        (65_536, 4_096, 16, 4_096),
        (65_537, 4_096, 17, 3_856),
        (u32::MAX, 1, u32::MAX, 1),
        (u32::MAX, 2, 2_147_483_648, 2),
    ];
    for (groups, slots, step, count) in table {
        assert!(rt; groups > 0 && slots > 0);
        assert_eq!(rt;
            root_step(groups, slots),
            step,
            "{groups} groups, {slots} slots"
        );
        assert_eq!(rt;
            groups.div_ceil(root_step(groups, slots)),
            count,
            "{groups} groups, {slots} slots"
        );
    }
}

#[test]
fn a_group_has_at_most_eight_lanes_of_one_width(rt: HostRuntime) {
    let table = [
        (0, 1, 1),
        (1, 1, 1),
        (6, 1, 6),
        (8, 1, 8),
        (9, 2, 5),
        (16, 2, 8),
        (17, 3, 6),
        (192, 24, 8),
        (768, 96, 8),
        (u64::MAX, 2_305_843_009_213_693_952, 8),
    ];
    for (records, width, lanes) in table {
        assert_eq!(rt; lane_width(records), width, "{records} records");
        assert_eq!(rt; lanes_for(records), lanes, "{records} records");
    }
}

#[test]
fn a_later_lane_is_cut_at_the_key_of_its_first_record(rt: HostRuntime) {
    let table = [
        (0, [].as_slice(), [0].as_slice()),
        (
            0,
            [10, 20, 30, 40, 50, 60].as_slice(),
            [0, 20, 30, 40, 50, 60].as_slice(),
        ),
        (
            3,
            [5, 6, 7, 8, 9, 10, 11, 12, 13].as_slice(),
            [3, 7, 9, 11, 13].as_slice(),
        ),
    ];
    for (pivot, keys, cuts) in table {
        let records = keys.len() as u64;
        let width = lane_width(records) as usize;
        assert_eq!(rt;
            lanes_for(records) as usize,
            cuts.len(),
            "{records} records"
        );
        for (lane, cut) in cuts.iter().enumerate() {
            let first = keys.get(width.saturating_mul(lane)).copied();
            let begin = if lane == 0 { Some(pivot) } else { first };
            assert_eq!(rt; begin, Some(*cut), "lane {lane} of {records} records");
        }
    }
}
