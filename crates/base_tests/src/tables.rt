//! How many words a table has, where they stand, and which limits make none.
use std::test::Fail;
use word_layout::{BadLimit, HeaderWord, Limits, Parts};

#[test]
fn the_standard_limits_make_a_table_of_known_size(rt: HostRuntime) {
    let words = Limits::standard().layout().map(|layout| layout.words());
    assert_eq!(rt; words, Ok(531462));
}

#[test]
fn the_first_rule_that_is_broken_is_named(rt: HostRuntime) -> Result<(), Fail> {
    let table = [
        (1, [("callers", 0)].as_slice()),
        (1, &[("callers", 65)]),
        (2, &[("records", 1)]),
        (2, &[("records", 16777217)]),
        (3, &[("groups", 1)]),
        (3, &[("groups", 65537)]),
        (4, &[("group_size", 7)]),
        (4, &[("group_size", 1025)]),
        (5, &[("slots", 0)]),
        (5, &[("slots", 4097)]),
        (6, &[("due", 0)]),
        (6, &[("due", 257)]),
        (7, &[("help", 0)]),
        (7, &[("help", 1048577)]),
        (8, &[("chain", 0)]),
        (8, &[("chain", 4097)]),
        (10, &[("groups", 65536), ("group_size", 1024)]),
        (
            3,
            &[("groups", u32::MAX), ("group_size", u32::MAX), ("slots", 0)],
        ),
        (2, &[("records", 0), ("due", 0), ("chain", 0)]),
    ];
    for (number, changes) in table {
        let words = changed(changes).layout().map(|layout| layout.words());
        assert_eq!(rt; words, Err(BadLimit { number }), "{changes:?}");
    }
    let shown = format!(in rt.alloc(); "{}", BadLimit { number: 3 })?;
    assert_eq!(rt; shown.as_str(), "the limits break rule 3");
    Ok(())
}

#[test]
fn limits_at_the_ends_of_their_ranges_are_taken(rt: HostRuntime) {
    let table = [
        (531459, ("callers", 1)),
        (531522, ("callers", 64)),
        (269326, ("records", 2)),
        (67378182, ("records", 16777216)),
        (265270, ("groups", 2)),
        (530442, ("slots", 1)),
        (546822, ("slots", 4096)),
        (531462, ("due", 256)),
    ];
    for (words, change) in table {
        let layout = changed(&[change]).layout();
        assert_eq!(rt;
            layout.map(|layout| layout.words()),
            Ok(words),
            "{change:?}"
        );
    }
}

#[test]
fn the_first_version_is_at_most_the_last_one(rt: HostRuntime) {
    let mut limits = Limits::standard();
    limits.first_version = 1152921504606846975;
    assert_eq!(rt; limits.layout().map(|layout| layout.words()), Ok(531462));
    limits.first_version += 1;
    let refused = Err(BadLimit { number: 9 });
    assert_eq!(rt; limits.layout().map(|layout| layout.words()), refused);
}

// The standard limits, but for these numbers.
fn changed(changes: &[(&str, u32)]) -> Limits {
    let mut limits = Limits::standard();
    for &(field, number) in changes {
        match field {
            "callers" => limits.callers = number,
            "records" => limits.records = number,
            "groups" => limits.groups = number,
            "group_size" => limits.group_size = number,
            "slots" => limits.slots = number,
            "due" => limits.due = number,
            "help" => limits.help = number,
            _ => limits.chain = number,
        }
    }
    limits
}

// The limits of a small table.
fn small() -> Limits {
    Limits {
        callers: 3,
        records: 2,
        groups: 2,
        group_size: 8,
        slots: 1,
        due: 1,
        help: 1,
        chain: 1,
        first_version: 0,
    }
}

#[test]
fn a_small_table_has_its_words_behind_one_another(rt: HostRuntime) {
    let limits = small();
    let layout = limits.layout();
    assert!(rt; layout.is_ok());
    if let Ok(layout) = layout {
        assert_eq!(rt; layout.words(), 129);
        assert_eq!(rt; layout.limits(), limits);
        assert_eq!(rt; (layout.epoch(0), layout.epoch(2)), (2, 4));
        assert_eq!(rt; (layout.free_head(), layout.root(0)), (0, 1));
        assert_eq!(rt; (layout.slot(0, 0, 0), layout.slot_group(0, 0, 0)), (5, 6));
        assert_eq!(rt; (layout.slot(0, 1, 0), layout.slot_group(0, 1, 0)), (7, 8));
        let (first, last) = (HeaderWord::Pivot.number(), HeaderWord::Next.number());
        assert_eq!(rt; (layout.header(0, first), layout.header(1, last)), (9, 70));
        assert_eq!(rt; (layout.lane_head(0, 0), layout.lane_head(1, 7)), (17, 80));
        assert_eq!(rt; (layout.lane_cut(0, 0), layout.lane_cut(1, 7)), (25, 88));
        assert_eq!(rt; (layout.array(0, 0), layout.array(1, 7)), (33, 117));
        assert_eq!(rt; (layout.row(0), layout.row(1)), (121, 125));
    }
}

#[test]
fn each_part_has_a_root_and_groups_behind_those_before_it(rt: HostRuntime) {
    let layout = small().layout_in(Parts::even(2));
    assert!(rt; layout.is_ok());
    if let Ok(layout) = layout {
        assert_eq!(rt; layout.words(), 246);
        assert_eq!(rt; layout.parts(), Parts::even(2));
        assert_eq!(rt; (layout.part_of(0), layout.part_of(u64::MAX)), (0, 1));
        assert_eq!(rt; (layout.first_group(0), layout.first_group(1)), (0, 2));
        assert_eq!(rt; (layout.root(0), layout.root(1)), (1, 2));
        assert_eq!(rt; (layout.epoch(0), layout.epoch(2)), (3, 5));
        assert_eq!(rt; (layout.slot(0, 1, 0), layout.slot_group(0, 1, 0)), (8, 9));
        assert_eq!(rt;
            (layout.slot(1, 0, 0), layout.slot_group(1, 1, 0)),
            (10, 13)
        );
        assert_eq!(rt; (layout.header(0, 0), layout.header(2, 0)), (14, 126));
        assert_eq!(rt; (layout.array(3, 7), layout.row(0)), (234, 238));
    }
}

#[test]
fn the_rule_of_the_words_counts_those_of_all_parts(rt: HostRuntime) {
    let limits = changed(&[("groups", 65536), ("group_size", 512)]);
    let too_many = Err(BadLimit { number: 10 });
    for (parts, words) in [(1, Ok(136053766)), (2, too_many), (16, too_many)] {
        let layout = limits.layout_in(Parts::even(parts));
        assert_eq!(rt; layout.map(|layout| layout.words()), words, "{parts} parts");
    }
}
