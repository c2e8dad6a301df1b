//! Which bounds cut the space of keys, and the part of a key at and beside each of them.
use std::test::Fail;
use word_layout::{BadBound, Parts};

const SIXTEEN: [u64; 16] = [1, 2, 3, 4, 5, 6, 7, 8, 9, 10, 11, 12, 13, 14, 15, 16];

#[test]
fn the_first_bad_bound_is_named(rt: HostRuntime) -> Result<(), Fail> {
    let table = [
        (0, [0].as_slice()),
        (0, &[0, 5, 5]),
        (1, &[5, 5]),
        (1, &[5, 0]),
        (2, &[5, 9, 8, 0]),
        (15, &SIXTEEN),
    ];
    for (at, bounds) in table {
        assert_eq!(rt; Parts::of(bounds), Err(BadBound { at }), "{bounds:?}");
    }
    let shown = format!(in rt.alloc(); "{}", BadBound { at: 1 })?;
    assert_eq!(rt;
        shown.as_str(),
        "the bound at position 1 is 0, not above the one before it, or one too many"
    );
    Ok(())
}

#[test]
fn bounds_that_rise_make_one_part_more(rt: HostRuntime) {
    let table = [
        (1, [].as_slice()),
        (2, &[1]),
        (2, &[u64::MAX]),
        (4, &[5, 9, u64::MAX]),
        (16, &SIXTEEN[..15]),
    ];
    for (count, bounds) in table {
        let parts = Parts::of(bounds);
        assert_eq!(rt; parts.map(|parts| parts.count()), Ok(count), "{bounds:?}");
    }
    assert_eq!(rt; Parts::of(&[]), Ok(Parts::whole()));
}

#[test]
fn a_key_is_in_the_part_of_the_last_bound_up_to_it(rt: HostRuntime) {
    let table = [
        (0, 0),
        (4, 0),
        (5, 1),
        (6, 1),
        (8, 1),
        (9, 2),
        (10, 2),
        (u64::MAX - 1, 2),
        (u64::MAX, 3),
    ];
    let Ok(parts) = Parts::of(&[5, 9, u64::MAX]) else {
        panic!(rt; "these bounds rise");
    };
    for (key, part) in table {
        assert_eq!(rt; parts.part_of(key), part, "{key}");
    }
}

#[test]
fn a_part_ends_where_the_next_one_begins(rt: HostRuntime) {
    let Ok(parts) = Parts::of(&[5, 9, u64::MAX]) else {
        panic!(rt; "these bounds rise");
    };
    assert_eq!(rt; (parts.first_key(0), parts.last_key(0)), (0, 4));
    assert_eq!(rt; (parts.first_key(1), parts.last_key(1)), (5, 8));
    assert_eq!(rt; (parts.first_key(2), parts.last_key(2)), (9, u64::MAX - 1));
    assert_eq!(rt;
        (parts.first_key(3), parts.last_key(3)),
        (u64::MAX, u64::MAX)
    );
}

#[test]
fn even_parts_begin_at_whole_shares_of_all_keys(rt: HostRuntime) {
    let half = 9223372036854775808;
    assert_eq!(rt; Parts::even(1), Parts::whole());
    assert_eq!(rt; Parts::of(&[half]), Ok(Parts::even(2)));
    let thirds = Parts::of(&[6148914691236517205, 12297829382473034410]);
    assert_eq!(rt; thirds, Ok(Parts::even(3)));
    let two = Parts::even(2);
    assert_eq!(rt; (two.part_of(half - 1), two.part_of(half)), (0, 1));
    let sixteen = Parts::even(16);
    assert_eq!(rt; sixteen.count(), 16);
    for part in 0..16 {
        let key = u64::from(part) << 60;
        assert_eq!(rt;
            (sixteen.first_key(part), sixteen.part_of(key)),
            (key, part)
        );
    }
}
