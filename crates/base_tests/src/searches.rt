//! A search through a line finds what a plain count finds, in few comparisons.
use line_window::{Line, Probes, is_rising, lower_bound};
use std::alloc::{AllocError, Global};
use std::process::Abort;

// What one search tells: the answer, the comparisons, and the line's error and window.
#[derive(Clone, Copy, Debug, PartialEq, Eq)]
struct Found {
    count: usize,
    probes: u64,
    error: usize,
    window: (usize, usize),
}

fn search(rt: &impl Abort, keys: &[u64], key: u64) -> Found {
    assert!(rt; is_rising(keys));
    let mut reader = keys;
    let mut probes = Probes::new();
    let line = Line::of(&mut reader);
    Found {
        count: lower_bound(&line, &mut reader, key, &mut probes),
        probes: probes.count(),
        error: line.error(),
        window: line.window(key),
    }
}

// The definition by a scan.
fn smaller(keys: &[u64], key: u64) -> usize {
    keys.iter().filter(|other| **other < key).count()
}

#[test]
fn a_search_tells_its_answer_and_its_cost(rt: HostRuntime) {
    let uneven = Found {
        count: 2,
        probes: 2,
        error: 2,
        window: (0, 3),
    };
    let even = Found {
        count: 1,
        probes: 1,
        error: 0,
        window: (0, 1),
    };
    let none = Found {
        count: 0,
        probes: 0,
        error: 0,
        window: (0, 0),
    };
    assert_eq!(rt; search(&rt, &[0, 1, 2, 100], 2), uneven);
    assert_eq!(rt; search(&rt, &[110, 120, 130], 115), even);
    assert_eq!(rt; search(&rt, &[], 7), none);
}

// The numbers of `all` whose places are the bits of `chosen`.
fn subset(alloc: Global, all: &[u64], chosen: u32) -> Result<Vec<u64>, AllocError> {
    let mut keys = Vec::new(alloc);
    let mut bits = chosen;
    for key in all {
        if bits % 2 == 1 {
            keys.push(*key)?;
        }
        bits /= 2;
    }
    Ok(keys)
}

fn search_each(rt: &impl Abort, keys: &[u64], wanted: &[u64]) {
    for key in wanted {
        let got = search(rt, keys, *key);
        assert_eq!(rt; got.count, smaller(keys, *key), "{key} in {keys:?}");
        assert!(rt; got.window.0 <= got.count && got.count <= got.window.1);
        let bound = 4 * got.error as u128 + 4;
        assert!(rt;
            got.probes < 64 && 1u128 << got.probes <= bound,
            "{key} in {keys:?}"
        );
    }
}

#[test]
fn each_search_of_a_small_list_is_the_plain_count(rt: HostRuntime) -> Result<(), AllocError> {
    let small = [0, 1, 2, 3, 4, 5, 6, 7, 8];
    let edges = [0, 1, 2, 1 << 63, (1 << 63) + 1, u64::MAX - 1, u64::MAX];
    for chosen in 0..256u32 {
        if chosen.count_ones() <= 6 {
            search_each(
                &rt,
                subset(rt.alloc(), &small[..8], chosen)?.as_slice(),
                &small,
            );
        }
    }
    for chosen in 0..128u32 {
        search_each(&rt, subset(rt.alloc(), &edges, chosen)?.as_slice(), &edges);
    }
    Ok(())
}

#[test]
fn a_count_stands_still_at_its_end(rt: HostRuntime) {
    let mut probes = Probes::new();
    assert_eq!(rt; probes.count(), 0);
    probes.tick();
    assert_eq!(rt; probes.count(), 1);
    probes.add(u64::MAX - 1);
    assert_eq!(rt; probes.count(), u64::MAX);
    probes.tick();
    assert_eq!(rt; probes.count(), u64::MAX);
}
