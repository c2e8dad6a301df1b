//! A list that counts its reads, and a search in it.
ghost use Rattle.std.specs.Prelude.{◌≡◌, ℕ, ◌+◌, ◌≤◌};
ghost use Rattle.std.specs.List.Sorted.{IsStrictlyIncreasing};
ghost use Rattle.std.proofs.Math.Nat.{le_refl, le_trans};
ghost use Rattle.line_window.specs.Line.{line_of};
ghost use Rattle.line_window.specs.Search.{probes_of};

use line_window::{Keys, Line, Probes, is_rising, lower_bound};

/// A list that counts its reads and was made with a number.
#[derive(Drop)]
struct Counted<'a> {
    keys: &'a [u64],
    reads: u64,
    seed: u8,
}

impl Keys for Counted<'_> {
    ghost list = { λ c. c.keys.now };

    ghost Origin = { ℕ };

    ghost origin = { λ c. c.seed };

    ghost reads = { λ c. c.reads };

    ghost leads_to = { λ c d. c.reads ≤ d.reads };

    ghost leads_to_itself = { λ c. le_refl c.reads };

    ghost leads_on = { λ _ _ _ first second. le_trans first second };

    fn len(&self) -> usize {
        self.keys.len()
    }

    fn key(&mut self, i: usize) -> u64 {
        self.reads = self.reads.saturating_add(1);
        self.keys[i]
    }
}

/// What a search in a counted list leaves of it.
fn search_counted(line: &Line, keys: &mut Counted<'_>, key: u64, probes: &mut Probes) -> usize
    requires rising { IsStrictlyIncreasing keys.old.keys.now }
    requires line { line.now ≡ line_of keys.old.keys.now }
    ensures seed { keys.new.seed ≡ keys.old.seed }
    ensures reads { keys.new.reads ≤ keys.old.reads + probes_of keys.old.keys.now key }
{
    lower_bound(line, keys, key, probes)
}

#[test]
fn a_search_reads_one_key_a_comparison(rt: HostRuntime) {
    let keys: [u64; 4] = [0, 1, 2, 100];
    assert!(rt; is_rising(&keys));
    let mut counted = Counted {
        keys: &keys,
        reads: 0,
        seed: 7,
    };
    let line = Line::of(&mut counted);
    assert_eq!(rt; counted.reads, 6);
    let mut probes = Probes::new();
    assert_eq!(rt; search_counted(&line, &mut counted, 2, &mut probes), 2);
    assert_eq!(rt; counted.reads, 8);
    assert_eq!(rt; probes.count(), 2);
    assert_eq!(rt; counted.seed, 7);
}

#[test]
fn equal_neighbours_do_not_rise(rt: HostRuntime) {
    for (keys, want) in [([1, 2, 3], true), ([1, 2, 2], false), ([2, 1, 3], false)] {
        assert_eq!(rt; is_rising(&keys), want, "{keys:?}");
    }
}
