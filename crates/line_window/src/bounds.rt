//! The search: halving a key's window until one place is left.
//!
//! The window's size is about twice the line's error, so the search costs what the line is off and
//! not what the list is long.

ghost use Rattle.std.specs.Prelude.{◌≡◌, ◌+◌, ◌-◌, ◌*◌, ◌^◌, ◌≤◌, min};
ghost use Rattle.std.specs.List.Sorted.{IsStrictlyIncreasing};
ghost use Rattle.line_window.specs.Line.{line_of};
ghost use Rattle.line_window.specs.Search.{count_below, probes_of};

use crate::keys::Keys;
use crate::line::Line;
use crate::probes::Probes;

/// The number of keys below the key, which is the place of the first key that isn't.
pub fn lower_bound<K: Keys>(line: &Line, keys: &mut K, key: u64, probes: &mut Probes) -> usize
    requires rising { IsStrictlyIncreasing (K.list keys.old) }
    requires line { line.now ≡ line_of (K.list keys.old) }
    ensures count { result ≡ count_below (K.list keys.old) key }

    // Each comparison of the halving is one probe and at most one read.
    ensures probes { probes.new ≡ min (probes.old + probes_of (K.list keys.old) key) u64.MAX }
    ensures few { 2 ^ probes_of (K.list keys.old) key ≤ 4 * line.now.error + 4 }
    ensures reads { K.reads keys.new ≤ K.reads keys.old + probes_of (K.list keys.old) key }
    ensures reads_kept { K.reads keys.old ≤ K.reads keys.new }

    // Reading changes neither the keys nor what their reader was made with.
    ensures list { K.list keys.new ≡ K.list keys.old }
    ensures origin { K.origin keys.new ≡ K.origin keys.old }
    ensures leads { K.leads_to keys.old keys.new }
{
    let (mut low, mut high) = line.window(key);
    let mut comparisons = 0u64;
    while low < high {
        comparisons += 1;
        let middle = low + (high - low) / 2;
        if keys.key(middle) < key {
            low = middle + 1;
        } else {
            high = middle;
        }
    }
    probes.add(comparisons);
    low
}
