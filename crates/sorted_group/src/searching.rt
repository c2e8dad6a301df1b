//! The search for a key among rising keys, of which the error of their line is known.
ghost use Rattle.std.specs.Prelude.{◌≡◌, ◌+◌, ◌*◌, ◌^◌, ◌≤◌, min};
ghost use Rattle.std.specs.List.Sorted.{IsStrictlyIncreasing};
ghost use Rattle.line_window.specs.Line.{error_of, line_of};
ghost use Rattle.line_window.specs.Search.{probes_of};
ghost use Rattle.sorted_group.specs.Searches.{FindsIndex};

use line_window::{Keys, Line, Probes, lower_bound};

/// The index of the key, or as an error how many keys are smaller.
///
/// It reads the first and the last key for the line, the keys that the halving compares, and the one that it ends at.
#[inline]
pub(crate) fn index_of<K: Keys>(
    keys: &mut K,
    error: usize,
    key: u64,
    probes: &mut Probes,
) -> Result<usize, usize>
    requires rising { IsStrictlyIncreasing (K.list keys.old) }
    requires error { error ≡ error_of (K.list keys.old) }
    ensures index { FindsIndex (K.list keys.old) key result }
    ensures probes { probes.new ≡ min (probes.old + probes_of (K.list keys.old) key) u64.MAX }
    ensures few { 2 ^ probes_of (K.list keys.old) key ≤ 4 * error + 4 }
    ensures reads { K.reads keys.new ≤ K.reads keys.old + probes_of (K.list keys.old) key + 3 }
    ensures list { K.list keys.new ≡ K.list keys.old }
    ensures origin { K.origin keys.new ≡ K.origin keys.old }
    ensures leads { K.leads_to keys.old keys.new }
{
    let line = line_with(keys, error);
    let index = lower_bound(&line, keys, key, probes);
    if index < keys.len() && keys.key(index) == key {
        Ok(index)
    } else {
        Err(index)
    }
}

/// The line of the keys, from its error and from the first and the last key.
#[inline]
fn line_with<K: Keys>(keys: &mut K, error: usize) -> Line
    requires rising { IsStrictlyIncreasing (K.list keys.old) }
    requires error { error ≡ error_of (K.list keys.old) }
    ensures line { result ≡ line_of (K.list keys.old) }
    ensures reads { K.reads keys.new ≤ K.reads keys.old + 2 }
    ensures list { K.list keys.new ≡ K.list keys.old }
    ensures origin { K.origin keys.new ≡ K.origin keys.old }
    ensures leads { K.leads_to keys.old keys.new }
{
    let len = keys.len();
    if len == 0 {
        return Line::from_parts(0, 0, 0, 0);
    }
    let first = keys.key(0);
    let last = keys.key(len - 1);
    Line::from_parts(len, first, last, error)
}
