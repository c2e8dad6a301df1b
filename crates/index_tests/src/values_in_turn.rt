//! Whether what several callers saw of one key follows the values that the key had in turn.
//!
//! No value is put twice, so one change at most leads away from it.
use std::alloc::{AllocError, Global};

/// The value that a key had before a call and behind it, where the call came to an answer.
#[derive(Clone, Copy, PartialEq, Eq)]
pub(crate) struct Step {
    pub(crate) before: Option<u64>,
    pub(crate) behind: Option<u64>,
}

/// A step of a key, and whose it was.
#[derive(Clone, Copy)]
pub(crate) struct Seen {
    pub(crate) caller: u32,
    pub(crate) key: u32,
    pub(crate) step: Step,
}

// What the key came to, by a change that took it at this value.
fn change_from(seen: &[Seen], key: u32, value: u64) -> Option<Option<u64>> {
    for one in seen {
        let step = one.step;
        if one.key == key && step.before == Some(value) && step.behind != step.before {
            return Some(step.behind);
        }
    }
    None
}

/// The values that the key had in turn, by the changes that were seen. A removal is the last of them.
pub(crate) fn chain_of(
    alloc: Global,
    seen: &[Seen],
    key: u32,
    opened: u64,
) -> Result<Vec<Option<u64>>, AllocError> {
    let mut last = Some(opened);
    let mut chain = vec![in alloc; last]?;
    for _ in 0..seen.len() {
        let Some(next) = last.and_then(|value| change_from(seen, key, value)) else {
            break;
        };
        chain.push(next)?;
        last = next;
    }
    Ok(chain)
}

/// How many changes of the key were seen.
pub(crate) fn changes_of(seen: &[Seen], key: u32) -> u64 {
    let mut changes = 0u64;
    for one in seen {
        if one.key == key && one.step.before != one.step.behind {
            changes = changes.wrapping_add(1);
        }
    }
    changes
}

// Where the value stands in the chain.
fn position_of(chain: &[Option<u64>], value: Option<u64>) -> Option<u64> {
    for i in 0..chain.len() {
        if chain[i] == value {
            return Some(i as u64);
        }
    }
    None
}

/// Whether all that the caller saw of the key goes forward along the chain.
pub(crate) fn goes_forward(seen: &[Seen], chain: &[Option<u64>], caller: u32, key: u32) -> bool {
    let mut at = 0u64;
    for one in seen {
        if one.caller == caller && one.key == key {
            let step = one.step;
            let (Some(from), Some(to)) = (
                position_of(chain, step.before),
                position_of(chain, step.behind),
            ) else {
                return false;
            };
            let changed = u64::from(step.before != step.behind);
            if from < at || to != from.wrapping_add(changed) {
                return false;
            }
            at = to;
        }
    }
    true
}

/// The value and the state word of a record that had these values in turn.
pub(crate) fn left_by(chain: &[Option<u64>]) -> (u64, u64) {
    let mut left = (0, 0u64.wrapping_sub(16));
    for link in chain {
        left = match link {
            Some(value) => (*value, left.1.wrapping_add(16)),
            None => (left.0, left.1.wrapping_add(24)),
        };
    }
    left
}
