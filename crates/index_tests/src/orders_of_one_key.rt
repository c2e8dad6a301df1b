//! Whether what several callers saw of one key fits one order.
//!
//! No value is put twice, so one change at most leads away from it, behind all looks that saw it. Where
//! the key has no value, the order goes on with any insertion after which all fits up to the next removal:
//! two such stretches have no caller in common, so either may come first.
use std::vec::Vec;

/// How many callers there are.
pub(crate) const CALLERS: usize = 4;

/// The value that a key had before a call and behind it.
#[derive(Clone, Copy, PartialEq, Eq)]
pub(crate) struct Step {
    pub(crate) before: Option<u64>,
    pub(crate) behind: Option<u64>,
}

/// A front of an order: how many steps of each caller stand behind it, and what the key has there.
#[derive(Clone, Copy)]
pub(crate) struct Front {
    pub(crate) taken: [usize; 4],
    pub(crate) value: Option<u64>,
}

/// The front behind all steps that fit one order, each caller's in turn, of a key that had no value.
pub(crate) fn last_front(steps: &[Vec<Step>], most: usize) -> Front {
    let mut front = Front {
        taken: [0; 4],
        value: None,
    };
    for _ in 0..most {
        front = behind_looks(steps, most, front);
        let Some(next) = (0..CALLERS).find_map(|caller| lifetime(steps, most, front, caller)) else {
            break;
        };
        front = next;
    }
    front
}

/// Whether all steps of all callers stand behind the front.
pub(crate) fn is_last(steps: &[Vec<Step>], front: Front) -> bool {
    for caller in 0..CALLERS {
        if !ahead(steps, front, caller).is_empty() {
            return false;
        }
    }
    true
}

// Whether a caller is still to see the value that the key has at the front.
fn is_seen_later(steps: &[Vec<Step>], front: Front) -> bool {
    for caller in 0..CALLERS {
        let ahead = ahead(steps, front, caller);
        if ahead.iter().any(|step| step.before == front.value && step.behind == front.value) {
            return true;
        }
    }
    false
}

// The steps of the caller that are not behind the front.
fn ahead(steps: &[Vec<Step>], front: Front, caller: usize) -> &[Step] {
    let taken = front.taken.get(caller).copied().unwrap_or(0);
    match steps.get(caller) {
        Some(all) => all.as_slice().get(taken..).unwrap_or(&[]),
        None => &[],
    }
}

// The front behind the next step of the caller, where that fits and is a look, or where it is a change.
fn behind_step(steps: &[Vec<Step>], front: Front, caller: usize, is_look: bool) -> Option<Front> {
    let step = *ahead(steps, front, caller).first()?;
    if step.before != front.value || (step.before == step.behind) != is_look {
        return None;
    }
    let mut next = front;
    let taken = next.taken.get_mut(caller)?;
    *taken = taken.wrapping_add(1);
    next.value = step.behind;
    Some(next)
}

// The front behind all looks that fit.
fn behind_looks(steps: &[Vec<Step>], most: usize, from: Front) -> Front {
    let mut front = from;
    for _ in 0..most {
        let Some(next) = (0..CALLERS).find_map(|caller| behind_step(steps, front, caller, true))
        else {
            break;
        };
        front = next;
    }
    front
}

// The front behind an insertion by the caller and all that fits up to the next removal, or to the end.
fn lifetime(steps: &[Vec<Step>], most: usize, from: Front, caller: usize) -> Option<Front> {
    let mut front = behind_step(steps, from, caller, false)?;
    for _ in 0..most {
        front = behind_looks(steps, most, front);
        if front.value.is_none() || is_last(steps, front) {
            return Some(front);
        }
        if is_seen_later(steps, front) {
            return None;
        }
        front = (0..CALLERS).find_map(|caller| behind_step(steps, front, caller, false))?;
    }
    None
}
