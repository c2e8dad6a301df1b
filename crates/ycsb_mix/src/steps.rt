//! The steps of a mix, caller by caller within each phase.
//!
//! A caller's numbers lie as far apart as there are callers, so nobody looks at another's numbers.
ghost use Rattle.std.specs.Prelude.{◌≡◌, [], ◌∷◌, ◌++◌, ◌+◌, ◌<◌, ◌≤◌, ◌^◌, IfOk, OnOk, length, cond};
ghost use Rattle.std.specs.List.{AllByRecursion, flat_map, range_with_len};
ghost use Rattle.ycsb_mix.specs.Mix.{key_of, load_calls, inserts, operation_calls, calls_by, late_one};
ghost use Rattle.ycsb_mix.specs.Mix.{caller_steps, phase_steps, steps_of};

use crate::drawing::{Draw, Kind, draw_all};
use crate::mixes::{Mix, Step};
use std::alloc::{AllocError, Global};

/// The steps of a mix, in order, for the numbers that `write_mix` takes.
///
/// The error is want of memory. Room is taken for two steps of 24 bytes an operation. Until the steps are
/// made, each operation takes 12 bytes more, each key of the load 8, and each key that is inserted 4.
pub fn mix_steps(
    alloc: Global,
    mix: Mix,
    load: u32,
    ops: u32,
    callers: u32,
    seed: u64,
) -> Result<Vec<Step>, AllocError>
    requires loads_some { 1 ≤ load }
    requires loads_few { load ≤ 2 ^ 20 }
    requires few { ops ≤ 2 ^ 20 }
    requires has_callers { 1 ≤ callers }
    requires has_few_callers { callers ≤ 64 }
    ensures { IfOk result (λ steps. steps.items ≡ steps_of mix load ops callers seed) }
{
    let draws = draw_all(alloc, mix, load, ops, seed)?;
    let marks = 2 + 2 * callers as usize;
    let mut steps = Vec::with_capacity(alloc, marks + load as usize + 2 * ops as usize)?;
    append_load(&mut steps, load, callers)?;
    append_operations(alloc, &mut steps, &draws, load, callers)?;
    Ok(steps)
}

/// Appends the phase that loads the keys.
fn append_load(steps: &mut Vec<Step>, load: u32, callers: u32) -> Result<(), AllocError>
    requires some { 1 ≤ callers }
    requires few { callers ≤ 64 }
    requires load { load ≤ 2 ^ 20 }
    ensures { OnOk result
        (steps.new.items ≡ steps.old.items ++ phase_steps load_calls callers load) }
{
    steps.push(Step::Phase)?;
    for caller in 0..callers {
        append_loads_of(steps, load, callers, caller)?;
    }
    Ok(())
}

/// Appends the calls that load the keys of one caller.
fn append_loads_of(
    steps: &mut Vec<Step>,
    load: u32,
    callers: u32,
    caller: u32,
) -> Result<(), AllocError>
    requires below { caller < callers }
    requires few { callers ≤ 64 }
    requires load { load ≤ 2 ^ 20 }
    ensures { OnOk result
        (steps.new.items ≡ steps.old.items ++ caller_steps load_calls callers load caller) }
{
    if caller >= load {
        return Ok(());
    }
    steps.push(Step::Caller(caller))?;
    let mut number = caller;
    while number < load {
        let key = key_of(number);
        let value = u64::from(number) + 1;
        steps.push(Step::Put { key, value })?;
        number += callers;
    }
    Ok(())
}

/// Appends the phase of the operations.
fn append_operations(
    alloc: Global,
    steps: &mut Vec<Step>,
    draws: &[Draw],
    load: u32,
    callers: u32,
) -> Result<(), AllocError>
    requires some { 1 ≤ callers }
    requires few { callers ≤ 64 }
    requires load { load ≤ 2 ^ 20 }
    requires draws { length draws.now ≤ 2 ^ 20 }
    requires within { AllByRecursion (λ d. d.rank < load) draws.now }
    ensures { OnOk result (steps.new.items ≡ steps.old.items
        ++ phase_steps (operation_calls load callers draws.now) callers (length draws.now)) }
{
    steps.push(Step::Phase)?;
    for caller in 0..callers {
        append_operations_of(alloc, steps, draws, load, callers, caller)?;
    }
    Ok(())
}

/// Appends the operations of one caller. It knows the keys that it inserted itself so far.
fn append_operations_of(
    alloc: Global,
    steps: &mut Vec<Step>,
    draws: &[Draw],
    load: u32,
    callers: u32,
    caller: u32,
) -> Result<(), AllocError>
    requires below { caller < callers }
    requires few { callers ≤ 64 }
    requires load { load ≤ 2 ^ 20 }
    requires draws { length draws.now ≤ 2 ^ 20 }
    requires within { AllByRecursion (λ d. d.rank < load) draws.now }
    ensures { OnOk result (steps.new.items ≡ steps.old.items
        ++ caller_steps (operation_calls load callers draws.now) callers (length draws.now)
        caller) }
{
    if caller as usize >= draws.len() {
        return Ok(());
    }
    steps.push(Step::Caller(caller))?;
    let mut own = Vec::new(alloc);
    let mut j = caller;
    while (j as usize) < draws.len() {
        let draw = draws[j as usize];
        append_calls(steps, draw, load, j, &own)?;
        keep_own(&mut own, draw, load + j)?;
        j += callers;
    }
    Ok(())
}

/// Keeps the number of the key that an operation inserts, where it inserts one.
fn keep_own(own: &mut Vec<u32>, draw: Draw, number: u32) -> Result<(), AllocError>
    ensures { OnOk result
        (own.new.items ≡ own.old.items ++ cond (inserts draw.kind) (number ∷ []) []) }
{
    match draw.kind {
        Kind::Insert => Ok(own.push(number)?),
        _ => Ok(()),
    }
}

/// Appends the calls of operation `j`, whose caller has inserted the keys with its own numbers.
fn append_calls(
    steps: &mut Vec<Step>,
    draw: Draw,
    load: u32,
    j: u32,
    own: &[u32],
) -> Result<(), AllocError>
    requires load { load ≤ 2 ^ 20 }
    requires few { j ≤ 2 ^ 20 }
    requires within { draw.rank < load }
    ensures { OnOk result (steps.new.items ≡ steps.old.items
        ++ calls_by load draw.kind draw.rank draw.count j (range_with_len 0 load ++ own.now)) }
{
    let key = key_of(draw.rank);
    let value = u64::from(load) + u64::from(j) + 1;
    match draw.kind {
        Kind::Get => push_step(steps, Step::Get { key }),
        Kind::Put => push_step(steps, Step::Put { key, value }),
        Kind::GetThenPut => {
            push_step(steps, Step::Get { key })?;
            push_step(steps, Step::Put { key, value })
        }
        Kind::GetLate => {
            let key = key_of(late_number(load, own, draw.rank));
            push_step(steps, Step::Get { key })
        }
        Kind::Insert => {
            let key = key_of(load + j);
            push_step(steps, Step::Put { key, value })
        }
        Kind::Scan => {
            let count = draw.count;
            push_step(steps, Step::Scan { from: key, count })
        }
    }
}

/// Appends one step.
fn push_step(steps: &mut Vec<Step>, step: Step) -> Result<(), AllocError>
    ensures { OnOk result (steps.new.items ≡ steps.old.items ++ step ∷ []) }
{
    Ok(steps.push(step)?)
}

/// The number of the key that has so many later ones among the loaded ones and the caller's own.
fn late_number(load: u32, own: &[u32], rank: u32) -> u32
    requires { rank < load }
    ensures { result ≡ late_one (range_with_len 0 load ++ own.now) rank }
{
    let rank_is = rank as usize;
    if rank_is < own.len() {
        return own[own.len() - 1 - rank_is];
    }
    load - 1 - (rank - own.len() as u32)
}

/// The key with this number.
fn key_of(number: u32) -> u64
    ensures { result ≡ key_of number }
{
    u64::from(number).wrapping_mul(0x9e37_79b9_7f4a_7c15)
}
