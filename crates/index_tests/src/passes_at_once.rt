//! Four callers at once, each in a thread of its own where one can be made.
ghost use Rattle.std.specs.Prelude.{◌≡◌, ◌<◌, ◌+◌, [], ◌∷◌};
ghost use Rattle.xindex_core.specs.Notes.{HeedsNews, StaysAs};
ghost use Rattle.xindex_core.specs.OneOrder.{AllKnow, HaveOneOrder, IsPassOfCaller};
ghost use Rattle.xindex_core.specs.Passes.{IsPassOf, known_to, number_of};

use crate::boards::SMALL;
use crate::indexes::{next_pass, opened_index};
use crate::orders_of_one_key::{Step, is_last, last_front};
use map_model::Call;
use std::alloc::{AllocError, Global};
use std::process::Abort;
use std::test::Fail;
use std::thread;
use std::thread::Threads;
use word_layout::Limits;
use xindex_core::{Index, Opened, Pass, Tried, callers_share_one_order};

// How many calls each caller makes.
const ROUNDS: u32 = 400;

// How often a call is tried: one that another thread keeps from its answer may need a while.
const TRIES: u32 = 1_000_000;

// What a call said of a key.
#[derive(Clone, Copy)]
struct Seen {
    key: u64,
    step: Step,
}

// A pass of each caller.
type Passes = (Pass, Pass, Pass, Pass);

// What the calls of a caller came to: what it saw, and how many were refused, or given up.
#[derive(Drop)]
struct Came {
    seen: Vec<Seen>,
    refused: usize,
    given_up: usize,
}

// A pass that came back, and what its calls came to.
type Visit = (Pass, Result<Came, AllocError>);

// A new index for four callers, with room for some hundred keys.
fn opened_for_four(rt: &impl Abort, alloc: Global) -> (Index, Passes)
    ensures first { IsPassOfCaller result.0 0 result.1.0 }
    ensures second { IsPassOfCaller result.0 1 result.1.1 }
    ensures third { IsPassOfCaller result.0 2 result.1.2 }
    ensures fourth { IsPassOfCaller result.0 3 result.1.3 }
{
    let limits = Limits {
        callers: 4,
        records: 512,
        ..SMALL
    };
    let Opened { index, passes, .. } = opened_index(rt, alloc, limits);
    let mut passes = passes.into_iter();
    let first = next_pass(rt, &index, 0, &mut passes);
    let second = next_pass(rt, &index, 1, &mut passes);
    let third = next_pass(rt, &index, 2, &mut passes);
    let fourth = next_pass(rt, &index, 3, &mut passes);
    (index, (first, second, third, fourth))
}

// The key that the caller calls for in a round, and what it asks: no two of its puts have one value.
fn call_of(caller: u32, round: u32, keys: u64) -> (u64, Call)
    requires { 0 < keys }
{
    let value = u64::from(caller)
        .wrapping_mul(1000)
        .wrapping_add(u64::from(round));
    let mixed = value.wrapping_mul(0x9e37_79b9_7f4a_7c15) >> 32;
    let key = mixed % keys;
    let call = match (mixed >> 16) % 4 {
        0 => Call::Get { key },
        1 => Call::Remove { key },
        _ => Call::Put { key, value },
    };
    (key, call)
}

// Makes the call, once.
fn tried(index: &Index, pass: &mut Pass, call: Call) -> Tried<Option<u64>>
    requires { IsPassOf index.now pass.old }
    ensures pass { IsPassOf index.now pass.new }
    ensures number { number_of pass.new ≡ number_of pass.old }
{
    match call {
        Call::Get { key } | Call::Next { from: key } => pass.try_get(index, key),
        Call::Put { key, value } => pass.try_put(index, key, value),
        Call::Remove { key } => pass.try_remove(index, key),
    }
}

// What the call came to in the end: it was given up where it is still to be tried again.
fn answered(index: &Index, pass: &mut Pass, call: Call) -> Tried<Option<u64>>
    requires { IsPassOf index.now pass.old }
    ensures pass { IsPassOf index.now pass.new }
    ensures number { number_of pass.new ≡ number_of pass.old }
{
    let mut came = tried(index, pass, call);
    for _ in 1..TRIES {
        let Tried::Again(_) = came else {
            break;
        };
        thread::yield_now();
        came = tried(index, pass, call);
    }
    came
}

// What the call made of this value of its key.
fn step_of(call: Call, found: Option<u64>) -> Step {
    let behind = match call {
        Call::Get { .. } | Call::Next { .. } => found,
        Call::Put { key: _, value } => Some(value),
        Call::Remove { .. } => None,
    };
    Step {
        before: found,
        behind,
    }
}

// The caller makes its calls, one after another.
fn calls(
    index: &Index,
    alloc: Global,
    caller: u32,
    keys: u64,
    pass: &mut Pass,
) -> Result<Came, AllocError>
    requires keys { 0 < keys }
    requires pass { IsPassOfCaller index.now caller pass.old }
    ensures { IsPassOfCaller index.now caller pass.new }
{
    let mut seen = Vec::new(alloc);
    let mut refused = 0usize;
    let mut given_up = 0usize;
    for round in 0..ROUNDS {
        let (key, call) = call_of(caller, round, keys);
        match answered(index, pass, call) {
            Tried::Done(found) => {
                let step = step_of(call, found);
                seen.push(Seen { key, step })?;
            }
            Tried::Full | Tried::Worn { .. } => refused = refused.wrapping_add(1),
            Tried::Again(_) => given_up = given_up.wrapping_add(1),
        }
    }
    Ok(Came {
        seen,
        refused,
        given_up,
    })
}

// The caller with this pass makes its calls.
fn visit(index: &Index, alloc: Global, caller: u32, keys: u64, mut pass: Pass) -> Visit
    requires keys { 0 < keys }
    requires pass { IsPassOfCaller index.now caller pass }
    ensures { IsPassOfCaller index.now caller result.0 }
{
    let came = calls(index, alloc, caller, keys, &mut pass);
    (pass, came)
}

// Two callers at once, of which the first has this number.
fn visit_by_two<R: Threads + Sync>(
    rt: &R,
    index: &Index,
    alloc: Global,
    number: u32,
    keys: u64,
    passes: (Pass, Pass),
) -> (Visit, Visit)
    requires number { number < 4 }
    requires keys { 0 < keys }
    requires first { IsPassOfCaller index.now number passes.0 }
    requires second { IsPassOfCaller index.now (number + 1) passes.1 }
    ensures first { IsPassOfCaller index.now number result.0.0 }
    ensures second { IsPassOfCaller index.now (number + 1) result.1.0 }
{
    let (first, second) = passes;
    let next = number + 1;
    thread::join(
        rt,
        move || -> Visit
            requires keys { 0 < keys }
            requires pass { IsPassOfCaller index.now number first }
            ensures { IsPassOfCaller index.entry.now number result.0 }
        { visit(index, alloc, number, keys, first) },
        move || -> Visit
            requires keys { 0 < keys }
            requires pass { IsPassOfCaller index.now next second }
            ensures { IsPassOfCaller index.entry.now next result.0 }
        { visit(index, alloc, next, keys, second) },
    )
}

// All four callers at once.
fn visit_by_four<R: Threads + Sync>(
    rt: &R,
    index: &Index,
    alloc: Global,
    keys: u64,
    passes: Passes,
) -> ((Visit, Visit), (Visit, Visit))
    requires keys { 0 < keys }
    requires first { IsPassOfCaller index.now 0 passes.0 }
    requires second { IsPassOfCaller index.now 1 passes.1 }
    requires third { IsPassOfCaller index.now 2 passes.2 }
    requires fourth { IsPassOfCaller index.now 3 passes.3 }
    ensures first { IsPassOfCaller index.now 0 result.0.0.0 }
    ensures second { IsPassOfCaller index.now 1 result.0.1.0 }
    ensures third { IsPassOfCaller index.now 2 result.1.0.0 }
    ensures fourth { IsPassOfCaller index.now 3 result.1.1.0 }
{
    let (first, second, third, fourth) = passes;
    thread::join(
        rt,
        move || -> (Visit, Visit)
            requires keys { 0 < keys }
            requires first { IsPassOfCaller index.now 0 first }
            requires second { IsPassOfCaller index.now 1 second }
            ensures first { IsPassOfCaller index.entry.now 0 result.0.0 }
            ensures second { IsPassOfCaller index.entry.now 1 result.1.0 }
        { visit_by_two(rt, index, alloc, 0, keys, (first, second)) },
        move || -> (Visit, Visit)
            requires keys { 0 < keys }
            requires third { IsPassOfCaller index.now 2 third }
            requires fourth { IsPassOfCaller index.now 3 fourth }
            ensures third { IsPassOfCaller index.entry.now 2 result.0.0 }
            ensures fourth { IsPassOfCaller index.entry.now 3 result.1.0 }
        { visit_by_two(rt, index, alloc, 2, keys, (third, fourth)) },
    )
}

// The pass heeds what the other one tells.
fn heed_other(index: &Index, pass: &mut Pass, other: &mut Pass)
    requires pass { IsPassOf index.now pass.old }
    requires other { IsPassOf index.now other.old }
    ensures pass { HeedsNews index.now pass.old (known_to other.old) pass.new }
    ensures other { StaysAs index.now other.old other.new }
{
    let note = other.tell(index);
    pass.heed(index, note);
}

// The news goes round once, and then back to all: so each pass knows what any of them knew.
fn told(index: &Index, passes: Passes) -> Passes
    requires first { IsPassOfCaller index.now 0 passes.0 }
    requires second { IsPassOfCaller index.now 1 passes.1 }
    requires third { IsPassOfCaller index.now 2 passes.2 }
    requires fourth { IsPassOfCaller index.now 3 passes.3 }
    ensures { let all = result.0 ∷ result.1 ∷ result.2 ∷ result.3 ∷ [] in
        AllKnow index.now (known_to result.3) 0 all }
{
    let (mut first, mut second, mut third, mut fourth) = passes;
    heed_other(index, &mut second, &mut first);
    heed_other(index, &mut third, &mut second);
    heed_other(index, &mut fourth, &mut third);
    heed_other(index, &mut first, &mut fourth);
    heed_other(index, &mut second, &mut fourth);
    heed_other(index, &mut third, &mut fourth);
    (first, second, third, fourth)
}

// All that was answered to callers whose passes know the same has one order.
fn share_one_order(_index: &Index, _passes: &Passes)
    requires { let all = _passes.now.0 ∷ _passes.now.1 ∷ _passes.now.2 ∷ _passes.now.3 ∷ [] in
        AllKnow _index.now (known_to _passes.now.3) 0 all }
    ensures { let all = _passes.now.0 ∷ _passes.now.1 ∷ _passes.now.2 ∷ _passes.now.3 ∷ [] in
        HaveOneOrder _index.now (known_to _passes.now.3) all }
{
    callers_share_one_order();
}

// What the caller saw of the key, in turn.
fn steps_of(alloc: Global, seen: &[Seen], key: u64) -> Result<Vec<Step>, AllocError> {
    let mut steps = Vec::new(alloc);
    for one in seen {
        if one.key == key {
            steps.push(one.step)?;
        }
    }
    Ok(steps)
}

// What the key has at the end of the order into which all that was seen of it has to fit.
fn left_at(
    rt: &impl Abort,
    alloc: Global,
    seen: (&[Seen], &[Seen], &[Seen], &[Seen]),
    key: u64,
) -> Result<Option<u64>, AllocError> {
    let first = steps_of(alloc, seen.0, key)?;
    let second = steps_of(alloc, seen.1, key)?;
    let third = steps_of(alloc, seen.2, key)?;
    let fourth = steps_of(alloc, seen.3, key)?;
    let steps = vec![in alloc; first, second, third, fourth]?;
    let front = last_front(steps.as_slice(), 2000);
    assert!(rt; is_last(steps.as_slice(), front), "at key {key}");
    Ok(front.value)
}

// Asserts that the pass gets these values of the keys from 0 on.
fn assert_gets(rt: &impl Abort, index: &Index, mut pass: Pass, values: &[Option<u64>])
    requires { IsPassOf index.now pass }
{
    for (key, value) in values.iter().enumerate() {
        let got = pass.try_get(index, key as u64);
        assert_eq!(rt; got, Tried::Done(*value), "at key {key}");
    }
}

// Asserts that each call was answered or refused, and none given up.
fn assert_all_came(rt: &impl Abort, came: &Came) {
    assert_eq!(rt; came.seen.len().wrapping_add(came.refused), ROUNDS as usize);
    assert_eq!(rt; came.given_up, 0);
}

// Four callers call for so many keys at once: what they saw has one order, at whose end all get the same.
fn assert_one_order<R: Threads + Sync + Abort>(
    rt: &R,
    alloc: Global,
    keys: u64,
) -> Result<(), AllocError>
    requires { 0 < keys }
{
    let (index, passes) = opened_for_four(rt, alloc);
    let (((first, a), (second, b)), ((third, c), (fourth, d))) = visit_by_four(
        rt, &index, alloc, keys, passes,
    );
    let (a, b, c, d) = (a?, b?, c?, d?);
    for came in [&a, &b, &c, &d] {
        assert_all_came(rt, came);
    }
    let seen = (
        a.seen.as_slice(),
        b.seen.as_slice(),
        c.seen.as_slice(),
        d.seen.as_slice(),
    );
    let mut left = Vec::new(alloc);
    for key in 0..keys {
        left.push(left_at(rt, alloc, seen, key)?)?;
    }
    let passes = told(&index, (first, second, third, fourth));
    share_one_order(&index, &passes);
    let (first, second, third, fourth) = passes;
    assert_gets(rt, &index, first, left.as_slice());
    assert_gets(rt, &index, second, left.as_slice());
    assert_gets(rt, &index, third, left.as_slice());
    assert_gets(rt, &index, fourth, left.as_slice());
    Ok(())
}

#[test]
fn calls_for_few_keys_at_once_have_one_order(rt: HostRuntime) -> Result<(), Fail> {
    assert_one_order(&rt, rt.alloc(), 3)?;
    Ok(())
}

#[test]
fn calls_for_many_keys_at_once_have_one_order(rt: HostRuntime) -> Result<(), Fail> {
    assert_one_order(&rt, rt.alloc(), 300)?;
    Ok(())
}
