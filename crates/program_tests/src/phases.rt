//! The phases of a trace, run by callers in threads of their own.
ghost use Rattle.trace_text.specs.Lines.{IsCall};

use std::alloc::{AllocError, Global};
use std::process::Abort;
use std::sync::atomic::{AtomicBool, Ordering};
use std::sync::{Arc, Wait};
use std::test::Fail;
use std::thread;
use std::thread::Threads;
use trace_text::{Line, Trace, read_trace};
use wire_commands::Request;
use word_layout::Limits;
use xindex::{Gate, NoGate, Ran, run_phases};
use xindex_core::Index;

// Two callers, of which each gets in the second phase what the other one put in the first.
const TRACE: &[u8] =
    b"phase\ncaller 0\nput 1 10\ncaller 1\nput 2 20\nphase\ncaller 0\nget 2\ncaller 1\nget 1\n";

const TRANSCRIPT: &[u8] =
    b"phase 1\ncaller 0\nnew\ncaller 1\nnew\nphase 2\ncaller 0\nvalue 20\ncaller 1\nvalue 10\n";

// How often a held caller yields at most.
const YIELDS: u32 = 10_000_000;

// How many keys four callers call for, and how many calls each of them makes in three phases.
const KEYS: u64 = 16;

const CALLS: u32 = 1000;

const PHASES: [(u32, u32); 3] = [(0, 400), (400, 700), (700, CALLS)];

// The trace of two callers.
fn trace_of_two(rt: &impl Abort, alloc: Global) -> Trace {
    let Ok(trace) = read_trace(alloc, TRACE, 4) else {
        panic!(rt; "the trace is good, and there is memory");
    };
    trace
}

// A new index, over which the trace was run.
fn run<R: Threads + Wait + Copy + Send + Sync + Abort + 'static, G: Gate + Send + Sync + 'static>(
    rt: &R,
    alloc: Global,
    trace: &Trace,
    gate: Arc<G>,
) -> Result<Ran, AllocError> {
    let Ok(opened) = Index::open(alloc, Limits::standard(), &[]) else {
        panic!(rt; "the limits are kept, and there is memory");
    };
    run_phases(rt, alloc, opened, trace, gate)
}

#[test]
fn a_phase_sees_what_the_one_before_it_changed(rt: HostRuntime) -> Result<(), Fail> {
    let trace = trace_of_two(&rt, rt.alloc());
    let gate = Arc::new(rt.alloc(), NoGate)?;
    let ran = run(&rt, rt.alloc(), &trace, gate)?;
    assert_eq!(rt; ran.transcript.as_slice(), TRANSCRIPT);
    Ok(())
}

// Holds the first call of caller 0 until the first of caller 1 was let through.
#[derive(Drop)]
struct HoldsFirst {
    other_passed: AtomicBool,
    was_let_go: AtomicBool,
}

impl Gate for HoldsFirst {
    fn before<R: Wait + Copy>(&self, _rt: &R, link: u64, reply: u64) {
        match (link, reply) {
            (0, 0) => {
                for _ in 0..YIELDS {
                    if self.other_passed.load(Ordering::SeqCst) {
                        return;
                    }
                    thread::yield_now();
                }
                self.was_let_go.store(true, Ordering::SeqCst);
            }
            (1, 0) => self.other_passed.store(true, Ordering::SeqCst),
            _ => {}
        }
    }
}

#[test]
fn two_callers_are_in_their_calls_at_once(rt: HostRuntime) -> Result<(), Fail> {
    let trace = trace_of_two(&rt, rt.alloc());
    let gate = Arc::new(
        rt.alloc(),
        HoldsFirst {
            other_passed: AtomicBool::new(false),
            was_let_go: AtomicBool::new(false),
        },
    )?;
    let held = Arc::try_clone(&gate)?;
    let ran = run(&rt, rt.alloc(), &trace, gate)?;
    assert!(rt; !held.was_let_go.load(Ordering::SeqCst));
    assert_eq!(rt; ran.transcript.as_slice(), TRANSCRIPT);
    Ok(())
}

// What the caller asks in a round: no two of its puts have one value.
fn request_of(caller: u32, round: u32) -> Request
    ensures { IsCall result }
{
    let value = u64::from(caller)
        .wrapping_mul(u64::from(CALLS))
        .wrapping_add(u64::from(round));
    let mixed = value.wrapping_mul(0x9e37_79b9_7f4a_7c15) >> 32;
    let key = mixed % KEYS;
    match (mixed >> 16) % 4 {
        0 | 1 => Request::Get { key },
        _ => Request::Put { key, value },
    }
}

// The trace of four callers in three phases.
fn trace_of_four(alloc: Global) -> Result<Trace, AllocError> {
    let mut trace = Trace::new(alloc);
    for (first, end) in PHASES {
        trace.push(Line::Phase)?;
        for caller in 0..4 {
            trace.push(Line::Caller(caller))?;
            for round in first..end {
                trace.push(Line::Call(request_of(caller, round)))?;
            }
        }
    }
    Ok(trace)
}

// What a call saw of its key: the value before it and behind it.
#[derive(Clone, Copy)]
struct Seen {
    phase: usize,
    caller: u32,
    before: Option<u64>,
    behind: Option<u64>,
}

// What the reply to the call tells of its key, or `None` for another reply.
fn seen_by(phase: usize, caller: u32, request: Request, reply: &str) -> Option<Seen> {
    let before = match reply {
        "none" | "new" => None,
        _ => Some(value_in(reply)?),
    };
    let behind = match request {
        Request::Put { key: _, value } => Some(value),
        _ => before,
    };
    Some(Seen {
        phase,
        caller,
        before,
        behind,
    })
}

// The value that the reply tells.
fn value_in(reply: &str) -> Option<u64> {
    let digits = reply.strip_prefix("value ").or(reply.strip_prefix("old "))?;
    digits.parse::<u64>().ok()
}

// The key of a get or a put.
fn key_of(request: Request) -> u64 {
    match request {
        Request::Get { key } | Request::Put { key, .. } => key,
        _ => u64::MAX,
    }
}

// What all callers saw of the key, phase by phase and caller by caller, by the transcript.
fn seen_of(
    rt: &impl Abort,
    alloc: Global,
    transcript: &str,
    key: u64,
) -> Result<Vec<Seen>, AllocError> {
    let mut all = Vec::new(alloc);
    let mut lines = transcript.lines();
    for (phase, (first, end)) in PHASES.into_iter().enumerate() {
        let _phase = lines.next();
        for caller in 0..4u32 {
            let _caller = lines.next();
            for round in first..end {
                let reply = lines.next().unwrap_or("");
                let request = request_of(caller, round);
                let Some(seen) = seen_by(phase, caller, request, reply) else {
                    panic!(rt; "caller {caller} in round {round}: {reply}");
                };
                if key_of(request) == key {
                    all.push(seen)?;
                }
            }
        }
    }
    Ok(all)
}

// The values that the key had in turn: no value is put twice, so one change at most leads away from each.
fn values_in_turn(alloc: Global, all: &[Seen]) -> Result<Vec<u64>, AllocError> {
    let mut values = Vec::new(alloc);
    let mut last = None;
    for _ in all {
        let Some(next) = all
            .iter()
            .find(|seen| seen.before == last && seen.behind != last)
        else {
            break;
        };
        if let Some(value) = next.behind {
            values.push(value)?;
        }
        last = next.behind;
    }
    Ok(values)
}

// How many changes the key had when it had this value.
fn place_of(values: &[u64], value: Option<u64>) -> Option<usize> {
    match value {
        None => Some(0),
        Some(value) => {
            let at = values.iter().position(|other| *other == value)?;
            at.checked_add(1)
        }
    }
}

// How many changes were seen up to the end of the phase with this number, from 1.
fn changes_until(all: &[Seen], phase: usize) -> usize {
    all.iter()
        .filter(|seen| seen.phase < phase && seen.before != seen.behind)
        .count()
}

// Whether the call stands in the stretch of its phase, and its change is the one behind what it saw.
fn stands_in_its_phase(all: &[Seen], values: &[u64], seen: Seen) -> bool {
    let (Some(before), Some(behind)) = (
        place_of(values, seen.before),
        place_of(values, seen.behind),
    ) else {
        return false;
    };
    let step = if seen.before == seen.behind { 0 } else { 1 };
    behind.wrapping_sub(before) == step
        && changes_until(all, seen.phase) <= before
        && behind <= changes_until(all, seen.phase.wrapping_add(1))
}

// Whether what the caller saw does not go back.
fn goes_on(all: &[Seen], values: &[u64], caller: u32) -> bool {
    let mut at = 0;
    for seen in all.iter().filter(|seen| seen.caller == caller) {
        let (Some(before), Some(behind)) = (
            place_of(values, seen.before),
            place_of(values, seen.behind),
        ) else {
            return false;
        };
        if before < at {
            return false;
        }
        at = behind;
    }
    true
}

#[test]
fn what_four_callers_saw_in_three_phases_has_one_order(rt: HostRuntime) -> Result<(), Fail> {
    let trace = trace_of_four(rt.alloc())?;
    let gate = Arc::new(rt.alloc(), NoGate)?;
    let ran = run(&rt, rt.alloc(), &trace, gate)?;
    let Ok(transcript) = std::str::from_utf8(&ran.transcript) else {
        panic!(&rt; "a transcript is text");
    };
    for key in 0..KEYS {
        let all = seen_of(&rt, rt.alloc(), transcript, key)?;
        let values = values_in_turn(rt.alloc(), &all)?;
        assert_eq!(rt;
            values.len(),
            changes_until(&all, PHASES.len()),
            "at key {key}"
        );
        for seen in &all {
            assert!(rt; stands_in_its_phase(&all, &values, *seen), "at key {key}");
        }
        for caller in 0..4 {
            assert!(rt;
                goes_on(&all, &values, caller),
                "caller {caller} at key {key}"
            );
        }
    }
    Ok(())
}
