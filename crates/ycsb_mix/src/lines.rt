//! What the lines of a mix say, for who runs the trace without writing it.
ghost use Rattle.std.specs.Prelude.{◌≡◌, ◌≢◌, ◌≤◌, ◌^◌, IfOk, map};
ghost use Rattle.std.specs.List.{filter};
ghost use Rattle.trace_text.specs.Lines.{IsLine};
ghost use Rattle.trace_text.specs.Traces.{IsTrace, is_told};
ghost use Rattle.ycsb_mix.specs.Mix.{said_by, text_of};

use crate::mixes::{Mix, Step};
use crate::steps::mix_steps;
use std::alloc::{AllocError, Global};
use trace_text::{Line, Trace};
use wire_commands::Request;

/// The lines of the trace of a mix without scans, for the numbers that `write_mix` takes.
///
/// They are what `read_trace` gives of the text that `write_mix` writes. The error is want of memory.
pub fn mix_lines(
    alloc: Global,
    mix: Mix,
    load: u32,
    ops: u32,
    callers: u32,
    seed: u64,
) -> Result<Trace, AllocError>
    requires no_scans { mix ≢ Mix.E }
    requires loads_some { 1 ≤ load }
    requires loads_few { load ≤ 2 ^ 20 }
    requires few { ops ≤ 2 ^ 20 }
    requires has_callers { 1 ≤ callers }
    requires has_few_callers { callers ≤ 64 }
    ensures { IfOk result (IsTrace callers (text_of mix load ops callers seed)) }
{
    let steps = mix_steps(alloc, mix, load, ops, callers, seed)?;
    trace_of(alloc, &steps)
}

/// What these steps say, where they say anything.
fn trace_of(alloc: Global, steps: &[Step]) -> Result<Trace, AllocError>
    ensures { IfOk result (λ trace. trace ≡ filter is_told (map said_by steps.now)) }
{
    let mut trace = Trace::new(alloc);
    for &step in steps {
        trace.push(said_by(step))?;
    }
    Ok(trace)
}

/// What the line of a step says.
fn said_by(step: Step) -> Line
    ensures said { result ≡ said_by step }
    ensures fits { IsLine result }
{
    match step {
        Step::Phase => Line::Phase,
        Step::Caller(caller) => Line::Caller(caller),
        Step::Get { key } => Line::Call(Request::Get { key }),
        Step::Put { key, value } => Line::Call(Request::Put { key, value }),
        // Traces have no scans yet, and a mix with scans has no lines here.
        Step::Scan { .. } => Line::Skip,
    }
}
