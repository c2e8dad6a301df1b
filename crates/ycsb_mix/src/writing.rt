//! The text of a mix, in memory and written to a sink.
ghost use Rattle.std.specs.Prelude.{◌≡◌, ◌++◌, ◌≤◌, ◌^◌, IfOk, OnOk, Err};
ghost use Rattle.std.specs.List.{flat_map};
ghost use Rattle.std.specs.Io.KnownBytes.{append_known};
ghost use Rattle.line_session.specs.Ends.{TakesFront, CountsWrite};
ghost use Rattle.ycsb_mix.specs.Mix.{line_of, text_of};

use crate::mixes::{Mix, MixError, Step};
use crate::steps::mix_steps;
use line_session::{Sink, write_all};
use std::alloc::{AllocError, Global};
use trace_text::{append_number, append_pair};

/// The text of the trace of a mix: the load, and then the operations, caller by caller in each phase.
///
/// It takes a load of 1 to 1,048,576 keys, at most 1,048,576 operations, 1 to 64 callers and any seed. The error is
/// want of memory.
pub fn mix_text(
    alloc: Global,
    mix: Mix,
    load: u32,
    ops: u32,
    callers: u32,
    seed: u64,
) -> Result<Vec<u8>, AllocError>
    requires loads_some { 1 ≤ load }
    requires loads_few { load ≤ 2 ^ 20 }
    requires few { ops ≤ 2 ^ 20 }
    requires has_callers { 1 ≤ callers }
    requires has_few_callers { callers ≤ 64 }
    ensures { IfOk result (λ text. text.items ≡ text_of mix load ops callers seed) }
{
    let steps = mix_steps(alloc, mix, load, ops, callers, seed)?;
    text_of(alloc, &steps)
}

/// Writes the trace of a mix, for the numbers that `mix_text` takes.
///
/// All memory is taken before the first write. Where the sink failed, it has taken a front of the text, and not all
/// of it.
pub fn write_mix<K: Sink>(
    alloc: Global,
    mix: Mix,
    load: u32,
    ops: u32,
    callers: u32,
    seed: u64,
    sink: &mut K,
) -> Result<(), MixError>
    requires loads_some { 1 ≤ load }
    requires loads_few { load ≤ 2 ^ 20 }
    requires few { ops ≤ 2 ^ 20 }
    requires has_callers { 1 ≤ callers }
    requires has_few_callers { callers ≤ 64 }
    ensures ok { OnOk result ((K.state sink.new).written
        ≡ append_known (K.state sink.old).written (text_of mix load ops callers seed)) }
    ensures write_fault { result ≡ Err MixError.WriteFault
        → TakesFront (text_of mix load ops callers seed)
        (K.state sink.old).written (K.state sink.new).written }
    ensures memory { result ≡ Err MixError.Memory
        → (K.state sink.new).written ≡ (K.state sink.old).written }
    ensures faults { CountsWrite (result ≡ Err MixError.WriteFault)
        (K.state sink.old) (K.state sink.new) }
{
    let Ok(text) = mix_text(alloc, mix, load, ops, callers, seed) else {
        return Err(MixError::Memory);
    };
    match write_all(sink, &text) {
        Ok(()) => Ok(()),
        Err(_) => Err(MixError::WriteFault),
    }
}

/// The lines of steps.
fn text_of(alloc: Global, steps: &[Step]) -> Result<Vec<u8>, AllocError>
    ensures { IfOk result (λ text. text.items ≡ flat_map line_of steps.now) }
{
    let mut text = Vec::new(alloc);
    for &step in steps {
        append_step(&mut text, step)?;
    }
    Ok(text)
}

/// Appends the line of a step.
fn append_step(text: &mut Vec<u8>, step: Step) -> Result<(), AllocError>
    ensures { OnOk result (text.new.items ≡ text.old.items ++ line_of step) }
{
    match step {
        Step::Phase => text.extend_from_slice(b"phase\n"),
        Step::Caller(caller) => append_number(text, b"caller ", u64::from(caller)),
        Step::Get { key } => append_number(text, b"get ", key),
        Step::Put { key, value } => append_pair(text, b"put ", key, value),
        Step::Scan { from, count } => append_pair(text, b"scan ", from, u64::from(count)),
    }
}
