//! The mode `gen`: a trace is made of a mix, and written, or run and told of by a summary.
ghost use Rattle.std.specs.Prelude.{◌≡◌, ◌≢◌, ◌≤◌, ◌^◌, IfOk};
ghost use Rattle.line_session.specs.Ends.{CountsWrite};
ghost use Rattle.word_layout.specs.Limits.{KeepsRules};
ghost use Rattle.xindex.specs.Generated.{Generates, IsPrinted};

use crate::Status;
use crate::running::run_trace;
use crate::summary::{append_summary, call_count};
use crate::telling::tell;
use command_line::{Print, Recipe};
use line_session::{Gate, Sink};
use std::alloc::{AllocError, Global};
use std::sync::{Arc, Wait};
use std::thread::Threads;
use word_layout::Limits;
use ycsb_mix::{Mix, mix_lines, mix_text};

/// Makes the trace of a recipe for the callers of these limits, and writes what is asked for of it. Nothing is written
/// before all of that is there.
pub(crate) fn generate<R, K: Sink, G: Gate + Send + Sync + 'static>(
    rt: &R,
    alloc: Global,
    limits: Limits,
    recipe: Recipe,
    sink: &mut K,
    gate: Arc<G>,
) -> Status
where
    R: Threads + Wait + Copy + Send + Sync + 'static,
    requires rules { KeepsRules limits }
    requires no_scans { recipe.mix ≢ Mix.E }
    requires loads_some { 1 ≤ recipe.load }
    requires loads_few { recipe.load ≤ 2 ^ 20 }
    requires few { recipe.ops ≤ 2 ^ 20 }
    ensures generates { Generates limits recipe (K.state sink.old) (K.state sink.new) result }
    ensures write_faults { CountsWrite (result ≡ Status.WriteFault)
        (K.state sink.old) (K.state sink.new) }
{
    match output_of(rt, alloc, limits, recipe, gate) {
        Ok(output) => tell(sink, &output, Status::Done),
        Err(_) => Status::Memory,
    }
}

// What is to be written of the trace of a recipe. The error is want of memory.
fn output_of<R, G: Gate + Send + Sync + 'static>(
    rt: &R,
    alloc: Global,
    limits: Limits,
    recipe: Recipe,
    gate: Arc<G>,
) -> Result<Vec<u8>, AllocError>
where
    R: Threads + Wait + Copy + Send + Sync + 'static,
    requires rules { KeepsRules limits }
    requires no_scans { recipe.mix ≢ Mix.E }
    requires loads_some { 1 ≤ recipe.load }
    requires loads_few { recipe.load ≤ 2 ^ 20 }
    requires few { recipe.ops ≤ 2 ^ 20 }
    ensures { IfOk result (λ output. IsPrinted recipe.print limits recipe output.items) }
{
    let Recipe {
        mix,
        load,
        ops,
        seed,
        print,
    } = recipe;
    match print {
        Print::Trace => mix_text(alloc, mix, load, ops, limits.callers, seed),
        Print::Summary => summary_of(rt, alloc, limits, recipe, gate),
    }
}

// Runs the trace of a recipe over a new index, and gives the summary. The error is want of memory.
fn summary_of<R, G: Gate + Send + Sync + 'static>(
    rt: &R,
    alloc: Global,
    limits: Limits,
    recipe: Recipe,
    gate: Arc<G>,
) -> Result<Vec<u8>, AllocError>
where
    R: Threads + Wait + Copy + Send + Sync + 'static,
    requires rules { KeepsRules limits }
    requires no_scans { recipe.mix ≢ Mix.E }
    requires loads_some { 1 ≤ recipe.load }
    requires loads_few { recipe.load ≤ 2 ^ 20 }
    requires few { recipe.ops ≤ 2 ^ 20 }
    ensures { IfOk result (λ output. IsPrinted Print.Summary limits recipe output.items) }
{
    let Recipe {
        mix,
        load,
        ops,
        seed,
        ..
    } = recipe;
    let trace = mix_lines(alloc, mix, load, ops, limits.callers, seed)?;
    let (phases, rows) = run_trace(rt, alloc, limits, &trace, gate)?;
    let mut summary = Vec::new(alloc);
    append_summary(&mut summary, call_count(&trace), &phases, rows.len() as u64)?;
    Ok(summary)
}
