//! The mode `run`: a whole text is read, run as a trace, and answered by its transcript.
ghost use Rattle.std.specs.Prelude.{◌≡◌, IfOk, MatchResult};
ghost use Rattle.line_session.specs.Ends.{CountsRead, CountsWrite, ends_of};
ghost use Rattle.trace_text.specs.Traces.{IsCause};
ghost use Rattle.xindex_core.specs.Closing.{IsClosedWith};
ghost use Rattle.caller_phases.specs.Ran.{HasRun};
ghost use Rattle.xindex_core.specs.Opened.{IsNewlyOpened};
ghost use Rattle.xindex.specs.Ran.{IsOutput, IsRun, Runs, TellsOutput};

use crate::Status;
use crate::telling::{tell, tell_number};
use caller_phases::{Ran, run_phases};
use line_session::{Gate, Sink, Source, TextError, read_text};
use std::alloc::{AllocError, Global};
use std::sync::{Arc, Wait};
use std::thread::Threads;
use trace_text::{Trace, TraceError, append_rows, read_trace};
use word_layout::Limits;
use xindex_core::{Index, Opened};

/// Reads the source to its end and runs what it gave as a trace, over an index with these limits. Nothing is written
/// before all of it was run.
pub(crate) fn run<R, S: Source, K: Sink, G: Gate + Send + Sync + 'static>(
    rt: &R,
    alloc: Global,
    limits: Limits,
    most: u64,
    source: &mut S,
    sink: &mut K,
    gate: Arc<G>,
) -> Status
where
    R: Threads + Wait + Copy + Send + Sync + 'static,
    ensures runs { Runs limits most
        (ends_of (S.state source.old) (K.state sink.old))
        (ends_of (S.state source.new) (K.state sink.new)) result }
    ensures read_faults { CountsRead (result ≡ Status.ReadFault)
        (S.state source.old) (S.state source.new) }
    ensures write_faults { CountsWrite (result ≡ Status.WriteFault)
        (K.state sink.old) (K.state sink.new) }
{
    match read_text(alloc, source, most) {
        Ok(text) => run_text(rt, alloc, limits, text, sink, gate),
        Err(TextError::ReadFault) => Status::ReadFault,
        Err(TextError::Limit) => Status::Limit,
        Err(TextError::Memory) => Status::Memory,
    }
}

// Runs a whole text, and writes its transcript or its first bad line.
fn run_text<R, K: Sink, G: Gate + Send + Sync + 'static>(
    rt: &R,
    alloc: Global,
    limits: Limits,
    text: Vec<u8>,
    sink: &mut K,
    gate: Arc<G>,
) -> Status
where
    R: Threads + Wait + Copy + Send + Sync + 'static,
    ensures tells { TellsOutput limits text.items (K.state sink.old) (K.state sink.new) result }
    ensures write_faults { CountsWrite (result ≡ Status.WriteFault)
        (K.state sink.old) (K.state sink.new) }
{
    match transcript_of(rt, alloc, limits, text, gate) {
        Ok(transcript) => tell(sink, &transcript, Status::Done),
        Err(TraceError::BadLine { number }) => {
            tell_number(sink, b"bad line ", number, Status::BadTrace)
        }
        Err(TraceError::Memory) => Status::Memory,
    }
}

// The transcript of a text that is a trace, which is run over a new index. The text is let go of before that.
fn transcript_of<R, G: Gate + Send + Sync + 'static>(
    rt: &R,
    alloc: Global,
    limits: Limits,
    text: Vec<u8>,
    gate: Arc<G>,
) -> Result<Vec<u8>, TraceError>
where
    R: Threads + Wait + Copy + Send + Sync + 'static,
    ensures { MatchResult result
        (λ transcript. IsOutput limits text.items Status.Done transcript.items)
        (IsCause limits.callers text.items) }
{
    let trace = match read_trace(alloc, &text, limits.callers) {
        Ok(trace) => trace,
        Err(error) => return Err(error),
    };
    drop(text);
    let Ok((mut transcript, rows)) = run_trace(rt, alloc, limits, &trace, gate) else {
        return Err(TraceError::Memory);
    };
    match append_rows(&mut transcript, &rows) {
        Ok(()) => Ok(transcript),
        Err(_) => Err(TraceError::Memory),
    }
}

/// Runs a trace over a new index with these limits, and closes it. It gives the text of the phases, and
/// the pairs that are left. The error is want of memory.
pub(crate) fn run_trace<R, G: Gate + Send + Sync + 'static>(
    rt: &R,
    alloc: Global,
    limits: Limits,
    trace: &Trace,
    gate: Arc<G>,
) -> Result<(Vec<u8>, Vec<(u64, u64)>), AllocError>
where
    R: Threads + Wait + Copy + Send + Sync + 'static,
    ensures { IfOk result (λ ran. IsRun limits trace.now ran.0.items ran.1.items) }
{
    let Ok(opened) = Index::open(alloc, limits, &[]) else {
        return Err(AllocError);
    };
    let Ran { opened, transcript } = run_phases(rt, alloc, opened, trace, gate)?;
    let Opened {
        index,
        passes,
        keeper,
    } = opened;
    match index.close(alloc, passes, keeper) {
        Ok(rows) => Ok((transcript, rows)),
        Err(_) => Err(AllocError),
    }
}
