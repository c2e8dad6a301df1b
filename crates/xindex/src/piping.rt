//! The mode `pipe`: one session over an index that is opened for it.
ghost use Rattle.std.specs.Prelude.{◌≡◌, ◌≢◌, ◌≤◌, [], IsSomeAnd};
ghost use Rattle.line_session.specs.Ends.{CountsRead, CountsWrite, ends_of};
ghost use Rattle.xindex_core.specs.Opened.{IsNewlyOpened};
ghost use Rattle.xindex_core.specs.Passes.{limits_of_index};
ghost use Rattle.xindex.specs.Outcome.{Pipes, PipesOrLacksMemory, status_of};

use crate::serving::serve_alone;
use crate::{Outcome, Status};
use line_session::{Ended, Gate, Sink, Source};
use std::alloc::Global;
use std::marker::Brand;
use std::sync::Wait;
use word_layout::Limits;
use xindex_core::{Index, Opened};

/// Serves one session over an empty index with these limits, and hands the index out.
pub(crate) fn pipe<R: Wait + Copy, S: Source, K: Sink, G: Gate>(
    rt: &R,
    alloc: Global,
    limits: Limits,
    most: u64,
    source: &mut S,
    sink: &mut K,
    gate: &G,
) -> Outcome
    requires { 1 ≤ most }
    ensures session { PipesOrLacksMemory limits most
        (ends_of (S.state source.old) (K.state sink.old))
        (ends_of (S.state source.new) (K.state sink.new)) result }
    ensures memory_unread { result.status ≡ Status.Memory
        → (S.state source.new).left ≡ (S.state source.old).left }
    ensures memory_unwritten { result.status ≡ Status.Memory
        → (K.state sink.new).written ≡ (K.state sink.old).written }
    ensures no_usage { result.status ≢ Status.Usage }
    ensures no_bad_limits { result.status ≢ Status.BadLimits }
    ensures no_bad_trace { result.status ≢ Status.BadTrace }
    ensures read_faults { CountsRead (result.status ≡ Status.ReadFault)
        (S.state source.old) (S.state source.new) }
    ensures write_faults { CountsWrite (result.status ≡ Status.WriteFault)
        (K.state sink.old) (K.state sink.new) }
{
    match Index::open(alloc, limits, &[]) {
        Ok(opened) => serve(rt, opened, source, sink, gate, most),
        Err(_) => Outcome::unopened(Status::Memory),
    }
}

// Serves one session over the new index.
fn serve<R: Wait + Copy, S: Source, K: Sink, G: Gate>(
    rt: &R,
    opened: Opened,
    source: &mut S,
    sink: &mut K,
    gate: &G,
    most: u64,
) -> Outcome
    requires most { 1 ≤ most }
    requires new { IsNewlyOpened (limits_of_index opened.index) [] opened }
    ensures session { IsSomeAnd result.opened (Pipes (limits_of_index opened.index) most
        (ends_of (S.state source.old) (K.state sink.old))
        (ends_of (S.state source.new) (K.state sink.new)) result.status) }
    ensures read_faults { CountsRead (result.status ≡ Status.ReadFault)
        (S.state source.old) (S.state source.new) }
    ensures write_faults { CountsWrite (result.status ≡ Status.WriteFault)
        (K.state sink.old) (K.state sink.new) }
{
    let (ended, opened) = serve_alone::<Brand, R, S, K, G>(rt, opened, source, sink, gate, most);
    Outcome {
        status: status_of(ended),
        opened: Some(opened),
    }
}

// How the end of a session is told.
fn status_of(ended: Ended) -> Status
    ensures { result ≡ status_of ended }
{
    match ended {
        Ended::End | Ended::Quit => Status::Done,
        Ended::ReadFault => Status::ReadFault,
        Ended::WriteFault => Status::WriteFault,
        Ended::Limit => Status::Limit,
    }
}
