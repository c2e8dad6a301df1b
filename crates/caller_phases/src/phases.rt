//! All phases of a trace, one after another.
ghost use Rattle.std.specs.Prelude.{◌≡◌, ◌≤◌, [], IfOk, length, map};
ghost use Rattle.index_machine.specs.Execution.{Execution};
ghost use Rattle.xindex_core.specs.Closing.{ArePassesFrom};
ghost use Rattle.xindex_core.specs.Naming.{IsNameOf};
ghost use Rattle.xindex_core.specs.OneOrder.{AllKnow};
ghost use Rattle.xindex_core.specs.Opened.{IsNewlyOpened};
ghost use Rattle.xindex_core.specs.Passes.{AreNewPasses, limits_of_index};
ghost use Rattle.caller_phases.specs.Calls.{first_phase};
ghost use Rattle.caller_phases.specs.Ran.{AreExplained, HasRun, HasRunPhase};

use crate::cutting::behind_phase;
use crate::telling::tell_all;
use crate::workers::{parted, work_all, workers_for};
use line_session::Gate;
use std::alloc::{AllocError, Global};
use std::marker::Brand;
use std::sync::{Arc, Mutex, Wait};
use std::thread::Threads;
use trace_text::{Cursor, Replies, Trace, append_phase};
use xindex_core::{Index, Name, NamedKeeper, Opened, Pass};

/// An index over which all phases of a trace were run, and their transcript, without the final rows.
#[derive(Drop)]
pub struct Ran {
    pub opened: Opened,
    pub transcript: Vec<u8>,
}

/// Runs the phases of a trace over a new index, one after another. In each phase every caller makes its calls in a
/// thread of its own, where one can be made; after it each pass heeds a note of every other.
///
/// Each call waits at the gate before it is asked, with its caller's number as the link, and its own in the phase, from
/// 0. It takes effect where its last try does. Calls of a caller that the index does not have are not made. Where there
/// is not enough memory all is dropped.
pub fn run_phases<R, G: Gate + Send + Sync + 'static>(
    rt: &R,
    alloc: Global,
    opened: Opened,
    trace: &Trace,
    gate: Arc<G>,
) -> Result<Ran, AllocError>
where
    R: Threads + Wait + Copy + Send + Sync + 'static,
    requires { IsNewlyOpened (limits_of_index opened.index) [] opened }
    ensures { IfOk result (HasRun opened.index trace.now) }
{
    run_named::<Brand, R, G>(rt, alloc, opened, trace, &*gate)
}

// The same over an index that has a name.
fn run_named<N: Name + Send + Sync, R: Threads + Wait + Copy + Sync, G: Gate + Sync>(
    rt: &R,
    alloc: Global,
    opened: Opened,
    trace: &Trace,
    gate: &G,
) -> Result<Ran, AllocError>
    requires new { IsNewlyOpened (limits_of_index opened.index) [] opened }
    requires name { IsNameOf N.table N.opening opened.index }
    ensures { IfOk result (HasRun opened.index trace.now) }
{
    let Opened {
        index,
        passes,
        keeper,
    } = opened;
    let keeper = Mutex::new(NamedKeeper::<N>::new(keeper));
    let (passes, transcript) = run_all(rt, alloc, &index, &keeper, gate, trace, passes)?;
    let keeper = keeper.into_inner().into_inner();
    let opened = Opened {
        index,
        passes,
        keeper,
    };
    Ok(Ran { opened, transcript })
}

// Runs each phase by these passes, and writes its part of the transcript.
fn run_all<N: Name + Send + Sync, R: Threads + Wait + Copy + Sync, G: Gate + Sync>(
    rt: &R,
    alloc: Global,
    index: &Index,
    keeper: &Mutex<NamedKeeper<N>>,
    gate: &G,
    trace: &Trace,
    mut passes: Vec<Pass>,
) -> Result<(Vec<Pass>, Vec<u8>), AllocError>
    requires name { IsNameOf N.table N.opening index.now }
    requires new { AreNewPasses index.now 0 passes.items }
    requires some { 1 ≤ length passes.items }
    requires many { length passes.items ≡ (limits_of_index index.now).callers }
    ensures { IfOk result (λ ran. AreExplained index.now trace.now ran.0.items ran.1.items) }
{
    let mut transcript = Vec::new(alloc);
    let mut number: u64 = 0;
    let mut left = Some(trace.cursor());
    while let Some(lines) = left {
        let (came, replies) = run_phase(rt, alloc, index, keeper, gate, &lines, passes)?;
        append_phase(&mut transcript, number, &replies)?;
        passes = came;
        number += 1;
        left = behind_phase(&lines);
    }
    Ok((passes, transcript))
}

// Runs the first phase of these lines, and gives the passes again, with the replies to each caller's calls.
fn run_phase<N: Name + Send + Sync, R: Threads + Wait + Copy + Sync, G: Gate + Sync>(
    rt: &R,
    alloc: Global,
    index: &Index,
    keeper: &Mutex<NamedKeeper<N>>,
    gate: &G,
    lines: &Cursor<'_>,
    passes: Vec<Pass>,
) -> Result<(Vec<Pass>, Vec<Replies>), AllocError>
    requires name { IsNameOf N.table N.opening index.now }
    requires passes { ArePassesFrom index.now 0 passes.items }
    requires some { 1 ≤ length passes.items }
    requires many { length passes.items ≡ (limits_of_index index.now).callers }
    ensures { IfOk result (λ ran. (t : Execution) → AllKnow index.now t 0 passes.items
        → HasRunPhase index.now t (first_phase lines.now) passes.items
        (map (λ own. own.replies) ran.1.items) ran.0.items) }
{
    let workers = workers_for(alloc, lines, passes)?;
    let done = work_all(rt, index, keeper, gate, lines, workers)?;
    let (mut passes, replies) = parted(alloc, done)?;
    tell_all(index, &mut passes);
    Ok((passes, replies))
}
