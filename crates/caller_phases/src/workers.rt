//! One caller in one phase: it makes its calls, one after another, in the thread that runs it.
ghost use Rattle.std.specs.Prelude.{◌≡◌, ◌<◌, ℕ, [], ◌∷◌, IfOk, length, map, slice_index_or};
ghost use Rattle.std.specs.List.{AllByRecursion};
ghost use Rattle.line_session.specs.Session.{Exchange};
ghost use Rattle.xindex_core.specs.Answering.{Answers};
ghost use Rattle.xindex_core.specs.Naming.{IsNameOf};
ghost use Rattle.xindex_core.specs.Passes.{IsPassOf, caller_with};
ghost use Rattle.caller_phases.specs.declared.workers.Worker.{Worker};
ghost use Rattle.caller_phases.specs.Calls.{first_phase};
ghost use Rattle.caller_phases.specs.Workers.{HasWorked, IsReadyFor, pass_of, replies_of};

use crate::cutting::{call_count, has_call, next_in_phase};
use crossbeam_utils::CachePadded;
use line_session::{Gate, reply_to};
use std::alloc::{AllocError, Global};
use std::sync::{Mutex, Wait};
use std::thread;
use std::thread::Threads;
use trace_text::{Cursor, Line, Replies};
use wire_commands::{Reply, Request};
use xindex_core::{Index, Name, NamedKeeper, Pass, Waiter};

/// A caller in a phase: its pass, and the replies to its calls.
#[derive(Drop)]
pub(crate) struct Worker {
    pub(crate) pass: CachePadded<Pass>,
    pub(crate) replies: Replies,
}

/// A worker for each pass. All memory that the calls of the first phase need is taken here.
pub(crate) fn workers_for(
    alloc: Global,
    lines: &Cursor<'_>,
    passes: Vec<Pass>,
) -> Result<Vec<Worker>, AllocError>
    ensures passes { IfOk result (λ workers. map pass_of workers.items ≡ passes.items) }
    ensures ready { IfOk result (λ workers.
        AllByRecursion (IsReadyFor (first_phase lines.now)) workers.items) }
{
    let mut workers = Vec::with_capacity(alloc, passes.len())?;
    for pass in passes {
        let replies = Replies::with_room(alloc, call_count(pass.number(), lines))?;
        workers.push(Worker {
            pass: CachePadded::new(pass),
            replies,
        })?;
    }
    Ok(workers)
}

/// Each worker makes its caller's calls of the first phase, in a thread of its own where one can be made. All come
/// back. Where there is no call, no thread is made.
pub(crate) fn work_all<N: Name + Send + Sync, R: Threads + Wait + Copy + Sync, G: Gate + Sync>(
    rt: &R,
    index: &Index,
    keeper: &Mutex<NamedKeeper<N>>,
    gate: &G,
    lines: &Cursor<'_>,
    workers: Vec<Worker>,
) -> Result<Vec<Worker>, AllocError>
    requires name { IsNameOf N.table N.opening index.now }
    requires passes { (k : ℕ) (w : Worker) → k < length workers.items
        → w ≡ slice_index_or workers.items k w → IsPassOf index.now (pass_of w) }
    requires ready { (k : ℕ) (w : Worker) → k < length workers.items
        → w ≡ slice_index_or workers.items k w → IsReadyFor (first_phase lines.now) w }
    ensures many { IfOk result (λ done. length done.items ≡ length workers.items) }
    ensures worked { IfOk result (λ done. (k : ℕ) (w d : Worker) → k < length workers.items
        → HasWorked index.now (first_phase lines.now) (slice_index_or workers.items k w)
        (slice_index_or done.items k d)) }
{
    if !has_call(lines) {
        return Ok(workers);
    }
    thread::map_vec(
        rt,
        workers,
        &|worker: Worker| -> Worker
            requires name { IsNameOf N.table N.opening index.now }
            requires pass { IsPassOf index.now (pass_of worker) }
            requires ready { IsReadyFor (first_phase lines.now) worker }
            ensures { HasWorked index.entry.now (first_phase lines.entry.now) worker result }
        { work(rt, index, keeper, gate, lines, worker) },
    )
}

// Makes the calls of the worker's caller in the first phase. Each waits at the gate, under the caller's number and its
// own, from 0, before it is asked, and takes effect where its last try does.
fn work<N: Name, R: Wait + Copy, G: Gate>(
    rt: &R,
    index: &Index,
    keeper: &Mutex<NamedKeeper<N>>,
    gate: &G,
    lines: &Cursor<'_>,
    worker: Worker,
) -> Worker
    requires name { IsNameOf N.table N.opening index.now }
    requires pass { IsPassOf index.now (pass_of worker) }
    requires ready { IsReadyFor (first_phase lines.now) worker }
    ensures { HasWorked index.now (first_phase lines.now) worker result }
{
    let Worker { pass, mut replies } = worker;
    let pass = pass.into_inner();
    let caller = pass.number();
    let mut waiter = Waiter::new(index, pass, keeper);
    let mut rest = lines.again();
    let mut present = 0;
    while let Some(line) = next_in_phase(&mut rest) {
        match line {
            Line::Caller(next) => present = next,
            Line::Call(request) => {
                if present == caller {
                    gate.before(rt, u64::from(caller), replies.len() as u64);
                    replies.push(ask(rt, &mut waiter, request));
                }
            }
            Line::Phase | Line::Skip => {}
        }
    }
    Worker {
        pass: CachePadded::new(waiter.finish()),
        replies,
    }
}

// Asks what one call asks.
fn ask<N: Name, R: Wait + Copy>(rt: &R, waiter: &mut Waiter<'_, N>, request: Request) -> Reply
    ensures index { waiter.new.index.now ≡ waiter.old.index.now }
    ensures exchange { Exchange Answers (caller_with waiter.old.index.now waiter.old.pass) request
        (result ∷ []) (caller_with waiter.old.index.now waiter.new.pass) }
{
    reply_to(rt, waiter, request)
}

/// The passes and the replies of workers that have made their calls, both in their order.
pub(crate) fn parted(
    alloc: Global,
    workers: Vec<Worker>,
) -> Result<(Vec<Pass>, Vec<Replies>), AllocError>
    ensures passes { IfOk result (λ both. both.0.items ≡ map pass_of workers.items) }
    ensures replies { IfOk result (λ both. map (λ own. own.replies) both.1.items
        ≡ map replies_of workers.items) }
{
    let mut passes = Vec::with_capacity(alloc, workers.len())?;
    let mut replies = Vec::with_capacity(alloc, workers.len())?;
    for worker in workers {
        passes.push(worker.pass.into_inner())?;
        replies.push(worker.replies)?;
    }
    Ok((passes, replies))
}
