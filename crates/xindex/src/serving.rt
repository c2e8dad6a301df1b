//! A session is served over an index that nobody else changes.
ghost use Rattle.std.specs.Prelude.{◌≡◌, ◌≤◌, ◌<◌, ◌+◌, [], length, vec_capacity};
ghost use Rattle.line_session.specs.Ends.{CountsRead, CountsWrite, ends_of};
ghost use Rattle.line_session.specs.Served.{Serves};
ghost use Rattle.xindex_core.specs.Alone.{AllByZero, AnswersAlone, IsAlone};
ghost use Rattle.xindex_core.specs.Callers.{seen_by};
ghost use Rattle.xindex_core.specs.Naming.{IsNameOf};
ghost use Rattle.xindex_core.specs.Opened.{IsNewlyOpened};
ghost use Rattle.xindex_core.specs.Passes.{AreNewPasses, IsPassOf, caller_with, known_to};
ghost use Rattle.xindex_core.specs.Passes.{limits_of_index, log_of, number_of};
ghost use Rattle.xindex.specs.Served.{HasServed, IsServed, first_log, known_to_first, log_of_first};

use line_session::{Ended, Gate, Sink, Source, serve_one};
use std::sync::{Mutex, Wait};
use xindex_core::{Index, Name, NamedKeeper, Opened, Pass, Waiter};

/// The number of the one link.
const PIPE_LINK: u64 = 0;

/// Serves one session over a new index, by its pass 0, as link 0. The other passes know then what it knows.
pub fn serve_alone<N: Name, R: Wait + Copy, S: Source, K: Sink, G: Gate>(
    rt: &R,
    opened: Opened,
    source: &mut S,
    sink: &mut K,
    gate: &G,
    most: u64,
) -> (Ended, Opened)
    requires most { 1 ≤ most }
    requires new { IsNewlyOpened (limits_of_index opened.index) [] opened }
    requires name { IsNameOf N.table N.opening opened.index }
    ensures opened { IsServed (limits_of_index opened.index) result.1 }
    ensures session { Serves (AnswersAlone (limits_of_index opened.index)) [] (first_log result.1)
        (ends_of (S.state source.old) (K.state sink.old))
        (ends_of (S.state source.new) (K.state sink.new)) most result.0 }
    ensures read_faults { CountsRead (result.0 ≡ Ended.ReadFault)
        (S.state source.old) (S.state source.new) }
    ensures write_faults { CountsWrite (result.0 ≡ Ended.WriteFault)
        (K.state sink.old) (K.state sink.new) }
{
    let Opened {
        index,
        mut passes,
        keeper,
    } = opened;
    let first = passes.remove(0);
    let keeper = Mutex::new(NamedKeeper::<N>::new(keeper));
    let (ended, first) = serve_by(rt, &index, first, &keeper, source, sink, gate, most);
    let keeper = keeper.into_inner().into_inner();
    let passes = told_all(&index, first, passes);
    (
        ended,
        Opened {
            index,
            passes,
            keeper,
        },
    )
}

// Serves the session by this pass.
fn serve_by<N: Name, R: Wait + Copy, S: Source, K: Sink, G: Gate>(
    rt: &R,
    index: &Index,
    pass: Pass,
    keeper: &Mutex<NamedKeeper<N>>,
    source: &mut S,
    sink: &mut K,
    gate: &G,
    most: u64,
) -> (Ended, Pass)
    requires most { 1 ≤ most }
    requires name { IsNameOf N.table N.opening index.now }
    requires pass { IsPassOf index.now pass }
    requires alone { IsAlone (limits_of_index index.now) (caller_with index.now pass) }
    ensures pass { IsPassOf index.now result.1 }
    ensures alone { IsAlone (limits_of_index index.now) (caller_with index.now result.1) }
    ensures session { AllByZero (seen_by (caller_with index.now result.1))
        → Serves (AnswersAlone (limits_of_index index.now)) (log_of pass) (log_of result.1)
        (ends_of (S.state source.old) (K.state sink.old))
        (ends_of (S.state source.new) (K.state sink.new)) most result.0 }
    ensures read_faults { CountsRead (result.0 ≡ Ended.ReadFault)
        (S.state source.old) (S.state source.new) }
    ensures write_faults { CountsWrite (result.0 ≡ Ended.WriteFault)
        (K.state sink.old) (K.state sink.new) }
{
    let mut waiter = Waiter::new(index, pass, keeper);
    let ended = serve_one(rt, &mut waiter, source, sink, gate, PIPE_LINK, most);
    (ended, waiter.finish())
}

// Tells the others what the first knows, and puts it in front of them.
fn told_all(index: &Index, mut first: Pass, mut others: Vec<Pass>) -> Vec<Pass>
    requires first { IsPassOf index.now first }
    requires number { number_of first ≡ 0 }
    requires others { AreNewPasses index.now 1 others.items }
    requires room { length others.items < vec_capacity others }
    ensures served { HasServed index.now result.items }
    ensures log { log_of_first result.items ≡ log_of first }
    ensures known { known_to_first result.items ≡ known_to first }
    ensures many { length result.items ≡ length others.items + 1 }
{
    for other in others.iter_mut() {
        let note = first.tell(index);
        other.heed(index, note);
    }
    others.insert(0, first).unwrap();
    others
}
