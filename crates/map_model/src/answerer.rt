//! Who answers calls on a map.
ghost use Rattle.map_model.specs.Answer.{Fits};
ghost use Rattle.map_model.specs.declared.calls.Call.{Call};
ghost use Rattle.map_model.specs.declared.calls.Answer.{Answer};

use crate::{Answer, Call};
use std::sync::Wait;

/// Answers calls on one map, one after another.
///
/// Its relation `answers` says what one call does: the answerer before it, the call, the answer, the answerer
/// after it. What that is, each answerer says of its own; a session over any of them needs no more.
pub trait Answerer {
    ghost answers: { Self → Call → Answer → Self → Type 0 };

    /// Answers a call. It may wait for other threads.
    fn ask<R: Wait + Copy>(&mut self, rt: &R, call: Call) -> Answer
        ensures { answers self.old call result self.new };

    /// Each answer is of the kind that its call has.
    ghost fits: { (old : Self) (call : Call) (answer : Answer) (new : Self)
        → answers old call answer new → Fits call answer };
}
