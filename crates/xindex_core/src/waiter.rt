//! A caller that tries each call until it is answered.
ghost use Rattle.std.specs.Prelude.{◌≡◌};
ghost use Rattle.xindex_core.specs.Answering.{Answers};
ghost use Rattle.xindex_core.specs.Naming.{IsNameOf, IsNameOf-prop, IsPassOf-prop};
ghost use Rattle.xindex_core.specs.Passes.{IsPassOf, caller_with};
ghost use Rattle.xindex_core.specs.Tries.{Tries, answer_of, near_at};
ghost use Rattle.xindex_core.specs.Waiting.{AnswersLast, AnswersOrFails};

use crate::index::Index;
use crate::named::NamedKeeper;
use crate::naming::Name;
use crate::pass::Pass;
use map_model::{Answer, Answerer, Call, Near};
use std::sync::{Mutex, Wait};
use std::thread;
use tried_calls::Tried;

/// Answers calls over an index, one after another, by trying each of them until it comes to an answer.
///
/// `Full` and `Worn` are answers. It takes no memory. A call takes effect where its last try does. A `Next`
/// is answered for its first key alone.
pub struct Waiter<'a, N: Name> {
    index: &'a Index,
    pass: Pass,
    // Who is to be asked for room; an index that is not rebuilt never asks.
    keeper: &'a Mutex<NamedKeeper<N>>,
    ghost of: { IsPassOf index.now pass } by { IsPassOf-prop index.now pass },
    ghost named: { IsNameOf N.table N.opening index.now } by { IsNameOf-prop N.table N.opening index.now },
}

impl<'a, N: Name> Waiter<'a, N> {
    /// A waiter of the caller with this pass.
    pub fn new(index: &'a Index, pass: Pass, keeper: &'a Mutex<NamedKeeper<N>>) -> Waiter<'a, N>
        requires index { IsNameOf N.table N.opening index.now }
        requires pass { IsPassOf index.now pass }
        ensures index { result.index.now ≡ index.now }
        ensures pass { result.pass ≡ pass }
    {
        Waiter {
            index,
            pass,
            keeper,
        }
    }

    /// The pass again.
    pub fn finish(self) -> Pass
        ensures same { result ≡ self.entry.pass }
        ensures of { IsPassOf self.entry.index.now result }
    {
        let Waiter {
            index: _,
            pass,
            keeper: _,
        } = self;
        pass
    }

    // Tries the call once.
    fn tried(&mut self, call: Call) -> Option<Answer>
        ensures index { self.new.index.now ≡ self.old.index.now }
        ensures tells { AnswersOrFails self.old.index.now self.old.pass call result self.new.pass }
    {
        let came = try_call(&mut self.pass, self.index, call);
        answer_to(call, came)
    }
}

impl<'a, N: Name> Answerer for Waiter<'a, N> {
    ghost use Rattle.xindex_core.specs.Fitting.{answers-fit};

    ghost answers = { λ old call answer new.
        (new.index.now ≡ old.index.now)
        × AnswersLast old.index.now old.pass call answer new.pass
        × Answers (caller_with old.index.now old.pass) call answer
        (caller_with old.index.now new.pass) };

    ghost fits = { λ old call answer new does. answers-fit _ call answer _ does.2 };

    fn ask<R: Wait + Copy>(&mut self, rt: &R, call: Call) -> Answer {
        for _ in rt.forever() {
            match self.tried(call) {
                Some(answer) => return answer,
                // Another thread stands in the way, and may get on by this.
                None => thread::yield_now(),
            }
        }
        unreachable!()
    }
}

// Makes the call, once.
fn try_call(pass: &mut Pass, index: &Index, call: Call) -> Tried<Option<u64>>
    requires { IsPassOf index.now pass.old }
    ensures pass { IsPassOf index.now pass.new }
    ensures tries { Tries index.now pass.old call result pass.new }
{
    match call {
        Call::Get { key } => pass.try_get(index, key),
        Call::Next { from } => pass.try_get(index, from),
        Call::Put { key, value } => pass.try_put(index, key, value),
        Call::Remove { key } => pass.try_remove(index, key),
    }
}

// The answer to the call that came to this, or `None` where it is to be tried again.
fn answer_to(call: Call, came: Tried<Option<u64>>) -> Option<Answer>
    ensures { result ≡ answer_of call came }
{
    match came {
        Tried::Done(found) => Some(match call {
            Call::Get { .. } => Answer::Value(found),
            Call::Put { .. } | Call::Remove { .. } => Answer::Old(found),
            Call::Next { from } => Answer::Near(near(from, found)),
        }),
        Tried::Again(_) => None,
        Tried::Full => Some(Answer::Full),
        Tried::Worn { .. } => Some(Answer::Worn),
    }
}

// What stands at one key, as what stands next.
fn near(from: u64, found: Option<u64>) -> Near
    ensures { result ≡ near_at from found }
{
    match found {
        Some(value) => Near::Row { key: from, value },
        None => Near::Gap { hi: from },
    }
}
