//! The calls of a pass, each tried once within a read section of its own.
ghost use Rattle.std.specs.Prelude.{◌≡◌};
ghost use Rattle.map_model.specs.declared.calls.Call.TheVariants as call;
ghost use Rattle.xindex_core.specs.Passes.{IsPassOf, number_of};
ghost use Rattle.xindex_core.specs.Tries.{Tries};

use crate::index::Index;
use crate::pass::Pass;
use point_calls::{get, put, remove};
use reader_epochs::{enter, leave};
use tried_calls::Tried;

impl Pass {
    /// The caller's number.
    #[inline]
    pub fn number(&self) -> u32
        ensures { result ≡ number_of self.now }
    {
        self.hand.number()
    }

    /// The value of the key, or `None`, tried once.
    ///
    /// A value takes effect at its load. `None` does at the load of the state word of the key's row, or
    /// of the link that passed over the key, in the last buffer where the call looked.
    pub fn try_get(&mut self, index: &Index, key: u64) -> Tried<Option<u64>>
        requires { IsPassOf index.now self.old }
        ensures pass { IsPassOf index.now self.new }
        ensures tries { Tries index.now self.old (call.Get key) result self.new }
    {
        enter(&index.board, &mut self.hand);
        let answer = get(&index.board, &mut self.hand, key, &mut self.probes);
        leave(&index.board, &mut self.hand);
        answer
    }

    /// Gives the key the value, tried once, and answers the one that it had, or `None`.
    ///
    /// It takes effect at the store that unlocks the key's record, or at the exchange of the link by which
    /// its new row comes into the buffer. A filled row that was not linked stays with the pass.
    pub fn try_put(&mut self, index: &Index, key: u64, value: u64) -> Tried<Option<u64>>
        requires { IsPassOf index.now self.old }
        ensures pass { IsPassOf index.now self.new }
        ensures tries { Tries index.now self.old (call.Put key value) result self.new }
    {
        enter(&index.board, &mut self.hand);
        let answer = put(
            &index.board,
            &mut self.hand,
            &mut self.spare,
            key,
            value,
            &mut self.probes,
        );
        leave(&index.board, &mut self.hand);
        answer
    }

    /// Removes the key, tried once, and answers the value that it had, or `None`.
    ///
    /// A removal takes effect at the store that unlocks the record. `None` does as for `try_get`.
    pub fn try_remove(&mut self, index: &Index, key: u64) -> Tried<Option<u64>>
        requires { IsPassOf index.now self.old }
        ensures pass { IsPassOf index.now self.new }
        ensures tries { Tries index.now self.old (call.Remove key) result self.new }
    {
        enter(&index.board, &mut self.hand);
        let answer = remove(&index.board, &mut self.hand, key, &mut self.probes);
        leave(&index.board, &mut self.hand);
        answer
    }
}
