//! An index is opened, with a pass for each caller and a keeper for each part.
ghost use Rattle.std.specs.Prelude.{◌≡◌, IfErr, IfOk, length};
ghost use Rattle.word_layout.specs.Shape.{in_one_part, parts_in, shape};
ghost use Rattle.index_machine.specs.Words.{shape as table_shape};
ghost use Rattle.index_rule.specs.Opened.{HasNewHands};
ghost use Rattle.xindex_core.specs.Opened.{IsNewlyOpened, IsNewlyOpenedIn};
ghost use Rattle.xindex_core.specs.Refusals.{IsRefusal};
ghost use Rattle.xindex_core.specs.Passes.{AreNewKeepers, AreNewPasses, bounds_of_index, limits_of_index};
ghost use Rattle.xindex_core.specs.Passes.{opening_with};

use crate::index::{Index, OpenError, Opened, OpenedParts};
use crate::keeper::Keeper;
use crate::pass::Pass;
use crate::refusing::refusal_of;
use index_rule::{Board, Hand};
use line_window::Probes;
use std::alloc::{AllocError, Global};
use word_layout::{Limits, Parts};

impl Index {
    /// An index with these limits and one part, which holds these rows. The table takes 8 bytes a word, and 120 more
    /// for each epoch, the head of the free stack and the root word.
    ///
    /// Limits and rows are refused before any memory is taken.
    pub fn open(alloc: Global, limits: Limits, rows: &[(u64, u64)]) -> Result<Opened, OpenError>
        ensures opened { IfOk result (IsNewlyOpened limits rows.now) }
        ensures refused { IfErr result (IsRefusal (in_one_part limits) rows.now) }
    {
        let OpenedParts {
            index,
            passes,
            mut keepers,
        } = Index::open_in(alloc, limits, Parts::whole(), rows)?;
        let keeper = keepers.pop().unwrap();
        Ok(Opened {
            index,
            passes,
            keeper,
        })
    }

    /// An index with these limits and parts, which holds these rows: each part's in its first groups, as many as the
    /// plan needs. The table takes 8 bytes a word, and 120 more for each epoch, the head of the free stack and each
    /// root word.
    ///
    /// Limits and rows are refused before any memory is taken.
    pub fn open_in(
        alloc: Global,
        limits: Limits,
        parts: Parts,
        rows: &[(u64, u64)],
    ) -> Result<OpenedParts, OpenError>
        ensures opened { IfOk result (IsNewlyOpenedIn limits parts rows.now) }
        ensures refused { IfErr result (IsRefusal (shape limits parts) rows.now) }
    {
        let layout = match limits.layout_in(parts) {
            Ok(layout) => layout,
            Err(bad) => return Err(OpenError::BadLimit { number: bad.number }),
        };
        if let Some(error) = refusal_of(&layout, rows) {
            return Err(error);
        }
        let (board, hands) = Board::open(alloc, &layout, rows)?;
        let index = Index { board };
        let (passes, keepers) = shared_out(alloc, &index, hands)?;
        Ok(OpenedParts {
            index,
            passes,
            keepers,
        })
    }

    /// The limits that the index was opened with.
    #[inline]
    pub fn limits(&self) -> Limits
        ensures { result ≡ limits_of_index self.now }
    {
        self.board.layout().limits()
    }

    /// The parts that the index was opened with.
    #[inline]
    pub fn parts(&self) -> Parts
        ensures { result ≡ bounds_of_index self.now }
    {
        self.board.layout().parts()
    }
}

// A pass for each hand of a caller, and a keeper for each of the hands behind them.
fn shared_out(
    alloc: Global,
    index: &Index,
    hands: Vec<Hand>,
) -> Result<(Vec<Pass>, Vec<Keeper>), AllocError>
    requires { HasNewHands index.now.board hands.items }
    ensures passes { IfOk result (λ both. AreNewPasses index.now 0 both.0.items) }
    ensures many { IfOk result (λ both. length both.0.items ≡ (limits_of_index index.now).callers) }
    ensures keepers { IfOk result (λ both. AreNewKeepers index.now 0 both.1.items) }
    ensures each { IfOk result (λ both.
        length both.1.items ≡ parts_in (table_shape (opening_with index.now))) }
{
    let callers = index.limits().callers as usize;
    let mut passes = Vec::new(alloc);
    let mut keepers = Vec::new(alloc);
    for hand in hands {
        if passes.len() < callers {
            passes.push(Pass {
                hand,
                spare: None,
                probes: Probes::new(),
            })?;
        } else {
            let part = keepers.len() as u32;
            keepers.push(Keeper { hand, part })?;
        }
    }
    Ok((passes, keepers))
}
