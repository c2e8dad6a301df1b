//! What an execution begins with.
ghost use Rattle.std.specs.Prelude.{◌<◌, ◌^◌};
ghost use Rattle.std.specs.List.{AllByRecursion};
ghost use Rattle.std.proofs.Props.{props};
ghost use Rattle.map_model.specs.Map.{IsRising, IsRising-prop};
ghost use Rattle.word_layout.specs.Layout.{shape_of};
ghost use Rattle.index_machine.specs.OpeningPlan.{FitsTable};

use std::collections::LinkedList;
use word_layout::Layout;

/// The table as it is opened: no caller is inside, all record rows are free, and the arrays of each part's
/// first groups have the part's rows, as the plan shares them out.
#[derive(Drop)]
pub struct Opening {
    pub layout: Layout,
    /// Pairs of a key and its value.
    pub rows: LinkedList<(u64, u64)>,
    ghost rising: { IsRising rows } by { IsRising-prop rows },
    ghost fits: { FitsTable (shape_of layout) rows } by { Prim.hlevel props },
    ghost keys: { AllByRecursion (λ row. row.0 < 2 ^ 64) rows } by { Prim.hlevel props },
}
