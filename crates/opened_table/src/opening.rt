//! What a table is opened with.
ghost use Rattle.std.specs.Prelude.{◌≡◌, ◌<◌, ◌^◌, IfOk};
ghost use Rattle.map_model.specs.Map.{IsRising};
ghost use Rattle.word_layout.specs.Layout.{shape_of};
ghost use Rattle.index_machine.specs.OpeningPlan.{FitsTable};

use index_machine::Opening;
use std::alloc::{AllocError, Global};
use std::collections::LinkedList;
use word_layout::Layout;

/// What a table with this layout is opened with: the rows once more, as the rule of the table names them.
pub fn opening_with(
    alloc: Global,
    layout: &Layout,
    rows: &[(u64, u64)],
) -> Result<Opening, AllocError>
    requires rising { IsRising rows.now }
    requires fits { FitsTable (shape_of layout.now) rows.now }
    ensures layout { IfOk result (λ opening. opening.layout ≡ layout.now) }
    ensures rows { IfOk result (λ opening. opening.rows ≡ rows.now) }
{
    let mut list = LinkedList::new(alloc);
    for row in rows {
        list.push_back((within_64_bits(row.0), row.1))?;
    }
    Ok(Opening {
        layout: *layout,
        rows: list,
    })
}

// The range of a `u64` as a clause, since the opening asks it of each key.
fn within_64_bits(key: u64) -> u64
    ensures same { result ≡ key }
    ensures below { result < 2 ^ 64 }
{
    key
}
