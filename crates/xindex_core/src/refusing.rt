//! Which rows an index is not opened with.
ghost use Rattle.std.specs.Prelude.{◌≡◌, ◌==◌, MatchOption, count_by};
ghost use Rattle.map_model.specs.Map.{IsRising};
ghost use Rattle.word_layout.specs.Layout.{bounds_of, shape_of};
ghost use Rattle.word_layout.specs.Parts.{part_with};
ghost use Rattle.index_machine.specs.OpeningPlan.{FitsTable};
ghost use Rattle.xindex_core.specs.Refusals.{IsFirstUnsorted, IsRowRefusal, NeedsGroups};

use crate::index::OpenError;
use rebuild_plan::groups_for;
use word_layout::Layout;

/// Why a table with this layout is not opened with these rows, or `None` where it can be.
pub(crate) fn refusal_of(layout: &Layout, rows: &[(u64, u64)]) -> Option<OpenError>
    ensures { MatchOption result (IsRising rows.now × FitsTable (shape_of layout.now) rows.now)
        (IsRowRefusal (shape_of layout.now) rows.now) }
{
    if let Some(at) = first_unsorted(rows) {
        return Some(OpenError::Unsorted { at });
    }
    let need = groups_needed(layout, rows)?;
    Some(OpenError::TooMany {
        need,
        have: u64::from(layout.limits().groups),
    })
}

// The first position of a row whose key is not above the one before it.
fn first_unsorted(rows: &[(u64, u64)]) -> Option<usize>
    ensures { MatchOption result (IsRising rows.now) (IsFirstUnsorted rows.now) }
{
    for at in 1..rows.len() {
        if rows[at].0 <= rows[at - 1].0 {
            return Some(at);
        }
    }
    None
}

// How many groups the plan needs for the first part that has fewer, or `None` where each part has enough.
fn groups_needed(layout: &Layout, rows: &[(u64, u64)]) -> Option<u64>
    ensures { MatchOption result (FitsTable (shape_of layout.now) rows.now)
        (NeedsGroups (shape_of layout.now) rows.now) }
{
    let limits = layout.limits();
    for part in 0..layout.parts().count() {
        let need = groups_for(count_in(layout, part, rows), limits.group_size);
        if need > u64::from(limits.groups) {
            return Some(need);
        }
    }
    None
}

// How many of the rows are a part's.
fn count_in(layout: &Layout, part: u32, rows: &[(u64, u64)]) -> u64
    ensures { result
        ≡ count_by (λ row. part_with (bounds_of layout.now) row.0 == part) rows.now }
{
    rows.iter()
        .filter(|row| layout.part_of(row.0) == part)
        .count() as u64
}
