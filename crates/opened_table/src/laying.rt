//! The words of a table as it is opened.
//!
//! The fact to remember: the rows rise, so those of a part stand behind those of all parts before it, and those of
//! a group behind those of the groups before it.
ghost use Rattle.std.specs.Prelude.{◌≡◌, ◌*◌, ◌<◌, ◌≤◌, true, [], IfOk, length, take, drop, slice_index, refl};
ghost use Rattle.std.proofs.Common.{◌∙◌};
ghost use Rattle.std.specs.List.Sorted.{IsPartitionPoint};
ghost use Rattle.word_layout.specs.Limits.{word_count};
ghost use Rattle.word_layout.specs.Layout.{limits_of, shape_of};
ghost use Rattle.word_layout.specs.Parts.{part_with};
ghost use Rattle.word_layout.specs.Shape.{parts_in, group_total};
ghost use Rattle.map_model.specs.Map.{IsRising};
ghost use Rattle.rebuild_plan.specs.Plan.{lane_count};
ghost use Rattle.index_machine.specs.OpeningRows.{opening_count, opening_pivots, opening_pivot, opening_next};
ghost use Rattle.index_machine.specs.OpeningRows.{is_in_opening_chain};
ghost use Rattle.index_machine.specs.Words.{shape};
ghost use Rattle.opened_table.specs.Laying.{StandsFor, keys_in, rows_of_part, rows_of_group, share_in};
ghost use Rattle.opened_table.specs.Laying.{FillsArray, LaysCuts, LaysHeader, LinksRows, Lays};
ghost use Rattle.opened_table.specs.Laying.{IsOfFirst, IsOfSlot, IsOfRoot, IsOfGroup, IsOfGroups, IsOfPart};

use index_machine::Opening;
use line_window::{Keys, Line};
use rebuild_plan::{groups_for, lane_width, lanes_for, root_step, share};
use std::alloc::{AllocError, Global};
use word_layout::{HeaderWord, Layout, Parts, State, link_word, state_word, value_word};

/// All record rows are on the free stack, row 0 first. The plan shares out each part's rows, which are given as a
/// slice too, among the part's first groups. The array of a group has its rows, and its header their number, the error
/// of their line, the lanes that the plan cuts for them, and the group behind it. The slots of a part's root that are
/// in use are on side 0 and name groups at equal steps.
pub fn laid_words(
    alloc: Global,
    opening: &Opening,
    rows: &[(u64, u64)],
) -> Result<Vec<u64>, AllocError>
    requires { rows.now ≡ opening.now.rows }
    ensures { IfOk result (λ words. StandsFor opening.now words.items []) }
{
    let layout = &opening.layout;
    let mut words = vec![in alloc; 0u64; layout.words() as usize]?;
    words[layout.free_head() as usize] = u64::from(layout.row(0));
    link_rows(layout, &mut words);
    lay_parts(opening, rows, &mut words);
    Ok(words)
}

fn link_rows(layout: &Layout, words: &mut Vec<u64>)
    requires { length words.old.items ≡ word_count (shape_of layout.now) }
    ensures { LinksRows (shape_of layout.now) (limits_of layout.now).records words.old.items
        words.new.items }
{
    for i in 1..layout.limits().records {
        words[link_word(layout.row(i - 1)) as usize] = u64::from(layout.row(i));
    }
}

fn lay_parts(opening: &Opening, rows: &[(u64, u64)], words: &mut Vec<u64>)
    requires rows { rows.now ≡ opening.now.rows }
    requires wide { length words.old.items ≡ word_count (shape opening.now) }
    ensures { Lays opening.now (IsOfFirst (IsOfPart opening.now) (parts_in (shape opening.now)))
        words.old.items words.new.items }
{
    let parts = opening.layout.parts();
    let mut rest = rows;
    for part in 0..parts.count() {
        let (own, later) = rest.split_at(count_in_part(&parts, part, rest));
        lay_part(opening, part, own, words);
        rest = later;
    }
}

// How many of the rows are the part's, where none is an earlier part's.
fn count_in_part(parts: &Parts, part: u32, rows: &[(u64, u64)]) -> usize
    requires { IsRising rows.now }
    ensures within { result ≤ length rows.now }
    ensures parted { IsPartitionPoint (λ row. part_with parts.now row.0 ≤ part)
        (λ row. part < part_with parts.now row.0) rows.now result }
{
    rows.partition_point(|row| parts.part_of(row.0) <= part)
}

fn lay_part(opening: &Opening, part: u32, rows: &[(u64, u64)], words: &mut Vec<u64>)
    requires is_part { part < parts_in (shape opening.now) }
    requires rows { rows.now ≡ rows_of_part opening.now part }
    requires wide { length words.old.items ≡ word_count (shape opening.now) }
    ensures { Lays opening.now (IsOfPart opening.now part) words.old.items words.new.items }
{
    let groups = count_of_groups(opening, part, rows);
    let each = share(rows.len() as u64, u64::from(groups));
    lay_root(opening, part, rows, groups, each, words);
    lay_groups(opening, part, rows, groups, each, words);
}

// Into how many groups the plan shares out the rows of a part.
fn count_of_groups(opening: &Opening, part: u32, rows: &[(u64, u64)]) -> u32
    requires is_part { part < parts_in (shape opening.now) }
    requires rows { rows.now ≡ rows_of_part opening.now part }
    ensures count { result ≡ opening_count opening.now part }
    ensures some { 1 ≤ result }
{
    groups_for(rows.len() as u64, opening.layout.limits().group_size) as u32
}

fn lay_root(
    opening: &Opening,
    part: u32,
    rows: &[(u64, u64)],
    groups: u32,
    each: u64,
    words: &mut Vec<u64>,
)
    requires is_part { part < parts_in (shape opening.now) }
    requires rows { rows.now ≡ rows_of_part opening.now part }
    requires groups { groups ≡ opening_count opening.now part }
    requires each { each ≡ share_in opening.now part }
    requires wide { length words.old.items ≡ word_count (shape opening.now) }
    ensures { Lays opening.now (IsOfRoot opening.now part) words.old.items words.new.items }
{
    let layout = &opening.layout;
    let step = root_step(groups, layout.limits().slots);
    let slots = groups.div_ceil(step);
    words[layout.root(part) as usize] = 2 * u64::from(slots);
    for i in 0..slots {
        let number = i * step;
        let pivot = pivot_of_group(opening, part, rows, each, number);
        words[layout.slot(part, 0, i) as usize] = pivot;
        words[layout.slot_group(part, 0, i) as usize] = u64::from(
            layout.first_group(part) + number,
        );
    }
}

// The pivot of the part's group with this number: the part's least key, or the key of the group's first row.
fn pivot_of_group(opening: &Opening, part: u32, rows: &[(u64, u64)], each: u64, number: u32) -> u64
    requires is_part { part < parts_in (shape opening.now) }
    requires rows { rows.now ≡ rows_of_part opening.now part }
    requires each { each ≡ share_in opening.now part }
    requires among { number < opening_count opening.now part }
    ensures { result ≡ slice_index (opening_pivots opening.now part) number }
{
    if number == 0 {
        opening.layout.parts().first_key(part)
    } else {
        rows[(u64::from(number) * each) as usize].0
    }
}

fn lay_groups(
    opening: &Opening,
    part: u32,
    rows: &[(u64, u64)],
    groups: u32,
    each: u64,
    words: &mut Vec<u64>,
)
    requires is_part { part < parts_in (shape opening.now) }
    requires rows { rows.now ≡ rows_of_part opening.now part }
    requires groups { groups ≡ opening_count opening.now part }
    requires each { each ≡ share_in opening.now part }
    requires wide { length words.old.items ≡ word_count (shape opening.now) }
    ensures { Lays opening.now (IsOfGroups opening.now part) words.old.items words.new.items }
{
    let first = opening.layout.first_group(part);
    for number in 0..groups {
        let pivot = pivot_of_group(opening, part, rows, each, number);
        let next = if number + 1 < groups {
            u64::from(first + number) + 2
        } else {
            0
        };
        let own = rows_of_number(rows, each, number);
        lay_group(opening, first + number, pivot, next, own, words);
    }
}

// The rows of the group with this number, where so many are given to each.
fn rows_of_number<'a>(rows: &'a [(u64, u64)], each: u64, number: u32) -> &'a [(u64, u64)]
    requires { number * each ≤ length rows.now }
    ensures { result.now ≡ take each (drop (number * each) rows.now) }
{
    let begin = (u64::from(number) * each) as usize;
    let left = rows.len() - begin;
    &rows[begin..begin + left.min(each as usize)]
}

fn lay_group(
    opening: &Opening,
    group: u32,
    pivot: u64,
    next: u64,
    rows: &[(u64, u64)],
    words: &mut Vec<u64>,
)
    requires chained { is_in_opening_chain opening.now group ≡ true }
    requires pivot { pivot ≡ opening_pivot opening.now group }
    requires next { next ≡ opening_next opening.now group }
    requires rows { rows.now ≡ rows_of_group opening.now group }
    requires wide { length words.old.items ≡ word_count (shape opening.now) }
    ensures { Lays opening.now (IsOfGroup opening.now group) words.old.items words.new.items }
{
    let layout = &opening.layout;
    lay_header(layout, group, pivot, next, rows, words);
    fill_array(layout, group, rows, words);
}

fn lay_header(
    layout: &Layout,
    group: u32,
    pivot: u64,
    next: u64,
    rows: &[(u64, u64)],
    words: &mut Vec<u64>,
)
    requires is_group { group < group_total (shape_of layout.now) }
    requires wide { length words.old.items ≡ word_count (shape_of layout.now) }
    requires rising { IsRising rows.now }
    ensures { LaysHeader (shape_of layout.now) group pivot next (keys_in rows.now) words.old.items
        words.new.items }
{
    let line = Line::of(&mut RowKeys { rows });
    let lanes = lanes_for(rows.len() as u64);
    words[layout.header(group, HeaderWord::Pivot.number()) as usize] = pivot;
    words[layout.header(group, HeaderWord::Size.number()) as usize] = rows.len() as u64;
    words[layout.header(group, HeaderWord::LineError.number()) as usize] = line.error() as u64;
    words[layout.header(group, HeaderWord::Next.number()) as usize] = next;
    words[layout.header(group, HeaderWord::Lanes.number()) as usize] = u64::from(lanes);
    lay_cuts(layout, group, pivot, rows, words);
}

// The first lane begins with the group, and each other one with its first row.
fn lay_cuts(layout: &Layout, group: u32, pivot: u64, rows: &[(u64, u64)], words: &mut Vec<u64>)
    requires is_group { group < group_total (shape_of layout.now) }
    requires wide { length words.old.items ≡ word_count (shape_of layout.now) }
    ensures { LaysCuts (shape_of layout.now) group pivot (keys_in rows.now)
        (lane_count (length (keys_in rows.now))) words.old.items words.new.items }
{
    let records = rows.len() as u64;
    let width = lane_width(records);
    words[layout.lane_cut(group, 0) as usize] = pivot;
    for lane in 1..lanes_for(records) {
        let first = u64::from(lane) * width;
        words[layout.lane_cut(group, lane) as usize] = rows[first as usize].0;
    }
}

// The keys of rows, read where the rows stand.
#[derive(Drop)]
struct RowKeys<'a> {
    rows: &'a [(u64, u64)],
}

impl<'a> Keys for RowKeys<'a> {
    ghost list = { λ s. keys_in s.rows.now };

    ghost origin = { λ _. tt };

    ghost reads = { λ _. 0 };

    ghost leads_to = { λ s t. t.rows.now ≡ s.rows.now };

    ghost leads_to_itself = { λ _. refl };

    ghost leads_on = { λ _ _ _ first second. second ∙ first };

    fn len(&self) -> usize {
        self.rows.len()
    }

    fn key(&mut self, i: usize) -> u64 {
        self.rows[i].0
    }
}

fn fill_array(layout: &Layout, group: u32, rows: &[(u64, u64)], words: &mut Vec<u64>)
    requires is_group { group < group_total (shape_of layout.now) }
    requires wide { length words.old.items ≡ word_count (shape_of layout.now) }
    requires few { length rows.now ≤ (limits_of layout.now).group_size }
    ensures { FillsArray (shape_of layout.now) group rows.now (length rows.now) words.old.items
        words.new.items }
{
    let state = State::Direct {
        version: layout.limits().first_version,
        locked: false,
        removed: false,
    };
    let state = state.word();
    for i in 0..rows.len() {
        let place = layout.array(group, i as u32);
        words[place as usize] = rows[i].0;
        words[value_word(place) as usize] = rows[i].1;
        words[state_word(place) as usize] = state;
    }
}
