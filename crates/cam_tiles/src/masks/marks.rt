//! Marks in rows of tiles side by side: each turns over the columns left of it, and its own. Those of its tile it turns over
//! at once, and by its first column it tells the tiles left of it, so that no word is gone through bit by bit.

ghost use Rattle.std.specs.Prelude.{◌≡◌, ◌↔◌, ◌+◌, ◌*◌, ◌%◌, ◌<◌, ◌≤◌, ℕ, length, slice_index};
ghost use Rattle.cam_rows.specs.Runs.{IsInRun};
ghost use Rattle.cam_tiles.specs.Machinery.Spreading.{AreRowsSpread};
ghost use Rattle.cam_tiles.specs.Machinery.Marks.{AreSpread, TurnsRow, TurnsRows, is_set};

/// Turns over the columns of a row before an end, by one mark. A tile has 64 words, one for each of its rows from the
/// top, and its columns are their bits.
#[inline]
#[tactic(auto, using(crate::proofs::MarkedColumns::turns_before, crate::proofs::MarkedColumns::turns_none))]
fn mark_end(marks: &mut [u64], row: u32, end: u32)
    requires row { row < 64 }
    requires end { end ≤ length marks.old }
    requires tiles { length marks.old % 64 ≡ 0 }
    ensures { TurnsRow row (λ column. column < end) marks.old marks.new }
{
    if end == 0 {
        return;
    }
    let column = end - 1;
    let word = (column / 64 * 64 + row) as usize;
    marks[word] ^= u64::MAX >> (63 - column % 64);
}

/// Turns over the columns before an end in each of rows one below another, from one on: by one mark in each, as
/// [`mark_end`] does.
#[tactic(auto, using(crate::proofs::MarkedRows::next_turned, crate::proofs::MarkedRows::all_turned, crate::proofs::MarkedRows::none_turned))]
pub(crate) fn mark_ends(marks: &mut [u64], first: u32, ends: &[u32])
    requires rows { first + length ends.now ≤ 64 }
    requires ends { (k : ℕ) → k < length ends.now → slice_index ends.now k ≤ length marks.old }
    requires tiles { length marks.old % 64 ≡ 0 }
    ensures { TurnsRows first (length ends.now) (λ k column. column < slice_index ends.now k) marks.old marks.new }
{
    for k in 0..ends.len() {
        mark_end(marks, first + k as u32, ends[k]);
    }
}

/// Turns over the columns before one end in each of so many rows, from one on, as of an edge that is steep: by words
/// side by side.
#[tactic(auto, using(crate::proofs::MarkedRows::next_turned, crate::proofs::MarkedRows::all_turned, crate::proofs::MarkedRows::none_turned))]
pub(crate) fn mark_column(marks: &mut [u64], first: u32, rows: usize, end: u32)
    requires rows { first + rows ≤ 64 }
    requires end { end ≤ length marks.old }
    requires tiles { length marks.old % 64 ≡ 0 }
    ensures { TurnsRows first rows (λ _ column. column < end) marks.old marks.new }
{
    for k in 0..rows {
        mark_end(marks, first + k as u32, end);
    }
}

/// Turns over the columns of a run in each of rows one below another, from one on: from its first column on and before
/// its end, by two marks; a run whose end is not behind its first column has none.
#[tactic(auto, using(crate::proofs::MarkedRows::next_turned, crate::proofs::MarkedRows::all_turned, crate::proofs::MarkedRows::none_turned, crate::proofs::MarkedRows::run_turned, crate::proofs::MarkedRows::no_run_turned))]
pub(crate) fn mark_runs(marks: &mut [u64], first: u32, firsts: &[u32], ends: &[u32])
    requires rows { first + length firsts.now ≤ 64 }
    requires same { length ends.now ≡ length firsts.now }
    requires ends { (k : ℕ) → k < length firsts.now → slice_index ends.now k ≤ length marks.old }
    requires tiles { length marks.old % 64 ≡ 0 }
    ensures { TurnsRows first (length firsts.now)
        (λ k column. IsInRun (slice_index firsts.now k) (slice_index ends.now k) column) marks.old marks.new }
{
    for k in 0..firsts.len() {
        if firsts[k] < ends[k] {
            mark_end(marks, first + k as u32, firsts[k]);
            mark_end(marks, first + k as u32, ends[k]);
        }
    }
}

/// Marks each column that some marks turn over, and no other: each tile is turned over where the first column of the one
/// right of it is. Each word is gone through once.
#[tactic(auto, using(crate::proofs::MarkedColumns::all_spread, crate::proofs::MarkedColumns::last_tile))]
pub(crate) fn spread_marks(marks: &mut [u64])
    requires { length marks.old % 64 ≡ 0 }
    ensures { AreSpread marks.old marks.new }
{
    let tiles = marks.len() / 64;
    for passed in 1..tiles {
        spread_to(marks, tiles - (passed + 1));
    }
}

/// Turns over those rows of a tile of which the first column of the tile right of it is marked.
#[tactic(auto, using(crate::proofs::MarkedColumns::next_row, crate::proofs::MarkedColumns::no_row, crate::proofs::MarkedColumns::lowest_carried, crate::proofs::MarkedColumns::nothing_carried))]
fn spread_to(marks: &mut [u64], tile: usize)
    requires { 64 * tile + 128 ≤ length marks.old }
    ensures { AreRowsSpread tile 64 marks.old marks.new }
{
    let first = 64 * tile;
    for row in 0..64 {
        let carried = if marks[first + 64 + row] % 2 == 1 {
            u64::MAX
        } else {
            0
        };
        marks[first + row] ^= carried;
    }
}
