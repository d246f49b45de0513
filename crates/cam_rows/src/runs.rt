//! Runs of centres, found by division; those of wide rows are found row after row.

pub(crate) mod arc;
pub(crate) mod bar;
mod beside_line;
mod boxes;
pub(crate) mod cap;
pub(crate) mod circle;
pub(crate) mod edge;
mod narrowing;
pub(crate) mod obround;
pub(crate) mod rect;
pub(crate) mod swept;

ghost use Rattle.std.specs.Prelude.{◌+◌, ◌<◌, ◌≤◌, ◌↔◌, ℕ};
ghost use Rattle.std.specs.Int.{IsBitSet};
ghost use Rattle.cam_rows.specs.Runs.{IsInRun};

/// Columns of a row side by side: the first of them, and the one behind the last.
#[derive(Clone, Copy)]
pub(crate) struct Run {
    pub(crate) first: u32,
    pub(crate) end: u32,
}

/// The bits of a run from a column of its row on: bit i for the column that stands so far to the right, of so many.
#[inline]
#[tactic(auto, using(crate::proofs::SetBits::between_shifts))]
pub fn run_row(first: u32, end: u32, column: u32, count: u32) -> u64
    requires few { count ≤ 64 }
    ensures { (i : ℕ) → i < 64 → IsBitSet result i ↔ ((i < count) × IsInRun first end (column + i)) }
{
    let from = first.saturating_sub(column);
    let to = end.saturating_sub(column).min(count);
    if to <= from {
        return 0;
    }
    (u64::MAX << from) & (u64::MAX >> (64 - to))
}
