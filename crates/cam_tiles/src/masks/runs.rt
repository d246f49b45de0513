//! Runs of columns in the rows of tiles side by side.

ghost use Rattle.std.specs.Prelude.{◌≡◌, ◌↔◌, ◌⊎◌, ◌/◌, ◌<◌, ◌≤◌, ℕ, IsTrue, length, slice_index};
ghost use Rattle.cam_units.specs.Board.{IsOnBoard};
ghost use Rattle.cam_objects.specs.Image.{relative};
ghost use Rattle.cam_shapes.specs.Arc.{IsSoundArc};
ghost use Rattle.cam_rows.specs.ArcRuns.{IsBeyond};
ghost use Rattle.cam_rows.specs.Runs.{IsInRun};
ghost use Rattle.cam_tiles.specs.Machinery.Masks.{IsWithin};
ghost use Rattle.cam_tiles.specs.Machinery.Runs.{AreAlike, Finds, Fits, HasColumn, IsClear, IsWideGrid, Tells};

use crate::grid::Grid;
use crate::masks::heights::{HasHeights, Heights};
use crate::span::Span;
use cam_rows::{Beyond, RunShape, is_wide_arc};
use cam_shapes::Arc;
use cam_units::Point;

/// For each row of a band the run of the columns that a shape holds, from the first one on and before an end; none in
/// other rows. Columns are counted from the left of a row of tiles.
#[derive(Clone, Copy)]
pub(crate) struct Runs {
    pub(crate) band: Span,
    pub(crate) firsts: [u32; 64],
    pub(crate) ends: [u32; 64],
}

impl Runs {
    /// Of a shape that holds nothing.
    pub(crate) fn none() -> Runs {
        Runs {
            band: Span::NONE,
            firsts: [0; 64],
            ends: [0; 64],
        }
    }

    /// Turns to those of a shape that holds nothing.
    pub(crate) fn clear(&mut self)
        ensures { IsClear self.new }
    {
        self.band = Span::NONE;
    }

    /// Takes in the runs of another, row after row, as long as each is one run with that of its row here. Once it has
    /// taken in all of them, the other has none.
    pub(crate) fn take_in(&mut self, other: &mut Runs)
        requires few { other.old.band.end ≤ 64 }
        ensures columns { (row column : ℕ) → (HasColumn self.new row column ⊎ HasColumn other.new row column)
            ↔ (HasColumn self.old row column ⊎ HasColumn other.old row column) }
        ensures fits { (rows : ℕ) → Fits rows self.old → Fits rows other.old
            → Fits rows self.new × Fits rows other.new }
    {
        if other.band.first < self.band.first || self.band.end < other.band.end {
            return;
        }
        for row in other.band.first..other.band.end {
            let k = row as usize;
            let here = Span {
                first: self.firsts[k],
                end: self.ends[k],
            };
            let there = Span {
                first: other.firsts[k],
                end: other.ends[k],
            };
            let Some(run) = here.united(there) else {
                return;
            };
            self.firsts[k] = run.first;
            self.ends[k] = run.end;
        }
        other.clear();
    }

    /// Takes the runs of another out, row after row, as long as each begins no later than that of its row here, or ends no
    /// earlier, so that one run is left. Once all of them are taken out, the other has none.
    pub(crate) fn take_out(&mut self, other: &mut Runs)
        requires few { other.old.band.end ≤ 64 }
        ensures columns { (row column : ℕ)
            → (HasColumn self.new row column × (HasColumn other.new row column → ⊥))
            ↔ (HasColumn self.old row column × (HasColumn other.old row column → ⊥)) }
        ensures fits { (rows : ℕ) → Fits rows self.old → Fits rows other.old
            → Fits rows self.new × Fits rows other.new }
    {
        for row in other.band.first..other.band.end {
            let k = row as usize;
            if other.firsts[k] <= self.firsts[k] {
                self.firsts[k] = self.firsts[k].max(other.ends[k]);
            } else if self.ends[k] <= other.ends[k] {
                self.ends[k] = self.ends[k].min(other.firsts[k]);
            } else {
                return;
            }
        }
        other.clear();
    }

    /// Whether all rows of the band have the same run, as those of a box have.
    pub(crate) fn are_box(&self) -> bool
        requires { self.now.band.end ≤ 64 }
        ensures { IsTrue result ↔ ((row : ℕ) → self.now.band.first ≤ row → row < self.now.band.end
            → AreAlike self.now self.now.band.first row) }
    {
        for row in self.band.first..self.band.end {
            let (first, other) = (self.columns(self.band.first), self.columns(row));
            if other.first != first.first || other.end != first.end {
                return false;
            }
        }
        true
    }

    /// The tiles in which its columns lie: of a slanted draw, few of those that its box reaches.
    pub(crate) fn tiles(&self) -> Span
        requires { self.now.band.end ≤ 64 }
        ensures { (row column : ℕ) → HasColumn self.now row column
            → (result.first ≤ column / 64) × (column / 64 < result.end) }
    {
        let mut columns = Span {
            first: u32::MAX,
            end: 0,
        };
        for row in self.band.first..self.band.end {
            let run = self.columns(row);
            columns.first = columns.first.min(run.first);
            columns.end = columns.end.max(run.end);
        }
        columns.tiles()
    }

    /// The run of a row.
    #[inline]
    pub(crate) fn run(&self, row: u32) -> Span
        requires { row < 64 }
        ensures { (column : ℕ) → IsInRun result.first result.end column ↔ HasColumn self.now row column }
    {
        if row < self.band.first || self.band.end <= row {
            return Span::NONE;
        }
        self.columns(row)
    }

    /// The run of a row of the band.
    #[inline]
    pub(crate) fn columns(&self, row: u32) -> Span
        requires { row < 64 }
        ensures first { result.first ≡ slice_index self.now.firsts row }
        ensures end { result.end ≡ slice_index self.now.ends row }
    {
        Span {
            first: self.firsts[row as usize],
            end: self.ends[row as usize],
        }
    }

    /// Turns to those of a shape, which stands at a point as it does about (0, 0), in the rows of a grid, and as many
    /// columns from its left on.
    pub(crate) fn find<S: HasHeights>(&mut self, shape: &S, at: Point, grid: &Grid, columns: u32)
        requires sound { S.is_sound shape.now }
        requires at { IsOnBoard at }
        requires grid { IsWideGrid grid.now columns }
        ensures { Tells grid.now columns (λ s. S.holds shape.now (relative at s)) self.new }
    {
        self.find_between(shape, shape.heights(), at, grid, columns);
    }

    /// Turns to the runs of what a shape holds between two heights, wherever else it may lie.
    pub(crate) fn find_between<S: RunShape>(
        &mut self,
        shape: &S,
        heights: Heights,
        at: Point,
        grid: &Grid,
        columns: u32,
    )
        requires sound { S.is_sound shape.now }
        requires at { IsOnBoard at }
        requires grid { IsWideGrid grid.now columns }
        ensures { Tells grid.now columns (λ s. S.holds shape.now (relative at s) × IsWithin heights (relative at s))
            self.new }
    {
        let band = grid.band(heights, at);
        if band.end <= band.first {
            self.clear();
            return;
        }
        let mut top = grid.row_from(band.first, at);
        top.n = columns;
        let firsts = &mut self.firsts[band.first as usize..band.end as usize];
        let ends = &mut self.ends[band.first as usize..band.end as usize];
        firsts.fill(0);
        ends.fill(columns);
        shape.find(&top, firsts, ends);
        self.band = band;
    }

    /// Turns to those of a shape where other runs are: in what these do not have it is not looked for.
    pub(crate) fn find_among<S: RunShape>(
        &mut self,
        others: &Runs,
        shape: &S,
        at: Point,
        grid: &Grid,
        columns: u32,
    )
        requires fits { Fits grid.now.rows others.now }
        requires sound { S.is_sound shape.now }
        requires at { IsOnBoard at }
        requires grid { IsWideGrid grid.now columns }
        ensures { Finds grid.now columns (λ s. S.holds shape.now (relative at s)) others.now self.new }
    {
        *self = *others;
        let Span { first, end } = others.band;
        if end <= first {
            return;
        }
        let mut top = grid.row_from(first, at);
        top.n = columns;
        let firsts = &mut self.firsts[first as usize..end as usize];
        let ends = &mut self.ends[first as usize..end as usize];
        shape.find(&top, firsts, ends);
        if are_empty(firsts, ends) {
            self.clear();
        }
    }

    /// Turns to those of what an arc's sweep leaves out, where other runs are.
    pub(crate) fn find_beyond(
        &mut self,
        others: &Runs,
        arc: Arc,
        at: Point,
        grid: &Grid,
        columns: u32,
    )
        requires fits { Fits grid.now.rows others.now }
        requires sound { IsSoundArc arc }
        requires at { IsOnBoard at }
        requires grid { IsWideGrid grid.now columns }
        ensures { Finds grid.now columns (λ s. IsBeyond arc (relative at s)) others.now self.new }
    {
        if !is_wide_arc(&arc) {
            self.clear();
            return;
        }
        self.find_among(others, &Beyond(arc), at, grid, columns);
    }
}

/// Whether no run has a column.
fn are_empty(firsts: &[u32], ends: &[u32]) -> bool
    requires { length ends.now ≡ length firsts.now }
    ensures { IsTrue result ↔ ((k : ℕ) → k < length firsts.now → slice_index ends.now k ≤ slice_index firsts.now k) }
{
    firsts.iter().zip(ends).all(|(first, end)| *end <= *first)
}
