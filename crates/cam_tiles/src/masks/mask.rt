//! A mask, and how it gains and loses marks.

ghost use Rattle.std.specs.Prelude.{◌≡◌, ◌↔◌, ◌<◌, ◌≤◌, ℕ, IsTrue, true};
ghost use Rattle.cam_units.specs.Board.{IsOnBoard};
ghost use Rattle.cam_units.specs.Boxes.{Holds};
ghost use Rattle.cam_objects.specs.Image.{relative};
ghost use Rattle.cam_rows.specs.Rows.{IsRow, centre_at};
ghost use Rattle.cam_tiles.specs.Machinery.Masks.{HoldsCentres, IsBlank, IsIn, IsMask, IsWithin};
ghost use Rattle.cam_tiles.specs.Machinery.Masks.{Merges, TurnsBy, ink_of};
ghost use Rattle.cam_tiles.specs.Tiles.{IsGrid, centre_in};

use crate::grid::Grid;
use crate::levels::Levels;
use crate::masks::heights::Heights;
use crate::masks::join::{Join, told_by_type};
use crate::span::Span;
use cam_rows::{Centres, run_row, xor_rows};
use cam_units::{Bounds, Point};
use std::marker::Model;

/// The origin, from which places are seen as they are.
pub(crate) const ORIGIN: Point = Point { x: 0, y: 0 };

/// Which centres of a grid are marked: bit i of a row, from the top, is the centre in column i. Nothing is marked past
/// the grid. The box of the centres is kept beside them, since it is asked for at each leaf.
#[derive(Drop)]
pub(crate) struct Mask {
    grid: Grid,
    bounds: Bounds,
    pub(crate) rows: [u64; 64],
}

impl Model for Mask {
    ghost use Rattle.cam_tiles.specs.Machinery.Masks.{IsBoxedMask, Marking, marking_of};

    ghost Value = { Marking };

    ghost view = { marking_of };

    ghost invariant = { IsBoxedMask };
}

impl Grid {
    /// The centres of a row, which is counted from the top, as they are seen from a point.
    pub(crate) fn row_from(&self, row: u32, at: Point) -> Centres
        requires grid { IsGrid self.now }
        requires row { row < self.now.rows }
        requires at { IsOnBoard at }
        ensures count { result.n ≡ self.now.cols }
        ensures centres { (i : ℕ) → centre_at result i ≡ relative at (centre_in self.now i row) }
        ensures row { IsRow result }
    {
        Centres {
            x: self.x - 2 * at.x,
            y: self.y - i64::from(row) * self.step - 2 * at.y,
            step: self.step,
            n: self.cols,
        }
    }

    /// The rows whose centres lie, as they are seen from a point, between two heights.
    pub(crate) fn band(&self, heights: Heights, at: Point) -> Span
        requires grid { IsGrid self.now }
        requires at { IsOnBoard at }
        ensures rows { (row : ℕ) → row < self.now.rows
            → ((result.first ≤ row) × (row < result.end)) ↔ IsWithin heights (relative at (centre_in self.now 0 row)) }
        ensures end { result.end ≤ self.now.rows }
    {
        let levels = Levels {
            top: self.y - 2 * at.y,
            step: self.step,
            rows: self.rows,
        };
        levels.band(heights)
    }
}

impl Mask {
    /// A mask of a grid that marks nothing.
    pub(crate) fn blank(grid: Grid) -> Mask
        requires { IsGrid grid }
        ensures grid { result.grid ≡ grid }
        ensures marks { IsBlank result }
    {
        Mask {
            grid,
            bounds: grid.bounds(),
            rows: [0; 64],
        }
    }

    /// The grid.
    pub(crate) fn grid(&self) -> Grid
        ensures value { result ≡ self.now.grid }
        ensures grid { IsGrid result }
    {
        self.grid
    }

    /// The box of the centres, in half nm.
    pub(crate) fn grid_bounds(&self) -> Bounds
        ensures { HoldsCentres result self.now.grid }
    {
        self.bounds
    }

    /// The rows, from the top.
    pub(crate) fn rows(&self) -> [u64; 64]
        ensures rows { result ≡ self.now.rows }
        ensures mask { IsMask self.now }
    {
        self.rows
    }

    /// Whether all centres in a box are marked.
    pub(crate) fn is_marked_in(&self, bounds: Bounds) -> bool
        ensures { IsTrue result ↔ ((column row : ℕ) → IsIn self.now.grid column row
            → Holds bounds (centre_in self.now.grid column row) → ink_of self.now column row ≡ true) }
    {
        let Bounds::Closed { low, high } = bounds else {
            return true;
        };
        let (columns, rows) = self.grid.reached(self.grid.cols, low, high);
        let run = run_row(columns.first, columns.end, 0, self.grid.cols);
        for row in rows.first..rows.end {
            if self.rows[row as usize] & run != run {
                return false;
            }
        }
        true
    }

    /// Joins the marks with those of another mask of the same grid.
    pub(crate) fn merge(&mut self, other: &Mask, how: Join)
        requires { other.now.grid ≡ self.old.grid }
        ensures { Merges how other.now self.old self.new }
    {
        how.join_rows(&mut self.rows, &other.rows);
    }

    /// Turns over the marks of another mask of the same grid: a centre that both mark is not marked then.
    pub(crate) fn turn_by(&mut self, other: &Mask)
        requires { other.now.grid ≡ self.old.grid }
        ensures { TurnsBy other.now self.old self.new }
    {
        xor_rows(&mut self.rows, &other.rows);
        told_by_type(&self.rows);
    }
}
