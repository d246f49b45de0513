//! Places at equal distances in a line, as the columns of a grid, and those that lie between two bounds.

ghost use Rattle.std.specs.Prelude.{◌≡◌, ◌↔◌, ◌-◌, ◌<◌, ◌≤◌, ℕ, ◌≤ℤ◌};
ghost use Rattle.cam_units.specs.Board.{IsPlace};
ghost use Rattle.cam_tiles.specs.Machinery.Lattices.{AreReachedBy, IsLattice, place_at};
ghost use Rattle.cam_tiles.specs.Tiles.{IsGrid, centre_in};

use crate::grid::Grid;
use crate::masks::heights::Heights;
use crate::span::Span;
use cam_units::Spot;

/// So many places in a line: the first of them, and how far each is from the one before it, in half nm.
#[derive(Clone, Copy)]
pub(crate) struct Lattice {
    pub(crate) first: i64,
    pub(crate) step: i64,
    pub(crate) count: u32,
}

impl Grid {
    /// The columns whose centres lie from one place across to another, both included, where the rows go on to the right in so
    /// many columns.
    #[inline]
    pub(crate) fn columns_between(&self, columns: u32, left: i64, right: i64) -> Span
        requires grid { IsGrid self.now }
        requires centres { (column : ℕ) → column < columns → IsPlace (centre_in self.now column 0) }
        ensures each { (column : ℕ) → column < columns → ((result.first ≤ column) × (column < result.end))
            ↔ ((left ≤ℤ (centre_in self.now column 0).x) × ((centre_in self.now column 0).x ≤ℤ right)) }
        ensures few { result.end ≤ columns }
    {
        let across = Lattice {
            first: self.x,
            step: self.step,
            count: columns,
        };
        across.between(left, right)
    }

    /// The columns and the rows of the centres that a box holds, where the rows go on to the right in so many columns.
    #[inline]
    pub(crate) fn reached(&self, columns: u32, low: Spot, high: Spot) -> (Span, Span)
        requires grid { IsGrid self.now }
        requires centres { (column : ℕ) → column < columns → IsPlace (centre_in self.now column 0) }
        ensures { AreReachedBy low high self.now columns result.0 result.1 }
    {
        let across = self.columns_between(columns, low.x, high.x);
        let heights = Heights {
            low: low.y,
            high: high.y,
        };
        (across, self.levels().band(heights))
    }
}

impl Lattice {
    /// Those from one place to another, both included.
    #[inline]
    pub(crate) fn between(&self, low: i64, high: i64) -> Span
        requires { IsLattice self.now }
        ensures each { (n : ℕ) → n < self.now.count → ((result.first ≤ n) × (n < result.end))
            ↔ ((low ≤ℤ place_at self.now n) × (place_at self.now n ≤ℤ high)) }
        ensures few { result.end ≤ self.now.count }
    {
        if self.count == 0 {
            return Span::NONE;
        }
        // those before `low` are those up to the half nanometre before it
        Span {
            first: self.count_through(low.max(self.first) - 1),
            end: self.count_through(high),
        }
    }

    /// How many of them lie up to a place: by a division, if it has some of them on both sides.
    #[inline]
    fn count_through(&self, place: i64) -> u32
        requires lattice { IsLattice self.now }
        requires some { 0 < self.now.count }
        ensures each { (n : ℕ) → n < self.now.count → (n < result) ↔ (place_at self.now n ≤ℤ place) }
        ensures few { result ≤ self.now.count }
    {
        if place < self.first {
            return 0;
        }
        if self.first + i64::from(self.count - 1) * self.step <= place {
            return self.count;
        }
        (place.abs_diff(self.first) / self.step as u64) as u32 + 1
    }
}
