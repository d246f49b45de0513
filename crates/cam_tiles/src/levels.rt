//! The heights of rows of pixel centres, in a tile or in a window.

ghost use Rattle.std.specs.Prelude.{◌≡◌, ◌↔◌, ℕ, ◌-◌, ◌<◌, ◌≤◌, pos, ◌-ℤ◌};
ghost use Rattle.cam_units.specs.declared.point.Spot.{Spot};
ghost use Rattle.cam_tiles.specs.Machinery.Levels.{AreLevels, IsOnRow, height, levels_of};
ghost use Rattle.cam_tiles.specs.Machinery.Masks.{IsWithin};

use crate::grid::Grid;
use crate::lattice::Lattice;
use crate::masks::heights::Heights;
use crate::span::Span;

/// Rows of centres, one below another: the height of the top one and how far they are apart, in half nm, and how many
/// they are.
#[derive(Clone, Copy)]
pub(crate) struct Levels {
    pub(crate) top: i64,
    pub(crate) step: i64,
    pub(crate) rows: u32,
}

impl Grid {
    /// The heights of its rows, which may be seen from a point.
    #[inline]
    pub(crate) fn levels(&self) -> Levels
        requires { AreLevels (levels_of self.now) }
        ensures value { result ≡ levels_of self.now }
        ensures levels { AreLevels result }
    {
        Levels {
            top: self.y,
            step: self.step,
            rows: self.rows,
        }
    }
}

/// A height mirrored, so that rows, which go down, are places in order. It is mirrored at minus one half, since the least
/// number of 64 bits has none at 0.
#[inline]
fn mirrored(height: i64) -> i64
    ensures { result ≡ pos 0 -ℤ pos 1 -ℤ height }
{
    -1 - height
}

impl Levels {
    /// The rows at some heights.
    #[inline]
    pub(crate) fn band(&self, heights: Heights) -> Span
        requires { AreLevels self.now }
        ensures rows { (row : ℕ) (s : Spot) → IsOnRow self.now row s
            → ((result.first ≤ row) × (row < result.end)) ↔ IsWithin heights s }
        ensures end { result.end ≤ self.now.rows }
    {
        let places = Lattice {
            first: mirrored(self.top),
            step: self.step,
            count: self.rows,
        };
        places.between(mirrored(heights.high), mirrored(heights.low))
    }

    /// The height of a row, in half nm.
    #[inline]
    pub(crate) fn height(&self, row: u32) -> i64
        requires levels { AreLevels self.now }
        requires row { row < self.now.rows }
        ensures { result ≡ height self.now row }
    {
        self.top - i64::from(row) * self.step
    }
}
