//! The rows in which marks are turned over.

ghost use Rattle.std.specs.Prelude.{◌≡◌, ℕ, ◌<◌};
ghost use Rattle.cam_tiles.specs.Machinery.Fields.{IsField};
ghost use Rattle.cam_tiles.specs.Machinery.Masks.{IsWithin};
ghost use Rattle.cam_tiles.specs.Tiles.{centre_in};

use crate::grid::Grid;
use crate::masks::heights::Heights;

/// The rows of a grid, so many columns from its left on, as they may be seen from a point; and the heights of all rows, by
/// which lines are passed over that lie above or below them.
#[derive(Drop)]
pub(crate) struct Field {
    pub(crate) grid: Grid,
    pub(crate) columns: u32,
    pub(crate) rows: Heights,
    ghost seen: { IsField grid columns },
    ghost within: { (column row : ℕ) → row < grid.rows → IsWithin rows (centre_in grid column row) },
}

impl Field {
    /// As many columns of a grid.
    #[inline]
    pub(crate) fn new(grid: Grid, columns: u32) -> Field
        requires { IsField grid columns }
        ensures grid { result.grid ≡ grid }
        ensures columns { result.columns ≡ columns }
    {
        let rows = Heights {
            low: grid.levels().height(grid.rows - 1),
            high: grid.y,
        };
        Field {
            grid,
            columns,
            rows,
        }
    }
}
