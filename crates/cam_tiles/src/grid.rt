//! The pixel centres of a tile.

ghost use Rattle.std.specs.Prelude.{◌≡◌, ◌-◌, ◌*◌, ◌<◌, ℕ};
ghost use Rattle.cam_units.specs.Board.{IsPlace};
ghost use Rattle.cam_units.specs.Boxes.{Holds};
ghost use Rattle.cam_tiles.specs.Machinery.Runs.{IsWideGrid, StandsAt};
ghost use Rattle.cam_tiles.specs.Tiles.{IsGrid, centre_in};

use cam_units::{Bounds, Spot};

/// The pixel centres of a tile: the place of the upper left one and the distance of neighbours, in half nanometres; and
/// how many columns and rows of them there are, from 1 to 64.
#[derive(Clone, Copy, Debug, PartialEq, Eq)]
pub struct Grid {
    pub x: i64,
    pub y: i64,
    pub step: i64,
    pub cols: u32,
    pub rows: u32,
}

impl Grid {
    /// The grid from a tile on, where its rows go on to the right in so many columns.
    pub(crate) fn from_tile(&self, tile: u32, columns: u32) -> Grid
        requires grid { IsWideGrid self.now columns }
        requires tile { 64 * tile < columns }
        ensures stands { StandsAt self.now (64 * tile) result }
        ensures wide { IsWideGrid result (columns - 64 * tile) }
    {
        Grid {
            x: self.x + i64::from(64 * tile) * self.step,
            cols: (columns - 64 * tile).min(64),
            ..*self
        }
    }

    /// The box of the centres, in half nm.
    pub(crate) fn bounds(&self) -> Bounds
        requires { IsGrid self.now }
        ensures { (column row : ℕ) → column < self.now.cols → row < self.now.rows
            → Holds result (centre_in self.now column row) }
    {
        let last = self.centre(self.cols - 1, self.rows - 1);
        Bounds::Closed {
            low: Spot {
                x: self.x,
                y: last.y,
            },
            high: Spot {
                x: last.x,
                y: self.y,
            },
        }
    }

    /// The centre in a column and a row, which are counted from the upper left one.
    pub(crate) fn centre(&self, column: u32, row: u32) -> Spot
        requires grid { IsGrid self.now }
        requires column { column < self.now.cols }
        requires row { row < self.now.rows }
        ensures value { result ≡ centre_in self.now column row }
        ensures place { IsPlace result }
    {
        Spot {
            x: self.x + i64::from(column) * self.step,
            y: self.y - i64::from(row) * self.step,
        }
    }
}
