//! Shapes whose centres are marked in the rows of tiles side by side.

ghost use Rattle.std.specs.Prelude.{◌+◌, ◌*◌, ◌/◌, ◌≤◌, length};
ghost use Rattle.cam_objects.specs.Image.{Covers};
ghost use Rattle.cam_objects.specs.Leaves.{Shape};
ghost use Rattle.cam_tiles.specs.Machinery.Runs.{IsWideGrid};
ghost use Rattle.cam_tiles.specs.Machinery.Turning.{MarksCentres};

use crate::grid::Grid;

/// A shape whose centres are marked in the rows of tiles side by side, all of them at once.
pub(crate) trait MarkShape {
    /// Whether its parts are sound.
    ghost is_sound: { Self → Type 0 };

    /// What it covers.
    ghost shape: { Self → Shape };

    /// Marks the centres that it covers in the rows of a grid, and as many columns from its left on: the words of the tiles
    /// that these take up. As many spare words are written over where they are of use.
    fn mark(&self, marks: &mut [u64], spare: &mut [u64], grid: &Grid, columns: u32)
        requires sound { is_sound self.now }
        requires grid { IsWideGrid grid.now columns }
        requires room { 64 * ((columns + 63) / 64) ≤ length marks.old }
        requires spare { 64 * ((columns + 63) / 64) ≤ length spare.old }
        ensures { MarksCentres grid.now columns (Covers (shape self.now)) marks.new };
}
