//! What draws tiles.

ghost use Rattle.std.specs.Prelude.{◌≡◌, ℕ, ◌+◌, ◌-◌, ◌<◌, ◌≤◌, ◌^◌, Bool, count_by, is_none, length, true};
ghost use Rattle.cam_units.specs.declared.point.Spot.{Spot};
ghost use Rattle.cam_tiles.specs.Picture.{accepts};
ghost use Rattle.cam_tiles.specs.Tables.{all_drawn_from};
ghost use Rattle.cam_tiles.specs.Tiles.{IsGrid, grid_of, tile_rows, tiles_of};

use crate::grid::Grid;
use crate::window::Window;

/// The 64 rows of a tile from the top, bit i for column i; or nothing, where it is dirty.
pub type Tile = Option<[u64; 64]>;

/// Draws the tiles of a picture, and counts them.
///
/// The picture is known by a test of each place of the board, whether it is black there. Drawing keeps it.
pub trait Painter {
    /// Whether the picture is black at a place.
    ghost picture: { Self → Spot → Bool };

    /// How many tiles it was asked for.
    ghost count: { Self → ℕ };

    /// The rows of the picture at the centres of a tile, from the top: bit i of a row is set where the picture is black
    /// at the centre in column i. Bits and rows past the grid are 0.
    fn tile(&mut self, grid: Grid) -> [u64; 64]
        requires grid { IsGrid grid }
        requires room { count self.old < 2 ^ 64 - 1 }
        ensures rows { result ≡ tile_rows (picture self.old) grid }
        ensures kept { picture self.new ≡ picture self.old }
        ensures asked { count self.new ≡ count self.old + 1 };

    /// Draws the dirty ones of the tiles of a window from a number on: a bit of a row is set where the picture is black at
    /// the centre of its pixel, and bits and rows past the window are 0. The others stay. It asks
    /// [`tile`](Painter::tile) once for each, that of least number first; a painter may have a way of its own to the same
    /// tiles.
    fn draw(&mut self, window: &Window, first: u32, tiles: &mut [Tile])
        requires accepted { accepts window.now ≡ true }
        requires within { first + length tiles.old ≤ tiles_of window.now }
        requires room { count self.old + count_by is_none tiles.old < 2 ^ 64 }
        ensures tiles { tiles.new
            ≡ all_drawn_from (λ k. tile_rows (picture self.old) (grid_of window.now k)) first tiles.old }
        ensures kept { picture self.new ≡ picture self.old }
        ensures asked { count self.new ≡ count self.old + count_by is_none tiles.old }
    {
        for k in 0..tiles.len() {
            if tiles[k].is_none() {
                let rows = self.tile(window.grid(first + k as u32));
                tiles[k] = Some(rows);
            }
        }
    }

    /// How many tiles it was asked for.
    fn asked(&self) -> u64
        ensures { result ≡ count self.now };
}
