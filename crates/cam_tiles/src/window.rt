//! The window that a plot shows.

ghost use Rattle.std.specs.Prelude.{◌≡◌, ◌<◌, true};
ghost use Rattle.cam_units.specs.Board.{IsPlace};
ghost use Rattle.cam_tiles.specs.Picture.{accepts, are_near, centre_of, is_side, middle};
ghost use Rattle.cam_tiles.specs.Tiles.{IsGrid, across, grid_of, tiles_of};

use crate::grid::Grid;
use cam_units::Spot;

/// The most pixels of a side.
const LONGEST: u32 = 32_768;

/// The greatest pitch, in nm.
const COARSEST: i64 = 100_000_000;

/// Pixel centres are under this in absolute value, in half nm.
const REACH: u128 = 2_000_000_000;

/// A window of pixels: the lower left corner and the pitch in nanometres, the sides in
/// pixels.
///
/// Column 0 is at the left, row 0 at the top.
#[derive(Clone, Copy, Debug, PartialEq, Eq)]
pub struct Window {
    pub x: i64,
    pub y: i64,
    pub pitch: i64,
    pub width: u32,
    pub height: u32,
}

impl Window {
    /// Whether the window is within its limits: sides from 1 to 32,768 pixels, a pitch from
    /// 1 to 100,000,000 nm, and every pixel centre under 2,000,000,000 half nm in absolute
    /// value.
    #[tactic(auto, unfolding(crate::specs::Picture::accepts))]
    pub fn is_accepted(&self) -> bool
        ensures { result ≡ accepts self.now }
    {
        if !fits_side(self.width) || !fits_side(self.height) {
            return false;
        }
        if self.pitch < 1 || COARSEST < self.pitch {
            return false;
        }
        are_near(self.x, self.pitch, self.width) && are_near(self.y, self.pitch, self.height)
    }

    /// How many tiles of 64 by 64 pixels the window has; those at its right and lower edge
    /// may be smaller.
    pub fn tile_count(&self) -> u32
        requires { accepts self.now ≡ true }
        ensures { result ≡ tiles_of self.now }
    {
        self.across() * self.height.div_ceil(64)
    }

    /// How many tiles stand side by side.
    pub(crate) fn across(&self) -> u32
        requires { accepts self.now ≡ true }
        ensures { result ≡ across self.now }
    {
        self.width.div_ceil(64)
    }

    /// The centres of a tile, which is counted from the top left, row by row.
    pub(crate) fn grid(&self, tile: u32) -> Grid
        requires accepted { accepts self.now ≡ true }
        requires tile { tile < tiles_of self.now }
        ensures value { result ≡ grid_of self.now tile }
        ensures grid { IsGrid result }
    {
        let left = 64 * (tile % self.across());
        let top = 64 * (tile / self.across());
        let first = self.centre(left, top);
        Grid {
            x: first.x,
            y: first.y,
            step: 2 * self.pitch,
            cols: (self.width - left).min(64),
            rows: (self.height - top).min(64),
        }
    }

    /// The centre of a pixel.
    pub fn centre(&self, column: u32, row: u32) -> Spot
        requires accepted { accepts self.now ≡ true }
        requires column { column < self.now.width }
        requires row { row < self.now.height }
        ensures value { result ≡ centre_of self.now column row }
        ensures place { IsPlace result }
    {
        Spot {
            x: middle(self.x, self.pitch, column) as i64,
            y: middle(self.y, self.pitch, self.height - 1 - row) as i64,
        }
    }
}

/// The middle of the pixel that stands so far from an edge, in half nm.
fn middle(edge: i64, pitch: i64, pixel: u32) -> i128
    ensures { result ≡ middle edge pitch pixel }
{
    2 * i128::from(edge) + i128::from(2 * u64::from(pixel) + 1) * i128::from(pitch)
}

/// Whether the middles of the first and of the last of so many pixels from an edge on are on the board.
fn are_near(edge: i64, pitch: i64, count: u32) -> bool
    requires { 0 < count }
    ensures { result ≡ are_near edge pitch count }
{
    if middle(edge, pitch, 0).unsigned_abs() >= REACH {
        return false;
    }
    middle(edge, pitch, count - 1).unsigned_abs() < REACH
}

/// Whether a side has from 1 to 32,768 pixels.
fn fits_side(pixels: u32) -> bool
    ensures { result ≡ is_side pixels }
{
    1 <= pixels && pixels <= LONGEST
}
