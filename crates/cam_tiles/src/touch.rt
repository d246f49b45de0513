//! Which tiles a box touches, by division, and their wiping.

ghost use Rattle.std.specs.Prelude.{◌≡◌, ℕ, ◌+◌, ◌-◌, ◌*◌, ◌/◌, ◌%◌, ◌^◌, ◌<◌, ◌≤◌};
ghost use Rattle.std.specs.Prelude.{◌&&◌, nat_le, nat_lt, if◌then◌else◌, false, true};
ghost use Rattle.std.specs.Prelude.{None, count_by, is_none, length, slice_index_or};
ghost use Rattle.cam_tiles.specs.Picture.{accepts, middle};
ghost use Rattle.cam_tiles.specs.Machinery.Spans.{has_pixel, is_between, is_in_span};
ghost use Rattle.cam_tiles.specs.Tiles.{across, tiles_down};

use crate::lattice::Lattice;
use crate::levels::Levels;
use crate::masks::heights::Heights;
use crate::painter::Tile;
use crate::span::Span;
use crate::window::Window;
use cam_units::Spot;

impl Window {
    /// The columns of tiles with a pixel centre that is neither left nor right of the box between two corners.
    pub(crate) fn columns_between(&self, low: &Spot, high: &Spot) -> Span
        requires { accepts self.now ≡ true }
        ensures each { (tile : ℕ) → tile < across self.now → is_in_span result tile
            ≡ has_pixel (λ column. is_between low.now.x high.now.x (middle self.now.x self.now.pitch column))
            self.now.width tile }
        ensures ordered { result.first ≤ result.end }
        ensures few { result.end ≤ across self.now }
    {
        let places = Lattice {
            first: self.centre(0, 0).x,
            step: 2 * self.pitch,
            count: self.width,
        };
        places.between(low.x, high.x).tiles()
    }

    /// The rows of tiles with a pixel centre that is neither above nor below the box between two corners.
    pub(crate) fn rows_between(&self, low: &Spot, high: &Spot) -> Span
        requires { accepts self.now ≡ true }
        ensures each { (tile : ℕ) → tile < tiles_down self.now → is_in_span result tile
            ≡ has_pixel
            (λ row. is_between low.now.y high.now.y (middle self.now.y self.now.pitch (self.now.height - 1 - row)))
            self.now.height tile }
        ensures ordered { result.first ≤ result.end }
        ensures few { result.end ≤ tiles_down self.now }
    {
        let levels = Levels {
            top: self.centre(0, 0).y,
            step: 2 * self.pitch,
            rows: self.height,
        };
        let heights = Heights {
            low: low.y,
            high: high.y,
        };
        levels.band(heights).tiles()
    }
}

/// Makes the tiles in some columns of a row of tiles dirty, whose leftmost tile has the number `start`. Answers how
/// many of them were clean.
fn wipe_row(tiles: &mut [Tile], start: usize, columns: Span) -> u32
    requires ordered { columns.first ≤ columns.end }
    requires within { start + columns.end ≤ length tiles.old }
    requires few { length tiles.old < 2 ^ 32 }
    ensures each { (k : ℕ) → slice_index_or tiles.new k None
        ≡ (if nat_le (start + columns.first) k && nat_lt k (start + columns.end)
        then None else slice_index_or tiles.old k None) }
    ensures count { count_by is_none tiles.new ≡ count_by is_none tiles.old + result }
{
    let mut wiped = 0;
    for k in start + columns.first as usize..start + columns.end as usize {
        if tiles[k].take().is_some() {
            wiped += 1;
        }
    }
    wiped
}

/// Makes the tiles dirty that stand in both spans, where `across` of them stand side by side. Answers how many of them
/// were clean.
pub(crate) fn wipe(tiles: &mut [Tile], across: u32, columns: Span, rows: Span) -> u32
    requires wide { 0 < across }
    requires columns { columns.first ≤ columns.end }
    requires inside { columns.end ≤ across }
    requires rows { rows.first ≤ rows.end }
    requires above { across * rows.end ≤ length tiles.old }
    requires few { length tiles.old < 2 ^ 32 }
    ensures each { (k : ℕ) → slice_index_or tiles.new k None
        ≡ (if is_in_span columns (k % across) && is_in_span rows (k / across)
        then None else slice_index_or tiles.old k None) }
    ensures count { count_by is_none tiles.new ≡ count_by is_none tiles.old + result }
{
    let mut wiped = 0;
    for row in rows.first..rows.end {
        wiped += wipe_row(tiles, across as usize * row as usize, columns);
    }
    wiped
}

/// The first of the tiles that stand in both spans, where `across` of them stand side by side; but at most `most`.
pub(crate) fn first_in(across: u32, columns: Span, rows: Span, most: usize) -> usize
    requires { 0 < across }
    ensures few { result ≤ most }
    ensures none { (k : ℕ) → k < result
        → (is_in_span columns (k % across) && is_in_span rows (k / across)) ≡ false }
{
    if columns.end <= columns.first || rows.end <= rows.first {
        return most;
    }
    most.min(across as usize * rows.first as usize + columns.first as usize)
}
