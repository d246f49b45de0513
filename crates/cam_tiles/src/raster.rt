//! Rasters: the tiles of a window, each drawn or dirty.

ghost use Rattle.std.specs.Prelude.{◌≡◌, ◌+◌, ◌<◌, ◌≤◌, ◌^◌, IfErr, IfNone, IfOk, IfSome, None, OnOk, Some, true};
ghost use Rattle.std.specs.Prelude.{count_by, is_none, is_some, length, min, slice_index_or, take};
ghost use Rattle.cam_tiles.specs.Picture.{accepts};
ghost use Rattle.cam_tiles.specs.Tables.{
  IsRefusal,
  blank,
  dirty_count,
  drawn_from,
  file_fault,
  pbm_of,
  pixel_of,
  redrawn,
  tile_in,
  window_fault,
};
ghost use Rattle.cam_tiles.specs.Tiles.{grid_of, tile_rows, tiles_of};
ghost use Rattle.cam_tiles.specs.Touched.{box_touched};

use crate::fault::RasterFault;
use crate::painter::{Painter, Tile};
use crate::pbm::bitmap;
use crate::touch::{first_in, wipe};
use crate::window::Window;
use cam_units::Bounds;
use std::alloc::{AllocError, Global};
use std::marker::Model;

/// The tiles of a window, 64 by 64 pixels each, in order from the top left, row by row; those at the right and at the
/// lower edge may be smaller. Each is clean, and its pixels are known, or dirty.
#[derive(Drop)]
pub struct Raster {
    window: Window,
    across: u32,
    dirty: u32,
    /// So many of the first tiles are clean, if not more: a redraw begins behind them.
    clean: usize,
    tiles: Vec<Tile>,
}

impl Model for Raster {
    ghost use Rattle.cam_tiles.specs.Machinery.Kept.{IsKept, table_of};
    ghost use Rattle.cam_tiles.specs.Tables.{Table};

    ghost Value = { Table };

    ghost view = { table_of };

    ghost invariant = { IsKept };
}

impl Raster {
    /// A raster whose tiles are all dirty; 50 for a window outside its limits, and 30 where memory was refused.
    pub fn new(alloc: Global, window: Window) -> Result<Raster, RasterFault>
        ensures made { IfOk result (λ raster. raster ≡ blank window) }
        ensures refused { IfErr result (λ fault. IsRefusal (window_fault window) fault) }
        ensures accepted { OnOk result (window_fault window ≡ None) }
    {
        if !window.is_accepted() {
            return Err(RasterFault::WindowRefused);
        }
        let dirty = window.tile_count();
        let tiles = vec![in alloc; None; dirty as usize]?;
        Ok(Raster {
            window,
            across: window.across(),
            dirty,
            clean: 0,
            tiles,
        })
    }

    /// How many tiles are dirty.
    pub fn dirty(&self) -> u32
        ensures { result ≡ dirty_count self.now }
    {
        self.dirty
    }

    /// Whether the tile is there and clean.
    pub fn is_clean(&self, tile: u32) -> bool
        ensures { result ≡ is_some (tile_in self.now tile) }
    {
        matches!(self.tiles.get(tile as usize), Some(Some(_)))
    }

    /// The rows of the tile from the top, bit i for column i; `None` where it is dirty, or not there.
    pub fn rows(&self, tile: u32) -> Option<&[u64; 64]>
        ensures some { IfSome result (λ rows. tile_in self.now tile ≡ Some rows.now) }
        ensures none { IfNone result (tile_in self.now tile ≡ None) }
    {
        match self.tiles.get(tile as usize) {
            Some(Some(rows)) => Some(rows),
            Some(None) | None => None,
        }
    }

    /// Whether the pixel is black; `None` where its tile is dirty, or outside the window.
    #[tactic(auto, using(crate::proofs::TablePixels::pixel_in, crate::proofs::TablePixels::bit_in, crate::proofs::TablePixels::bit_shifted))]
    pub fn pixel(&self, column: u32, row: u32) -> Option<bool>
        ensures { result ≡ pixel_of self.now column row }
    {
        if column >= self.window.width || row >= self.window.height {
            return None;
        }
        match &self.tiles[(row / 64 * self.across + column / 64) as usize] {
            Some(rows) => Some((rows[row as usize % 64] >> (column % 64)) & 1 == 1),
            None => None,
        }
    }

    /// Makes dirty the tiles that hold a pixel centre in the box, or on its edge.
    #[tactic(auto, using(crate::proofs::TileCounts::some_across, crate::proofs::TileCounts::few_tiles))]
    pub fn touch(&mut self, bounds: Bounds)
        ensures { self.new ≡ box_touched bounds self.old }
    {
        let Bounds::Closed { low, high } = bounds else {
            return;
        };
        let columns = self.window.columns_between(&low, &high);
        let rows = self.window.rows_between(&low, &high);
        self.dirty += wipe(&mut self.tiles, self.across, columns, rows);
        self.clean = first_in(self.across, columns, rows, self.clean);
    }

    /// Draws dirty tiles, those of least number first: `at_most` of them, or all where there are fewer. Answers how
    /// many, and asks the painter once for each.
    #[tactic(auto, using(crate::proofs::TileCounts::some_across))]
    pub fn redraw<P: Painter>(&mut self, painter: &mut P, at_most: u32) -> u32
        requires room { P.count painter.old + min at_most (dirty_count self.old) < 2 ^ 64 }
        ensures drawn { result ≡ min at_most (dirty_count self.old) }
        ensures tiles { self.new ≡ redrawn (P.picture painter.old) at_most self.old }
        ensures kept { P.picture painter.new ≡ P.picture painter.old }
        ensures asked { P.count painter.new ≡ P.count painter.old + result }
    {
        let drawn = at_most.min(self.dirty);
        let first = first_dirty(&self.tiles, self.clean);
        let end = end_of_first(&self.tiles, first, drawn);
        // a painter draws rows of tiles from their left end on
        let start = first - first % self.across as usize;
        draw_between(&mut self.tiles, start, end, &self.window, painter);
        self.dirty -= drawn;
        self.clean = if self.dirty == 0 {
            self.tiles.len()
        } else {
            end
        };
        drawn
    }

    /// The raw PBM file of the pixels (netpbm's pbm(5), "P4"): 1 is black, the rows go from the top, and each is padded
    /// with zero bits to a byte. 51 where some tile is dirty, and 30 where the allocator of the raster refuses memory.
    pub fn to_pbm(&self) -> Result<Vec<u8>, RasterFault>
        ensures bytes { IfOk result (λ bytes. bytes.items ≡ pbm_of self.now) }
        ensures refused { IfErr result (λ fault. IsRefusal (file_fault self.now) fault) }
        ensures clean { OnOk result (file_fault self.now ≡ None) }
    {
        if self.dirty > 0 {
            return Err(RasterFault::StillDirty);
        }
        Ok(bitmap(*self.tiles.allocator(), &self.tiles, &self.window)?)
    }
}

/// The first dirty tile, where none before a number is dirty; the number of all tiles where none is.
fn first_dirty(tiles: &[Tile], from: usize) -> usize
    requires within { from ≤ length tiles.now }
    requires clean { count_by is_none (take from tiles.now) ≡ 0 }
    ensures within { result ≤ length tiles.now }
    ensures clean { count_by is_none (take result tiles.now) ≡ 0 }
    ensures dirty { slice_index_or tiles.now result None ≡ None }
{
    for k in from..tiles.len() {
        if tiles[k].is_none() {
            return k;
        }
    }
    tiles.len()
}

/// The number behind the first `count` dirty tiles, where none before `from` is dirty: no other is dirty before it.
fn end_of_first(tiles: &[Tile], from: usize, count: u32) -> usize
    requires within { from ≤ length tiles.now }
    requires clean { count_by is_none (take from tiles.now) ≡ 0 }
    requires count { count ≤ count_by is_none tiles.now }
    ensures order { from ≤ result }
    ensures within { result ≤ length tiles.now }
    ensures first { count_by is_none (take result tiles.now) ≡ count }
{
    let mut left = count;
    for k in from..tiles.len() {
        if left == 0 {
            return k;
        }
        if tiles[k].is_none() {
            left -= 1;
        }
    }
    tiles.len()
}

/// Has the painter draw the dirty ones of the tiles before a number, where none before `start` is dirty.
#[tactic(auto, using(crate::proofs::TileCounts::few_tiles, crate::proofs::TilesInOrder::dirty_between))]
fn draw_between<P: Painter>(
    tiles: &mut [Tile],
    start: usize,
    end: usize,
    window: &Window,
    painter: &mut P,
)
    requires accepted { accepts window.now ≡ true }
    requires full { length tiles.old ≡ tiles_of window.now }
    requires order { start ≤ end }
    requires clean { count_by is_none (take start tiles.old) ≡ 0 }
    requires within { end ≤ length tiles.old }
    requires room { P.count painter.old + count_by is_none (take end tiles.old) < 2 ^ 64 }
    ensures tiles { tiles.new ≡ drawn_from (λ k. tile_rows (P.picture painter.old) (grid_of window.now k)) 0
        (count_by is_none (take end tiles.old)) tiles.old }
    ensures kept { P.picture painter.new ≡ P.picture painter.old }
    ensures asked { P.count painter.new ≡ P.count painter.old + count_by is_none (take end tiles.old) }
{
    let part = &mut tiles[start..end];
    painter.draw(window, start as u32, part);
}
