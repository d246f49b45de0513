//! The quick way to draw the dirty tiles of a window: row of tiles by row of tiles. It may stop where memory is refused.

ghost use Rattle.std.specs.Prelude.{◌≡◌, ◌⊎◌, ℕ, ◌+◌, ◌-◌, ◌%◌, ◌<◌, ◌≤◌, None, OnOk, false, count_by, is_none, length, slice_index_or, true};
ghost use Rattle.cam_objects.specs.Tests.{is_black};
ghost use Rattle.cam_tiles.specs.Machinery.Drawn.{IsPartlyDrawn};
ghost use Rattle.cam_tiles.specs.Machinery.Indexes.{IsIndexOf};
ghost use Rattle.cam_tiles.specs.Machinery.Masks.{HoldsCentres};
ghost use Rattle.cam_tiles.specs.Machinery.Shown.{IsReady, leaves_by_item, leaves_of};
ghost use Rattle.cam_tiles.specs.Machinery.Swaths.{IsRowOfTiles};
ghost use Rattle.cam_tiles.specs.Picture.{accepts};
ghost use Rattle.cam_tiles.specs.Tables.{all_drawn_from};
ghost use Rattle.cam_tiles.specs.Tiles.{across, grid_of, tile_rows, tiles_of};

use crate::index::Index;
use crate::masks::swath::Swath;
use crate::painter::Tile;
use crate::plain::tile_of;
use crate::shown::Shown;
use crate::span::Span;
use crate::window::Window;
use cam_units::Bounds;
use std::alloc::{AllocError, Global};

/// In how many dirty tiles at most the items are looked for as they are needed.
const FEW_TILES: usize = 16;

/// Draws the dirty ones of the tiles of a window from a number on: row by row of them where there is an allocator, and
/// tile by tile what is left then.
#[tactic(auto, using(crate::proofs::TileCounts::few_tiles))]
pub(crate) fn draw(
    alloc: Option<Global>,
    shown: &Shown<'_>,
    window: &Window,
    first: u32,
    tiles: &mut [Tile],
)
    requires ready { IsReady shown.now }
    requires accepted { accepts window.now ≡ true }
    requires within { first + length tiles.old ≤ tiles_of window.now }
    ensures { tiles.new
        ≡ all_drawn_from (λ k. tile_rows (is_black (leaves_of shown.now)) (grid_of window.now k)) first tiles.old }
{
    let _ = draw_quickly(alloc, shown, window, first, tiles);
    for k in 0..tiles.len() {
        if tiles[k].is_none() {
            let rows = tile_of(shown, window.grid(first + k as u32));
            tiles[k] = Some(rows);
        }
    }
}

/// Draws dirty ones of the tiles of a window from a number on, row by row of them and by an index of the items that may be
/// seen there: all where there is an allocator and memory, and the first tile begins a row.
#[tactic(auto, using(crate::proofs::TileCounts::some_across))]
fn draw_quickly(
    alloc: Option<Global>,
    shown: &Shown<'_>,
    window: &Window,
    first: u32,
    tiles: &mut [Tile],
) -> Result<(), AllocError>
    requires ready { IsReady shown.now }
    requires accepted { accepts window.now ≡ true }
    requires within { first + length tiles.old ≤ tiles_of window.now }
    ensures { IsPartlyDrawn (λ k. tile_rows (is_black (leaves_of shown.now)) (grid_of window.now k)) first
        tiles.old tiles.new }
{
    let Some(alloc) = alloc else {
        return Ok(());
    };
    let across = window.across();
    // a swath begins at the left end of a row of tiles
    if first % across != 0 {
        return Ok(());
    }
    let across = across as usize;
    let within = box_of_dirty(window, first, tiles);
    let is_few = dirty_in(tiles) <= FEW_TILES;
    let mut index = Index::of(alloc, shown, window, within, is_few)?;
    let mut swath = Swath::new(alloc);
    for row in 0..tiles.len().div_ceil(across) {
        let start = row * across;
        let end = (start + across).min(tiles.len());
        let part = &mut tiles[start..end];
        draw_row(
            &mut index,
            &mut swath,
            shown,
            window,
            first + start as u32,
            part,
        )?;
    }
    Ok(())
}

/// The box of the centres of the dirty ones of the tiles of a window from a number on, in half nm.
#[tactic(auto, using(crate::proofs::TileCounts::few_tiles))]
fn box_of_dirty(window: &Window, first: u32, tiles: &[Tile]) -> Bounds
    requires accepted { accepts window.now ≡ true }
    requires within { first + length tiles.now ≤ tiles_of window.now }
    ensures { (k : ℕ) → k < length tiles.now → slice_index_or tiles.now k None ≡ None
        → HoldsCentres result (grid_of window.now (first + k)) }
{
    let mut all = Bounds::Empty;
    for k in 0..tiles.len() {
        if tiles[k].is_none() {
            all = all.joined(window.grid(first + k as u32).bounds());
        }
    }
    all
}

/// Draws the dirty ones of tiles of a row of them, all at once; none where memory is refused. The first of them has a
/// number.
fn draw_row(
    index: &mut Index,
    swath: &mut Swath,
    shown: &Shown<'_>,
    window: &Window,
    first: u32,
    tiles: &mut [Tile],
) -> Result<(), AllocError>
    requires ready { IsReady shown.now }
    requires index { IsIndexOf (leaves_by_item shown.now) window.now index.old }
    requires accepted { accepts window.now ≡ true }
    requires row { IsRowOfTiles window.now first tiles.old }
    ensures index { OnOk result (IsIndexOf (leaves_by_item shown.now) window.now index.new) }
    ensures tiles { IsPartlyDrawn (λ k. tile_rows (is_black (leaves_of shown.now)) (grid_of window.now k)) first
        tiles.old tiles.new }
{
    let dirty = dirty_among(tiles);
    if dirty.end <= dirty.first {
        return Ok(());
    }
    let start = first + dirty.first;
    let part = &mut tiles[dirty.first as usize..dirty.end as usize];
    swath.turn_to(window, start, part)?;
    index.paint(shown, window, start, swath)?;
    swath.put(part);
    Ok(())
}

/// Those of some tiles between which all dirty ones lie.
fn dirty_among(tiles: &[Tile]) -> Span
    requires { length tiles.now ≤ 512 }
    ensures end { result.end ≤ length tiles.now }
    ensures others { (k : ℕ) → k < length tiles.now → (k < result.first) ⊎ (result.end ≤ k)
        → is_none (slice_index_or tiles.now k None) ≡ false }
    ensures first { result.first < result.end → is_none (slice_index_or tiles.now result.first None) ≡ true }
    ensures last { result.first < result.end → is_none (slice_index_or tiles.now (result.end - 1) None) ≡ true }
{
    let mut first = 0;
    let mut end = tiles.len();
    while first < end && tiles[first].is_some() {
        first += 1;
    }
    while first < end && tiles[end - 1].is_some() {
        end -= 1;
    }
    Span {
        first: first as u32,
        end: end as u32,
    }
}

/// How many of the tiles are dirty.
pub(crate) fn dirty_in(tiles: &[Tile]) -> usize
    ensures { result ≡ count_by is_none tiles.now }
{
    tiles.iter().filter(|tile| tile.is_none()).count()
}
