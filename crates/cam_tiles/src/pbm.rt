//! Raw PBM files (netpbm's pbm(5), "P4").

ghost use Rattle.std.specs.Int.{IsBitSet};
ghost use Rattle.std.specs.Prelude.{◌≡◌, ℕ, ◌+◌, ◌*◌, ◌++◌, ◌<◌, ◌↔◌, IsTrue, IfOk, OnOk};
ghost use Rattle.cam_tiles.specs.Pbm.{header, padded, row_of};
ghost use Rattle.cam_tiles.specs.Tables.{IsTable, is_pixel_black, pbm_of};
ghost use Rattle.cam_tiles.specs.Tiles.{across};

use crate::painter::Tile;
use crate::window::Window;
use cam_rows::pbm_bytes;
use std::alloc::{AllocError, Global};

/// The most bytes of a header: "P4", both sides, and what parts them.
const LONGEST_HEADER: usize = 15;

/// The bytes of a row, eight for each column of tiles; no window has more columns of them.
type Line = [[u8; 8]; 512];

/// Writes the header of a window's file.
fn push_header(alloc: Global, file: &mut Vec<u8>, window: &Window) -> Result<(), AllocError>
    ensures { OnOk result (file.new.items
        ≡ file.old.items ++ header window.now.width window.now.height) }
{
    let width = window.width.to_string(alloc)?;
    let height = window.height.to_string(alloc)?;
    file.extend_from_slice(b"P4\n")?;
    file.extend_from_slice(width.as_bytes())?;
    file.push(b' ')?;
    file.extend_from_slice(height.as_bytes())?;
    file.push(b'\n')?;
    Ok(())
}

/// The pixels of a row in one column of tiles, bit i for column i of the tile; those past the window are clear.
fn word_in(tiles: &[Tile], window: &Window, column: u32, row: u32) -> u64
    requires table { IsTable (record { window = window.now; tiles = tiles.now }) }
    requires row { row < window.now.height }
    requires column { column < across window.now }
    ensures { (i : ℕ) → i < 64 → IsBitSet result i ↔ IsTrue (padded
        (λ pixel. is_pixel_black (record { window = window.now; tiles = tiles.now }) pixel row)
        window.now.width (64 * column + i)) }
{
    let tile = row / 64 * window.across() + column;
    match &tiles[tile as usize] {
        Some(rows) => {
            let inside = (window.width - 64 * column).min(64);
            rows[row as usize % 64] & (u64::MAX >> (64 - inside))
        }
        None => 0,
    }
}

/// Writes the bytes of a row, which is counted from the top: from each tile those of its pixels. They are put side by
/// side in `line` first, where a word is written at once, and the row is copied from there.
fn push_row(
    file: &mut Vec<u8>,
    line: &mut Line,
    tiles: &[Tile],
    window: &Window,
    row: u32,
) -> Result<(), AllocError>
    requires table { IsTable (record { window = window.now; tiles = tiles.now }) }
    requires row { row < window.now.height }
    ensures { OnOk result (file.new.items ≡ file.old.items ++ row_of
        (λ column. is_pixel_black (record { window = window.now; tiles = tiles.now }) column row) window.now.width) }
{
    for column in 0..window.across() {
        line[column as usize] = pbm_bytes(word_in(tiles, window, column, row));
    }
    let bytes = window.width.div_ceil(8) as usize;
    file.extend_from_slice(&line.as_flattened()[..bytes])
}

/// The raw PBM file of tiles that are all clean.
pub(crate) fn bitmap(alloc: Global, tiles: &[Tile], window: &Window) -> Result<Vec<u8>, AllocError>
    requires table { IsTable (record { window = window.now; tiles = tiles.now }) }
    ensures { IfOk result (λ bytes. bytes.items ≡ pbm_of (record { window = window.now; tiles = tiles.now })) }
{
    let rows = window.height as usize * window.width.div_ceil(8) as usize;
    let mut file = Vec::with_capacity(alloc, LONGEST_HEADER + rows)?;
    push_header(alloc, &mut file, window)?;
    let mut line = [[0; 8]; 512];
    for row in 0..window.height {
        push_row(&mut file, &mut line, tiles, window, row)?;
    }
    Ok(file)
}
