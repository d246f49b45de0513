//! Tiles and pictures, by hand: a pixel is black where its centre lies in a flash (netpbm's pbm(5), "P4"), and a box
//! touches the tiles that hold a pixel centre in it or on its edge.

ghost use Rattle.std.specs.Prelude.{◌≡◌};

use crate::tables::each_in;
use cam_gerber::read_gerber;
use cam_tiles::{Painter, Raster, RasterFault, Source, Window};
use cam_units::{Bounds, Spot};
use std::alloc::Global;
use std::test::Fail;

/// The sides in pixels of a window from the origin, of 2 nm a pixel, its tiles, and the picture in it of two discs
/// of 2 nm at (1, 1) and (17, 3); or why there is none.
type Row = (u32, u32, Result<(u32, &'static [u8]), RasterFault>);

const ROWS: &[Row] = &[
    (9, 2, Ok((1, b"P4\n9 2\n\x00\x80\x80\x00"))),
    (65, 1, Ok((2, b"P4\n65 1\n\x80\0\0\0\0\0\0\0\0"))),
    (0, 1, Err(RasterFault::WindowRefused)),
    (1, 32_769, Err(RasterFault::WindowRefused)),
];

/// The low and the high corner of a box in half nm, and the tiles that it touches in a window of 130 by 70 pixels of
/// 5 nm from the origin.
type Touched = ((i64, i64), (i64, i64), &'static [u32]);

const BOXES: &[Touched] = &[
    ((0, 0), (4, 4), &[]),
    ((0, 0), (5, 5), &[3]),
    ((5, 5), (5, 5), &[3]),
    ((6, 5), (14, 5), &[]),
    ((0, 0), (5, 64), &[3]),
    ((0, 0), (5, 65), &[0, 3]),
    ((0, 56), (5, 64), &[]),
    ((636, 0), (644, 1000), &[]),
    ((636, 0), (645, 1000), &[1, 4]),
    ((635, 300), (645, 310), &[0, 1]),
    ((1285, 0), (2000, 10), &[5]),
    ((1286, 0), (1294, 10), &[]),
    ((1295, 695), (1295, 695), &[2]),
    ((1296, 0), (2000, 700), &[]),
    ((0, 696), (2000, 2000), &[]),
    ((20, 0), (10, 100), &[]),
    (
        (i64::MIN, i64::MIN),
        (i64::MAX, i64::MAX),
        &[0, 1, 2, 3, 4, 5],
    ),
];

/// A file of the two discs.
const DISCS: &[u8] = b"%FSLAX66Y66*%%MOMM*%%ADD10C,0.000002*%D10*X1Y1D03*X17Y3D03*M02*";

/// A raster of a window from the origin.
fn raster(alloc: Global, pitch: i64, width: u32, height: u32) -> Result<Raster, RasterFault> {
    let window = Window {
        x: 0,
        y: 0,
        pitch,
        width,
        height,
    };
    Raster::new(alloc, window)
}

/// The tiles of the raster and the picture of a source that was asked for none; all but one tile are drawn first, and
/// no file comes of them.
fn drawn(raster: &mut Raster, source: &mut Source<'_>) -> Result<(u32, Vec<u8>), RasterFault>
    requires { source.old.asked ≡ 0 }
{
    let tiles = raster.dirty();
    raster.redraw(source, tiles.saturating_sub(1));
    if !matches!(raster.to_pbm(), Err(RasterFault::StillDirty)) {
        return Err(RasterFault::StillDirty);
    }
    raster.redraw(source, u32::MAX);
    if source.asked() != u64::from(tiles) {
        return Err(RasterFault::StillDirty);
    }
    Ok((tiles, raster.to_pbm()?))
}

/// The tiles and the picture of the discs in a window of these sides.
fn picture(alloc: Global, width: u32, height: u32) -> Result<(u32, Vec<u8>), RasterFault> {
    let mut raster = raster(alloc, 2, width, height)?;
    match read_gerber(alloc, DISCS) {
        Ok(layer) => drawn(&mut raster, &mut Source::gerber(&layer)),
        Err(_) => Err(RasterFault::Memory),
    }
}

/// Draws the discs in so many tiles of the raster.
fn redraw_discs(alloc: Global, raster: &mut Raster, at_most: u32) -> Result<(), RasterFault> {
    match read_gerber(alloc, DISCS) {
        Ok(layer) => {
            raster.redraw(&mut Source::gerber(&layer), at_most);
            Ok(())
        }
        Err(_) => Err(RasterFault::Memory),
    }
}

/// Whether the row's picture is drawn, or refused so.
fn is_drawn(alloc: Global, &(width, height, wanted): &Row) -> Result<bool, RasterFault> {
    match (picture(alloc, width, height), wanted) {
        (Ok((tiles, file)), Ok((count, text))) => Ok(tiles == count && file.as_slice() == text),
        (Err(fault), Err(reason)) => Ok(fault == reason),
        _ => Ok(false),
    }
}

/// Whether these of the raster's six tiles are dirty, and no other.
fn are_dirty(raster: &Raster, wanted: &[u32]) -> bool {
    for tile in 0..6 {
        if raster.is_clean(tile) == wanted.contains(&tile) {
            return false;
        }
    }
    raster.dirty() as usize == wanted.len()
}

/// Whether the row's box touches these tiles of a clean raster, and no other.
fn touches(alloc: Global, row: &Touched) -> Result<bool, RasterFault> {
    let &((left, bottom), (right, top), wanted) = row;
    let mut raster = raster(alloc, 5, 130, 70)?;
    redraw_discs(alloc, &mut raster, u32::MAX)?;
    raster.touch(Bounds::Closed {
        low: Spot { x: left, y: bottom },
        high: Spot { x: right, y: top },
    });
    Ok(are_dirty(&raster, wanted))
}

/// A pixel of the window of 65 by 1 of which the second tile is dirty.
type Pixel = (u32, u32, Option<bool>);

const PIXELS: &[Pixel] = &[
    (0, 0, Some(true)),
    (1, 0, Some(false)),
    (63, 0, Some(false)),
    (64, 0, None),
    (65, 0, None),
    (0, 1, None),
];

/// Whether so much is known of the pixel, with the first tile drawn.
fn is_known(alloc: Global, &(column, row, wanted): &Pixel) -> Result<bool, RasterFault> {
    let mut raster = raster(alloc, 2, 65, 1)?;
    redraw_discs(alloc, &mut raster, 1)?;
    Ok(raster.pixel(column, row) == wanted)
}

#[test]
fn tiles(rt: HostRuntime) -> Result<(), Fail> {
    each_in(rt.alloc(), ROWS, is_drawn)?;
    each_in(rt.alloc(), BOXES, touches)?;
    each_in(rt.alloc(), PIXELS, is_known)
}
