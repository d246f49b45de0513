//! Tiles by each way: each one asked for by itself, all of them the plain way, and row of tiles by row of tiles. Each word
//! is the same.

ghost use Rattle.std.specs.Prelude.{◌≡◌};
ghost use Rattle.cam_objects.specs.DrillSoundness.{IsSoundDrillLayer};
ghost use Rattle.cam_objects.specs.Soundness.{HasSoundItems};
ghost use Rattle.cam_tiles.specs.Sources.{picture_of};

use crate::tables::each_in;
use cam_edits::{IndexedDrillLayer, IndexedLayer};
use cam_gerber::read_gerber;
use cam_tiles::{Grid, Painter, Raster, RasterFault, Source, Window};
use cam_xnc::read_xnc;
use std::alloc::Global;
use std::test::Fail;

/// Six tiles, of which those at the right and at the bottom are smaller: their corners lie at (128, 12) and (256, 12) nm.
const WINDOW: Window = Window {
    x: 0,
    y: 0,
    pitch: 2,
    width: 130,
    height: 70,
};

/// Layers with leaves of each kind, dark ones and clear ones, over edges and corners of the tiles.
const LAYERS: &[&[u8]] = &[
    // flashes of a circle, a rectangle and an obround, with a hole and without one
    b"%FSLAX66Y66*%%MOMM*%%ADD10C,0.00004*%%ADD11R,0.00012X0.00009*%D11*X128Y40D03*D10*X128Y12D03*X30Y12D03*%LPC*%X128Y80D03*X256Y12D03*X130Y15D03*M02*",
    b"%FSLAX66Y66*%%MOMM*%%ADD10C,0.00005X0.00002*%%ADD11R,0.00012X0.00009*%D11*X128Y40D03*%LPC*%D10*X128Y12D03*%LPD*%X120Y12D03*X256Y136D03*M02*",
    b"%FSLAX66Y66*%%MOMM*%%ADD10R,0.00006X0.00003X0.00002*%%ADD11R,0.00012X0.00009*%D11*X128Y40D03*%LR90*%%LPC*%D10*X128Y12D03*%LPD*%%LMX*%X256Y12D03*X31Y13D03*M02*",
    b"%FSLAX66Y66*%%MOMM*%%ADD10O,0.00007X0.00003X0.00001*%%ADD11R,0.00012X0.00009*%D11*X128Y40D03*%LPC*%D10*X128Y12D03*%LPD*%%LR90*%X256Y12D03*X63Y11D03*M02*",
    // a macro with each primitive on and off, mirrored and turned
    b"%FSLAX66Y66*%%MOMM*%%AMM*1,1,0.00005,0.00001,0*1,0,0.00002,0.00001,0.00001*20,1,0.00001,-0.00003,-0.00001,0.00004,0.00002,0*20,0,0.000004,-0.00002,0,0.00002,0.00001,0*21,1,0.00006,0.00001,0,-0.00002,0*21,0,0.00002,0.000004,0,-0.00002,0*4,1,3,0,0,0.00003,0,0,0.00004,0,0,0*4,0,3,0.000004,0.000004,0.00001,0.000004,0.000004,0.00002,0.000004,0.000004,0*%%ADD10M*%%ADD11R,0.00012X0.00009*%D11*X128Y40D03*D10*X128Y12D03*%LPC*%%LR90*%X120Y70D03*%LPD*%%LMX*%X256Y12D03*%LMXY*%X32Y100D03*M02*",
    // draws with a circle and with a rectangle, slanted, along an axis and of no length
    b"%FSLAX66Y66*%%MOMM*%%ADD10C,0.00002*%%ADD11R,0.0001X0.00009*%D11*X128Y40D03*D10*X10Y5D02*X250Y135D01*X128Y0D02*X128Y140D01*X0Y12D02*X259Y12D01*%LPC*%X100Y20D02*X160Y8D01*X128Y70D02*X128Y70D01*M02*",
    b"%FSLAX66Y66*%%MOMM*%%ADD10R,0.00002X0.00001*%%ADD11R,0.0001X0.00009*%D11*X128Y40D03*D10*X10Y5D02*X250Y135D01*X128Y0D02*X128Y140D01*X0Y12D02*X259Y12D01*%LPC*%X100Y20D02*X160Y8D01*X128Y70D02*X128Y70D01*M02*",
    // arcs both ways, and a full circle
    b"%FSLAX66Y66*%%MOMM*%%ADD10C,0.00001*%%ADD11R,0.0001X0.00009*%G75*D11*X128Y40D03*D10*X168Y12D02*G03*X128Y52I-40J0D01*G02*X88Y12I0J-40D01*G03*X128Y52I40J0D01*%LPC*%X150Y40D02*G03*X150Y40I-20J0D01*G02*X110Y40I-20J-1D01*M02*",
    // regions of lines and arcs, as items and in a block
    b"%FSLAX66Y66*%%MOMM*%G75*G36*X100Y0D02*G01*X160Y0D01*X130Y60D01*G03*X100Y0I-40J-20D01*G37*%LPC*%G36*X120Y10D02*G01*X140Y10D01*G02*X120Y10I-10J0D01*G37*%LPD*%G36*X200Y100D02*G01*X259Y139D01*X259Y100D01*X210Y139D01*X200Y100D01*G37*M02*",
    b"%FSLAX66Y66*%%MOMM*%%ABD12*%G75*G36*X-30Y-10D02*G01*X30Y-10D01*X0Y50D01*G03*X-30Y-10I-40J-20D01*G37*%LPC*%G36*X-10Y0D02*G01*X10Y0D01*G02*X-10Y0I-10J0D01*G37*%AB*%D12*X128Y12D03*%LR90*%X256Y100D03*%LMX*%X64Y60D03*M02*",
    // a block with holes in a repeat
    b"%FSLAX66Y66*%%MOMM*%%ADD10C,0.00002X0.00001*%%ADD11R,0.00012X0.00009*%%ABD12*%D10*X0Y0D03*%LPC*%X8Y4D03*%LPD*%X16Y0D02*%AB*%D11*X60Y40D03*%SRX4Y3I0.000062J0.000048*%D12*X10Y12D03*%LPC*%X30Y20D03*%SR*%M02*",
];

/// Drill layers with hits and routs there.
const DRILLS: &[&[u8]] = &[
    b"M48\nMETRIC\nT1C0.00004\nT2C0.00001\n%\nG05\nT1\nX0.000128Y0.000012\nX0.000256Y0.000136\nT2\nG00X0.00001Y0.000005\nM15\nG01X0.00025Y0.000135\nG01X0.000128Y0.000012\nM16\nT1\nG00X0.00004Y0.00009\nM15\nM16\nM30\n",
];

/// Paints a layer, and has no way of its own to draw: each tile is asked for by itself.
#[derive(Drop)]
struct EachTile<'a> {
    source: Source<'a>,
}

impl<'a> Painter for EachTile<'a> {
    ghost picture = { λ p. picture_of p.source };

    ghost count = { λ p. p.source.asked };

    fn tile(&mut self, grid: Grid) -> [u64; 64] {
        self.source.tile(grid)
    }

    fn asked(&self) -> u64 {
        self.source.asked()
    }
}

/// Whether each tile of two rasters has the same rows, and some pixel is black.
fn are_same(plain: &Raster, quick: &Raster) -> bool {
    let mut black = false;
    for tile in 0..6 {
        let (Some(rows), Some(others)) = (plain.rows(tile), quick.rows(tile)) else {
            return false;
        };
        for row in 0..64 {
            if rows[row] != others[row] {
                return false;
            }
            black = black || rows[row] != 0;
        }
    }
    black
}

/// What a painter that was asked for no tile draws in the window.
fn drawn<P: Painter>(alloc: Global, painter: &mut P) -> Result<Raster, RasterFault>
    requires { P.count painter.old ≡ 0 }
{
    let mut raster = Raster::new(alloc, WINDOW)?;
    raster.redraw(painter, u32::MAX);
    Ok(raster)
}

/// Whether a layer is drawn alike by painters that were asked for no tile: tile by tile, the plain way, and quickly.
fn draw_alike(
    alloc: Global,
    each: &mut EachTile<'_>,
    plain: &mut Source<'_>,
    quick: &mut Source<'_>,
) -> Result<bool, RasterFault>
    requires each { each.old.source.asked ≡ 0 }
    requires plain { plain.old.asked ≡ 0 }
    requires quick { quick.old.asked ≡ 0 }
{
    let quickly = drawn(alloc, quick)?;
    let alike = are_same(&drawn(alloc, each)?, &quickly);
    Ok(alike && are_same(&drawn(alloc, plain)?, &quickly) && each.asked() == 6)
}

/// Whether the tiles of a sound Gerber layer are the same by each way.
fn layer_agrees(alloc: Global, indexed: &IndexedLayer) -> Result<bool, RasterFault>
    requires { HasSoundItems indexed.now }
{
    let layer = indexed.layer();
    draw_alike(
        alloc,
        &mut EachTile {
            source: Source::gerber(layer),
        },
        &mut Source::gerber(layer),
        &mut Source::gerber_by_cells(alloc, layer, indexed.cells(), indexed.first_copies()),
    )
}

/// The same of a Gerber file.
fn file_agrees(alloc: Global, file: &&[u8]) -> Result<bool, RasterFault> {
    match read_gerber(alloc, file) {
        Ok(layer) => layer_agrees(alloc, &IndexedLayer::new(alloc, layer)),
        Err(_) => Ok(false),
    }
}

/// Whether the tiles of a sound drill layer are the same by each way.
fn drill_layer_agrees(alloc: Global, indexed: &IndexedDrillLayer) -> Result<bool, RasterFault>
    requires { IsSoundDrillLayer indexed.now }
{
    let layer = indexed.layer();
    draw_alike(
        alloc,
        &mut EachTile {
            source: Source::drill(layer),
        },
        &mut Source::drill(layer),
        &mut Source::drill_by_cells(alloc, layer, indexed.cells()),
    )
}

/// The same of a drill file.
fn drill_file_agrees(alloc: Global, file: &&[u8]) -> Result<bool, RasterFault> {
    match read_xnc(alloc, file) {
        Ok(layer) => drill_layer_agrees(alloc, &IndexedDrillLayer::new(alloc, layer)),
        Err(_) => Ok(false),
    }
}

#[test]
fn each_way(rt: HostRuntime) -> Result<(), Fail> {
    each_in(rt.alloc(), LAYERS, file_agrees)?;
    each_in(rt.alloc(), DRILLS, drill_file_agrees)
}

/// A region whose contour does not end at its start.
const LEFT_OPEN: &[&[u8]] = &[b"%FSLAX66Y66*%%MOMM*%G36*X5Y70D02*X60Y70D01*X60Y130D01*G37*M02*"];

#[test]
fn each_way_of_an_open_contour(rt: HostRuntime) -> Result<(), Fail> {
    each_in(rt.alloc(), LEFT_OPEN, file_agrees)
}
