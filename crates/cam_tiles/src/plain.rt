//! The plain way to draw a tile, and the one to read first: leaf by leaf, shape by shape, row by row.
//!
//! A tile is painted from the last leaf on. The marks of a leaf are found on a mask of its own, and those of its centres that
//! no leaf before decided take its polarity. A shape is asked for the bits of each row (`shapes`); the hole of a flash is
//! cleared from its shape (`figures`); the primitives of a macro are added and cleared one after another (`stamps`); the
//! edges and the caps of a contour turn over the centres that they count for (`contours`).
//!
//! The quick way, by rows of tiles and by runs, is `drawing`; it gives the same tiles.

pub(crate) mod contours;
pub(crate) mod figures;
pub(crate) mod shapes;
pub(crate) mod stamps;

ghost use Rattle.std.specs.Int.{bit_at};
ghost use Rattle.std.specs.Prelude.{◌≡◌, ◌==◌, None, Some, if◌then◌else◌, slice_index};
ghost use Rattle.cam_objects.specs.Canvases.{IsSoundFigure, IsSoundPrint, shape_of};
ghost use Rattle.cam_objects.specs.Image.{Covers};
ghost use Rattle.cam_objects.specs.Tests.{is_black};
ghost use Rattle.cam_tiles.specs.Machinery.Figures.{LiesWithin};
ghost use Rattle.cam_tiles.specs.declared.masks.join.Join.TheVariants.{Add};
ghost use Rattle.cam_tiles.specs.Machinery.Masks.{AreMarksOf, IsBlank, IsIn, Joins};
ghost use Rattle.cam_tiles.specs.Machinery.Shown.{IsReady, leaves_of};
ghost use Rattle.cam_tiles.specs.Tiles.{IsGrid, centre_in, tile_rows};

use crate::grid::Grid;
use crate::masks::figures::placed_of;
use crate::masks::heights::Heights;
use crate::masks::join::Join;
use crate::masks::mask::Mask;
use crate::shown::Shown;
use cam_apertures::Aperture;
use cam_objects::{Canvas, Figure, Print};
use cam_units::Bounds;
use std::marker::Model;

/// A tile that is painted: its centres that are decided, and those of them that are dark.
#[derive(Drop)]
pub(crate) struct PlainTile {
    decided: Mask,
    dark: Mask,
}

impl Model for PlainTile {
    ghost use Rattle.cam_tiles.specs.Machinery.Masks.{Marking};
    ghost use Rattle.cam_tiles.specs.Machinery.Plain.{ArePainted};

    ghost Value = { Marking × Marking };

    ghost view = { λ p. (p.decided, p.dark) };

    ghost invariant = { ArePainted };
}

/// The rows of a layer's tile, from the top: its leaves are painted on a tile of which nothing is decided.
pub(crate) fn tile_of(shown: &Shown<'_>, grid: Grid) -> [u64; 64]
    requires ready { IsReady shown.now }
    requires grid { IsGrid grid }
    ensures { result ≡ tile_rows (is_black (leaves_of shown.now)) grid }
{
    let mut tile = PlainTile {
        decided: Mask::blank(grid),
        dark: Mask::blank(grid),
    };
    shown.paint(&mut tile);
    tile.dark.rows()
}

impl Canvas for PlainTile {
    ghost has = { λ p. IsIn p.0.grid };

    ghost place = { λ p. centre_in p.0.grid };

    ghost ink = { λ p column row. if bit_at (slice_index p.0.rows row) column == 1
        then Some (bit_at (slice_index p.1.rows row) column == 1) else None };

    fn bounds(&self) -> Bounds {
        self.decided.grid_bounds()
    }

    fn is_decided_in(&self, bounds: Bounds) -> bool {
        self.decided.is_marked_in(bounds)
    }

    fn paint(&mut self, print: Print<'_>) {
        let mut new = Mask::of(self.decided.grid(), &print);
        new.merge(&self.decided, Join::Clear);
        self.decided.merge(&new, Join::Add);
        if print.dark {
            self.dark.merge(&new, Join::Add);
        }
    }
}

impl Mask {
    /// The marks of what a leaf covers.
    fn of(grid: Grid, print: &Print<'_>) -> Mask
        requires grid { IsGrid grid }
        requires print { IsSoundPrint print.now }
        ensures { AreMarksOf grid (Covers (shape_of print.now.figure)) result }
    {
        let mut mask = Mask::blank(grid);
        if let Bounds::Closed { low, high } = print.bounds {
            let heights = Heights {
                low: low.y,
                high: high.y,
            };
            mask.add(&print.figure, heights);
        }
        mask
    }

    /// Adds the marks of what a figure covers, which lies between two heights.
    fn add(&mut self, figure: &Figure<'_>, heights: Heights)
        requires figure { IsSoundFigure figure.now }
        requires heights { LiesWithin heights (Covers (shape_of figure.now)) }
        ensures { Joins Add (Covers (shape_of figure.now)) self.old self.new }
    {
        if let Some(placed) = placed_of(figure, heights) {
            self.join_placed(&placed, Join::Add);
            return;
        }
        match *figure {
            Figure::Stamp {
                aperture: Aperture::Prims(prims),
                turn,
                at,
            } => self.primitives(prims, turn, at, Join::Add),
            Figure::Filled {
                contour,
                turn,
                offset,
            } => self.fill(contour, turn, offset, Join::Add),
            _ => {}
        }
    }
}
