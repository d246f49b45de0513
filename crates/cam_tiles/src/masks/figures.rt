//! Strokes and flashes, as figures whose runs are known.

ghost use Rattle.std.specs.Prelude.{◌≡◌, MatchOption};
ghost use Rattle.cam_apertures.specs.Cover.{disc};
ghost use Rattle.cam_apertures.specs.Soundness.{IsSoundAperture};
ghost use Rattle.cam_objects.specs.Canvases.{IsSoundFigure, shape_of};
ghost use Rattle.cam_objects.specs.Image.{Covers};
ghost use Rattle.cam_tiles.specs.Machinery.Figures.{IsComposed, IsFlashOf, IsMacro, IsPlacedFor, LiesWithin};

use crate::masks::heights::Heights;
use crate::masks::mask::ORIGIN;
use cam_apertures::{Aperture, turned_height, turned_width};
use cam_objects::Figure;
use cam_rows::Hole;
use cam_shapes::{Arc, Capsule, Disc, Obround, Rectangle, Swept};
use cam_units::{Nm, Point, Turn};

/// A figure whose runs are known: the stroke of a circle along a straight way or an arc, that of a rectangle along a
/// straight way, or the flash of a disc, a rectangle or an obround with a hole, which may have a diameter of 0. An arc has
/// heights between which it lies, since its circles reach higher and lower.
#[derive(Clone, Copy)]
pub(crate) enum RunFigure {
    Straight(Capsule),
    Round(Arc, Heights),
    Swept(Swept),
    Disc(Disc, Hole),
    Rectangle(Rectangle, Hole),
    Obround(Obround, Hole),
}

/// A figure that stands at a point as it does about (0, 0).
#[derive(Clone, Copy)]
pub(crate) struct Placed {
    pub(crate) figure: RunFigure,
    pub(crate) at: Point,
}

impl RunFigure {
    /// At a point.
    fn at(self, at: Point) -> Placed
        ensures { result ≡ record { figure = self; at = at } }
    {
        Placed { figure: self, at }
    }
}

/// The stroke or the flash that a figure is, which lies between two heights; none of a macro, and none of a contour.
pub(crate) fn placed_of(figure: &Figure<'_>, heights: Heights) -> Option<Placed>
    requires sound { IsSoundFigure figure.now }
    requires heights { LiesWithin heights (Covers (shape_of figure.now)) }
    ensures { MatchOption result (IsComposed figure.now) (IsPlacedFor figure.now) }
{
    match *figure {
        Figure::Stroke(capsule) => Some(RunFigure::Straight(capsule).at(ORIGIN)),
        Figure::Sweep(arc) => Some(RunFigure::Round(arc, heights).at(ORIGIN)),
        Figure::Swept(swept) => Some(RunFigure::Swept(swept).at(ORIGIN)),
        Figure::Drilled(disc) => Some(RunFigure::Disc(disc, hole(Nm(0))).at(ORIGIN)),
        Figure::Stamp { aperture, turn, at } => match flashed(aperture, turn) {
            Some(flash) => Some(flash.at(at)),
            None => None,
        },
        Figure::Filled { .. } => None,
    }
}

/// The flash of an aperture, mirrored and turned; none of a macro.
fn flashed(aperture: &Aperture, turn: Turn) -> Option<RunFigure>
    requires { IsSoundAperture aperture.now }
    ensures { MatchOption result (IsMacro aperture.now) (IsFlashOf aperture.now turn) }
{
    match aperture {
        Aperture::Circle {
            diameter,
            hole: inner,
        } => {
            let disc = Disc {
                centre: ORIGIN,
                diameter: *diameter,
            };
            Some(RunFigure::Disc(disc, hole(*inner)))
        }
        Aperture::Rect {
            width,
            height,
            hole: inner,
        } => {
            let rectangle = Rectangle {
                centre: ORIGIN,
                width: turned_width(turn, *width, *height),
                height: turned_height(turn, *width, *height),
            };
            Some(RunFigure::Rectangle(rectangle, hole(*inner)))
        }
        Aperture::Obround {
            width,
            height,
            hole: inner,
        } => {
            let obround = Obround {
                centre: ORIGIN,
                width: turned_width(turn, *width, *height),
                height: turned_height(turn, *width, *height),
            };
            Some(RunFigure::Obround(obround, hole(*inner)))
        }
        Aperture::Prims(_) => None,
    }
}

/// A hole about the flash point.
fn hole(diameter: Nm) -> Hole
    ensures { result.0 ≡ disc diameter }
{
    Hole(Disc {
        centre: ORIGIN,
        diameter,
    })
}
