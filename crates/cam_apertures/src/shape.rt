//! Tests of places against the shapes of primitives.

ghost use Rattle.std.specs.Prelude.{◌↔◌, All, IsTrue};
ghost use Rattle.cam_units.specs.Board.{IsInReach};
ghost use Rattle.cam_apertures.specs.Cover.{IsInShape};
ghost use Rattle.cam_apertures.specs.Primitives.{IsMacroPoint, IsSoundShape};
ghost use Rattle.cam_apertures.specs.Turned.{turned_shape};

use crate::sides::{turned_height, turned_width};
use cam_macros::PrimShape;
use cam_shapes::{Bar, Disc, Rectangle, in_bar, in_disc, in_outline, in_rect};
use cam_units::{Point, Spot, Turn};

/// The point about which shapes are turned.
pub(crate) const ORIGIN: Point = Point { x: 0, y: 0 };

/// Whether the place lies in the shape, once it is turned, or on its edge.
pub(crate) fn holds(shape: &PrimShape, spot: Spot, turn: Turn) -> bool
    requires shape { IsSoundShape shape.now }
    requires spot { IsInReach spot }
    ensures { IsTrue result ↔ IsInShape (turned_shape turn shape.now) spot }
{
    match shape {
        PrimShape::Disc { centre, diameter } => {
            let disc = Disc {
                centre: turn.apply(*centre),
                diameter: *diameter,
            };
            in_disc(spot, disc)
        }
        PrimShape::Bar { from, to, width } => {
            let bar = Bar {
                from: turn.apply(*from),
                to: turn.apply(*to),
                width: *width,
            };
            in_bar(spot, bar)
        }
        PrimShape::Rect {
            centre,
            width,
            height,
        } => {
            let rectangle = Rectangle {
                centre: turn.apply(*centre),
                width: turned_width(turn, *width, *height),
                height: turned_height(turn, *width, *height),
            };
            in_rect(spot, rectangle)
        }
        PrimShape::Outline { points } => in_outline(spot, points.as_slice(), turn, ORIGIN),
    }
}
