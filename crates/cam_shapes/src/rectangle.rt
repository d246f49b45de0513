//! Rectangles.

ghost use Rattle.std.specs.Prelude.{◌↔◌, IsTrue};
ghost use Rattle.cam_units.specs.Board.{IsInReach};
ghost use Rattle.cam_shapes.specs.Box.{IsInRectangle, IsSoundRectangle};

use crate::size::is_positive;
use crate::vector::Vector;
use cam_units::{Nm, Point, Spot};

/// A rectangle with sides along the axes, its width in x and its height in y, in nanometres.
#[derive(Clone, Copy, Debug, PartialEq, Eq)]
pub struct Rectangle {
    pub centre: Point,
    pub width: Nm,
    pub height: Nm,
}

/// Whether the place is in the rectangle or on its edge.
pub fn in_rect(spot: Spot, rectangle: Rectangle) -> bool
    requires spot { IsInReach spot }
    requires rectangle { IsSoundRectangle rectangle }
    ensures { IsTrue result ↔ IsInRectangle spot rectangle }
{
    let Rectangle {
        centre,
        width,
        height,
    } = rectangle;
    let seen = Vector::seen_from(centre, spot);
    is_positive(width) && is_positive(height) && seen.is_between(width, height)
}
