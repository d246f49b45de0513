//! Capsules.

ghost use Rattle.std.specs.Prelude.{◌↔◌, IsTrue};
ghost use Rattle.cam_units.specs.Board.{IsInReach};
ghost use Rattle.cam_shapes.specs.Bar.{IsInCapsule, IsSoundCapsule};

use crate::bar::is_beside;
use crate::size::is_positive;
use crate::vector::Vector;
use cam_units::{Nm, Point, Spot};

/// The stroke of a round tool along a straight line, its width in nanometres.
#[derive(Clone, Copy, Debug, PartialEq, Eq)]
pub struct Capsule {
    pub from: Point,
    pub to: Point,
    pub width: Nm,
}

/// Whether the place is in the capsule or on its edge.
pub fn in_capsule(spot: Spot, capsule: Capsule) -> bool
    requires spot { IsInReach spot }
    requires capsule { IsSoundCapsule capsule }
    ensures { IsTrue result ↔ IsInCapsule spot capsule }
{
    let Capsule { from, to, width } = capsule;
    let seen = Vector::seen_from(from, spot);
    is_positive(width)
        && (seen.is_within(width)
            || Vector::seen_from(to, spot).is_within(width)
            || is_beside(Vector::between(from, to), seen, width))
}
