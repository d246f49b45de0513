//! Discs and holes.

ghost use Rattle.std.specs.Prelude.{◌↔◌, IsTrue};
ghost use Rattle.cam_units.specs.Board.{IsInReach};
ghost use Rattle.cam_shapes.specs.Disc.{IsInDisc, IsInHole, IsSoundDisc};

use crate::size::{is_positive, squared};
use crate::vector::Vector;
use cam_units::{Nm, Point, Spot};

/// A disc with its diameter in nanometres.
#[derive(Clone, Copy, Debug, PartialEq, Eq)]
pub struct Disc {
    pub centre: Point,
    pub diameter: Nm,
}

/// Whether the place is in the disc or on its edge.
pub fn in_disc(spot: Spot, disc: Disc) -> bool
    requires spot { IsInReach spot }
    requires disc { IsSoundDisc disc }
    ensures { IsTrue result ↔ IsInDisc spot disc }
{
    is_positive(disc.diameter) && Vector::seen_from(disc.centre, spot).is_within(disc.diameter)
}

/// Whether the place is in the disc, but not on its edge.
pub fn in_hole(spot: Spot, disc: Disc) -> bool
    requires spot { IsInReach spot }
    requires disc { IsSoundDisc disc }
    ensures { IsTrue result ↔ IsInHole spot disc }
{
    let seen = Vector::seen_from(disc.centre, spot);
    is_positive(disc.diameter) && seen.dot(seen) < squared(disc.diameter)
}
