//! Obrounds.

ghost use Rattle.std.specs.Prelude.{◌≡◌, ◌↔◌, IsTrue};
ghost use Rattle.cam_units.specs.Board.{IsInReach, IsSize};
ghost use Rattle.cam_shapes.specs.Plane.{IsSeen, IsShort};
ghost use Rattle.cam_shapes.specs.Box.{IsAlong, IsInObround, IsRounded, IsSoundObround, from_left_end};
ghost use Rattle.cam_shapes.specs.Box.{from_right_end};

use crate::size::{excess, is_positive};
use crate::vector::Vector;
use cam_units::{Nm, Point, Spot};

/// A rectangle whose shorter ends are half circles, its width in x and its height in y, in
/// nanometres.
#[derive(Clone, Copy, Debug, PartialEq, Eq)]
pub struct Obround {
    pub centre: Point,
    pub width: Nm,
    pub height: Nm,
}

/// Whether the place is in the obround or on its edge.
pub fn in_obround(spot: Spot, obround: Obround) -> bool
    requires spot { IsInReach spot }
    requires obround { IsSoundObround obround }
    ensures { IsTrue result ↔ IsInObround spot obround }
{
    let Obround {
        centre,
        width,
        height,
    } = obround;
    let seen = Vector::seen_from(centre, spot);
    is_positive(width) && is_positive(height) && is_rounded(seen, width, height)
}

/// Whether the place, as it is seen from the centre, is in the obround of these sides.
fn is_rounded(seen: Vector, width: Nm, height: Nm) -> bool
    requires seen { IsSeen seen }
    requires width { IsSize width.0 }
    requires height { IsSize height.0 }
    ensures { IsTrue result ↔ IsRounded seen width.0 height.0 }
{
    if width.0 >= height.0 {
        is_along(seen, excess(width, height), height)
    } else {
        let swapped = Vector {
            x: seen.y,
            y: seen.x,
        };
        is_along(swapped, excess(height, width), width)
    }
}

/// Whether the way leads into a rectangle that reaches `reach` to the left and to the right, or
/// into a disc about the middle of one of those ends.
fn is_along(seen: Vector, reach: Nm, radius: Nm) -> bool
    requires seen { IsSeen seen }
    requires reach { IsSize reach.0 }
    requires radius { IsSize radius.0 }
    ensures { IsTrue result ↔ IsAlong seen reach.0 radius.0 }
{
    seen.is_between(reach, radius)
        || from_left_end(seen, reach).is_within(radius)
        || from_right_end(seen, reach).is_within(radius)
}

/// The place as it is seen from the left end.
fn from_left_end(seen: Vector, reach: Nm) -> Vector
    requires seen { IsSeen seen }
    requires reach { IsSize reach.0 }
    ensures value { result ≡ from_left_end seen reach.0 }
    ensures short { IsShort result }
{
    Vector {
        x: seen.x + reach.0,
        y: seen.y,
    }
}

/// The place as it is seen from the right end.
fn from_right_end(seen: Vector, reach: Nm) -> Vector
    requires seen { IsSeen seen }
    requires reach { IsSize reach.0 }
    ensures value { result ≡ from_right_end seen reach.0 }
    ensures short { IsShort result }
{
    Vector {
        x: seen.x - reach.0,
        y: seen.y,
    }
}
