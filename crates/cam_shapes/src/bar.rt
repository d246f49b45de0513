//! Bars.

ghost use Rattle.std.specs.Prelude.{◌↔◌, IsTrue};
ghost use Rattle.cam_units.specs.Board.{IsInReach, IsSize};
ghost use Rattle.cam_shapes.specs.Plane.{IsShort};
ghost use Rattle.cam_shapes.specs.Bar.{IsBeside, IsBetweenEnds, IsInBar, IsSoundBar};

use crate::products::{has_square_within, squared_product};
use crate::size::is_positive;
use crate::vector::Vector;
use cam_units::{Nm, Point, Spot};

/// A rectangle about the line between two points, which are the middles of its ends, with its
/// width in nanometres.
#[derive(Clone, Copy, Debug, PartialEq, Eq)]
pub struct Bar {
    pub from: Point,
    pub to: Point,
    pub width: Nm,
}

/// Whether the place is in the bar or on its edge.
pub fn in_bar(spot: Spot, bar: Bar) -> bool
    requires spot { IsInReach spot }
    requires bar { IsSoundBar bar }
    ensures { IsTrue result ↔ IsInBar spot bar }
{
    let way = Vector::between(bar.from, bar.to);
    let seen = Vector::seen_from(bar.from, spot);
    is_positive(bar.width) && is_beside(way, seen, bar.width)
}

/// Whether a place, seen from the start of a way, lies between the way's ends and at most
/// `radius` from its line. No place lies beside a way of length 0.
pub fn is_beside(way: Vector, seen: Vector, radius: Nm) -> bool
    requires way { IsShort way }
    requires seen { IsShort seen }
    requires radius { IsSize radius.0 }
    ensures { IsTrue result ↔ IsBeside way seen radius.0 }
{
    is_between_ends(way, seen) && has_square_within(way.cross(seen), squared_product(radius, way))
}

/// Whether a place, seen from the start of a way of some length, is between the way's ends.
fn is_between_ends(way: Vector, seen: Vector) -> bool
    requires way { IsShort way }
    requires seen { IsShort seen }
    ensures { IsTrue result ↔ IsBetweenEnds way seen }
{
    let length = way.dot(way);
    if length <= 0 {
        return false;
    }
    let along = way.dot(seen);
    0 <= along && along <= length
}
