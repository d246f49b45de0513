//! Strokes of rectangles.

ghost use Rattle.std.specs.Prelude.{◌≡◌, ◌≤ℤ◌, ◌↔◌, IsTrue, pos};
ghost use Rattle.cam_units.specs.Board.{IsInReach, IsSize};
ghost use Rattle.cam_units.specs.Boxes.{IsInBox};
ghost use Rattle.cam_shapes.specs.Plane.{IsShort};
ghost use Rattle.cam_shapes.specs.Swept.{
  IsInSwept,
  IsNearWay,
  IsSoundSwept,
  corner_reach,
  high_corner,
  low_corner,
};

use crate::size::is_positive;
use crate::vector::Vector;
use cam_units::{Nm, Point, Spot};

/// The stroke of a rectangle along a straight line: its sides stay along the axes, its width in x
/// and its height in y, in nanometres. All that the rectangle passes on its way is covered.
#[derive(Clone, Copy, Debug, PartialEq, Eq)]
pub struct Swept {
    pub from: Point,
    pub to: Point,
    pub width: Nm,
    pub height: Nm,
}

/// Whether the place is in the stroke or on its edge.
pub fn in_swept(spot: Spot, swept: Swept) -> bool
    requires spot { IsInReach spot }
    requires swept { IsSoundSwept swept }
    ensures { IsTrue result ↔ IsInSwept spot swept }
{
    let Swept {
        from,
        to,
        width,
        height,
    } = swept;
    is_positive(width)
        && is_positive(height)
        && is_boxed(spot, swept)
        && is_near_way(
            Vector::between(from, to),
            Vector::seen_from(from, spot),
            width,
            height,
        )
}

/// Whether the place is in the box of both ends, widened by the sides, or on its edge.
fn is_boxed(spot: Spot, swept: Swept) -> bool
    requires { IsSoundSwept swept }
    ensures { IsTrue result ↔ IsInBox (low_corner swept) (high_corner swept) spot }
{
    is_ordered(low_corner(swept), spot) && is_ordered(spot, high_corner(swept))
}

/// Whether a place is not right of another and not above it.
fn is_ordered(low: Spot, high: Spot) -> bool
    ensures { IsTrue result ↔ ((low.x ≤ℤ high.x) × (low.y ≤ℤ high.y)) }
{
    low.x <= high.x && low.y <= high.y
}

/// The left lower corner of the box of both ends, widened by the sides.
pub fn low_corner(swept: Swept) -> Spot
    requires { IsSoundSwept swept }
    ensures { result ≡ low_corner swept }
{
    let Swept { from, to, .. } = swept;
    Spot {
        x: (2 * from.x).min(2 * to.x) - swept.width.0,
        y: (2 * from.y).min(2 * to.y) - swept.height.0,
    }
}

/// The right upper corner of the box of both ends, widened by the sides.
pub fn high_corner(swept: Swept) -> Spot
    requires { IsSoundSwept swept }
    ensures { result ≡ high_corner swept }
{
    let Swept { from, to, .. } = swept;
    Spot {
        x: (2 * from.x).max(2 * to.x) + swept.width.0,
        y: (2 * from.y).max(2 * to.y) + swept.height.0,
    }
}

/// Whether a place, seen from the start of a way, is no farther from the way's line than the
/// corners of the rectangle about the start.
fn is_near_way(way: Vector, seen: Vector, width: Nm, height: Nm) -> bool
    requires way { IsShort way }
    requires seen { IsShort seen }
    requires width { IsSize width.0 }
    requires height { IsSize height.0 }
    ensures { IsTrue result ↔ IsNearWay way seen width.0 height.0 }
{
    way.cross(seen).unsigned_abs() <= u128::from(corner_reach(way, width, height))
}

/// The greatest cross product of a way and a corner of the rectangle about the way's start.
pub fn corner_reach(way: Vector, width: Nm, height: Nm) -> u64
    requires way { IsShort way }
    requires width { IsSize width.0 }
    requires height { IsSize height.0 }
    ensures { pos result ≡ corner_reach way width.0 height.0 }
{
    let across = width.0.unsigned_abs() * way.y.unsigned_abs();
    let along = height.0.unsigned_abs() * way.x.unsigned_abs();
    across + along
}
