//! Boxes that lie beyond the line of a draw, on one side of it: the draw covers none of their places.

ghost use Rattle.std.specs.Prelude.{◌≡◌, ◌^◌, ◌<◌, ◌*ℤ◌, ◌-ℤ◌, ◌≤ℤ◌, IsTrue, ℤ, pos};
ghost use Rattle.std.specs.Int.RustNames.{unsigned_abs};
ghost use Rattle.cam_units.specs.Board.{IsInReach, IsOnBoard, IsPlace, IsSize, place_limit};
ghost use Rattle.cam_units.specs.Boxes.{Holds, IsInBox};
ghost use Rattle.cam_units.specs.declared.point.Point.{Point};
ghost use Rattle.cam_units.specs.declared.point.Spot.{Spot};
ghost use Rattle.cam_shapes.specs.Plane.{seen_from, way};
ghost use Rattle.cam_shapes.specs.Swept.{IsNearWay};
ghost use Rattle.cam_objects.specs.Image.{Covers, relative as relative_to};
ghost use Rattle.cam_objects.specs.Leaves.{drawn};
ghost use Rattle.cam_objects.specs.Machinery.Boxes.{IsSizedTip};
ghost use Rattle.cam_objects.specs.Machinery.Lines.{IsLeft, crossed, reach_of};

use crate::boxes::shapes::place;
use crate::checks::inside::is_place;
use crate::image::relative;
use crate::tip::Tip;
use cam_units::{Bounds, Nm, Point, Spot};

/// The cross product of two ways, in half nm: positive where the second leads left of the first.
fn cross(way: Spot, seen: Spot) -> i128
    requires way { IsInReach way }
    requires seen { IsInReach seen }
    ensures value { result ≡ crossed way seen }
    ensures short { unsigned_abs result < 2 ^ 67 }
{
    i128::from(way.x) * i128::from(seen.y) - i128::from(way.y) * i128::from(seen.x)
}

/// The greatest cross product of a way and a place in a rectangle about the way's start: that of a corner.
fn corner_reach(way: Spot, width: Nm, height: Nm) -> u64
    requires way { IsInReach way }
    requires width { IsSize width.0 }
    requires height { IsSize height.0 }
    ensures { pos result ≡ reach_of way width.0 height.0 }
{
    let across = width.0.unsigned_abs() * way.y.unsigned_abs();
    let along = height.0.unsigned_abs() * way.x.unsigned_abs();
    across + along
}

/// The corner of a box that lies farthest to the right of a way: no place of the box has a lesser cross product with it,
/// wherever both are seen from.
fn rightmost(way: Spot, low: Spot, high: Spot) -> Spot
    requires way { IsInReach way }
    requires low { IsPlace low }
    requires high { IsPlace high }
    ensures place { IsPlace result }
    ensures least { (p : Point) (s : Spot) → IsInBox low high s
        → crossed way (relative_to p result) ≤ℤ crossed way (relative_to p s) }
{
    Spot {
        x: if way.y < 0 { low.x } else { high.x },
        y: if way.x < 0 { high.y } else { low.y },
    }
}

/// Whether a box lies left of the line from one point to another, beyond all that a rectangle passes on its way there.
fn lies_left(low: Spot, high: Spot, from: Point, to: Point, width: Nm, height: Nm) -> bool
    requires low { IsPlace low }
    requires high { IsPlace high }
    requires from { IsOnBoard from }
    requires to { IsOnBoard to }
    requires width { IsSize width.0 }
    requires height { IsSize height.0 }
    ensures { IsTrue result → (s : Spot) → IsInBox low high s → IsLeft from to width.0 height.0 s }
{
    let way = relative(from, place(&to));
    let nearest = relative(from, rightmost(way, low, high));
    i128::from(corner_reach(way, width, height)) < cross(way, nearest)
}

/// Whether a box lies on one side of the line between two points, beyond all that a rectangle passes on its way from one to
/// the other.
fn lies_beyond(low: Spot, high: Spot, from: Point, to: Point, width: Nm, height: Nm) -> bool
    requires low { IsPlace low }
    requires high { IsPlace high }
    requires from { IsOnBoard from }
    requires to { IsOnBoard to }
    requires width { IsSize width.0 }
    requires height { IsSize height.0 }
    ensures { IsTrue result → (s : Spot) → IsInBox low high s
        → ¬ IsNearWay (way from to) (seen_from from s) width.0 height.0 }
{
    lies_left(low, high, from, to, width, height) || lies_left(low, high, to, from, width, height)
}

/// Whether one sees by its line alone that a draw covers no place of a box, in half nm: all of the box lies beyond it, on one
/// side. Of a box that leaves the board one does not.
pub(crate) fn line_misses(from: &Point, to: &Point, tip: &Tip, within: Bounds) -> bool
    requires from { IsOnBoard from.now }
    requires to { IsOnBoard to.now }
    requires tip { IsSizedTip tip.now }
    ensures { IsTrue result → (s : Spot) → Holds within s → ¬ Covers (drawn tip.now from.now to.now) s }
{
    let Bounds::Closed { low, high } = within else {
        return false;
    };
    if !is_place(low) || !is_place(high) {
        return false;
    }
    match *tip {
        Tip::Round(width) => lies_beyond(low, high, *from, *to, width, width),
        Tip::Rectangular { width, height } => lies_beyond(low, high, *from, *to, width, height),
    }
}
