//! Ways from one place to another.

ghost use Rattle.std.specs.Prelude.{◌≡◌, ◌^◌, ◌<◌, ◌↔◌, IsTrue};
ghost use Rattle.std.specs.Int.RustNames.{unsigned_abs};
ghost use Rattle.cam_units.specs.Board.{IsInReach, IsOnBoard, IsSize};
ghost use Rattle.cam_shapes.specs.Plane.{IsBetween, IsSeen, IsShort, IsNoLonger, cross, dot, seen_from, way};

use crate::size::squared;
use cam_units::{Nm, Point, Spot};

/// The way from one place to another, in half nanometres.
#[derive(Clone, Copy, Debug, PartialEq, Eq)]
pub struct Vector {
    pub x: i64,
    pub y: i64,
}

impl Vector {
    /// The way from a point to a place.
    pub fn seen_from(point: Point, spot: Spot) -> Vector
        requires point { IsOnBoard point }
        requires spot { IsInReach spot }
        ensures value { result ≡ seen_from point spot }
        ensures seen { IsSeen result }
        ensures short { IsShort result }
    {
        Vector {
            x: spot.x - 2 * point.x,
            y: spot.y - 2 * point.y,
        }
    }

    /// The way from one point to another.
    pub fn between(from: Point, to: Point) -> Vector
        requires from { IsOnBoard from }
        requires to { IsOnBoard to }
        ensures value { result ≡ way from to }
        ensures short { IsShort result }
    {
        Vector {
            x: 2 * to.x - 2 * from.x,
            y: 2 * to.y - 2 * from.y,
        }
    }

    /// The dot product.
    pub fn dot(self, other: Vector) -> i128
        requires first { IsShort self }
        requires second { IsShort other }
        ensures value { result ≡ dot self other }
        ensures bound { unsigned_abs result < 2 ^ 67 }
    {
        i128::from(self.x) * i128::from(other.x) + i128::from(self.y) * i128::from(other.y)
    }

    /// The cross product, which is positive where `other` points left of this way.
    pub fn cross(self, other: Vector) -> i128
        requires first { IsShort self }
        requires second { IsShort other }
        ensures value { result ≡ cross self other }
        ensures bound { unsigned_abs result < 2 ^ 67 }
    {
        i128::from(self.x) * i128::from(other.y) - i128::from(self.y) * i128::from(other.x)
    }

    /// Whether the way is at most as long as the radius.
    pub(crate) fn is_within(self, radius: Nm) -> bool
        requires short { IsShort self }
        requires radius { IsSize radius.0 }
        ensures { IsTrue result ↔ IsNoLonger self radius.0 }
    {
        self.dot(self) <= squared(radius)
    }

    /// Whether the way leads at most `width` to the left or right, and at most `height` up or
    /// down.
    pub(crate) fn is_between(self, width: Nm, height: Nm) -> bool
        requires { IsShort self }
        ensures { IsTrue result ↔ IsBetween self width.0 height.0 }
    {
        self.x.abs() <= width.0 && self.y.abs() <= height.0
    }
}
