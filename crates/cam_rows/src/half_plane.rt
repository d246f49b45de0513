//! Half planes, row after row: the centres on one side of a line, by the sign of a number.

ghost use Rattle.std.specs.Prelude.{◌≡◌, ◌^◌, ◌<◌, ℕ, pos, ◌+ℤ◌, ◌-ℤ◌, ◌*ℤ◌, ◌≤ℤ◌};
ghost use Rattle.std.specs.Int.RustNames.{unsigned_abs};
ghost use Rattle.cam_units.specs.Board.{IsOnBoard};
ghost use Rattle.cam_shapes.specs.Plane.{IsShort, cross, dot, seen_from, way};
ghost use Rattle.cam_rows.specs.Machinery.HalfPlanes.{IsHalfPlaneOf, IsLeft};
ghost use Rattle.cam_rows.specs.Machinery.Slopes.{lowered, number_on};
ghost use Rattle.cam_rows.specs.Rows.{centre_at, row_below};
ghost use Rattle.cam_rows.specs.Runs.{IsWideRow};

use crate::centres::Centres;
use cam_shapes::Vector;
use cam_units::{Point, Spot};

/// The centres of rows, one below another, at which a number is not negative: that of the leftmost one in the top row, and
/// how much more it is from each centre to the next, and from each row to the one below.
#[derive(Clone, Copy)]
pub struct HalfPlane {
    pub first: i128,
    pub step: i128,
    pub down: i128,
}

impl HalfPlane {
    /// The places ahead of a point, or beside it, as one looks along a way, or behind it where the dot product with the way
    /// is at most `reach` below 0.
    pub(crate) fn ahead(from: &Point, way: Vector, reach: i128, top: &Centres) -> HalfPlane
        requires from { IsOnBoard from.now }
        requires way { IsShort way }
        requires reach { unsigned_abs reach < 2 ^ 64 }
        requires row { IsWideRow top.now }
        ensures holds { IsHalfPlaneOf top.now (λ s. pos 0 ≤ℤ (dot way (seen_from from.now s) +ℤ reach)) result }
        ensures numbers { (k i : ℕ) → number_on (lowered k result) i
            ≡ dot way (seen_from from.now (centre_at (row_below top.now k) i)) +ℤ reach }
        ensures step { result.step ≡ way.x *ℤ top.now.step }
    {
        let leftmost = Spot { x: top.x, y: top.y };
        HalfPlane {
            first: way.dot(Vector::seen_from(*from, leftmost)) + reach,
            step: i128::from(way.x) * i128::from(top.step),
            down: -(i128::from(way.y) * i128::from(top.step)),
        }
    }

    /// The places left of the line through two points, as it leads from the first to the second, on it, or right of it
    /// where the cross product with the way is at most `reach` below 0.
    pub(crate) fn left(from: &Point, to: &Point, reach: i128, top: &Centres) -> HalfPlane
        requires from { IsOnBoard from.now }
        requires to { IsOnBoard to.now }
        requires reach { unsigned_abs reach < 2 ^ 64 }
        requires row { IsWideRow top.now }
        ensures holds { IsHalfPlaneOf top.now (IsLeft from.now to.now reach) result }
        ensures numbers { (k i : ℕ) → number_on (lowered k result) i
            ≡ cross (way from.now to.now) (seen_from from.now (centre_at (row_below top.now k) i)) +ℤ reach }
        ensures step { result.step ≡ (pos 0 -ℤ (way from.now to.now).y) *ℤ top.now.step }
    {
        let way = Vector::between(*from, *to);
        let to_the_left = Vector {
            x: -way.y,
            y: way.x,
        };
        HalfPlane::ahead(from, to_the_left, reach, top)
    }
}
