//! Circles: how far places lie from their centres.

ghost use Rattle.std.specs.Prelude.{◌≡◌, ◌^◌, ◌<◌, pos};
ghost use Rattle.cam_units.specs.Board.{IsOnBoard};
ghost use Rattle.cam_shapes.specs.Plane.{dot, way};

use cam_shapes::Vector;
use cam_units::Point;

/// The square of the distance of two points, in half nanometres.
pub fn squared_distance(from: &Point, to: &Point) -> u128
    requires from { IsOnBoard from.now }
    requires to { IsOnBoard to.now }
    ensures value { pos result ≡ dot (way from.now to.now) (way from.now to.now) }
    ensures bound { result < 2 ^ 67 }
{
    let way = Vector::between(*from, *to);
    way.dot(way) as u128
}
