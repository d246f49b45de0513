//! Edges of closed polygons.

ghost use Rattle.std.specs.Prelude.{◌≡◌};
ghost use Rattle.cam_units.specs.Board.{IsInReach, IsOnBoard};
ghost use Rattle.cam_shapes.specs.Edge.{crosses_ray, edge, is_above};

use crate::vector::Vector;
use cam_units::{Point, Spot};

/// Whether the edge crosses the ray that goes right from the place: exactly one of its ends is
/// higher than the place, and at the place's height it lies strictly right of the place.
pub fn in_edge(spot: Spot, from: Point, to: Point) -> bool
    requires spot { IsInReach spot }
    requires from { IsOnBoard from }
    requires to { IsOnBoard to }
    ensures { result ≡ crosses_ray spot (edge from to) }
{
    let is_falling = is_above(from, spot);
    if is_above(to, spot) == is_falling {
        return false;
    }
    let side = Vector::between(from, to).cross(Vector::seen_from(from, spot));
    if is_falling { side < 0 } else { side > 0 }
}

/// Whether the point is higher than the place.
fn is_above(point: Point, spot: Spot) -> bool
    requires { IsOnBoard point }
    ensures { result ≡ is_above point spot }
{
    spot.y < 2 * point.y
}
