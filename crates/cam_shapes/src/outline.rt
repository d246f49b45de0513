//! Outlines of aperture macros.

ghost use Rattle.std.specs.Prelude.{◌≡◌, ◌↔◌, All, IsTrue, map};
ghost use Rattle.cam_units.specs.Board.{IsInReach, IsOnBoard};
ghost use Rattle.cam_shapes.specs.Contour.{IsInContour};
ghost use Rattle.cam_shapes.specs.Outline.{lines_to, outline_of};
ghost use Rattle.cam_shapes.specs.Placing.{IsOffset, IsPlaceablePoint, placed_contour, placed_seg};
ghost use Rattle.cam_shapes.specs.Sides.{change_side};

use crate::edge::in_edge;
use crate::placing::Placing;
use cam_units::{Point, Spot, Turn};

/// Whether the place is in the closed polygon through the points, once these are turned about
/// (0, 0) and then moved: an odd number of its edges cross the ray going right from the place.
/// No place is in a polygon of no points. No contour is built.
pub fn in_outline(spot: Spot, points: &[Point], turn: Turn, offset: Point) -> bool
    requires spot { IsInReach spot }
    requires offset { IsOffset offset }
    requires points { All (IsPlaceablePoint turn offset) points.now }
    ensures { IsTrue result ↔ IsInContour spot (placed_contour turn offset (outline_of points.now)) }
{
    let [start, others @ ..] = points else {
        return false;
    };
    let placing = Placing { turn, offset };
    is_enclosed(spot, placing.point(*start), others, placing)
}

/// Whether the place is on the other side of the closed line from a point through others, once
/// these are placed.
fn is_enclosed(spot: Spot, start: Point, others: &[Point], placing: Placing) -> bool
    requires spot { IsInReach spot }
    requires start { IsOnBoard start }
    requires offset { IsOffset placing.offset }
    requires others { All (IsPlaceablePoint placing.turn placing.offset) others.now }
    ensures { result
        ≡ change_side spot start start (map (placed_seg placing.turn placing.offset) (lines_to others.now)) }
{
    let mut inside = false;
    let mut here = start;
    for point in others {
        let next = placing.point(*point);
        inside ^= in_edge(spot, here, next);
        here = next;
    }
    inside ^ in_edge(spot, here, start)
}
