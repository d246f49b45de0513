//! The points of a rout.

ghost use Rattle.std.specs.Prelude.{◌≡◌, All, map};
ghost use Rattle.cam_shapes.specs.Shifting.{IsShiftable, shifted_point};

use cam_shapes::shifted;
use cam_units::{Items, Point};

/// The points of a rout, in order, in nm.
pub type Points = Items<Point>;

/// Moves each point by so many nm.
pub(crate) fn shift_points(points: &mut Points, by: Point)
    requires points { All IsShiftable points.old }
    requires by { IsShiftable by }
    ensures { points.new ≡ map (shifted_point by) points.old }
{
    for point in points.as_mut_slice() {
        *point = shifted(*point, by);
    }
}
