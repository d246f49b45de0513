//! Points, segments and contours that are moved.

ghost use Rattle.std.specs.Prelude.{◌≡◌};
ghost use Rattle.cam_shapes.specs.Shifting.{IsShiftable, IsShiftableContour, IsShiftableSeg, shifted_contour};
ghost use Rattle.cam_shapes.specs.Shifting.{shifted_point, shifted_seg};

use crate::contour::Contour;
use crate::segments::{Seg, shift_segments};
use cam_units::Point;

/// The point, moved by so many nm.
pub fn shifted(point: Point, by: Point) -> Point
    requires point { IsShiftable point }
    requires by { IsShiftable by }
    ensures { result ≡ shifted_point by point }
{
    Point {
        x: point.x + by.x,
        y: point.y + by.y,
    }
}

impl Seg {
    /// The segment, moved by so many nm.
    pub(crate) fn shifted(self, by: Point) -> Seg
        requires seg { IsShiftableSeg self }
        requires by { IsShiftable by }
        ensures { result ≡ shifted_seg by self }
    {
        match self {
            Seg::Line { to } => Seg::Line {
                to: shifted(to, by),
            },
            Seg::Curve { to, centre, ccw } => Seg::Curve {
                to: shifted(to, by),
                centre: shifted(centre, by),
                ccw,
            },
        }
    }
}

impl Contour {
    /// Moves the contour by so many nm.
    pub fn shift(&mut self, by: Point)
        requires contour { IsShiftableContour self.old }
        requires by { IsShiftable by }
        ensures { self.new ≡ shifted_contour by self.old }
    {
        self.start = shifted(self.start, by);
        shift_segments(&mut self.segs, by);
    }
}
