//! Segments of contours.

ghost use Rattle.std.specs.Prelude.{◌≡◌, All, map};
ghost use Rattle.cam_units.specs.Board.{IsOnBoard};
ghost use Rattle.cam_shapes.specs.Contour.{IsSoundSeg, end_of};
ghost use Rattle.cam_shapes.specs.Shifting.{IsShiftable, IsShiftableSeg, shifted_seg};

use cam_units::{Items, Point};

/// A segment of a contour: a line to a point, or an arc to a point about a centre,
/// counterclockwise where `ccw` says so, else clockwise. An arc that ends where it starts is a
/// full circle.
#[derive(Clone, Copy, Debug, PartialEq, Eq)]
pub enum Seg {
    Line { to: Point },
    Curve { to: Point, centre: Point, ccw: bool },
}

impl Seg {
    /// The point where the segment ends.
    #[inline]
    pub fn end(self) -> Point
        ensures value { result ≡ end_of self }
        ensures on_board { IsSoundSeg self → IsOnBoard result }
    {
        match self {
            Seg::Line { to } => to,
            Seg::Curve { to, .. } => to,
        }
    }
}

/// The segments of a contour, in order.
pub type Segments = Items<Seg>;

/// Moves each segment by so many nm.
pub(crate) fn shift_segments(segs: &mut Segments, by: Point)
    requires segs { All IsShiftableSeg segs.old }
    requires by { IsShiftable by }
    ensures { segs.new ≡ map (shifted_seg by) segs.old }
{
    for seg in segs.as_mut_slice() {
        *seg = seg.shifted(by);
    }
}
