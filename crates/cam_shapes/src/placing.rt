//! Places of contours.

ghost use Rattle.std.specs.Prelude.{◌≡◌, ◌↔◌, All, IsTrue};
ghost use Rattle.cam_units.specs.Board.{IsOnBoard};
ghost use Rattle.cam_shapes.specs.Placing.{IsOffset, IsPlaceablePoint, IsPlaceableSeg, placed_direction};
ghost use Rattle.cam_shapes.specs.Placing.{placed_point, placed_seg};
ghost use Rattle.cam_shapes.specs.Contour.{IsSoundSeg};

use crate::segments::Seg;
use cam_units::{Point, Turn, fits_board};

/// The coordinates of a way across the board are below this in absolute value, in nm.
const OFFSET: u64 = 2_000_000_000;

/// Where a contour is put: its points are turned about (0, 0), and then moved.
#[derive(Clone, Copy, Debug, PartialEq, Eq)]
pub struct Placing {
    pub turn: Turn,
    pub offset: Point,
}

impl Placing {
    /// Whether both coordinates of the offset are under two metres in absolute value; a longer one
    /// leads each point off the board.
    pub(crate) fn fits_offset(self) -> bool
        ensures { IsTrue result ↔ IsOffset self.offset }
    {
        self.offset.x.unsigned_abs() < OFFSET && self.offset.y.unsigned_abs() < OFFSET
    }

    /// The point, placed.
    pub fn point(self, point: Point) -> Point
        requires offset { IsOffset self.offset }
        requires point { IsOnBoard point }
        ensures { result ≡ placed_point self.turn self.offset point }
    {
        let turned = self.turn.apply(point);
        Point {
            x: turned.x + self.offset.x,
            y: turned.y + self.offset.y,
        }
    }

    /// Whether the point lies on the board, also once it is placed.
    pub(crate) fn fits_point(self, point: Point) -> bool
        requires { IsOffset self.offset }
        ensures { IsTrue result ↔ IsPlaceablePoint self.turn self.offset point }
    {
        fits_board(point) && fits_board(self.point(point))
    }

    /// Whether the segment's points lie on the board, also once they are placed.
    fn fits_seg(self, seg: Seg) -> bool
        requires { IsOffset self.offset }
        ensures { IsTrue result ↔ IsPlaceableSeg self.turn self.offset seg }
    {
        match seg {
            Seg::Line { to } => self.fits_point(to),
            Seg::Curve { to, centre, .. } => self.fits_point(to) && self.fits_point(centre),
        }
    }

    /// Whether the points of all segments lie on the board, also once they are placed.
    pub(crate) fn fits_segs(self, segs: &[Seg]) -> bool
        requires { IsOffset self.offset }
        ensures { IsTrue result ↔ All (IsPlaceableSeg self.turn self.offset) segs.now }
    {
        segs.iter().all(|seg| self.fits_seg(*seg))
    }

    /// Whether an arc is counterclockwise, once it is placed.
    fn direction(self, ccw: bool) -> bool
        ensures { result ≡ placed_direction self.turn ccw }
    {
        match self.turn {
            Turn::R0 | Turn::R90 | Turn::R180 | Turn::R270 => ccw,
            Turn::M0 | Turn::M90 | Turn::M180 | Turn::M270 => !ccw,
        }
    }

    /// The segment, placed.
    pub fn seg(self, seg: Seg) -> Seg
        requires offset { IsOffset self.offset }
        requires seg { IsPlaceableSeg self.turn self.offset seg }
        ensures value { result ≡ placed_seg self.turn self.offset seg }
        ensures sound { IsSoundSeg result }
    {
        match seg {
            Seg::Line { to } => Seg::Line { to: self.point(to) },
            Seg::Curve { to, centre, ccw } => Seg::Curve {
                to: self.point(to),
                centre: self.point(centre),
                ccw: self.direction(ccw),
            },
        }
    }
}
