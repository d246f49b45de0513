//! Contours that are placed, and outlines of macros, by the rows of their edges and caps.

ghost use Rattle.std.specs.Prelude.{All, IsTrue, map};
ghost use Rattle.cam_units.specs.Board.{IsOnBoard};
ghost use Rattle.cam_shapes.specs.Contour.{IsInContour, IsSoundSeg};
ghost use Rattle.cam_shapes.specs.Edge.{crosses_ray, edge};
ghost use Rattle.cam_shapes.specs.Outline.{lines_to, outline_of};
ghost use Rattle.cam_shapes.specs.Placing.{IsOffset, IsPlaceable, IsPlaceablePoint, placed_contour, placed_seg};
ghost use Rattle.cam_shapes.specs.Sides.{change_side, changes_side};
ghost use Rattle.cam_objects.specs.Image.{relative};
ghost use Rattle.cam_objects.specs.Leaves.{origin};
ghost use Rattle.cam_tiles.specs.Machinery.Masks.{Joins, Turns};

use crate::masks::heights::crossed_heights;
use crate::masks::join::Join;
use crate::masks::mask::{Mask, ORIGIN};
use crate::plain::shapes::RowShape;
use cam_shapes::{Cap, Contour, Placing, Seg};
use cam_units::{Point, Turn};

impl Mask {
    /// Joins the marks with the inside of a contour that is turned about (0, 0) and then moved.
    pub(crate) fn fill(&mut self, contour: &Contour, turn: Turn, offset: Point, how: Join)
        requires { IsPlaceable turn offset contour.now }
        ensures { Joins how (λ s. IsInContour s (placed_contour turn offset contour.now)) self.old self.new }
    {
        let mut inside = Mask::blank(self.grid());
        let placing = Placing { turn, offset };
        let start = placing.point(contour.start);
        let mut here = start;
        for seg in contour.segs.as_slice() {
            let seg = placing.seg(*seg);
            inside.turn_segment(here, seg);
            here = seg.end();
        }
        inside.turn_edge(here, start, ORIGIN);
        self.merge(&inside, how);
    }

    /// Joins the marks with the inside of the polygon through points that are turned about (0, 0), as it is seen from a
    /// point.
    pub(crate) fn fill_outline(&mut self, points: &[Point], turn: Turn, at: Point, how: Join)
        requires points { All (IsPlaceablePoint turn origin.offset) points.now }
        requires at { IsOnBoard at }
        ensures { Joins how
            (λ s. IsInContour (relative at s) (placed_contour turn origin.offset (outline_of points.now)))
            self.old self.new }
    {
        let [first, others @ ..] = points else {
            return;
        };
        let placing = Placing {
            turn,
            offset: ORIGIN,
        };
        let start = placing.point(*first);
        let mut inside = Mask::blank(self.grid());
        let mut here = start;
        for point in others {
            let next = placing.point(*point);
            inside.turn_edge(here, next, at);
            here = next;
        }
        inside.turn_edge(here, start, at);
        self.merge(&inside, how);
    }

    /// Turns over what a segment from a point changes: its edge, and of an arc its cap.
    fn turn_segment(&mut self, here: Point, seg: Seg)
        requires here { IsOnBoard here }
        requires seg { IsSoundSeg seg }
        ensures { Turns (λ s. IsTrue (changes_side (relative origin.offset s) here seg)) self.old self.new }
    {
        match seg {
            Seg::Line { to } => self.turn_edge(here, to, ORIGIN),
            Seg::Curve { to, centre, ccw } => {
                let cap = Cap {
                    from: here,
                    to,
                    centre,
                    ccw,
                };
                self.turn_edge(here, to, ORIGIN);
                self.turn(&RowShape::Cap(cap), ORIGIN);
            }
        }
    }

    /// Turns over the centres that an edge counts for, as it is seen from a point. Of a long contour most edges lie
    /// between no two rows of a tile, or above or below them all: those are passed over.
    fn turn_edge(&mut self, from: Point, to: Point, at: Point)
        requires from { IsOnBoard from }
        requires to { IsOnBoard to }
        requires at { IsOnBoard at }
        ensures { Turns (λ s. IsTrue (crosses_ray (relative at s) (edge from to))) self.old self.new }
    {
        let band = self.grid().band(crossed_heights(from, to), at);
        if band.end <= band.first {
            return;
        }
        self.turn(&RowShape::Edge { from, to }, at);
    }
}
