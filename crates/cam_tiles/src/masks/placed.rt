//! The insides of contours that are placed, and of outlines of macros, in the rows of tiles side by side: each segment is
//! placed and counted once for all of them.

ghost use Rattle.std.specs.Prelude.{◌≡◌, All, IsTrue, map};
ghost use Rattle.cam_units.specs.Board.{IsOnBoard};
ghost use Rattle.cam_shapes.specs.declared.segments.Seg.{Seg};
ghost use Rattle.cam_shapes.specs.Contour.{IsInContour, end_of};
ghost use Rattle.cam_shapes.specs.Outline.{lines_to, outline_of};
ghost use Rattle.cam_shapes.specs.Placing.{IsOffset, IsPlaceable, IsPlaceablePoint, IsPlaceableSeg, placed_contour, placed_seg};
ghost use Rattle.cam_shapes.specs.Sides.{change_side, changes_side};
ghost use Rattle.cam_objects.specs.Leaves.{Filled, origin};
ghost use Rattle.cam_tiles.specs.Machinery.Turning.{AreWide, TurnsCentres};

use crate::grid::Grid;
use crate::masks::field::Field;
use crate::masks::marked::MarkShape;
use crate::masks::marks::spread_marks;
use crate::masks::mask::ORIGIN;
use crate::masks::turning::{turn_edge, turn_line, turn_segment};
use cam_shapes::{Contour, Placing, Seg};
use cam_units::{Point, Turn};

/// A contour that is turned about (0, 0) and then moved.
#[derive(Clone, Copy)]
pub(crate) struct PlacedContour<'a> {
    pub(crate) contour: &'a Contour,
    pub(crate) placing: Placing,
}

impl<'a> MarkShape for PlacedContour<'a> {
    ghost is_sound = { λ c. IsPlaceable c.placing.turn c.placing.offset c.contour.now };

    ghost shape = { λ c. Filled (placed_contour c.placing.turn c.placing.offset c.contour.now) };

    fn mark(&self, marks: &mut [u64], _: &mut [u64], grid: &Grid, columns: u32) {
        let words = 64 * columns.div_ceil(64) as usize;
        let marks = &mut marks[..words];
        marks.fill(0);
        let field = Field::new(*grid, columns);
        turn_contour(marks, &field, self.contour, self.placing);
        spread_marks(marks);
    }
}

/// Counts a contour that is placed: its segments one after another, and the line that closes it.
fn turn_contour(marks: &mut [u64], field: &Field, contour: &Contour, placing: Placing)
    requires wide { AreWide field.now.columns marks.old }
    requires contour { IsPlaceable placing.turn placing.offset contour.now }
    ensures { TurnsCentres field.now
        (λ s. IsInContour s (placed_contour placing.turn placing.offset contour.now)) marks.old marks.new }
{
    let start = placing.point(contour.start);
    let stays = keeps_segs(placing);
    let mut here = start;
    for seg in contour.segs.as_slice() {
        here = turn_placed(marks, field, placing, stays, here, seg);
    }
    turn_edge(marks, field, here, start);
}

/// Whether all segments are placed where they are.
fn keeps_segs(placing: Placing) -> bool
    ensures { IsTrue result → (seg : Seg) → placed_seg placing.turn placing.offset seg ≡ seg }
{
    match placing.turn {
        Turn::R0 => placing.offset.x == 0 && placing.offset.y == 0,
        _ => false,
    }
}

/// Counts what a segment changes once it is placed, and tells where it ends; a line that stays is neither placed nor copied.
#[inline]
fn turn_placed(
    marks: &mut [u64],
    field: &Field,
    placing: Placing,
    stays: bool,
    here: Point,
    seg: &Seg,
) -> Point
    requires wide { AreWide field.now.columns marks.old }
    requires here { IsOnBoard here }
    requires offset { IsOffset placing.offset }
    requires seg { IsPlaceableSeg placing.turn placing.offset seg.now }
    requires stays { IsTrue stays → (seg : Seg) → placed_seg placing.turn placing.offset seg ≡ seg }
    ensures end { result ≡ end_of (placed_seg placing.turn placing.offset seg.now) }
    ensures board { IsOnBoard result }
    ensures turned { TurnsCentres field.now
        (λ s. IsTrue (changes_side s here (placed_seg placing.turn placing.offset seg.now))) marks.old marks.new }
{
    if stays {
        if let Seg::Line { to } = seg {
            turn_line(marks, field, here, *to);
            return *to;
        }
    }
    let seg = placing.seg(*seg);
    turn_segment(marks, field, here, seg);
    seg.end()
}

/// Counts the polygon through points that are turned about (0, 0), in the rows of a grid that may be seen from a point.
pub(crate) fn turn_outline(marks: &mut [u64], field: &Field, points: &[Point], turn: Turn)
    requires wide { AreWide field.now.columns marks.old }
    requires points { All (IsPlaceablePoint turn origin.offset) points.now }
    ensures { TurnsCentres field.now
        (λ s. IsInContour s (placed_contour turn origin.offset (outline_of points.now))) marks.old marks.new }
{
    let [first, others @ ..] = points else {
        return;
    };
    let placing = Placing {
        turn,
        offset: ORIGIN,
    };
    let start = placing.point(*first);
    let mut here = start;
    for point in others {
        let next = placing.point(*point);
        turn_line(marks, field, here, next);
        here = next;
    }
    turn_edge(marks, field, here, start);
}
