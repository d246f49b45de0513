//! The insides of contours in the rows of tiles side by side, by parts: of a long contour, most parts lie above or below
//! the rows of a tile, and are passed over by their heights.

ghost use Rattle.std.specs.Prelude.{◌≡◌, All, IsTrue};
ghost use Rattle.cam_units.specs.Board.{IsOnBoard};
ghost use Rattle.cam_shapes.specs.Contour.{IsInContour, IsSoundSeg};
ghost use Rattle.cam_objects.specs.Leaves.{Filled};
ghost use Rattle.cam_tiles.specs.Machinery.Parts.{ChangeWithin, IsParted, behind_part, change_sides, end_from, first_part};
ghost use Rattle.cam_tiles.specs.Machinery.Turning.{AreWide, TurnsCentres};

use crate::grid::Grid;
use crate::masks::field::Field;
use crate::masks::heights::Heights;
use crate::masks::marked::MarkShape;
use crate::masks::marks::spread_marks;
use crate::masks::turning::{turn_edge, turn_segment};
use cam_shapes::{Contour, Seg};
use cam_units::Point;

/// How many segments are in one part of a contour; the last part may have fewer. By callgrind the lowest 300 tiles of
/// a ring, each drawn by itself, take 20,300 instructions on average whether the ring has 63 segments and no parts or 64 in
/// two parts, and 97,600 if it has 1,000.
pub(crate) const PART_SIZE: usize = 32;

/// A contour that stays where it is, and the heights of its parts.
#[derive(Clone, Copy)]
pub(crate) struct PartedContour<'a> {
    pub(crate) contour: &'a Contour,
    pub(crate) heights: &'a [Heights],
}

impl<'a> MarkShape for PartedContour<'a> {
    ghost is_sound = { λ c. IsParted c.contour.now c.heights.now };

    ghost shape = { λ c. Filled c.contour.now };

    fn mark(&self, marks: &mut [u64], _: &mut [u64], grid: &Grid, columns: u32) {
        let words = 64 * columns.div_ceil(64) as usize;
        let marks = &mut marks[..words];
        marks.fill(0);
        let field = Field::new(*grid, columns);
        turn_parts(marks, &field, self.contour, self.heights);
        spread_marks(marks);
    }
}

/// The first part of segments, and those behind it.
pub(crate) fn split_part(segs: &[Seg]) -> (&[Seg], &[Seg])
    ensures first { result.0.now ≡ first_part segs.now }
    ensures behind { result.1.now ≡ behind_part segs.now }
{
    segs.split_at(segs.len().min(PART_SIZE))
}

/// The point where segments from a point end.
pub(crate) fn end_from(here: Point, segs: &[Seg]) -> Point
    ensures { result ≡ end_from here segs.now }
{
    match segs.last() {
        Some(seg) => seg.end(),
        None => here,
    }
}

/// Counts a contour: its parts one after another, and the line that closes it.
fn turn_parts(marks: &mut [u64], field: &Field, contour: &Contour, heights: &[Heights])
    requires wide { AreWide field.now.columns marks.old }
    requires parted { IsParted contour.now heights.now }
    ensures { TurnsCentres field.now (λ s. IsInContour s contour.now) marks.old marks.new }
{
    let mut here = contour.start;
    let mut rest = contour.segs.as_slice();
    for part_heights in heights {
        let (part, behind) = split_part(rest);
        here = turn_met(marks, field, *part_heights, here, part);
        rest = behind;
    }
    // The parts are all there is: were something left behind them, it would be counted as well.
    let end = turn_part(marks, field, here, rest);
    turn_edge(marks, field, end, contour.start);
}

/// Counts a part of a contour from a point, unless it lies above or below the rows, and tells where it ends.
#[inline]
fn turn_met(marks: &mut [u64], field: &Field, heights: Heights, here: Point, part: &[Seg]) -> Point
    requires wide { AreWide field.now.columns marks.old }
    requires heights { ChangeWithin heights here part.now }
    requires here { IsOnBoard here }
    requires part { All IsSoundSeg part.now }
    ensures end { result ≡ end_from here part.now }
    ensures turned { TurnsCentres field.now (λ s. IsTrue (change_sides s here part.now)) marks.old marks.new }
{
    if heights.are_apart(field.rows) {
        return end_from(here, part);
    }
    turn_part(marks, field, here, part)
}

/// Counts segments from a point, one after another, and tells where they end.
fn turn_part(marks: &mut [u64], field: &Field, from: Point, part: &[Seg]) -> Point
    requires wide { AreWide field.now.columns marks.old }
    requires from { IsOnBoard from }
    requires part { All IsSoundSeg part.now }
    ensures end { result ≡ end_from from part.now }
    ensures turned { TurnsCentres field.now (λ s. IsTrue (change_sides s from part.now)) marks.old marks.new }
{
    let mut here = from;
    for seg in part {
        turn_segment(marks, field, here, *seg);
        here = seg.end();
    }
    here
}
