//! The centres of a row, and of wide rows: up to 32,768 centres side by side.

ghost use Rattle.std.specs.Prelude.{◌≡◌, ◌↔◌, ◌+◌, ◌^◌, ◌<◌, ◌≤◌, ℕ, ◌≤ℤ◌, ◌<ℤ◌};
ghost use Rattle.std.specs.Int.RustNames.{unsigned_abs};
ghost use Rattle.cam_units.specs.Board.{IsOnBoard};
ghost use Rattle.cam_shapes.specs.Plane.{seen_from};
ghost use Rattle.cam_rows.specs.Machinery.Chords.{AreOffsetsFrom, AreWideOffsets};
ghost use Rattle.cam_rows.specs.Rows.{centre_at, first_centre, row_below};
ghost use Rattle.cam_rows.specs.Runs.{AreWideRows, IsInRun, IsWideRow};

use crate::chord::Offsets;
use crate::runs::Run;
use cam_units::Point;

/// The centres of pixels side by side, in half nanometres: the leftmost one, the distance of neighbours, and how many
/// they are, from 1 to 64. They are places of the board, or as they are seen from a point of it.
#[derive(Clone, Copy, Debug, PartialEq, Eq)]
pub struct Centres {
    pub x: i64,
    pub y: i64,
    pub step: i64,
    pub n: u32,
}

impl Centres {
    /// The wide row that lies so many steps lower.
    #[inline]
    pub(crate) fn wide_below(&self, steps: usize) -> Centres
        requires top { IsWideRow self.now }
        requires row { IsWideRow (row_below self.now steps) }
        ensures { result ≡ row_below self.now steps }
    {
        let mut row = *self;
        row.y -= steps as i64 * self.step;
        row
    }

    /// How far its centres lie to the right of a point.
    #[inline]
    pub(crate) fn offsets_from(&self, point: &Point) -> Offsets
        requires row { IsWideRow self.now }
        requires point { IsOnBoard point.now }
        ensures each { AreOffsetsFrom self.now point.now result }
        ensures wide { AreWideOffsets result }
    {
        Offsets {
            first: self.x - 2 * point.x,
            step: self.step,
            count: self.n,
        }
    }

    /// How far the centres of the row that lies so many steps lower lie over a point.
    #[inline]
    #[tactic(auto, using(crate::proofs::WideRows::top_is_wide))]
    pub(crate) fn rise_below(&self, steps: usize, point: &Point) -> i64
        requires rows { AreWideRows self.now (steps + 1) }
        requires point { IsOnBoard point.now }
        ensures { result ≡ (seen_from point.now (first_centre (row_below self.now steps))).y }
    {
        self.wide_below(steps).y - 2 * point.y
    }

    /// How many of the centres lie left of the vertical at `x`. It divides only where some do, and some do not.
    #[tactic(auto, using(crate::proofs::Steps::first_near, crate::proofs::Steps::none_left))]
    pub(crate) fn count_left_of(&self, x: i64) -> u32
        requires row { IsWideRow self.now }
        requires short { unsigned_abs x < 2 ^ 62 }
        ensures each { (i : ℕ) → i < self.now.n → (i < result) ↔ ((centre_at self.now i).x <ℤ x) }
        ensures few { result ≤ self.now.n }
    {
        let gap = x - self.x;
        if gap <= 0 {
            return 0;
        }
        let gap = gap as u64;
        let step = self.step as u64;
        if gap > u64::from(self.n - 1) * step {
            return self.n;
        }
        gap.div_ceil(step) as u32
    }

    /// How many of some rows, one below another from this one, lie as high as `height` or higher, by one division.
    pub(crate) fn rows_above(&self, height: i64, rows: usize) -> usize
        requires row { IsWideRow self.now }
        requires short { unsigned_abs height < 2 ^ 62 }
        ensures each { (k : ℕ) → k < rows → (k < result) ↔ (height ≤ℤ (row_below self.now k).y) }
        ensures within { result ≤ rows }
    {
        let fall = self.y - height;
        if fall < 0 {
            return 0;
        }
        (fall as u64 / self.step as u64 + 1).min(rows as u64) as usize
    }

    /// The run of the columns from one vertical to another, both included; there are none where `right` is less than
    /// `left`.
    pub(crate) fn columns_between(&self, left: i64, right: i64) -> Run
        requires row { IsWideRow self.now }
        requires left { unsigned_abs left < 2 ^ 61 }
        requires right { unsigned_abs right < 2 ^ 61 }
        ensures each { (i : ℕ) → i < self.now.n → IsInRun result.first result.end i
            ↔ ((left ≤ℤ (centre_at self.now i).x) × ((centre_at self.now i).x ≤ℤ right)) }
        ensures within { result.end ≤ self.now.n }
    {
        Run {
            first: self.count_left_of(left),
            end: self.count_left_of(right + 1),
        }
    }
}
