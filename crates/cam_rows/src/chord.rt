//! Chords of a circle, row after row.

mod side;

ghost use Rattle.std.specs.Prelude.{◌≡◌, ◌↔◌, ◌-◌, ◌*◌, ◌<◌, ◌≤◌, ℕ, IsTrue, ◌^◌, pos, ◌<ℤ◌};
ghost use Rattle.std.specs.Int.RustNames.{unsigned_abs};
ghost use Rattle.cam_units.specs.Board.{IsOnBoard};
ghost use Rattle.cam_shapes.specs.Plane.{seen_from, square};
ghost use Rattle.cam_rows.specs.Machinery.Chords.{AreOffsetsFrom, AreOnSides, AreShort, AreWithin, IsChord};
ghost use Rattle.cam_rows.specs.Machinery.Chords.{IsInChord, offset};
ghost use Rattle.cam_rows.specs.Rows.{centre_at};
ghost use Rattle.cam_rows.specs.Runs.{AreWideRows, IsInRun, IsWideRow};

use crate::centres::Centres;
use crate::runs::Run;
use cam_units::{Point, isqrt};
use side::{ChordSide, squared};

/// What distances and heights are less than, where 64 bits hold their squares.
pub(crate) const NEAR: u64 = 1 << 32;

/// What all of them are less than.
pub(crate) const FAR: u64 = 1 << 34;

/// How far the centres of rows, one below another, lie to the right of a point, in half nanometres: the leftmost ones,
/// how much farther each is than the one before it, and how many a row has.
#[derive(Clone, Copy)]
pub struct Offsets {
    pub first: i64,
    pub step: i64,
    pub count: u32,
}

impl Offsets {
    /// How far to the right a centre lies.
    #[inline]
    pub(crate) fn at(&self, index: u32) -> i64
        requires { AreShort self.now.first self.now.step index }
        ensures { result ≡ offset self.now.first self.now.step index }
    {
        self.first + i64::from(index) * self.step
    }
}

/// The columns of rows, one below another, in chords of a circle: from each row to the next its ends are found by a few
/// steps to the left and to the right of the circle's middle. What is near is found in 64 bits. Where all columns lie on
/// one side, as of a circle that is larger than the board, the other one is not walked.
#[derive(Clone, Copy)]
pub(crate) struct Chord {
    offsets: Offsets,
    pub left: ChordSide,
    pub right: ChordSide,
}

impl Chord {
    /// A chord without a column, at the middle of a circle about a point.
    pub(crate) fn at_middle<const REACH: u64>(point: &Point, top: &Centres) -> Chord
        requires point { IsOnBoard point.now }
        requires row { IsWideRow top.now }
        requires far { REACH ≤ 2 ^ 34 }
        requires near { (i : ℕ) → i < top.now.n
            → unsigned_abs (seen_from point.now (centre_at top.now i)).x < REACH }
        ensures chord { IsChord REACH result }
        ensures offsets { AreOffsetsFrom top.now point.now result.offsets }
    {
        let offsets = top.offsets_from(point);
        let middle = top.count_left_of(2 * point.x);
        let last_left = offsets.at(middle.saturating_sub(1));
        let first_right = offsets.at(middle.min(offsets.count - 1));
        let step = offsets.step.unsigned_abs();
        Chord {
            offsets,
            left: ChordSide::new(last_left.unsigned_abs(), step, middle),
            right: ChordSide::new(first_right.unsigned_abs(), step, offsets.count - middle),
        }
    }

    /// Goes to the chord of another row, where the squares of its halves are `to_left` and `to_right`: the run of the
    /// columns in that.
    #[inline]
    pub(crate) fn walk<const REACH: u64, const LEFT: bool, const RIGHT: bool>(
        &mut self,
        to_left: u128,
        to_right: u128,
    ) -> Run
        requires chord { IsChord REACH self.old }
        requires sides { AreOnSides LEFT RIGHT self.old }
        requires left { to_left < REACH * REACH }
        requires right { to_right < REACH * REACH }
        ensures chord { IsChord REACH self.new }
        ensures left { self.new.left.columns ≡ self.old.left.columns }
        ensures right { self.new.right.columns ≡ self.old.right.columns }
        ensures same { self.new.offsets ≡ self.old.offsets }
        ensures each { (i : ℕ) → i < self.old.offsets.count → IsInRun result.first result.end i
            ↔ IsInChord (offset self.old.offsets.first self.old.offsets.step i) to_left to_right }
        ensures middle { (result.first ≤ self.old.left.columns) × (self.old.left.columns ≤ result.end) }
        ensures within { result.end ≤ self.old.offsets.count }
    {
        let middle = self.left.columns;
        Run {
            first: middle - self.left.walk::<REACH, LEFT>(to_left),
            end: middle + self.right.walk::<REACH, RIGHT>(to_right),
        }
    }

    /// Goes to about a chord the square of whose half is so, where it is long: by a root, so that the walk is short.
    pub(crate) fn leap<const REACH: u64>(&mut self, room: u128)
        requires chord { IsChord REACH self.old }
        requires fits { room < REACH * REACH }
        ensures chord { IsChord REACH self.new }
        ensures left { self.new.left.columns ≡ self.old.left.columns }
        ensures right { self.new.right.columns ≡ self.old.right.columns }
        ensures same { self.new.offsets ≡ self.old.offsets }
    {
        let step = self.right.step;
        if room / 64 < squared(step) {
            return;
        }
        let half = isqrt(room);
        self.left.leap::<REACH>(half, room);
        self.right.leap::<REACH>(half, room);
    }

    /// The part of a run that lies in the chord of another row: the columns whose distance to the side has a square less
    /// than `room`. If all columns lie on one side of the middle, one end of the run is cut; if they lie on both, nothing is
    /// walked to for an empty run.
    #[inline]
    pub(crate) fn part<const REACH: u64, const LEFT: bool, const RIGHT: bool>(
        &mut self,
        room: u128,
        run: Run,
    ) -> Run
        requires chord { IsChord REACH self.old }
        requires sides { AreOnSides LEFT RIGHT self.old }
        requires fits { room < REACH * REACH }
        ensures chord { IsChord REACH self.new }
        ensures left { self.new.left.columns ≡ self.old.left.columns }
        ensures right { self.new.right.columns ≡ self.old.right.columns }
        ensures same { self.new.offsets ≡ self.old.offsets }
        ensures each { (i : ℕ) → i < self.old.offsets.count → IsInRun result.first result.end i
            ↔ (IsInRun run.first run.end i
            × (square (offset self.old.offsets.first self.old.offsets.step i) <ℤ pos room)) }
        ensures within { result.end ≤ run.end }
    {
        if LEFT && RIGHT && run.end <= run.first {
            return run;
        }
        let chord = self.walk::<REACH, LEFT, RIGHT>(room, room);
        let first = run.first.max(chord.first);
        let end = run.end.min(chord.end);
        if !LEFT {
            return Run {
                first: run.first,
                end,
            };
        }
        if !RIGHT {
            return Run {
                first,
                end: run.end,
            };
        }
        Run { first, end }
    }
}

/// What the squares of distances to the side are less than in a circle, at some height: none is where the square of the
/// height is not less than the bound.
#[inline]
pub(crate) fn room_at<const REACH: u64>(bound: u128, height: i64) -> u128
    requires bound { bound < REACH * REACH }
    requires height { unsigned_abs height < REACH }
    ensures room { result ≡ bound - unsigned_abs height * unsigned_abs height }
    ensures fits { result < REACH * REACH }
{
    let height = height.unsigned_abs();
    if REACH > NEAR {
        return bound.saturating_sub(squared(height));
    }
    u128::from((bound as u64).saturating_sub(height * height))
}

/// Whether a bound, and the squares of how far the centres of some rows lie from a point, to the side and up or down, fit
/// 64 bits.
#[tactic(auto, using(crate::proofs::WideRows::top_is_wide))]
pub(crate) fn is_nearby(point: &Point, bound: u128, top: &Centres, rows: usize) -> bool
    requires point { IsOnBoard point.now }
    requires some { 0 < rows }
    requires rows { AreWideRows top.now rows }
    ensures { IsTrue result → AreWithin (2 ^ 32) point.now bound top.now rows }
{
    let columns = top.offsets_from(point);
    let rightmost = columns.at(top.n - 1);
    if bound > u128::from(u64::MAX)
        || columns.first.unsigned_abs() >= NEAR
        || rightmost.unsigned_abs() >= NEAR
    {
        return false;
    }
    let highest = top.rise_below(0, point);
    let lowest = top.rise_below(rows - 1, point);
    highest.unsigned_abs() < NEAR && lowest.unsigned_abs() < NEAR
}
