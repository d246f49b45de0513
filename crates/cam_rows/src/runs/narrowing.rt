//! Runs of wide rows, narrowed to half planes.

ghost use Rattle.std.specs.Prelude.{◌≡◌, ◌↔◌, ◌+◌, ◌^◌, ◌<◌, ◌≤◌, ℕ, IfSome, IsTrue, None, length, pos, ◌*ℤ◌, ◌≤ℤ◌, ◌<ℤ◌};
ghost use Rattle.std.specs.Int.RustNames.{unsigned_abs};
ghost use Rattle.cam_units.specs.Board.{IsOnBoard};
ghost use Rattle.cam_rows.specs.Machinery.HalfPlanes.{IsCrossingIn, IsLeft, IsShortIn, IsShortPlane};
ghost use Rattle.cam_rows.specs.Machinery.Narrowing.{AreCounted, AreNarrowed, IsUp};
ghost use Rattle.cam_rows.specs.Machinery.Slopes.{lacking, lowered};
ghost use Rattle.cam_rows.specs.Rows.{centre_at, row_below};
ghost use Rattle.cam_rows.specs.Runs.{AreWideRows, IsInRun, end_in, most_columns};

use super::Run;
use crate::centres::Centres;
use crate::half_plane::HalfPlane;
use crate::slope::{Crossing, Steps, columns_up_to, count_ends, cut_ends, cut_firsts};
use cam_units::Point;

/// The most rows whose crossings are stepped through in 64 bits.
pub(super) const MOST_ROWS: usize = 1 << 20;

/// Narrows the runs of wide rows, one below another from the top one, to the columns left of the line through two points,
/// on it, or right of it where the cross product with the way is at most `reach` below 0.
pub(super) fn narrow_left(
    from: &Point,
    to: &Point,
    reach: i128,
    top: &Centres,
    firsts: &mut [u32],
    ends: &mut [u32],
)
    requires from { IsOnBoard from.now }
    requires to { IsOnBoard to.now }
    requires reach { unsigned_abs reach < 2 ^ 64 }
    requires some { 0 < length firsts.old }
    requires rows { AreWideRows top.now (length firsts.old) }
    requires ends { length ends.old ≡ length firsts.old }
    ensures { AreNarrowed top.now.n firsts.old ends.old
        (λ k i. IsLeft from.now to.now reach (centre_at (row_below top.now k) i)) (length firsts.old)
        firsts.new ends.new }
{
    HalfPlane::left(from, to, reach, top).narrow(top.n, firsts, ends);
}

impl HalfPlane {
    /// Narrows the runs of wide rows, one below another from the top one, to its own columns.
    #[tactic(auto, using(crate::proofs::NarrowedRuns::all_runs, crate::proofs::NarrowedRuns::no_runs))]
    pub(crate) fn narrow(&self, columns: u32, firsts: &mut [u32], ends: &mut [u32])
        requires short { IsShortIn (length firsts.old) self.now }
        requires few { columns ≤ most_columns }
        requires ends { length ends.old ≡ length firsts.old }
        ensures { AreNarrowed columns firsts.old ends.old (IsUp self.now) (length firsts.old)
            firsts.new ends.new }
    {
        // the ends of a wide arc lie in few rows of tiles, and elsewhere its sweep holds all columns
        if self.holds_all(columns, firsts.len()) {
            return;
        }
        match self.crossing(firsts.len()) {
            Some((top, steps)) if self.step < 0 => cut_ends(top, &steps, ends),
            Some((top, steps)) => cut_firsts(top, &steps, columns, firsts),
            None => {
                for k in 0..firsts.len() {
                    let run = Run {
                        first: firsts[k],
                        end: ends[k],
                    };
                    let part = self.narrowed(k, run, columns);
                    firsts[k] = part.first;
                    ends[k] = part.end;
                }
            }
        }
    }

    /// Whether it holds so many columns of as many rows, all of them: the least of their numbers is one in a corner.
    fn holds_all(&self, columns: u32, rows: usize) -> bool
        requires short { IsShortIn rows self.now }
        requires few { columns ≤ most_columns }
        ensures { IsTrue result ↔ ((k i : ℕ) → k < rows → i < columns → IsUp self.now k i) }
    {
        if columns == 0 || rows == 0 {
            return true;
        }
        let row = least_of(self.down, rows);
        let column = least_of(self.step, columns as usize);
        self.number_below(row) + column as i128 * self.step >= 0
    }

    /// The ends of runs of wide rows, one below another from the top one, that begin at the leftmost column, where its
    /// numbers fall from each column to the next: it answers one end for all rows, or writes one for each.
    pub(crate) fn count_columns(&self, columns: u32, ends: &mut [u32]) -> Option<u32>
        requires short { IsShortIn (length ends.old) self.now }
        requires falls { self.now.step <ℤ pos 0 }
        requires few { columns ≤ most_columns }
        requires some { 0 < length ends.old }
        ensures { AreCounted columns (IsUp self.now) (length ends.old) (end_in result ends.new) }
    {
        if let Some((top, steps)) = self.crossing(ends.len()) {
            return count_ends(top, &steps, columns, ends);
        }
        for k in 0..ends.len() {
            ends[k] = columns_up_to(self.number_below(k), -self.step, columns);
        }
        None
    }

    /// Where its numbers cross 0 in the top row, and how that moves from each row to the next: the numbers themselves
    /// where they fall, and else what they lack. None where they are level, or may not fit 64 bits in so many rows.
    fn crossing(&self, rows: usize) -> Option<(Crossing, Steps)>
        requires { IsShortPlane self.now }
        ensures { IfSome result (λ r. IsCrossingIn rows r.0 r.1 self.now) }
    {
        if rows > MOST_ROWS {
            return None;
        }
        let falling = self.falling();
        let steps = Steps::of(falling.down, -falling.step)?;
        let top = steps.crossing(falling.first)?;
        Some((top, steps))
    }

    /// Its numbers where they fall from each column to the next, and else what they lack.
    pub(super) fn falling(&self) -> HalfPlane
        requires { IsShortPlane self.now }
        ensures falls { self.now.step <ℤ pos 0 → result ≡ self.now }
        ensures rises { pos 0 ≤ℤ self.now.step → result ≡ lacking self.now }
        ensures first { unsigned_abs result.first ≤ 2 ^ 100 }
        ensures step { unsigned_abs result.step < 2 ^ 100 }
        ensures bound { unsigned_abs result.down < 2 ^ 100 }
    {
        if self.step < 0 {
            return *self;
        }
        HalfPlane {
            first: -1 - self.first,
            step: -self.step,
            down: -self.down,
        }
    }

    /// Its columns of a run in the row that lies so many steps lower.
    fn narrowed(&self, steps: usize, run: Run, columns: u32) -> Run
        requires short { IsShortIn (steps + 1) self.now }
        requires few { columns ≤ most_columns }
        ensures each { (i : ℕ) → i < columns → IsInRun result.first result.end i
            ↔ (IsInRun run.first run.end i × IsUp self.now steps i) }
        ensures within { result.end ≤ run.end }
    {
        let number = self.number_below(steps);
        let Run { first, end } = run;
        let step = self.step;
        if step < 0 {
            return Run {
                first,
                end: end.min(columns_up_to(number, -step, columns)),
            };
        }
        if step > 0 {
            return Run {
                first: first.max(columns_up_to(-1 - number, step, columns)),
                end,
            };
        }
        if number < 0 {
            return Run { first: 0, end: 0 };
        }
        run
    }

    /// Its number at the leftmost centre of the row that lies so many steps lower.
    fn number_below(&self, steps: usize) -> i128
        requires short { IsShortIn (steps + 1) self.now }
        ensures { result ≡ (lowered steps self.now).first }
    {
        self.first + steps as i128 * self.down
    }
}

/// Which of so many numbers is the least, where each is a step more than the one before it.
fn least_of(step: i128, count: usize) -> usize
    requires some { 0 < count }
    ensures within { result < count }
    ensures least { (k : ℕ) → k < count → (pos result *ℤ step) ≤ℤ (pos k *ℤ step) }
{
    if step < 0 { count - 1 } else { 0 }
}
