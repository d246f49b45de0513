//! Runs of what lies near a line.

ghost use Rattle.std.specs.Prelude.{◌≡◌, ◌^◌, ◌<◌, ◌≤◌, IfSome, length, pos, ◌≤ℤ◌, ◌<ℤ◌};
ghost use Rattle.std.specs.Int.RustNames.{unsigned_abs};
ghost use Rattle.cam_units.specs.Board.{IsOnBoard};
ghost use Rattle.cam_shapes.specs.Plane.{cross, seen_from, way};
ghost use Rattle.cam_rows.specs.Machinery.Beside.{IsWithinReach};
ghost use Rattle.cam_rows.specs.Machinery.HalfPlanes.{IsShortPlane, IsStripIn};
ghost use Rattle.cam_rows.specs.Runs.{AreRuns, AreWideRows};

use super::narrowing::{MOST_ROWS, narrow_left};
use crate::centres::Centres;
use crate::half_plane::HalfPlane;
use crate::slope::{Crossing, Steps, count_both};
use cam_units::Point;

/// The runs of the places near the line through two points, in wide rows, one below another from the top one: those at
/// which the cross product with the way is at most `reach` from 0.
pub(super) fn runs_beside(
    from: &Point,
    to: &Point,
    reach: i128,
    top: &Centres,
    firsts: &mut [u32],
    ends: &mut [u32],
)
    requires from { IsOnBoard from.now }
    requires to { IsOnBoard to.now }
    requires reach { unsigned_abs reach < 2 ^ 64 }
    requires some { 0 < length firsts.old }
    requires rows { AreWideRows top.now (length firsts.old) }
    requires ends { length ends.old ≡ length firsts.old }
    ensures { AreRuns firsts.new ends.new top.now
        (λ s. IsWithinReach (cross (way from.now to.now) (seen_from from.now s)) reach) }
{
    match HalfPlane::left(from, to, 0, top).strip(reach, firsts.len()) {
        Some((low, high, steps)) => count_both(low, high, &steps, top.n, firsts, ends),
        // one side of it may not fit 64 bits
        None => {
            firsts.fill(0);
            ends.fill(top.n);
            narrow_left(from, to, reach, top, firsts, ends);
            narrow_left(to, from, reach, top, firsts, ends);
        }
    }
}

impl HalfPlane {
    /// Where its numbers are at most `reach` from 0 in the top row, and how that moves from each row to the next: from
    /// the columns before one crossing to those before another. None where they are level, or may not fit 64 bits.
    #[tactic(auto, using(crate::proofs::HalfPlanes::low_fits, crate::proofs::HalfPlanes::high_fits))]
    fn strip(&self, reach: i128, rows: usize) -> Option<(Crossing, Crossing, Steps)>
        requires plane { IsShortPlane self.now }
        requires reach { unsigned_abs reach < 2 ^ 64 }
        ensures { IfSome result (λ r. IsStripIn rows r.0 r.1 r.2 reach self.now) }
    {
        if rows > MOST_ROWS {
            return None;
        }
        let falling = self.falling();
        let steps = Steps::of(falling.down, -falling.step)?;
        let middle = falling.first + self.excess();
        let low = steps.crossing(middle - reach - 1)?;
        let high = steps.crossing(middle + reach)?;
        Some((low, high, steps))
    }

    /// How much more its falling numbers are than what is taken for them: the opposites of numbers that rise are 1 more
    /// than what they lack.
    fn excess(&self) -> i128
        ensures falls { self.now.step <ℤ pos 0 → result ≡ pos 0 }
        ensures rises { pos 0 ≤ℤ self.now.step → result ≡ pos 1 }
        ensures few { unsigned_abs result ≤ 1 }
    {
        if self.step < 0 { 0 } else { 1 }
    }
}
