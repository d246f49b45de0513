//! The copies of a repeat that a canvas may show, found by a division each.

ghost use Rattle.std.specs.Prelude.{◌↔◌, ℕ, ◌*◌, ◌<◌, ◌≤◌, ℤ, pos, ◌+ℤ◌, ◌*ℤ◌, ◌≤ℤ◌, IsTrue};
ghost use Rattle.std.specs.Int.RustNames.{unsigned_abs};
ghost use Rattle.cam_refusals.specs.Limits.{board_limit};
ghost use Rattle.cam_objects.specs.Bounds.{moved};
ghost use Rattle.cam_objects.specs.Machinery.Runs.{IsInRun, IsWithinCount, MeetsAcross, MeetsUpright};

use crate::placing::copies::Copies;
use cam_units::Bounds;

/// Copies one behind another, by their numbers: from a first one up to an end.
#[derive(Clone, Copy)]
pub(crate) struct Run {
    pub first: u32,
    pub end: u32,
}

/// How many of so many copies, each so far ahead of the one before, lie at most so far ahead of the first.
fn reached(count: u32, stride: u64, way: i64) -> u32
    ensures within { result ≤ count }
    ensures each { (k : ℕ) → k < count → (k < result ↔ (pos (k * stride) ≤ℤ way)) }
{
    if way < 0 {
        return 0;
    }
    if stride == 0 {
        return count;
    }
    let last = way.unsigned_abs() / stride;
    if last < u64::from(count) {
        last as u32 + 1
    } else {
        count
    }
}

impl Run {
    /// Of so many copies, each so far ahead of the one before, those from `least` to `most` ahead of the first.
    fn between(count: u32, stride: u64, least: i64, most: i64) -> Run
        ensures within { IsWithinCount count result }
        ensures each { (k : ℕ) → k < count
            → (IsInRun result k ↔ ((least ≤ℤ pos (k * stride)) × (pos (k * stride) ≤ℤ most))) }
    {
        Run {
            first: reached(count, stride, least.saturating_sub(1)),
            end: reached(count, stride, most),
        }
    }

    /// Of so many copies of what reaches from `low` to `high`, those that meet what reaches from `left` to `right`, in
    /// half nm; each is moved by a step, in nm, from the one before.
    fn over(count: u32, step: i64, low: i64, high: i64, left: i64, right: i64) -> Run
        requires { unsigned_abs step < board_limit }
        ensures within { IsWithinCount count result }
        ensures each { (k : ℕ) → k < count → (IsInRun result k ↔
            (((low +ℤ pos 2 *ℤ (pos k *ℤ step)) ≤ℤ right) × (left ≤ℤ (high +ℤ pos 2 *ℤ (pos k *ℤ step))))) }
    {
        let stride = 2 * step.unsigned_abs();
        if step < 0 {
            return Run::between(
                count,
                stride,
                low.saturating_sub(right),
                high.saturating_sub(left),
            );
        }
        Run::between(
            count,
            stride,
            left.saturating_sub(high),
            right.saturating_sub(low),
        )
    }
}

impl Copies {
    /// The columns whose copies reach over the box across, where the first copy has the box `first`.
    pub(crate) fn columns_over(&self, first: Bounds, canvas: Bounds) -> Run
        requires { unsigned_abs self.now.i < board_limit }
        ensures within { IsWithinCount self.now.columns result }
        ensures each { (c : ℕ) (dy : ℤ) → c < self.now.columns → (IsInRun result c ↔
            MeetsAcross (moved (record { x = pos c *ℤ self.now.i; y = dy }) first) canvas) }
    {
        match (first, canvas) {
            (
                Bounds::Closed { low, high },
                Bounds::Closed {
                    low: left,
                    high: right,
                },
            ) => Run::over(self.columns, self.i, low.x, high.x, left.x, right.x),
            _ => Run { first: 0, end: 0 },
        }
    }

    /// The rows whose copies reach over the box upright, where the first copy has the box `first`.
    pub(crate) fn rows_over(&self, first: Bounds, canvas: Bounds) -> Run
        requires { unsigned_abs self.now.j < board_limit }
        ensures within { IsWithinCount self.now.rows result }
        ensures each { (r : ℕ) (dx : ℤ) → r < self.now.rows → (IsInRun result r ↔
            MeetsUpright (moved (record { x = dx; y = pos r *ℤ self.now.j }) first) canvas) }
    {
        match (first, canvas) {
            (
                Bounds::Closed { low, high },
                Bounds::Closed {
                    low: below,
                    high: above,
                },
            ) => Run::over(self.rows, self.j, low.y, high.y, below.y, above.y),
            _ => Run { first: 0, end: 0 },
        }
    }
}
