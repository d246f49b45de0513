//! Runs of boxes.

ghost use Rattle.std.specs.Prelude.{◌≡◌, ◌≤◌, ◌↔◌, ℕ, ◌≤ℤ◌, length};
ghost use Rattle.cam_units.specs.Boxes.{IsInBox};
ghost use Rattle.cam_shapes.specs.Swept.{IsSoundSwept, high_corner, low_corner};
ghost use Rattle.cam_rows.specs.Runs.{AreRuns, AreWideRows, IsInRun};

use super::Run;
use crate::centres::Centres;
use cam_shapes::{Swept, high_corner, low_corner};
use cam_units::Spot;

/// The runs of the box of a stroke's ends, widened by its sides, in wide rows, one below another from the top one: the same
/// run in each row that crosses it, by two divisions for all of them.
#[tactic(auto, using(crate::proofs::WideRows::no_run))]
pub(crate) fn box_runs(swept: &Swept, top: &Centres, firsts: &mut [u32], ends: &mut [u32])
    requires swept { IsSoundSwept swept.now }
    requires rows { AreWideRows top.now (length firsts.old) }
    requires ends { length ends.old ≡ length firsts.old }
    ensures { AreRuns firsts.new ends.new top.now (λ s. IsInBox (low_corner swept.now) (high_corner swept.now) s) }
{
    if firsts.is_empty() {
        return;
    }
    let low = low_corner(*swept);
    let high = high_corner(*swept);
    let all = top.columns_between(low.x, high.x);
    for k in 0..firsts.len() {
        let run = run_across(all, &low, &high, top.wide_below(k).y);
        firsts[k] = run.first;
        ends[k] = run.end;
    }
}

/// The run of the columns between the sides of a box, where the height of their row crosses it.
#[inline]
fn run_across(run: Run, low: &Spot, high: &Spot, height: i64) -> Run
    ensures each { (i : ℕ) → IsInRun result.first result.end i
        ↔ (IsInRun run.first run.end i × (low.now.y ≤ℤ height) × (height ≤ℤ high.now.y)) }
    ensures within { result.end ≤ run.end }
{
    if height < low.y {
        return Run { first: 0, end: 0 };
    }
    if high.y < height {
        return Run { first: 0, end: 0 };
    }
    run
}
