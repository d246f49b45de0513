//! Runs of wide rows, one below another, cut where falling numbers cross 0.

ghost use Rattle.std.specs.Prelude.{◌≡◌, ◌+◌, ◌^◌, ◌<◌, ◌≤◌, None, length};
ghost use Rattle.cam_rows.specs.Machinery.Narrowing.{AreCounted, AreEndsCut, AreFirstsCut, IsUp};
ghost use Rattle.cam_rows.specs.Machinery.Slopes.{AreSteps, IsCrossing, falling};
ghost use Rattle.cam_rows.specs.Runs.{end_in};

use super::{Crossing, Steps};

/// Cuts the ends of runs to the columns at which the numbers are not negative: those of a steep line mostly to one number
/// of columns.
pub(crate) fn cut_ends(top: Crossing, steps: &Steps, ends: &mut [u32])
    requires steps { AreSteps steps.now }
    requires top { IsCrossing steps.now (2 ^ 61 + 1) top }
    requires rows { length ends.old ≤ 2 ^ 20 }
    ensures { AreEndsCut (IsUp (falling top steps.now)) ends.old ends.new }
{
    if ends.is_empty() {
        return;
    }
    if top.stays(steps, ends.len()) {
        let columns = top.columns_before(u32::MAX);
        for row in 0..ends.len() {
            ends[row] = ends[row].min(columns);
        }
        return;
    }
    let mut crossing = top;
    for k in 0..ends.len() {
        ends[k] = crossing.columns_before(ends[k]);
        crossing = crossing.below(steps);
    }
}

/// Cuts the first columns of runs to those at which the numbers are negative.
pub(crate) fn cut_firsts(top: Crossing, steps: &Steps, columns: u32, firsts: &mut [u32])
    requires steps { AreSteps steps.now }
    requires top { IsCrossing steps.now (2 ^ 61 + 1) top }
    requires rows { length firsts.old ≤ 2 ^ 20 }
    ensures { AreFirstsCut columns (IsUp (falling top steps.now)) firsts.old firsts.new }
{
    let mut crossing = top;
    for k in 0..firsts.len() {
        firsts[k] = firsts[k].max(crossing.columns_before(columns));
        crossing = crossing.below(steps);
    }
}

/// Counts the columns at which the numbers of each row are not negative. Where they are as many in all rows, as left of a
/// steep line, it answers how many, and nothing is written.
pub(crate) fn count_ends(
    top: Crossing,
    steps: &Steps,
    columns: u32,
    ends: &mut [u32],
) -> Option<u32>
    requires steps { AreSteps steps.now }
    requires top { IsCrossing steps.now (2 ^ 61 + 1) top }
    requires some { 0 < length ends.old }
    requires rows { length ends.old ≤ 2 ^ 20 }
    ensures { AreCounted columns (IsUp (falling top steps.now)) (length ends.old) (end_in result ends.new) }
{
    if top.stays(steps, ends.len()) {
        return Some(top.columns_before(columns));
    }
    let mut crossing = top;
    for k in 0..ends.len() {
        ends[k] = crossing.columns_before(columns);
        crossing = crossing.below(steps);
    }
    None
}

/// Counts them from two top rows with the same steps, and writes both for each row.
pub(crate) fn count_both(
    low: Crossing,
    high: Crossing,
    steps: &Steps,
    columns: u32,
    firsts: &mut [u32],
    ends: &mut [u32],
)
    requires steps { AreSteps steps.now }
    requires low { IsCrossing steps.now (2 ^ 61 + 1) low }
    requires high { IsCrossing steps.now (2 ^ 61 + 1) high }
    requires some { 0 < length firsts.old }
    requires rows { length firsts.old ≤ 2 ^ 20 }
    requires ends { length ends.old ≡ length firsts.old }
    ensures firsts { AreCounted columns (IsUp (falling low steps.now)) (length firsts.old) (end_in None firsts.new) }
    ensures ends { AreCounted columns (IsUp (falling high steps.now)) (length firsts.old) (end_in None ends.new) }
{
    if low.stays(steps, firsts.len()) && high.stays(steps, firsts.len()) {
        firsts.fill(low.columns_before(columns));
        ends.fill(high.columns_before(columns));
        return;
    }
    let mut first = low;
    let mut end = high;
    for k in 0..firsts.len() {
        firsts[k] = first.columns_before(columns);
        ends[k] = end.columns_before(columns);
        first = first.below(steps);
        end = end.below(steps);
    }
}
