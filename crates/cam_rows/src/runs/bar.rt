//! Runs of bars.

ghost use Rattle.std.specs.Prelude.{◌≡◌, ◌↔◌, ◌^◌, ◌<◌, ◌≤◌, ℕ, ℤ, length};
ghost use Rattle.std.specs.Int.RustNames.{unsigned_abs};
ghost use Rattle.cam_units.specs.Board.{IsOnBoard, IsSize};
ghost use Rattle.cam_shapes.specs.Bar.{IsInBar, IsSoundBar};
ghost use Rattle.cam_shapes.specs.Plane.{dot, way};
ghost use Rattle.cam_rows.specs.Machinery.Beside.{IsFar, IsFarOrAhead, IsInside, IsWithinReach};
ghost use Rattle.cam_rows.specs.Machinery.Narrowing.{AreNarrowed};
ghost use Rattle.cam_rows.specs.Rows.{centre_at, first_centre, row_below};
ghost use Rattle.cam_rows.specs.Runs.{AreRuns, AreWideRows, IsInRun};

use super::beside_line::runs_beside;
use super::boxes::box_runs;
use crate::centres::Centres;
use crate::circle::squared_distance;
use crate::half_plane::HalfPlane;
use cam_shapes::{Bar, Swept, Vector};
use cam_units::{Nm, Point, isqrt};

/// The runs of a bar in wide rows, one below another from the top one: the columns in it or on its edge, none where its
/// width or its length is 0. A run goes from its first column on and before its end; the width and the ends of the bar
/// are in nanometres, the centres in half nanometres, up to 32,768 of them in a row.
///
/// A capsule is a bar with the discs about its ends.
#[tactic(auto, using(crate::proofs::WideRows::runs_like))]
pub fn bar_runs(bar: &Bar, top: &Centres, firsts: &mut [u32], ends: &mut [u32])
    requires bar { IsSoundBar bar.now }
    requires rows { AreWideRows top.now (length firsts.old) }
    requires ends { length ends.old ≡ length firsts.old }
    ensures { AreRuns firsts.new ends.new top.now (λ s. IsInBar s bar.now) }
{
    let Bar { from, to, width } = *bar;
    // along an axis it is a box
    if width.0 != 0 && from.y == to.y && from.x != to.x {
        let level = Swept {
            from,
            to,
            width: Nm(0),
            height: width,
        };
        box_runs(&level, top, firsts, ends);
    } else if width.0 != 0 && from.x == to.x && from.y != to.y {
        let upright = Swept {
            from,
            to,
            width,
            height: Nm(0),
        };
        box_runs(&upright, top, firsts, ends);
    } else {
        slanted_runs(bar, top, firsts, ends);
    }
}

/// The runs of a bar of any direction, by the strip along its line and the half planes ahead of its ends.
fn slanted_runs(bar: &Bar, top: &Centres, firsts: &mut [u32], ends: &mut [u32])
    requires bar { IsSoundBar bar.now }
    requires rows { AreWideRows top.now (length firsts.old) }
    requires ends { length ends.old ≡ length firsts.old }
    ensures { AreRuns firsts.new ends.new top.now (λ s. IsInBar s bar.now) }
{
    if firsts.is_empty() {
        return;
    }
    let Bar { from, to, width } = *bar;
    runs_beside(&from, &to, reach_of(bar), top, firsts, ends);
    narrow_ahead(&from, &to, width.0, top, firsts, ends);
    narrow_ahead(&to, &from, width.0, top, firsts, ends);
}

/// Narrows runs of wide rows, one below another from the top one, to the places ahead of a point or beside it, as one
/// looks from there to another one: but not in the rows that lie `width` or more above or below the point, on the side
/// of the other one, since there all that is at most `width` from the line through both is ahead.
#[tactic(auto, using(crate::proofs::WideRows::top_is_wide))]
fn narrow_ahead(
    from: &Point,
    to: &Point,
    width: i64,
    top: &Centres,
    firsts: &mut [u32],
    ends: &mut [u32],
)
    requires from { IsOnBoard from.now }
    requires to { IsOnBoard to.now }
    requires width { IsSize width }
    requires some { 0 < length firsts.old }
    requires rows { AreWideRows top.now (length firsts.old) }
    requires ends { length ends.old ≡ length firsts.old }
    ensures { AreNarrowed top.now.n firsts.old ends.old
        (λ k i. IsFarOrAhead from.now to.now width (centre_at (row_below top.now k) i)) (length firsts.old)
        firsts.new ends.new }
{
    let (first, end) = rows_not_far(from, to, width, top, firsts.len());
    if end <= first {
        return;
    }
    HalfPlane::ahead(from, Vector::between(*from, *to), 0, &top.wide_below(first)).narrow(
        top.n,
        &mut firsts[first..end],
        &mut ends[first..end],
    );
}

/// The first of some wide rows, one below another from the top one, whose height does not tell that what is near the
/// line from a point to another one is ahead of it, and the row behind the last of them.
fn rows_not_far(from: &Point, to: &Point, width: i64, top: &Centres, rows: usize) -> (usize, usize)
    requires from { IsOnBoard from.now }
    requires to { IsOnBoard to.now }
    requires width { IsSize width }
    requires some { 0 < rows }
    requires rows { AreWideRows top.now rows }
    ensures each { (k : ℕ) → k < rows
        → IsInRun result.0 result.1 k ↔ (IsFar from.now to.now width (first_centre (row_below top.now k)) → ⊥) }
    ensures within { result.1 ≤ rows }
{
    let start = 2 * from.y;
    if from.y < to.y {
        return (top.rows_above(start + width, rows), rows);
    }
    if from.y > to.y {
        return (0, top.rows_above(start - width + 1, rows));
    }
    (0, rows)
}

/// How far from 0 a cross product with a bar's way is at most, inside the bar: the whole root of the squares of the
/// width and the length. It is -1, so that nothing is inside, where one of them is 0.
fn reach_of(bar: &Bar) -> i128
    requires { IsSoundBar bar.now }
    ensures each { (z : ℤ) → IsWithinReach z result
        ↔ IsInside z bar.now.width.0 (dot (way bar.now.from bar.now.to) (way bar.now.from bar.now.to)) }
    ensures bound { unsigned_abs result < 2 ^ 64 }
{
    let width = bar.width.0 as u64;
    let squared_length = squared_distance(&bar.from, &bar.to);
    if width == 0 || squared_length == 0 {
        return -1;
    }
    i128::from(isqrt(u128::from(width * width) * squared_length))
}
