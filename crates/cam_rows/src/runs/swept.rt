//! Runs of the strokes of rectangles.

ghost use Rattle.std.specs.Prelude.{◌≡◌, length};
ghost use Rattle.cam_shapes.specs.Swept.{IsInSwept, IsSoundSwept};
ghost use Rattle.cam_rows.specs.Runs.{AreRuns, AreWideRows};

use super::boxes::box_runs;
use super::narrowing::narrow_left;
use crate::centres::Centres;
use cam_shapes::{Swept, Vector, corner_reach};

/// The runs of the stroke of a rectangle along a straight line in wide rows, one below another from the top one: the
/// columns in it or on its edge, none where a side is 0. A run goes from its first column on and before its end; points
/// and sides are in nanometres, the centres in half nanometres, up to 32,768 of them in a row.
pub fn swept_runs(swept: &Swept, top: &Centres, firsts: &mut [u32], ends: &mut [u32])
    requires swept { IsSoundSwept swept.now }
    requires rows { AreWideRows top.now (length firsts.old) }
    requires ends { length ends.old ≡ length firsts.old }
    ensures { AreRuns firsts.new ends.new top.now (λ s. IsInSwept s swept.now) }
{
    let Swept {
        from,
        to,
        width,
        height,
    } = *swept;
    if firsts.is_empty() {
        return;
    }
    if width.0 == 0 || height.0 == 0 {
        firsts.fill(0);
        ends.fill(0);
        return;
    }
    box_runs(swept, top, firsts, ends);
    // along an axis, the stroke is the box
    if from.x == to.x || from.y == to.y {
        return;
    }
    let reach = i128::from(corner_reach(Vector::between(from, to), width, height));
    narrow_left(&from, &to, reach, top, firsts, ends);
    narrow_left(&to, &from, reach, top, firsts, ends);
}
