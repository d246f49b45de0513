//! Runs of wide rows, narrowed to circles.

ghost use Rattle.std.specs.Prelude.{◌≡◌, ◌^◌, ◌<◌, length};
ghost use Rattle.cam_units.specs.Board.{IsOnBoard};
ghost use Rattle.cam_rows.specs.Machinery.Chords.{AreOffsetsFrom, AreOnSides, AreWithin, IsChord};
ghost use Rattle.cam_rows.specs.Machinery.Narrowing.{AreNarrowed, IsNearer};
ghost use Rattle.cam_rows.specs.Rows.{centre_at, row_below};
ghost use Rattle.cam_rows.specs.Runs.{AreWideRows};

use super::Run;
use crate::centres::Centres;
use crate::chord::{Chord, FAR, NEAR, is_nearby, room_at};
use cam_units::Point;

/// Narrows the runs of wide rows, one below another from the top one, to the columns whose squared distance from a
/// point is less than a bound.
pub(crate) fn narrow_to_circle(
    point: &Point,
    bound: u128,
    top: &Centres,
    firsts: &mut [u32],
    ends: &mut [u32],
)
    requires point { IsOnBoard point.now }
    requires bound { bound < 2 ^ 68 }
    requires rows { AreWideRows top.now (length firsts.old) }
    requires ends { length ends.old ≡ length firsts.old }
    ensures { AreNarrowed top.now.n firsts.old ends.old
        (λ k i. IsNearer point.now bound (centre_at (row_below top.now k) i)) (length firsts.old) firsts.new ends.new }
{
    if firsts.is_empty() {
        return;
    }
    if is_nearby(point, bound, top, firsts.len()) {
        narrow_sides::<NEAR>(point, bound, top, firsts, ends);
    } else {
        narrow_sides::<FAR>(point, bound, top, firsts, ends);
    }
}

/// Narrows the runs of rows to a circle, by walks from each row to the next: on the sides of its middle that have columns.
fn narrow_sides<const REACH: u64>(
    point: &Point,
    bound: u128,
    top: &Centres,
    firsts: &mut [u32],
    ends: &mut [u32],
)
    requires point { IsOnBoard point.now }
    requires some { 0 < length firsts.old }
    requires rows { AreWideRows top.now (length firsts.old) }
    requires within { AreWithin REACH point.now bound top.now (length firsts.old) }
    requires ends { length ends.old ≡ length firsts.old }
    ensures { AreNarrowed top.now.n firsts.old ends.old
        (λ k i. IsNearer point.now bound (centre_at (row_below top.now k) i)) (length firsts.old) firsts.new ends.new }
{
    let mut chord = Chord::at_middle::<REACH>(point, top);
    chord.leap::<REACH>(room_at::<REACH>(bound, top.rise_below(0, point)));
    if chord.left.columns == 0 {
        narrow_rows::<REACH, false, true>(point, bound, top, chord, firsts, ends);
    } else if chord.right.columns == 0 {
        narrow_rows::<REACH, true, false>(point, bound, top, chord, firsts, ends);
    } else {
        narrow_rows::<REACH, true, true>(point, bound, top, chord, firsts, ends);
    }
}

/// Narrows the runs of rows to a circle from a chord of the top row on, whose columns are on these sides of its middle
/// alone.
fn narrow_rows<const REACH: u64, const LEFT: bool, const RIGHT: bool>(
    point: &Point,
    bound: u128,
    top: &Centres,
    chord: Chord,
    firsts: &mut [u32],
    ends: &mut [u32],
)
    requires point { IsOnBoard point.now }
    requires some { 0 < length firsts.old }
    requires rows { AreWideRows top.now (length firsts.old) }
    requires within { AreWithin REACH point.now bound top.now (length firsts.old) }
    requires chord { IsChord REACH chord }
    requires offsets { AreOffsetsFrom top.now point.now chord.offsets }
    requires sides { AreOnSides LEFT RIGHT chord }
    requires ends { length ends.old ≡ length firsts.old }
    ensures { AreNarrowed top.now.n firsts.old ends.old
        (λ k i. IsNearer point.now bound (centre_at (row_below top.now k) i)) (length firsts.old) firsts.new ends.new }
{
    let mut chord = chord;
    // a copy, which no write to a row can change
    let step = top.step;
    let mut height = top.rise_below(0, point);
    for k in 0..firsts.len() {
        let room = room_at::<REACH>(bound, height);
        let run = Run {
            first: firsts[k],
            end: ends[k],
        };
        let part = chord.part::<REACH, LEFT, RIGHT>(room, run);
        firsts[k] = part.first;
        ends[k] = part.end;
        // what lies below the last row may not fit
        height = height.wrapping_sub(step);
    }
}
