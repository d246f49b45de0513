//! Runs of caps.

mod chords;

ghost use Rattle.std.specs.Prelude.{◌≡◌, ◌+◌, ◌<◌, IsTrue, length, pos};
ghost use Rattle.cam_shapes.specs.Cap.{IsSoundCap, is_in_cap, is_in_circle};
ghost use Rattle.cam_shapes.specs.Plane.{dot, seen_from, way};
ghost use Rattle.cam_rows.specs.Machinery.Chords.{AreWithin};
ghost use Rattle.cam_rows.specs.Runs.{AreRuns, AreWideRows};

use crate::cap::side;
use crate::centres::Centres;
use crate::chord::{Chord, FAR, NEAR, is_nearby, room_at};
use crate::circle::squared_distance;
use cam_shapes::Cap;
use chords::run_at;

/// The runs of a cap in wide rows, one below another from the top one: the columns in its circle and on its side of the
/// chord, with the ties of `cam_shapes::in_cap`. A run goes from its first column on and before its end; points are in
/// nanometres, the centres in half nanometres, up to 32,768 of them in a row.
#[tactic(auto, using(crate::proofs::WideRows::top_is_wide))]
pub fn cap_runs(cap: &Cap, top: &Centres, firsts: &mut [u32], ends: &mut [u32])
    requires cap { IsSoundCap cap.now }
    requires rows { AreWideRows top.now (length firsts.old) }
    requires ends { length ends.old ≡ length firsts.old }
    ensures { AreRuns firsts.new ends.new top.now (λ s. IsTrue (is_in_cap s cap.now)) }
{
    if firsts.is_empty() {
        return;
    }
    circle_runs(cap, top, firsts, ends);
    if cap.from == cap.to {
        return;
    }
    side(cap, top).narrow(top.n, firsts, ends);
}

/// The runs of a cap's circle.
fn circle_runs(cap: &Cap, top: &Centres, firsts: &mut [u32], ends: &mut [u32])
    requires cap { IsSoundCap cap.now }
    requires some { 0 < length firsts.old }
    requires rows { AreWideRows top.now (length firsts.old) }
    requires ends { length ends.old ≡ length firsts.old }
    ensures { AreRuns firsts.new ends.new top.now
        (λ s. IsTrue (is_in_circle (way cap.now.centre cap.now.from) (seen_from cap.now.centre s))) }
{
    let radius = squared_distance(&cap.centre, &cap.from);
    if is_nearby(&cap.centre, radius + 1, top, firsts.len()) {
        rows_of::<NEAR>(cap, radius, top, firsts, ends);
    } else {
        rows_of::<FAR>(cap, radius, top, firsts, ends);
    }
}

/// The runs of a cap's circle, by walks from each row to the next.
fn rows_of<const REACH: u64>(
    cap: &Cap,
    radius: u128,
    top: &Centres,
    firsts: &mut [u32],
    ends: &mut [u32],
)
    requires cap { IsSoundCap cap.now }
    requires radius { pos radius ≡ dot (way cap.now.centre cap.now.from) (way cap.now.centre cap.now.from) }
    requires some { 0 < length firsts.old }
    requires rows { AreWideRows top.now (length firsts.old) }
    requires within { AreWithin REACH cap.now.centre (radius + 1) top.now (length firsts.old) }
    requires ends { length ends.old ≡ length firsts.old }
    ensures { AreRuns firsts.new ends.new top.now
        (λ s. IsTrue (is_in_circle (way cap.now.centre cap.now.from) (seen_from cap.now.centre s))) }
{
    let mut chord = Chord::at_middle::<REACH>(&cap.centre, top);
    chord.leap::<REACH>(room_at::<REACH>(radius + 1, top.rise_below(0, &cap.centre)));
    // copies, which no write to a row can change
    let (middle, highest) = (cap.centre, *top);
    for k in 0..firsts.len() {
        let run = run_at::<REACH>(&mut chord, radius, highest.rise_below(k, &middle));
        firsts[k] = run.first;
        ends[k] = run.end;
    }
}
