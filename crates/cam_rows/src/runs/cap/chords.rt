//! Chords of a cap's circle: an end of a row's chord is inside where it is left of the middle, or is the circle's lowest
//! place.

ghost use Rattle.std.specs.Prelude.{◌≡◌, ◌↔◌, ◌+◌, ◌-◌, ◌*◌, ◌<◌, ◌≤◌, ℕ, IsTrue, ℤ, pos, ◌≤ℤ◌, ◌<ℤ◌};
ghost use Rattle.std.specs.Int.RustNames.{unsigned_abs};
ghost use Rattle.cam_shapes.specs.declared.vector.Vector.{Vector};
ghost use Rattle.cam_shapes.specs.Cap.{is_in_circle};
ghost use Rattle.cam_shapes.specs.Plane.{dot, square};
ghost use Rattle.cam_rows.specs.Machinery.Chords.{IsChord, column_offset};
ghost use Rattle.cam_rows.specs.Machinery.Ties.{is_inside_chord};
ghost use Rattle.cam_rows.specs.Runs.{IsInRun};

use crate::chord::{Chord, room_at};
use crate::runs::Run;

/// The run of the row so high over the middle of a circle, by a walk from the row before it.
#[inline]
#[tactic(auto, using(crate::proofs::WideRows::in_no_run, crate::proofs::Circling::square_of, crate::proofs::CapTies::over_circle))]
pub(super) fn run_at<const REACH: u64>(chord: &mut Chord, radius: u128, height: i64) -> Run
    requires chord { IsChord REACH chord.old }
    requires height { unsigned_abs height < REACH }
    requires radius { radius + 1 < REACH * REACH }
    ensures chord { IsChord REACH chord.new }
    ensures same { chord.new.offsets ≡ chord.old.offsets }
    ensures each { (u v : Vector) (i : ℕ) → pos radius ≡ dot u u → v.y ≡ height → v.x ≡ column_offset chord.old i
        → i < chord.old.offsets.count → IsInRun result.first result.end i ↔ IsTrue (is_in_circle u v) }
    ensures within { result.end ≤ chord.old.offsets.count }
{
    let to_left = room_at::<REACH>(radius + 1, height);
    if to_left == 0 {
        return Run { first: 0, end: 0 };
    }
    chord.walk::<REACH, true, true>(to_left, right_room(to_left, height < 0))
}

/// What the squares of the places inside a chord are less than, from its middle to the right, where those to the left are
/// less than `to_left`: its end is not inside, but for the middle of the circle's lowest row.
#[inline]
fn right_room(to_left: u128, is_below: bool) -> u128
    requires { 0 < to_left }
    ensures fits { result ≤ to_left }
    ensures each { (x : ℤ) → pos 0 ≤ℤ x
        → IsTrue (is_inside_chord x (to_left - 1) is_below) ↔ (square x <ℤ pos result) }
{
    if to_left == 1 && is_below {
        return 1;
    }
    to_left - 1
}
