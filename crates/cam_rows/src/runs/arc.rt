//! Runs of arcs.

ghost use Rattle.std.specs.Prelude.{◌≡◌, ◌↔◌, ◌<◌, IsTrue, if◌then◌else◌, length};
ghost use Rattle.cam_units.specs.Board.{IsOnBoard};
ghost use Rattle.cam_shapes.specs.Arc.{IsSoundArc};
ghost use Rattle.cam_rows.specs.ArcRuns.{IsBeyond, IsInHalf, IsOuter, IsRingOf, IsWideArc, in_turn};
ghost use Rattle.cam_rows.specs.Runs.{AreRuns, AreWideRows};

use super::circle::narrow_to_circle;
use super::narrowing::narrow_left;
use crate::centres::Centres;
use crate::ring::Ring;
use cam_shapes::{Arc, Vector};
use cam_units::Point;

/// The runs of an arc's outer circle in wide rows, one below another from the top one: the columns in it or on its edge,
/// and, where the sweep is at most a half turn, in the sweep; none where the width is 0. A run goes from its first
/// column on and before its end; points and the width are in nanometres, the centres in half nanometres, up to 32,768 of
/// them in a row.
///
/// The stroke is these columns without those of the inner circle and of [`beyond_runs`], and the discs about its ends.
#[tactic(auto, using(crate::proofs::WideRows::empty_runs))]
pub fn outer_runs(arc: &Arc, ring: &Ring, top: &Centres, firsts: &mut [u32], ends: &mut [u32])
    requires arc { IsSoundArc arc.now }
    requires ring { IsRingOf ring.now arc.now }
    requires rows { AreWideRows top.now (length firsts.old) }
    requires ends { length ends.old ≡ length firsts.old }
    ensures { AreRuns firsts.new ends.new top.now (λ s. IsOuter arc.now s) }
{
    if firsts.is_empty() {
        return;
    }
    if arc.width.0 == 0 {
        firsts.fill(0);
        ends.fill(0);
        return;
    }
    turn_runs(arc, top, firsts, ends);
    narrow_to_circle(&arc.centre, ring.outer, top, firsts, ends);
}

/// The runs in wide rows, one below another from the top one, of what an arc's sweep leaves out, where it is more than a
/// half turn: the columns that both half planes behind its ends hold, without their edges; else none. Units and runs are
/// those of [`outer_runs`].
pub fn beyond_runs(arc: &Arc, top: &Centres, firsts: &mut [u32], ends: &mut [u32])
    requires arc { IsSoundArc arc.now }
    requires rows { AreWideRows top.now (length firsts.old) }
    requires ends { length ends.old ≡ length firsts.old }
    ensures { AreRuns firsts.new ends.new top.now (λ s. IsBeyond arc.now s) }
{
    if firsts.is_empty() {
        return;
    }
    firsts.fill(0);
    if !is_wide_arc(arc) {
        ends.fill(0);
        return;
    }
    ends.fill(top.n);
    let (start, end) = counterclockwise(arc);
    narrow_left(&start, &arc.centre, -1, top, firsts, ends);
    narrow_left(&arc.centre, &end, -1, top, firsts, ends);
}

/// Whether an arc's sweep is more than a half turn: then it leaves out what [`beyond_runs`] finds, and else nothing.
pub fn is_wide_arc(arc: &Arc) -> bool
    requires { IsSoundArc arc.now }
    ensures { IsTrue result ↔ IsWideArc arc.now }
{
    let (start, end) = counterclockwise(arc);
    Vector::between(arc.centre, start).cross(Vector::between(arc.centre, end)) < 0
}

/// Where an arc starts and ends, as it is passed counterclockwise.
fn counterclockwise(arc: &Arc) -> (Point, Point)
    requires { IsSoundArc arc.now }
    ensures ends { result
        ≡ (if arc.now.ccw then (arc.now.from, arc.now.to) else (arc.now.to, arc.now.from)) }
    ensures start { IsOnBoard result.0 }
    ensures end { IsOnBoard result.1 }
{
    if arc.ccw {
        return (arc.from, arc.to);
    }
    (arc.to, arc.from)
}

/// The runs of an arc's sweep, where that is at most a half turn, and else of all columns; where it ends at its start, it is
/// a full turn.
fn turn_runs(arc: &Arc, top: &Centres, firsts: &mut [u32], ends: &mut [u32])
    requires arc { IsSoundArc arc.now }
    requires some { 0 < length firsts.old }
    requires rows { AreWideRows top.now (length firsts.old) }
    requires ends { length ends.old ≡ length firsts.old }
    ensures { AreRuns firsts.new ends.new top.now (λ s. in_turn IsInHalf arc.now s) }
{
    firsts.fill(0);
    ends.fill(top.n);
    let (start, end) = counterclockwise(arc);
    if start == end {
        return;
    }
    let to_start = Vector::between(arc.centre, start);
    let to_end = Vector::between(arc.centre, end);
    let turn = to_start.cross(to_end);
    if turn < 0 {
        return;
    }
    if turn == 0 && to_start.dot(to_end) >= 0 {
        ends.fill(0);
        return;
    }
    narrow_left(&arc.centre, &start, 0, top, firsts, ends);
    narrow_left(&end, &arc.centre, 0, top, firsts, ends);
}
