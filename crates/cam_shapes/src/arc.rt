//! Arc strokes.

ghost use Rattle.std.specs.Prelude.{pos, ◌≤ℤ◌, ◌↔◌, IsTrue};
ghost use Rattle.cam_units.specs.Board.{IsInReach, IsSize};
ghost use Rattle.cam_shapes.specs.Plane.{IsShort, cross, dot};
ghost use Rattle.cam_shapes.specs.Arc.{IsInArc, IsInSweep, IsNarrow, IsNearCircle, IsSoundArc, IsSwept};

use crate::products::{has_square_within, squared_product};
use crate::size::{is_positive, squared};
use crate::vector::Vector;
use cam_units::{Nm, Point, Spot};

/// The stroke of a round tool along an arc from one point to another about a centre,
/// counterclockwise where `ccw` says so, else clockwise, its width in nanometres. An arc that
/// ends where it starts is a full circle.
#[derive(Clone, Copy, Debug, PartialEq, Eq)]
pub struct Arc {
    pub from: Point,
    pub to: Point,
    pub centre: Point,
    pub ccw: bool,
    pub width: Nm,
}

/// Whether the place is in the stroke or on its edge.
pub fn in_arc(spot: Spot, arc: Arc) -> bool
    requires spot { IsInReach spot }
    requires arc { IsSoundArc arc }
    ensures { IsTrue result ↔ IsInArc spot arc }
{
    let Arc {
        from,
        to,
        centre,
        ccw,
        width,
    } = arc;
    let start = Vector::between(centre, from);
    let end = Vector::between(centre, to);
    let seen = Vector::seen_from(centre, spot);
    is_positive(width)
        && (Vector::seen_from(from, spot).is_within(width)
            || Vector::seen_from(to, spot).is_within(width)
            || is_swept(ccw, start, end, seen) && is_near_circle(start, seen, width))
}

/// Whether an arc passes the direction of a place; all three are seen from the centre.
fn is_swept(ccw: bool, start: Vector, end: Vector, seen: Vector) -> bool
    requires start { IsShort start }
    requires end { IsShort end }
    requires seen { IsShort seen }
    ensures { IsTrue result ↔ IsSwept ccw start end seen }
{
    if ccw {
        is_in_sweep(start, end, seen)
    } else {
        is_in_sweep(end, start, seen)
    }
}

/// Whether the sweep counterclockwise from the start to the end holds a place.
#[tactic(auto, using(crate::proofs::Circles::narrow_not_wide))]
fn is_in_sweep(start: Vector, end: Vector, seen: Vector) -> bool
    requires start { IsShort start }
    requires end { IsShort end }
    requires seen { IsShort seen }
    ensures { IsTrue result ↔ IsInSweep start end seen }
{
    if start == end {
        return true;
    }
    let after_start = is_left_or_along(start, seen);
    let before_end = is_left_or_along(seen, end);
    if is_narrow(start, end) {
        return after_start && before_end;
    }
    start.cross(end) < 0 && (after_start || before_end)
}

/// Whether `second` points left of `first`, or along its line.
fn is_left_or_along(first: Vector, second: Vector) -> bool
    requires first { IsShort first }
    requires second { IsShort second }
    ensures { IsTrue result ↔ pos 0 ≤ℤ cross first second }
{
    first.cross(second) >= 0
}

/// Whether the sweep counterclockwise from the start to the end is at most a half turn.
fn is_narrow(start: Vector, end: Vector) -> bool
    requires start { IsShort start }
    requires end { IsShort end }
    ensures { IsTrue result ↔ IsNarrow start end }
{
    let turn = start.cross(end);
    turn > 0 || turn == 0 && start.dot(end) < 0
}

/// Whether a place is at most `radius` from the circle about the centre through the start.
fn is_near_circle(start: Vector, seen: Vector, radius: Nm) -> bool
    requires start { IsShort start }
    requires seen { IsShort seen }
    requires radius { IsSize radius.0 }
    ensures { IsTrue result ↔ IsNearCircle (dot seen seen) (dot start start) radius.0 }
{
    let place = seen.dot(seen);
    let circle = start.dot(start);
    let squared_radius = squared(radius);
    // together they are at most the square of the radius, or the place lies between the circles that are `radius` inside
    // and outside the one through the start, where the inner one does not pass the centre
    place + circle <= squared_radius
        || has_square_within(
            place - circle - squared_radius,
            4 * squared_product(radius, start),
        )
}
