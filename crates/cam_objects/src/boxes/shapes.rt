//! Boxes of single leaves, in half nm.

ghost use Rattle.std.specs.Prelude.{◌≡◌, ◌≤◌, ◌<◌, ◌-ℤ◌, ◌*ℤ◌, All, pos};
ghost use Rattle.std.specs.Int.RustNames.{unsigned_abs};
ghost use Rattle.cam_refusals.specs.Limits.{board_limit};
ghost use Rattle.cam_units.specs.Board.{IsOnBoard, IsSize};
ghost use Rattle.cam_units.specs.Boxes.{join_of};
ghost use Rattle.cam_shapes.specs.Arc.{IsSoundArc};
ghost use Rattle.cam_shapes.specs.Bar.{IsSoundCapsule};
ghost use Rattle.cam_shapes.specs.Disc.{IsSoundDisc};
ghost use Rattle.cam_shapes.specs.Plane.{dot, place_of, way};
ghost use Rattle.cam_apertures.specs.Primitives.{box_of_point};
ghost use Rattle.cam_objects.specs.Bounds.{box_of_contour, box_of_shape, circle_square, widened};
ghost use Rattle.cam_objects.specs.Leaves.{Drilled, Stroke, Sweep, drawn};
ghost use Rattle.cam_objects.specs.Machinery.Boxes.{IsBoxReach, IsNearBox, IsSizedTip, widened_by};
ghost use Rattle.cam_objects.specs.Machinery.Tracing.{followed};
ghost use Rattle.cam_objects.specs.Soundness.{points_of_contour, points_of_seg};

use crate::tip::Tip;
use cam_shapes::{Arc, Capsule, Contour, Disc, Seg};
use cam_units::{Bounds, Nm, Point, Spot, isqrt};

/// The place of a point.
pub(super) fn place(point: &Point) -> Spot
    requires { IsOnBoard point.now }
    ensures { result ≡ place_of point.now }
{
    Spot {
        x: 2 * point.x,
        y: 2 * point.y,
    }
}

/// The box of a point.
pub(crate) fn point_bounds(point: &Point) -> Bounds
    requires { IsOnBoard point.now }
    ensures { result ≡ box_of_point point.now }
{
    let place = place(point);
    Bounds::Closed {
        low: place,
        high: place,
    }
}

/// The box, widened so far to the left and to the right, and so far down and up.
pub(crate) fn widened(bounds: &Bounds, across: &Nm, up: &Nm) -> Bounds
    requires bounds { IsNearBox bounds.now }
    requires across { IsBoxReach across.now }
    requires up { IsBoxReach up.now }
    ensures sides { result ≡ widened_by across.now.0 up.now.0 bounds.now }
    ensures even { across.now.0 ≡ up.now.0 → result ≡ widened across.now.0 bounds.now }
{
    match bounds {
        Bounds::Empty => Bounds::Empty,
        Bounds::Closed { low, high } => Bounds::Closed {
            low: Spot {
                x: low.x - across.0,
                y: low.y - up.0,
            },
            high: Spot {
                x: high.x + across.0,
                y: high.y + up.0,
            },
        },
    }
}

/// Twice the distance of two numbers.
fn distance(from: i64, to: i64) -> u128
    requires from { unsigned_abs from < board_limit }
    requires to { unsigned_abs to < board_limit }
    ensures value { result ≡ unsigned_abs (pos 2 *ℤ to -ℤ pos 2 *ℤ from) }
    ensures short { result ≤ 4000000000 }
{
    u128::from((2 * (to - from)).unsigned_abs())
}

/// The square of the way from one point to another, in half nm.
pub fn squared_length(from: &Point, to: &Point) -> u128
    requires from { IsOnBoard from.now }
    requires to { IsOnBoard to.now }
    ensures value { result ≡ unsigned_abs (dot (way from.now to.now) (way from.now to.now)) }
    ensures short { result ≤ 32000000000000000000 }
{
    let x = distance(from.x, to.x);
    let y = distance(from.y, to.y);
    x * x + y * y
}

/// The square about the centre that holds the circle through a point.
fn circle_square(centre: &Point, from: &Point) -> Bounds
    requires centre { IsOnBoard centre.now }
    requires from { IsOnBoard from.now }
    ensures { result ≡ circle_square centre.now from.now }
{
    let radius = isqrt(squared_length(centre, from));
    let half = Nm(radius as i64 + 1);
    widened(&point_bounds(centre), &half, &half)
}

/// The box of both ends of a stroke.
fn ends(from: &Point, to: &Point) -> Bounds
    requires from { IsOnBoard from.now }
    requires to { IsOnBoard to.now }
    ensures { result ≡ join_of (box_of_point from.now) (box_of_point to.now) }
{
    Bounds::Closed {
        low: Spot {
            x: 2 * from.x.min(to.x),
            y: 2 * from.y.min(to.y),
        },
        high: Spot {
            x: 2 * from.x.max(to.x),
            y: 2 * from.y.max(to.y),
        },
    }
}

/// The box of a stroke of a round tool along a line.
#[inline]
pub(crate) fn stroke_bounds(stroke: &Capsule) -> Bounds
    requires { IsSoundCapsule stroke.now }
    ensures { result ≡ box_of_shape (Stroke stroke.now) }
{
    widened(
        &ends(&stroke.from, &stroke.to),
        &stroke.width,
        &stroke.width,
    )
}

/// The box of a straight stroke of a tip: of a rectangle those at both ends.
#[inline]
pub(crate) fn drawn_bounds(from: &Point, to: &Point, tip: &Tip) -> Bounds
    requires from { IsOnBoard from.now }
    requires to { IsOnBoard to.now }
    requires tip { IsSizedTip tip.now }
    ensures { result ≡ box_of_shape (drawn tip.now from.now to.now) }
{
    match *tip {
        Tip::Round(width) => stroke_bounds(&Capsule {
            from: *from,
            to: *to,
            width,
        }),
        Tip::Rectangular { width, height } => {
            let first = widened(&point_bounds(from), &width, &height);
            let last = widened(&point_bounds(to), &width, &height);
            first.joined(last)
        }
    }
}

/// The box of a stroke along an arc: both its ends, and the circle that it is a part of.
#[inline(never)]
pub(crate) fn sweep_bounds(stroke: &Arc) -> Bounds
    requires { IsSoundArc stroke.now }
    ensures { result ≡ box_of_shape (Sweep stroke.now) }
{
    let circle = circle_square(&stroke.centre, &stroke.from);
    widened(
        &circle.joined(ends(&stroke.from, &stroke.to)),
        &stroke.width,
        &stroke.width,
    )
}

/// The box of a drilled disc.
pub(crate) fn hole_bounds(hole: &Disc) -> Bounds
    requires { IsSoundDisc hole.now }
    ensures { result ≡ box_of_shape (Drilled hole.now) }
{
    widened(&point_bounds(&hole.centre), &hole.diameter, &hole.diameter)
}

/// What is known of a contour behind some of its segments: where it stands, the box of its points,
/// and that of the circles that its arcs are parts of.
#[derive(Clone, Copy)]
struct Trace {
    here: Point,
    points: Bounds,
    arcs: Bounds,
}

impl Trace {
    /// Behind one segment more.
    fn followed(&self, seg: &Seg) -> Trace
        requires here { IsOnBoard self.now.here }
        requires seg { All IsOnBoard (points_of_seg seg.now) }
        ensures { result ≡ followed self.now seg.now }
    {
        match seg {
            Seg::Line { to } => Trace {
                here: *to,
                points: self.points.joined(point_bounds(to)),
                arcs: self.arcs,
            },
            Seg::Curve { to, centre, .. } => Trace {
                here: *to,
                points: self.points.joined(point_bounds(to)),
                arcs: self.arcs.joined(circle_square(centre, &self.here)),
            },
        }
    }
}

/// The box of a contour: its points, and the circles that its arcs are parts of.
#[inline(never)]
pub(crate) fn contour_bounds(contour: &Contour) -> Bounds
    requires { All IsOnBoard (points_of_contour contour.now) }
    ensures { result ≡ box_of_contour contour.now }
{
    let mut trace = Trace {
        here: contour.start,
        points: point_bounds(&contour.start),
        arcs: Bounds::Empty,
    };
    for seg in contour.segs.as_slice() {
        trace = trace.followed(seg);
    }
    trace.points.joined(trace.arcs)
}
