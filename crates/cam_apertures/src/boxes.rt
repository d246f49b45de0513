//! Boxes of shapes, and their turns.

ghost use Rattle.std.specs.Prelude.{◌≡◌, ◌^◌, ◌<◌, ◌↔◌, All, IsTrue};
ghost use Rattle.std.specs.Int.RustNames.{unsigned_abs};
ghost use Rattle.cam_units.specs.Board.{IsSize};
ghost use Rattle.cam_units.specs.Boxes.{Holds, IsInBox};
ghost use Rattle.cam_shapes.specs.Plane.{place_of};
ghost use Rattle.cam_macros.specs.declared.primitive.PrimShape.TheVariants.{Outline};
ghost use Rattle.cam_apertures.specs.Primitives.{IsMacroPoint, IsSoundPrim, IsSoundShape, box_about, box_of_point};
ghost use Rattle.cam_apertures.specs.Primitives.{box_of_prims, primitive_box};
ghost use Rattle.cam_apertures.specs.Machinery.Boxes.{IsSmallBox, reversed, spanned};
ghost use Rattle.cam_apertures.specs.Turned.{IsTurnableBox, turned_box};

use cam_macros::{Prim, PrimShape};
use cam_units::{Bounds, Nm, Point, Spot, Turn};

/// What a box covers along an axis.
#[derive(Clone, Copy)]
struct Span {
    low: i64,
    high: i64,
}

impl Span {
    /// The span on the other side of 0.
    fn reversed(self) -> Span
        requires low { unsigned_abs self.low < 2 ^ 63 }
        requires high { unsigned_abs self.high < 2 ^ 63 }
        ensures { result ≡ reversed self }
    {
        Span {
            low: -self.high,
            high: -self.low,
        }
    }
}

/// The box of two spans.
fn spanned(x: Span, y: Span) -> Bounds
    ensures { result ≡ spanned x y }
{
    Bounds::Closed {
        low: Spot { x: x.low, y: y.low },
        high: Spot {
            x: x.high,
            y: y.high,
        },
    }
}

/// The box, mirrored and turned about (0, 0); no coordinate is -2^63.
pub fn turned(bounds: Bounds, turn: Turn) -> Bounds
    requires { IsTurnableBox bounds }
    ensures { result ≡ turned_box turn bounds }
{
    let Bounds::Closed { low, high } = bounds else {
        return Bounds::Empty;
    };
    let across = Span {
        low: low.x,
        high: high.x,
    };
    let up = Span {
        low: low.y,
        high: high.y,
    };
    match turn {
        Turn::R0 => spanned(across, up),
        Turn::R90 => spanned(up.reversed(), across),
        Turn::R180 => spanned(across.reversed(), up.reversed()),
        Turn::R270 => spanned(up, across.reversed()),
        Turn::M0 => spanned(across.reversed(), up),
        Turn::M90 => spanned(up.reversed(), across.reversed()),
        Turn::M180 => spanned(across, up.reversed()),
        Turn::M270 => spanned(up, across),
    }
}

/// Whether the place lies between the corners or on an edge.
fn is_between(low: Spot, high: Spot, spot: Spot) -> bool
    ensures { IsTrue result ↔ IsInBox low high spot }
{
    if spot.x < low.x {
        return false;
    }
    if high.x < spot.x {
        return false;
    }
    if spot.y < low.y {
        return false;
    }
    spot.y <= high.y
}

/// Whether the place lies in the box or on its edge.
pub fn has_place(bounds: Bounds, spot: Spot) -> bool
    ensures { IsTrue result ↔ Holds bounds spot }
{
    match bounds {
        Bounds::Empty => false,
        Bounds::Closed { low, high } => is_between(low, high, spot),
    }
}

/// The box that reaches so many hn to both sides of a point.
pub(crate) fn box_about(point: Point, across: Nm, up: Nm) -> Bounds
    requires point { IsMacroPoint point }
    requires across { IsSize across.0 }
    requires up { IsSize up.0 }
    ensures value { result ≡ box_about (place_of point) across.0 up.0 }
    ensures small { IsSmallBox result }
{
    let x = 2 * point.x;
    let y = 2 * point.y;
    Bounds::Closed {
        low: Spot {
            x: x - across.0,
            y: y - up.0,
        },
        high: Spot {
            x: x + across.0,
            y: y + up.0,
        },
    }
}

/// The box of one point.
fn box_of_point(point: Point) -> Bounds
    requires { IsMacroPoint point }
    ensures value { result ≡ box_of_point point }
    ensures small { IsSmallBox result }
{
    let place = Spot {
        x: 2 * point.x,
        y: 2 * point.y,
    };
    Bounds::Closed {
        low: place,
        high: place,
    }
}

/// The least box of the points.
fn box_of_points(points: &[Point]) -> Bounds
    requires { All IsMacroPoint points.now }
    ensures value { result ≡ primitive_box (Outline points.now) }
    ensures small { IsSmallBox result }
{
    let mut bounds = Bounds::Empty;
    for point in points {
        bounds = bounds.joined(box_of_point(*point));
    }
    bounds
}

/// The box of the shape as it stands.
fn primitive_box(shape: &PrimShape) -> Bounds
    requires { IsSoundShape shape.now }
    ensures value { result ≡ primitive_box shape.now }
    ensures small { IsSmallBox result }
{
    match shape {
        PrimShape::Disc { centre, diameter } => box_about(*centre, *diameter, *diameter),
        PrimShape::Bar { from, to, width } => {
            box_about(*from, *width, *width).joined(box_about(*to, *width, *width))
        }
        PrimShape::Rect {
            centre,
            width,
            height,
        } => box_about(*centre, *width, *height),
        PrimShape::Outline { points } => box_of_points(points.as_slice()),
    }
}

/// The box of all primitives.
pub(crate) fn box_of_prims(prims: &[Prim]) -> Bounds
    requires { All IsSoundPrim prims.now }
    ensures value { result ≡ box_of_prims prims.now }
    ensures small { IsSmallBox result }
{
    let mut bounds = Bounds::Empty;
    for prim in prims {
        bounds = bounds.joined(primitive_box(&prim.shape));
    }
    bounds
}
