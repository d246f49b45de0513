//! Worked places of the shapes. Points and sizes are in nm, places in half nanometres.

ghost use Rattle.std.specs.Prelude.{◌≡◌, IfSome};
ghost use Rattle.cam_units.specs.Board.{IsInReach};

mod strokes;

use crate::tables::{each, each_in};
use cam_shapes::{
    Arc, Bar, Cap, Capsule, Contour, Disc, Obround, Rectangle, Seg, Segments, Swept, fits_contour,
    in_arc, in_bar, in_cap, in_capsule, in_contour, in_disc, in_edge, in_hole, in_obround, in_rect,
    in_swept,
};
use cam_units::{Nm, Point, Spot, Turn, fits_board, fits_size};
use std::alloc::{AllocError, Global};
use std::test::Fail;
use strokes::STROKES;

/// The greatest coordinate of a point of the board, and the greatest size.
pub(crate) const FAR: i64 = 999_999_999;

const WIDE: Nm = Nm(200_000_000);

const ORIGIN: Point = Point { x: 0, y: 0 };

/// Corners of the board.
const CORNER: Point = Point { x: FAR, y: -FAR };

const LOWEST: Point = Point { x: -FAR, y: -FAR };

const HIGHEST: Point = Point { x: FAR, y: FAR };

/// A place in hn, and whether the shape holds it.
type Wanted = (i64, i64, bool);

/// A contour, and what turns and moves it.
struct Placed {
    start: Point,
    segs: &'static [Seg],
    turn: Turn,
    offset: Point,
}

/// The upper half of the disc of 2 mm, its arc first.
const HALF_DISC: &[Seg] = &[Seg::Curve {
    to: Point {
        x: -1_000_000,
        y: 0,
    },
    centre: ORIGIN,
    ccw: true,
}];

/// A square of 1 mm from the origin.
const SQUARE: &[Seg] = &[
    Seg::Line {
        to: Point { x: 1_000_000, y: 0 },
    },
    Seg::Line {
        to: Point {
            x: 1_000_000,
            y: 1_000_000,
        },
    },
    Seg::Line {
        to: Point { x: 0, y: 1_000_000 },
    },
];

/// Contours.
const CONTOURS: &[(Placed, &[Wanted])] = &[
    (
        Placed {
            start: Point { x: 1_000_000, y: 0 },
            segs: HALF_DISC,
            turn: Turn::R0,
            offset: ORIGIN,
        },
        &[
            (-1_200_000, 1_600_000, true),
            (0, 0, true),
            (-2_000_000, 0, true),
            (1_200_000, 1_600_000, false),
            (2_000_000, 0, false),
        ],
    ),
    // a mirror about the y axis keeps the upper half
    (
        Placed {
            start: Point { x: 1_000_000, y: 0 },
            segs: HALF_DISC,
            turn: Turn::M0,
            offset: Point { x: 5_000_000, y: 0 },
        },
        &[
            (10_000_000, 1_000_000, true),
            (10_000_000, -1_000_000, false),
        ],
    ),
    (
        Placed {
            start: ORIGIN,
            segs: SQUARE,
            turn: Turn::R0,
            offset: ORIGIN,
        },
        &[
            (0, 0, true),
            (2_000_000, 0, false),
            (2_000_000, 2_000_000, false),
            (0, 2_000_000, false),
        ],
    ),
];

/// A shape but for contours.
#[derive(Clone, Copy, Debug)]
pub(crate) enum Shape {
    Arc(Arc),
    Disc(Disc),
    Hole(Disc),
    Rectangle(Rectangle),
    Obround(Obround),
    Bar(Bar),
    Capsule(Capsule),
    Swept(Swept),
    Cap(Cap),
    /// An edge between two points, which counts where it crosses strictly right of the place.
    Edge(Point, Point),
}

/// Strokes along arcs, and shapes at a corner of the board and across it. The places (1, 0) and (1, -1) are 0.71 and
/// 1.41 hn off the board's diagonal.
const SHAPES: &[(Shape, &[Wanted])] = &[
    // a quarter of a circle of 1 mm: its outer edge holds places of 3, 4, 5 triangles
    (
        Shape::Arc(Arc {
            from: Point { x: 1_000_000, y: 0 },
            to: Point { x: 0, y: 1_000_000 },
            centre: ORIGIN,
            ccw: true,
            width: Nm(200_000),
        }),
        &[
            (1_080_000, 1_440_000, true),
            (1_800_000, 0, true),
            (1_080_000, 1_439_998, false),
            (-1_400_000, 1_400_000, false),
            (0, 2_200_002, false),
        ],
    ),
    // its end a nanometre off the circle
    (
        Shape::Arc(Arc {
            from: Point { x: 1_000_000, y: 0 },
            to: Point { x: 0, y: 1_000_001 },
            centre: ORIGIN,
            ccw: true,
            width: Nm(200_000),
        }),
        &[(1_080_000, 1_440_000, true), (0, 2_200_002, true)],
    ),
    // the whole circle
    (
        Shape::Arc(Arc {
            from: Point { x: 1_000_000, y: 0 },
            to: Point { x: 1_000_000, y: 0 },
            centre: ORIGIN,
            ccw: true,
            width: Nm(200_000),
        }),
        &[(-1_080_000, -1_440_000, true), (0, 0, false)],
    ),
    // a pen wider than the arc
    (
        Shape::Arc(Arc {
            from: Point { x: 100_000, y: 0 },
            to: Point { x: 0, y: 100_000 },
            centre: ORIGIN,
            ccw: true,
            width: Nm(1_000_000),
        }),
        &[(-600_000, -600_000, true), (-620_000, -600_000, false)],
    ),
    // across the board
    (
        Shape::Arc(Arc {
            from: CORNER,
            to: Point { x: -FAR, y: FAR },
            centre: LOWEST,
            ccw: true,
            width: WIDE,
        }),
        &[(2 * FAR, -2 * FAR, true), (0, 0, false)],
    ),
    (
        Shape::Disc(Disc {
            centre: CORNER,
            diameter: Nm(1),
        }),
        &[
            (2 * FAR + 1, -2 * FAR, true),
            (2 * FAR + 2, -2 * FAR, false),
        ],
    ),
    (
        Shape::Hole(Disc {
            centre: CORNER,
            diameter: Nm(1),
        }),
        &[(2 * FAR, -2 * FAR, true), (2 * FAR + 1, -2 * FAR, false)],
    ),
    (
        Shape::Disc(Disc {
            centre: CORNER,
            diameter: WIDE,
        }),
        &[(2 * FAR + 2, -2 * FAR, true), (-2 * FAR, 2 * FAR, false)],
    ),
    (
        Shape::Rectangle(Rectangle {
            centre: CORNER,
            width: Nm(1),
            height: WIDE,
        }),
        &[
            (2 * FAR + 1, -2 * FAR, true),
            (2 * FAR + 2, -2 * FAR, false),
        ],
    ),
    (
        Shape::Obround(Obround {
            centre: CORNER,
            width: Nm(1),
            height: WIDE,
        }),
        &[
            (2 * FAR + 1, -2 * FAR, true),
            (2 * FAR + 2, -2 * FAR, false),
        ],
    ),
    (
        Shape::Bar(Bar {
            from: LOWEST,
            to: HIGHEST,
            width: Nm(1),
        }),
        &[(0, 0, true), (1, 0, true), (1, -1, false)],
    ),
    (
        Shape::Bar(Bar {
            from: LOWEST,
            to: HIGHEST,
            width: WIDE,
        }),
        &[(1, -1, true), (2 * FAR + 1, 2 * FAR + 1, false)],
    ),
    (
        Shape::Capsule(Capsule {
            from: LOWEST,
            to: HIGHEST,
            width: Nm(1),
        }),
        &[(0, 0, true), (1, 0, true), (1, -1, false)],
    ),
    (
        Shape::Capsule(Capsule {
            from: LOWEST,
            to: HIGHEST,
            width: WIDE,
        }),
        &[(2 * FAR + 1, 2 * FAR + 1, true)],
    ),
    (
        Shape::Cap(Cap {
            from: CORNER,
            to: Point { x: -FAR, y: FAR },
            centre: LOWEST,
            ccw: true,
        }),
        &[(2, 2, true), (-2, -2, false), (2 * FAR, 2 * FAR, false)],
    ),
    (
        Shape::Edge(CORNER, Point { x: -FAR, y: FAR }),
        &[(-1, 0, true), (0, 0, false)],
    ),
];

/// The test's answer where the points and the sizes are within the limits of the board, else `None`.
macro_rules! within {
    ($test:expr, $($point:expr),+; $($size:expr),*) => {{
        $(if !fits_board($point) {
            return None;
        })+
        $(if !fits_size($size) {
            return None;
        })*
        Some($test)
    }};
}

pub(crate) use within;

/// The place, where it can be tested.
pub(crate) fn reach(x: i64, y: i64) -> Option<Spot>
    ensures reach { IfSome result IsInReach }
    ensures same { IfSome result (λ s. (s.x ≡ x) × (s.y ≡ y)) }
{
    if x.unsigned_abs() >= 4_000_000_000 {
        return None;
    }
    if y.unsigned_abs() >= 4_000_000_000 {
        return None;
    }
    Some(Spot { x, y })
}

/// Whether the shape holds the place; `None` past the limits of the board.
fn holds_spot(shape: &Shape, spot: Spot) -> Option<bool>
    requires { IsInReach spot }
{
    match *shape {
        Shape::Arc(arc) => within!(in_arc(spot, arc), arc.from, arc.to, arc.centre; arc.width),
        Shape::Disc(disc) => within!(in_disc(spot, disc), disc.centre; disc.diameter),
        Shape::Hole(disc) => within!(in_hole(spot, disc), disc.centre; disc.diameter),
        Shape::Rectangle(it) => within!(in_rect(spot, it), it.centre; it.width, it.height),
        Shape::Obround(it) => within!(in_obround(spot, it), it.centre; it.width, it.height),
        Shape::Bar(bar) => within!(in_bar(spot, bar), bar.from, bar.to; bar.width),
        Shape::Capsule(it) => within!(in_capsule(spot, it), it.from, it.to; it.width),
        Shape::Swept(it) => within!(in_swept(spot, it), it.from, it.to; it.width, it.height),
        Shape::Cap(cap) => within!(in_cap(spot, cap), cap.from, cap.to, cap.centre;),
        Shape::Edge(from, to) => within!(in_edge(spot, from, to), from, to;),
    }
}

/// The same of a place that may be out of reach.
pub(crate) fn holds(shape: &Shape, x: i64, y: i64) -> Option<bool> {
    holds_spot(shape, reach(x, y)?)
}

/// Whether the contour holds the place as it is placed; `None` past the limits of the board.
fn encloses(contour: &Contour, placed: &Placed, x: i64, y: i64) -> Option<bool> {
    let spot = reach(x, y)?;
    if !fits_contour(contour, placed.turn, placed.offset) {
        return None;
    }
    Some(in_contour(spot, contour, placed.turn, placed.offset))
}

/// A copy of the row's contour.
fn contour_of(alloc: Global, placed: &Placed) -> Result<Contour, AllocError> {
    let segs = Segments::from_vec(placed.segs.to_vec(alloc)?);
    let contour = Contour {
        start: placed.start,
        segs,
    };
    contour.clone()
}

/// Whether the shape holds the places that are wanted, and no other of these.
fn holds_places((shape, places): &(Shape, &[Wanted])) -> bool {
    places
        .iter()
        .all(|&(x, y, wanted)| holds(shape, x, y) == Some(wanted))
}

/// The same of the stroke of a rectangle.
fn sweeps((stroke, places): &(Swept, &[Wanted])) -> bool {
    holds_places(&(Shape::Swept(*stroke), *places))
}

/// The same of a contour.
fn encloses_places(
    alloc: Global,
    (placed, places): &(Placed, &[Wanted]),
) -> Result<bool, AllocError> {
    let contour = contour_of(alloc, placed)?;
    Ok(places.iter().all(|&(x, y, wanted)| encloses(&contour, placed, x, y) == Some(wanted)))
}

#[test]
fn shapes(rt: HostRuntime) -> Result<(), Fail> {
    each(SHAPES, holds_places)?;
    each(STROKES, sweeps)?;
    each_in(rt.alloc(), CONTOURS, encloses_places)
}
