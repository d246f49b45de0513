//! Rows against point tests: bit i of a row is the point test at centre i, and bits behind the last centre are 0.
//! Figures are asked where the board ends, with pitches of 1 nm and of 100 mm, and in ties: at centres through which
//! their edges pass.

ghost use Rattle.std.specs.Prelude.{IfSome};
ghost use Rattle.cam_rows.specs.Rows.{IsRow};

mod across;
mod flashes;
mod lanes;
mod small;

use crate::places::At;
use crate::shapes::{FAR, Shape, holds, reach, within};
use crate::tables::each;
use across::{ACROSS, EDGES};
use cam_rows::{
    Centres, arc_row, bar_row, cap_row, capsule_row, disc_row, edge_row, hole_row, obround_row,
    rect_row, swept_row,
};
use cam_shapes::{Arc, Bar, Cap, Capsule, Disc, Obround, Rectangle, Swept};
use cam_units::{Nm, Point, Spot, fits_board, fits_size};
use flashes::{FLASH_EDGES, FLASHES};
use small::{CORNERS, MIDDLE};
use std::test::Fail;

/// Four shapes about the origin, in nm.
pub enum Figure {
    /// The sides of a rectangle and of an obround; a disc and a hole are as wide.
    Flash(i64, i64),
    /// The ends of a bar and of a capsule, and their width; an edge leads from one end to the other, and one back.
    Draw(At, At, i64),
    /// The ends of the stroke of a rectangle, both ways, and its sides, both ways.
    Stroke(At, At, i64, i64),
    /// The start, the end and the centre of an arc and of a cap, each both ways round; and the arcs' width.
    Turn(At, At, At, i64),
}

/// So many numbers from the first one, so far apart.
pub type Run = (i64, i64, u32);

/// The columns of the centres of rows, and their heights, in hn.
pub type Rows = (Run, Run);

/// Figures, and the rows of centres at which they are asked.
pub struct Sheet {
    pub figures: &'static [Figure],
    /// Where the figures are moved, in nm, and the rows, in hn.
    pub places: &'static [(At, At)],
    pub rows: &'static [Rows],
}

/// A millimetre in nm, or half of one in hn.
const MM: i64 = 1_000_000;

/// Rows with a pitch of 1 nm, about a place where an edge passes a centre.
const TIES: &[Rows] = &[((-63, 2, 64), (-9, 3, 7)), ((-62, 2, 63), (-9, 3, 7))];

/// The point of a figure that is moved. It lies past the board where the sum is too great.
fn moved((x, y): At, (right, up): At) -> Point {
    Point {
        x: x.saturating_add(right),
        y: y.saturating_add(up),
    }
}

/// The shapes of a flash.
fn flashed(width: i64, height: i64, at: At) -> [Shape; 4] {
    let centre = moved((0, 0), at);
    let disc = Disc {
        centre,
        diameter: Nm(width),
    };
    let (width, height) = (Nm(width), Nm(height));
    [
        Shape::Disc(disc),
        Shape::Hole(disc),
        Shape::Rectangle(Rectangle {
            centre,
            width,
            height,
        }),
        Shape::Obround(Obround {
            centre,
            width,
            height,
        }),
    ]
}

/// The shapes of a draw.
fn drawn(from: Point, to: Point, width: Nm) -> [Shape; 4] {
    [
        Shape::Bar(Bar { from, to, width }),
        Shape::Capsule(Capsule { from, to, width }),
        Shape::Edge(from, to),
        Shape::Edge(to, from),
    ]
}

/// The strokes of a rectangle.
fn swept(from: Point, to: Point, width: Nm, height: Nm) -> [Shape; 4] {
    let stroke = |from, to, width, height| {
        Shape::Swept(Swept {
            from,
            to,
            width,
            height,
        })
    };
    [
        stroke(from, to, width, height),
        stroke(to, from, width, height),
        stroke(from, to, height, width),
        stroke(to, from, height, width),
    ]
}

/// An arc.
fn arc(from: Point, to: Point, centre: Point, ccw: bool, width: i64) -> Shape {
    Shape::Arc(Arc {
        from,
        to,
        centre,
        ccw,
        width: Nm(width),
    })
}

/// A cap.
fn cap(from: Point, to: Point, centre: Point, ccw: bool) -> Shape {
    Shape::Cap(Cap {
        from,
        to,
        centre,
        ccw,
    })
}

/// The shapes of a figure that is moved.
fn shapes_of(figure: &Figure, at: At) -> [Shape; 4] {
    match *figure {
        Figure::Flash(width, height) => flashed(width, height, at),
        Figure::Draw(from, to, width) => drawn(moved(from, at), moved(to, at), Nm(width)),
        Figure::Stroke(from, to, width, height) => {
            swept(moved(from, at), moved(to, at), Nm(width), Nm(height))
        }
        Figure::Turn(from, to, centre, width) => {
            let (from, to, centre) = (moved(from, at), moved(to, at), moved(centre, at));
            [
                arc(from, to, centre, true, width),
                arc(from, to, centre, false, width),
                cap(from, to, centre, true),
                cap(from, to, centre, false),
            ]
        }
    }
}

/// The centres of a row that is moved, `level` rows above the lowest one.
fn centres_at(((x, step, n), (y, rise, _)): Rows, (right, up): At, level: u32) -> Centres {
    Centres {
        x: x.saturating_add(right),
        y: y.saturating_add(up)
            .saturating_add(rise.saturating_mul(i64::from(level))),
        step,
        n,
    }
}

/// The centres, where they can be asked for.
fn row(centres: Centres) -> Option<Centres>
    ensures { IfSome result IsRow }
{
    let Centres { x, y, step, n } = centres;
    if n < 1 || 64 < n || step < 1 || 8_000_000_000 < step {
        return None;
    }
    reach(x, y)?;
    reach(x + i64::from(n - 1) * step, y)?;
    Some(centres)
}

/// The bits of the row that the shape's call gives; `None` past the limits of the board.
fn marked(shape: &Shape, centres: Centres) -> Option<u64>
    requires { IsRow centres }
{
    match *shape {
        Shape::Arc(arc) => within!(arc_row(arc, centres), arc.from, arc.to, arc.centre; arc.width),
        Shape::Disc(disc) => within!(disc_row(disc, centres), disc.centre; disc.diameter),
        Shape::Hole(disc) => within!(hole_row(disc, centres), disc.centre; disc.diameter),
        Shape::Rectangle(it) => within!(rect_row(it, centres), it.centre; it.width, it.height),
        Shape::Obround(it) => within!(obround_row(it, centres), it.centre; it.width, it.height),
        Shape::Bar(bar) => within!(bar_row(bar, centres), bar.from, bar.to; bar.width),
        Shape::Capsule(it) => within!(capsule_row(it, centres), it.from, it.to; it.width),
        Shape::Swept(it) => { within!(swept_row(it, centres), it.from, it.to; it.width, it.height) }
        Shape::Cap(cap) => within!(cap_row(cap, centres), cap.from, cap.to, cap.centre;),
        Shape::Edge(from, to) => within!(edge_row(from, to, centres), from, to;),
    }
}

/// The bits that the point tests give; `None` past the limits of the board.
fn tested(shape: &Shape, centres: Centres) -> Option<u64>
    requires { IsRow centres }
{
    let mut bits = 0;
    for i in 0..centres.n {
        let x = centres.x + i64::from(i) * centres.step;
        if holds(shape, x, centres.y)? {
            bits |= 1u64 << i;
        }
    }
    Some(bits)
}

/// Whether the shape's call and the point tests give the same bits; `None` past the limits of the board.
fn agrees(shape: &Shape, centres: Centres) -> Option<bool> {
    let centres = row(centres)?;
    Some(marked(shape, centres)? == tested(shape, centres)?)
}

/// The first row of centres where they do not.
fn wrong_row(shape: &Shape, rows: &[Rows], at: At) -> Option<Centres> {
    for &(columns, heights) in rows {
        for level in 0..heights.2 {
            let centres = centres_at((columns, heights), at, level);
            if agrees(shape, centres) != Some(true) {
                return Some(centres);
            }
        }
    }
    None
}

/// The first shape of a sheet and the first row of centres where they do not.
fn first_wrong(sheet: &Sheet) -> Option<(Shape, Centres)> {
    for &(to, from) in sheet.places {
        for figure in sheet.figures {
            for shape in shapes_of(figure, to) {
                if let Some(centres) = wrong_row(&shape, sheet.rows, from) {
                    return Some((shape, centres));
                }
            }
        }
    }
    None
}

/// Whether the shapes of the sheet have the rows that the point tests give.
fn is_right(sheet: &&Sheet) -> bool {
    first_wrong(sheet).is_none()
}

#[test]
fn small_figures() -> Result<(), Fail> {
    each(&[&MIDDLE], is_right)
}

#[test]
fn small_figures_at_corners() -> Result<(), Fail> {
    each(&[&CORNERS], is_right)
}

#[test]
fn wide_flashes() -> Result<(), Fail> {
    each(&[&FLASHES, &FLASH_EDGES], is_right)
}

#[test]
fn figures_across_the_board() -> Result<(), Fail> {
    each(&[&ACROSS, &EDGES], is_right)
}
