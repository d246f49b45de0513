//! Macros in the rows of tiles side by side: each primitive is gone through once for all of them.

ghost use Rattle.std.specs.Prelude.{◌≡◌, ◌<◌, ◌≤◌, ◌+◌, ◌*◌, ◌/◌, All, length};
ghost use Rattle.cam_units.specs.Board.{IsOnBoard, IsPlace};
ghost use Rattle.cam_units.specs.declared.point.Spot.{Spot};
ghost use Rattle.cam_units.specs.Boxes.{Holds};
ghost use Rattle.cam_shapes.specs.Contour.{IsInContour};
ghost use Rattle.cam_shapes.specs.Outline.{outline_of};
ghost use Rattle.cam_shapes.specs.Placing.{placed_contour};
ghost use Rattle.cam_apertures.specs.Cover.{IsInShape};
ghost use Rattle.cam_apertures.specs.declared.aperture.Aperture.TheVariants.{Prims};
ghost use Rattle.cam_apertures.specs.Primitives.{IsMacroPoint, IsSoundOutline, IsSoundPrim, box_of_point};
ghost use Rattle.cam_apertures.specs.Turned.{turned_shape};
ghost use Rattle.cam_objects.specs.Image.{relative};
ghost use Rattle.cam_objects.specs.Leaves.{Stamp, origin};
ghost use Rattle.cam_rows.specs.Runs.{most_columns};
ghost use Rattle.cam_tiles.specs.Machinery.Masks.{inked};
ghost use Rattle.cam_tiles.specs.Machinery.Runs.{IsWideGrid};
ghost use Rattle.cam_tiles.specs.Machinery.Turning.{AreWide};
ghost use Rattle.cam_tiles.specs.Machinery.Words.{AreReached, JoinsCentres, part_seen};
ghost use Rattle.cam_tiles.specs.Tiles.{IsGrid, centre_in};

use crate::grid::Grid;
use crate::lattice::Lattice;
use crate::masks::field::Field;
use crate::masks::heights::{HasHeights, Heights};
use crate::masks::join::Join;
use crate::masks::marked::MarkShape;
use crate::masks::marks::spread_marks;
use crate::masks::placed::turn_outline;
use crate::masks::runs::Runs;
use crate::masks::words::{join_wide, join_words};
use crate::span::Span;
use cam_apertures::{Primitives, turned_height, turned_width};
use cam_macros::{Prim, PrimShape};
use cam_shapes::{Bar, Disc, Rectangle};
use cam_units::{Bounds, Point, Spot, Turn};

impl Grid {
    /// The grid from a tile of the row on, as it is seen from a point.
    fn part_seen(&self, tile: u32, at: Point) -> Grid
        requires grid { IsGrid self.now }
        requires tile { 64 * tile < most_columns }
        requires there { IsPlace (centre_in self.now (64 * tile) 0) }
        requires at { IsOnBoard at }
        ensures { result ≡ part_seen self.now tile at }
    {
        Grid {
            x: self.x + i64::from(64 * tile) * self.step - 2 * at.x,
            y: self.y - 2 * at.y,
            step: self.step,
            cols: self.cols,
            rows: self.rows,
        }
    }
}

/// The primitives of a macro, mirrored and turned about the flash point, which comes to lie at a point.
#[derive(Clone, Copy)]
pub(crate) struct PlacedMacro<'a> {
    pub(crate) prims: &'a Primitives,
    pub(crate) turn: Turn,
    pub(crate) at: Point,
}

impl<'a> MarkShape for PlacedMacro<'a> {
    ghost is_sound = { λ m. All IsSoundPrim m.prims.now × IsOnBoard m.at };

    ghost shape = { λ m. Stamp (Prims m.prims.now) m.turn m.at };

    fn mark(&self, marks: &mut [u64], spare: &mut [u64], grid: &Grid, columns: u32) {
        let words = 64 * columns.div_ceil(64) as usize;
        let marks = &mut marks[..words];
        marks.fill(0);
        for place in 0..self.prims.len() {
            let primitive = self.prims.at(place);
            self.join_primitive(primitive, marks, spare, grid, columns);
        }
    }
}

impl<'a> PlacedMacro<'a> {
    /// Adds what a primitive of it paints, or clears what it takes back.
    fn join_primitive(
        &self,
        primitive: &Prim,
        marks: &mut [u64],
        spare: &mut [u64],
        grid: &Grid,
        columns: u32,
    )
        requires at { IsOnBoard self.now.at }
        requires primitive { IsSoundPrim primitive.now }
        requires grid { IsWideGrid grid.now columns }
        requires wide { AreWide columns marks.old }
        requires spare { 64 * ((columns + 63) / 64) ≤ length spare.old }
        ensures { JoinsCentres grid.now columns (inked primitive.now.paint)
            (λ s. IsInShape (turned_shape self.now.turn primitive.now.shape) (relative self.now.at s))
            marks.old marks.new }
    {
        let PlacedMacro { turn, at, .. } = *self;
        let how = Join::inked(primitive.paint);
        match &primitive.shape {
            PrimShape::Disc { centre, diameter } => {
                let disc = Disc {
                    centre: turn.apply(*centre),
                    diameter: *diameter,
                };
                join_shape(marks, grid, columns, &disc, at, how);
            }
            PrimShape::Bar { from, to, width } => {
                let bar = Bar {
                    from: turn.apply(*from),
                    to: turn.apply(*to),
                    width: *width,
                };
                join_shape(marks, grid, columns, &bar, at, how);
            }
            PrimShape::Rect {
                centre,
                width,
                height,
            } => {
                let rectangle = Rectangle {
                    centre: turn.apply(*centre),
                    width: turned_width(turn, *width, *height),
                    height: turned_height(turn, *width, *height),
                };
                join_shape(marks, grid, columns, &rectangle, at, how);
            }
            PrimShape::Outline { points } => {
                let points = points.as_slice();
                let outline = PlacedOutline { points, turn, at };
                outline.join(marks, spare, grid, columns, how);
            }
        }
    }
}

/// Joins the columns with those of a shape, which stands at a point as it does about (0, 0), by its runs.
fn join_shape<S: HasHeights>(
    marks: &mut [u64],
    grid: &Grid,
    columns: u32,
    shape: &S,
    at: Point,
    how: Join,
)
    requires grid { IsWideGrid grid.now columns }
    requires wide { AreWide columns marks.old }
    requires sound { S.is_sound shape.now }
    requires at { IsOnBoard at }
    ensures { JoinsCentres grid.now columns how (λ s. S.holds shape.now (relative at s)) marks.old marks.new }
{
    let mut runs = Runs::none();
    runs.find(shape, at, grid, columns);
    join_wide(marks, columns, &runs, how);
}

/// The polygon through points, mirrored and turned about the flash point, which comes to lie at a point.
#[derive(Clone, Copy)]
struct PlacedOutline<'a> {
    points: &'a [Point],
    turn: Turn,
    at: Point,
}

impl<'a> PlacedOutline<'a> {
    /// Joins the columns with its inside, in the tiles alone that its box reaches.
    fn join(&self, marks: &mut [u64], spare: &mut [u64], grid: &Grid, columns: u32, how: Join)
        requires points { IsSoundOutline self.now.points.now }
        requires at { IsOnBoard self.now.at }
        requires grid { IsWideGrid grid.now columns }
        requires wide { AreWide columns marks.old }
        requires spare { 64 * ((columns + 63) / 64) ≤ length spare.old }
        ensures { JoinsCentres grid.now columns how (λ s. IsInContour (relative self.now.at s)
            (placed_contour self.now.turn origin.offset (outline_of self.now.points.now))) marks.old marks.new }
    {
        let PlacedOutline { points, turn, at } = *self;
        let bounds = turned_bounds(points, turn);
        let tiles = reached_tiles(grid, columns, bounds, at);
        if tiles.end <= tiles.first {
            return;
        }
        let first = 64 * tiles.first;
        let end = 64 * tiles.end;
        let marks = &mut marks[first as usize..end as usize];
        let spare = &mut spare[..(end - first) as usize];
        let part = grid.part_seen(tiles.first, at);
        let field = Field::new(part, columns.min(end) - first);
        spare.fill(0);
        turn_outline(spare, &field, points, turn);
        spread_marks(spare);
        join_words(marks, spare, how);
    }
}

/// The box of an outline that is turned about (0, 0).
fn turned_bounds(points: &[Point], turn: Turn) -> Bounds
    requires points { IsSoundOutline points.now }
    ensures { (s : Spot) → IsInContour s (placed_contour turn origin.offset (outline_of points.now))
        → Holds result s }
{
    let mut bounds = Bounds::Empty;
    for point in points {
        bounds = bounds.joined(point_bounds(turn.apply(*point)));
    }
    bounds
}

/// The box of a point.
fn point_bounds(point: Point) -> Bounds
    requires { IsMacroPoint point }
    ensures { result ≡ box_of_point point }
{
    let place = Spot {
        x: 2 * point.x,
        y: 2 * point.y,
    };
    Bounds::Closed {
        low: place,
        high: place,
    }
}

/// The tiles of a row of tiles whose centres a box may hold, as they are seen from a point; none where it holds none in
/// any of the rows.
fn reached_tiles(grid: &Grid, columns: u32, bounds: Bounds, at: Point) -> Span
    requires grid { IsWideGrid grid.now columns }
    requires at { IsOnBoard at }
    ensures { AreReached grid.now columns bounds at result }
{
    let Bounds::Closed { low, high } = bounds else {
        return Span::NONE;
    };
    let heights = Heights {
        low: low.y,
        high: high.y,
    };
    let rows = grid.band(heights, at);
    if rows.end <= rows.first {
        return Span::NONE;
    }
    let across = Lattice {
        first: grid.x - 2 * at.x,
        step: grid.step,
        count: columns,
    };
    across.between(low.x, high.x).tiles()
}
