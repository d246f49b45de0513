//! Shapes by their rows.

ghost use Rattle.cam_units.specs.Board.{IsOnBoard};
ghost use Rattle.cam_objects.specs.Image.{relative};
ghost use Rattle.cam_rows.specs.Rows.{IsRow, Marks};
ghost use Rattle.cam_tiles.specs.Machinery.Masks.{AreMarksOf, Joins, Turns};
ghost use Rattle.cam_tiles.specs.Machinery.Plain.{IsInShape, IsSoundShape};
ghost use Rattle.cam_tiles.specs.Tiles.{IsGrid};

use crate::grid::Grid;
use crate::masks::join::Join;
use crate::masks::mask::Mask;
use cam_rows::{
    Centres, arc_row, bar_row, cap_row, capsule_row, disc_row, edge_row, hole_row, obround_row,
    rect_row, swept_row,
};
use cam_shapes::{Arc, Bar, Cap, Capsule, Disc, Obround, Rectangle, Swept};
use cam_units::Point;

/// A shape whose rows are known, or an edge or a cap of a contour, which holds the places that it counts for.
#[derive(Clone, Copy)]
pub(crate) enum RowShape {
    Disc(Disc),
    Hole(Disc),
    Rectangle(Rectangle),
    Obround(Obround),
    Bar(Bar),
    Capsule(Capsule),
    Arc(Arc),
    Swept(Swept),
    Edge { from: Point, to: Point },
    Cap(Cap),
}

impl RowShape {
    /// The bits of a row: bit i for centre i.
    fn row(&self, centres: Centres) -> u64
        requires sound { IsSoundShape self.now }
        requires row { IsRow centres }
        ensures { Marks result centres (IsInShape self.now) }
    {
        match *self {
            RowShape::Disc(disc) => disc_row(disc, centres),
            RowShape::Hole(disc) => hole_row(disc, centres),
            RowShape::Rectangle(rectangle) => rect_row(rectangle, centres),
            RowShape::Obround(obround) => obround_row(obround, centres),
            RowShape::Bar(bar) => bar_row(bar, centres),
            RowShape::Capsule(capsule) => capsule_row(capsule, centres),
            RowShape::Arc(arc) => arc_row(arc, centres),
            RowShape::Swept(swept) => swept_row(swept, centres),
            RowShape::Edge { from, to } => edge_row(from, to, centres),
            RowShape::Cap(cap) => cap_row(cap, centres),
        }
    }
}

impl Mask {
    /// The marks of a shape, which stands at a point as it does about (0, 0): row by row.
    fn of_shape(grid: Grid, shape: &RowShape, at: Point) -> Mask
        requires grid { IsGrid grid }
        requires sound { IsSoundShape shape.now }
        requires at { IsOnBoard at }
        ensures { AreMarksOf grid (λ s. IsInShape shape.now (relative at s)) result }
    {
        let mut mask = Mask::blank(grid);
        for row in 0..grid.rows {
            mask.rows[row as usize] = shape.row(grid.row_from(row, at));
        }
        mask
    }

    /// Joins the marks with those of a shape, which stands at a point as it does about (0, 0).
    pub(crate) fn join(&mut self, shape: &RowShape, at: Point, how: Join)
        requires sound { IsSoundShape shape.now }
        requires at { IsOnBoard at }
        ensures { Joins how (λ s. IsInShape shape.now (relative at s)) self.old self.new }
    {
        let marks = Mask::of_shape(self.grid(), shape, at);
        self.merge(&marks, how);
    }

    /// Turns over the marks of a shape, which stands at a point as it does about (0, 0).
    pub(crate) fn turn(&mut self, shape: &RowShape, at: Point)
        requires sound { IsSoundShape shape.now }
        requires at { IsOnBoard at }
        ensures { Turns (λ s. IsInShape shape.now (relative at s)) self.old self.new }
    {
        let marks = Mask::of_shape(self.grid(), shape, at);
        self.turn_by(&marks);
    }
}
