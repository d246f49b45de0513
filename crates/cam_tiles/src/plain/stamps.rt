//! Macros, by the rows of their primitives.

ghost use Rattle.std.specs.Prelude.{All, map};
ghost use Rattle.cam_units.specs.Board.{IsOnBoard};
ghost use Rattle.cam_apertures.specs.Cover.{IsInShape, IsExposed};
ghost use Rattle.cam_apertures.specs.Primitives.{IsSoundPrim};
ghost use Rattle.cam_apertures.specs.Turned.{turned_prim, turned_shape};
ghost use Rattle.cam_objects.specs.Image.{relative};
ghost use Rattle.cam_tiles.specs.Machinery.Masks.{Joins, inked};

use crate::masks::join::Join;
use crate::masks::mask::Mask;
use crate::plain::shapes::RowShape;
use cam_apertures::{Primitives, turned_height, turned_width};
use cam_macros::{Prim, PrimShape};
use cam_shapes::{Bar, Disc, Rectangle};
use cam_units::{Point, Turn};

impl Mask {
    /// Joins the marks with what primitives paint, once they are turned: they are composed in a mask of their own, where
    /// a later one takes back what it clears.
    pub(crate) fn primitives(&mut self, prims: &Primitives, turn: Turn, at: Point, how: Join)
        requires prims { All IsSoundPrim prims.now }
        requires at { IsOnBoard at }
        ensures { Joins how (λ s. IsExposed (map (turned_prim turn) prims.now) (relative at s)) self.old self.new }
    {
        let mut own = Mask::blank(self.grid());
        for place in 0..prims.len() {
            let primitive = prims.at(place);
            own.primitive(primitive, turn, at);
        }
        self.merge(&own, how);
    }

    /// Adds what a primitive paints, or clears what it takes back.
    fn primitive(&mut self, primitive: &Prim, turn: Turn, at: Point)
        requires primitive { IsSoundPrim primitive.now }
        requires at { IsOnBoard at }
        ensures { Joins (inked primitive.now.paint)
            (λ s. IsInShape (turned_shape turn primitive.now.shape) (relative at s)) self.old self.new }
    {
        let how = Join::inked(primitive.paint);
        match &primitive.shape {
            PrimShape::Disc { centre, diameter } => {
                let disc = Disc {
                    centre: turn.apply(*centre),
                    diameter: *diameter,
                };
                self.join(&RowShape::Disc(disc), at, how);
            }
            PrimShape::Bar { from, to, width } => {
                let bar = Bar {
                    from: turn.apply(*from),
                    to: turn.apply(*to),
                    width: *width,
                };
                self.join(&RowShape::Bar(bar), at, how);
            }
            PrimShape::Rect {
                centre,
                width,
                height,
            } => {
                let rectangle = Rectangle {
                    centre: turn.apply(*centre),
                    width: turned_width(turn, *width, *height),
                    height: turned_height(turn, *width, *height),
                };
                self.join(&RowShape::Rectangle(rectangle), at, how);
            }
            PrimShape::Outline { points } => self.fill_outline(points.as_slice(), turn, at, how),
        }
    }
}
