//! Strokes and flashes by their rows.

ghost use Rattle.cam_units.specs.Board.{IsOnBoard};
ghost use Rattle.cam_shapes.specs.Disc.{IsInHole, IsSoundDisc};
ghost use Rattle.cam_objects.specs.Image.{relative};
ghost use Rattle.cam_tiles.specs.Machinery.Figures.{IsInFigure, IsSoundPlaced};
ghost use Rattle.cam_tiles.specs.Machinery.Masks.{Joins};
ghost use Rattle.cam_tiles.specs.Machinery.Plain.{IsInShape, IsSoundShape};

use crate::masks::figures::{Placed, RunFigure};
use crate::masks::join::Join;
use crate::masks::mask::Mask;
use crate::plain::shapes::RowShape;
use cam_rows::Hole;
use cam_units::Point;

impl Mask {
    /// Joins the marks with those of a stroke or a flash.
    pub(crate) fn join_placed(&mut self, placed: &Placed, how: Join)
        requires { IsSoundPlaced placed.now }
        ensures { Joins how (λ s. IsInFigure placed.now.figure (relative placed.now.at s)) self.old self.new }
    {
        let at = placed.at;
        match placed.figure {
            RunFigure::Straight(capsule) => self.join(&RowShape::Capsule(capsule), at, how),
            RunFigure::Round(arc, _) => self.join(&RowShape::Arc(arc), at, how),
            RunFigure::Swept(swept) => self.join(&RowShape::Swept(swept), at, how),
            RunFigure::Disc(disc, hole) => self.join_pierced(&RowShape::Disc(disc), hole, at, how),
            RunFigure::Rectangle(rectangle, hole) => {
                self.join_pierced(&RowShape::Rectangle(rectangle), hole, at, how);
            }
            RunFigure::Obround(obround, hole) => {
                self.join_pierced(&RowShape::Obround(obround), hole, at, how);
            }
        }
    }

    /// Joins the marks with those of a shape without a hole.
    fn join_pierced(&mut self, shape: &RowShape, hole: Hole, at: Point, how: Join)
        requires sound { IsSoundShape shape.now }
        requires hole { IsSoundDisc hole.0 }
        requires at { IsOnBoard at }
        ensures { Joins how (λ s. IsInShape shape.now (relative at s) × (IsInHole (relative at s) hole.0 → ⊥))
            self.old self.new }
    {
        let mut own = Mask::blank(self.grid());
        own.join(shape, at, Join::Add);
        own.join(&RowShape::Hole(hole.0), at, Join::Clear);
        self.merge(&own, how);
    }
}
