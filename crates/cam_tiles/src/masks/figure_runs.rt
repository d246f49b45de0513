//! The runs of a figure in the rows of tiles side by side.

ghost use Rattle.std.specs.Prelude.{◌↔◌, ◌⊎◌, ◌<◌, ℕ, IsTrue};
ghost use Rattle.cam_shapes.specs.Arc.{IsInArc, IsSoundArc};
ghost use Rattle.cam_shapes.specs.Bar.{IsInCapsule, IsSoundCapsule};
ghost use Rattle.cam_shapes.specs.Disc.{IsInHole, IsSoundDisc};
ghost use Rattle.cam_units.specs.Board.{IsOnBoard};
ghost use Rattle.cam_objects.specs.Image.{relative};
ghost use Rattle.cam_rows.specs.Runs.{IsInRun};
ghost use Rattle.cam_tiles.specs.Machinery.Runs.{HasColumn, IsClear, IsWideGrid};
ghost use Rattle.cam_tiles.specs.Machinery.Figures.{
  HasBody,
  IsInFigure,
  IsSoundPlaced,
  LiesWithin,
  TellsFigure,
};

use crate::grid::Grid;
use crate::masks::figures::{Placed, RunFigure};
use crate::masks::heights::{HasHeights, Heights};
use crate::masks::runs::Runs;
use crate::span::Span;
use cam_rows::{Hole, Hollow, Outer, ring_of};
use cam_shapes::{Arc, Bar, Capsule, Disc};
use cam_units::Point;

/// The runs of a stroke or a flash: those of its body, those of what is taken out of this, and those of the discs about
/// its ends.
#[derive(Clone, Copy)]
pub(crate) struct FigureRuns {
    /// Of a straight stroke of a circle the bar between its ends, and what it takes in of the discs about these; of an
    /// arc what its outer circle and its sweep hold; of a rectangle's stroke all of it; of a flash the shape without its
    /// hole.
    pub(crate) body: Runs,
    /// Of an arc what its inner circle holds, where that is not taken out of the body; of a flash its hole.
    pub(crate) hollow: Runs,
    /// Of an arc what its sweep leaves out.
    pub(crate) beyond: Runs,
    pub(crate) start: Runs,
    pub(crate) end: Runs,
}

impl FigureRuns {
    /// None.
    pub(crate) fn none() -> FigureRuns {
        FigureRuns {
            body: Runs::none(),
            hollow: Runs::none(),
            beyond: Runs::none(),
            start: Runs::none(),
            end: Runs::none(),
        }
    }

    /// Turns to none.
    fn clear(&mut self)
        ensures body { IsClear self.new.body }
        ensures hollow { IsClear self.new.hollow }
        ensures beyond { IsClear self.new.beyond }
        ensures start { IsClear self.new.start }
        ensures end { IsClear self.new.end }
    {
        self.body.clear();
        self.hollow.clear();
        self.beyond.clear();
        self.start.clear();
        self.end.clear();
    }

    /// Turns to those of a figure in the rows of a grid, and as many columns from its left on.
    pub(crate) fn find(&mut self, placed: &Placed, grid: &Grid, columns: u32)
        requires sound { IsSoundPlaced placed.now }
        requires grid { IsWideGrid grid.now columns }
        ensures { TellsFigure grid.now columns (λ s. IsInFigure placed.now.figure (relative placed.now.at s)) self.new }
    {
        let at = placed.at;
        match &placed.figure {
            RunFigure::Straight(capsule) => self.find_straight(capsule, at, grid, columns),
            RunFigure::Round(arc, heights) => self.find_round(arc, *heights, at, grid, columns),
            RunFigure::Swept(swept) => {
                self.clear();
                self.body.find(swept, at, grid, columns);
            }
            RunFigure::Disc(disc, hole) => self.find_pierced(disc, hole, at, grid, columns),
            RunFigure::Rectangle(rectangle, hole) => {
                self.find_pierced(rectangle, hole, at, grid, columns);
            }
            RunFigure::Obround(obround, hole) => {
                self.find_pierced(obround, hole, at, grid, columns);
            }
        }
    }

    /// Turns to those of a straight stroke, which are one in each row. One of no length is a disc.
    fn find_straight(&mut self, capsule: &Capsule, at: Point, grid: &Grid, columns: u32)
        requires sound { IsSoundCapsule capsule.now }
        requires at { IsOnBoard at }
        requires grid { IsWideGrid grid.now columns }
        ensures { TellsFigure grid.now columns (λ s. IsInCapsule (relative at s) capsule.now) self.new }
    {
        let Capsule { from, to, width } = *capsule;
        self.clear();
        let start = Disc {
            centre: from,
            diameter: width,
        };
        if from == to {
            self.body.find(&start, at, grid, columns);
            return;
        }
        self.start.find(&start, at, grid, columns);
        let end = Disc {
            centre: to,
            diameter: width,
        };
        self.end.find(&end, at, grid, columns);
        let bar = Bar { from, to, width };
        self.body.find(&bar, at, grid, columns);
        self.body.take_in(&mut self.start);
        self.body.take_in(&mut self.end);
    }

    /// Turns to those of an arc, which lies between two heights: its outer circle is found between these alone, and what is
    /// taken out of that where it is.
    fn find_round(&mut self, arc: &Arc, heights: Heights, at: Point, grid: &Grid, columns: u32)
        requires sound { IsSoundArc arc.now }
        requires heights { LiesWithin heights (λ s. IsInArc s arc.now) }
        requires at { IsOnBoard at }
        requires grid { IsWideGrid grid.now columns }
        ensures { TellsFigure grid.now columns (λ s. IsInArc (relative at s) arc.now) self.new }
    {
        let arc = *arc;
        let ring = ring_of(&arc);
        let outer = Outer { arc, ring };
        self.body.find_between(&outer, heights, at, grid, columns);
        let hollow = Hollow { arc, ring };
        self.hollow
            .find_among(&self.body, &hollow, at, grid, columns);
        self.beyond.find_beyond(&self.body, arc, at, grid, columns);
        let start = Disc {
            centre: arc.from,
            diameter: arc.width,
        };
        self.start.find(&start, at, grid, columns);
        let end = Disc {
            centre: arc.to,
            diameter: arc.width,
        };
        self.end.find(&end, at, grid, columns);
        self.body.take_out(&mut self.hollow);
    }

    /// Turns to those of a shape without a hole. A hole of diameter 0 is none.
    fn find_pierced<S: HasHeights>(
        &mut self,
        shape: &S,
        hole: &Hole,
        at: Point,
        grid: &Grid,
        columns: u32,
    )
        requires sound { S.is_sound shape.now }
        requires hole { IsSoundDisc hole.now.0 }
        requires at { IsOnBoard at }
        requires grid { IsWideGrid grid.now columns }
        ensures { TellsFigure grid.now columns
            (λ s. S.holds shape.now (relative at s) × (IsInHole (relative at s) hole.now.0 → ⊥)) self.new }
    {
        self.clear();
        self.body.find(shape, at, grid, columns);
        if hole.0.diameter.0 == 0 {
            return;
        }
        self.hollow.find(hole, at, grid, columns);
    }

    /// Whether nothing is taken out of the body.
    pub(crate) fn is_whole(&self) -> bool
        ensures { IsTrue result → (row column : ℕ) → (HasColumn self.now.hollow row column → ⊥)
            × (HasColumn self.now.beyond row column → ⊥) }
    {
        self.hollow.band.end <= self.hollow.band.first
            && self.beyond.band.end <= self.beyond.band.first
    }

    /// The columns that its body holds of a row: four runs, of which some may have none.
    #[inline]
    pub(crate) fn pieces(&self, row: u32) -> ((Span, Span), (Span, Span))
        requires { row < 64 }
        ensures { (k : ℕ)
            → ((IsInRun result.0.0.first result.0.0.end k ⊎ IsInRun result.0.1.first result.0.1.end k)
            ⊎ (IsInRun result.1.0.first result.1.0.end k ⊎ IsInRun result.1.1.first result.1.1.end k))
            ↔ HasBody self.now row k }
    {
        let (before, behind) = self.body.run(row).without(self.hollow.run(row));
        let beyond = self.beyond.run(row);
        (before.without(beyond), behind.without(beyond))
    }
}
