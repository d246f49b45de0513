//! Tiles of a row of tiles that are painted at once, from the last leaf on.

ghost use Rattle.std.specs.Prelude.{◌≡◌, ◌≤ℤ◌, ◌↔◌, ◌⊎◌, ◌+◌, ◌*◌, ◌/◌, ◌<◌, ◌≤◌, ◌∷◌, ℕ, [], Bool, IsTrue, OnOk, None, Some, false, length};
ghost use Rattle.std.specs.Prelude.{if◌then◌else◌, is_none, slice_index_or, true};
ghost use Rattle.cam_units.specs.Boxes.{Holds};
ghost use Rattle.cam_units.specs.declared.point.Spot.{Spot};
ghost use Rattle.cam_objects.specs.Canvases.{leaf_of};
ghost use Rattle.cam_objects.specs.Image.{Covers};
ghost use Rattle.cam_objects.specs.Leaves.{Filled, leaf};
ghost use Rattle.cam_tiles.specs.Machinery.Figures.{AllFit, IsPlacedFor};
ghost use Rattle.cam_tiles.specs.Machinery.Inks.{IsDoneTile, Takes};
ghost use Rattle.cam_tiles.specs.Machinery.Lattices.{AreReachedBy};
ghost use Rattle.cam_tiles.specs.Machinery.Parts.{IsParted};
ghost use Rattle.cam_tiles.specs.Machinery.Runs.{IsWideGrid};
ghost use Rattle.cam_tiles.specs.Machinery.Swaths.{AreRunsOf, IsDoneSwath, IsInSwath, IsRowOfTiles, PaintsSwath, ShowsDirty, columns_of, ink_in, place_in, tiles_in};
ghost use Rattle.cam_tiles.specs.Picture.{accepts};
ghost use Rattle.cam_tiles.specs.Tables.{all_drawn_from};
ghost use Rattle.cam_tiles.specs.Tiles.{centre_in, grid_of, tile_rows};

use crate::grid::Grid;
use crate::masks::figure_runs::FigureRuns;
use crate::masks::figures::{Placed, placed_of};
use crate::masks::heights::Heights;
use crate::masks::inks::Inks;
use crate::masks::macros::PlacedMacro;
use crate::masks::marked::MarkShape;
use crate::masks::parts::PartedContour;
use crate::masks::placed::PlacedContour;
use crate::painter::Tile;
use crate::span::Span;
use crate::window::Window;
use cam_apertures::Aperture;
use cam_objects::{Canvas, Figure, Print};
use cam_shapes::Placing;
use cam_units::{Bounds, Spot};
use std::alloc::{AllocError, Global};
use std::marker::Model;

/// Tiles of a row of tiles, side by side, which are painted at once: each leaf is gone through once for all of them, and
/// goes to those tiles alone that its box reaches and in which something is not decided.
#[derive(Drop)]
pub(crate) struct Swath {
    /// The grid of the first tile, whose rows go on to the right, and how many columns there are.
    grid: Grid,
    columns: u32,
    /// A box that holds all centres, in half nm.
    bounds: Bounds,
    inks: Inks,
    /// The runs of the figure that was painted last.
    runs: FigureRuns,
    /// Room for the marks of a shape: 64 words for each tile, and as many spare ones.
    marks: Vec<u64>,
    spare: Vec<u64>,
}

/// A grid of one centre, at (0, 0).
const ONE_CENTRE: Grid = Grid {
    x: 0,
    y: 0,
    step: 1,
    cols: 1,
    rows: 1,
};

impl Model for Swath {
    ghost use Rattle.cam_tiles.specs.Machinery.Swaths.{IsSwath, Swathed, swathed_of};

    ghost Value = { Swathed };

    ghost view = { swathed_of };

    ghost invariant = { IsSwath };
}

impl Swath {
    /// Without a tile.
    pub(crate) fn new(alloc: Global) -> Swath {
        Swath {
            grid: ONE_CENTRE,
            columns: 0,
            bounds: Bounds::Empty,
            inks: Inks::new(alloc),
            runs: FigureRuns::none(),
            marks: Vec::new(alloc),
            spare: Vec::new(alloc),
        }
    }

    /// Turns to tiles that stand in a row of tiles, side by side; the first of them has a number. The pixels of the dirty
    /// ones are not decided. Memory is asked for where it has not been yet.
    pub(crate) fn turn_to(
        &mut self,
        window: &Window,
        first: u32,
        tiles: &[Tile],
    ) -> Result<(), AllocError>
        requires accepted { accepts window.now ≡ true }
        requires row { IsRowOfTiles window.now first tiles.now }
        ensures grid { OnOk result (self.new.grid ≡ grid_of window.now first) }
        ensures columns { OnOk result (self.new.columns ≡ columns_of window.now first (length tiles.now)) }
        ensures open { OnOk result ((column row : ℕ) → IsInSwath self.new column row → ink_in self.new column row
            ≡ (if is_none (slice_index_or tiles.now (column / 64) None) then None else Some false)) }
    {
        self.columns = 0;
        self.inks.clear();
        let grid = window.grid(first);
        let left = 64 * (first % window.across());
        let columns = (window.width - left).min(64 * tiles.len() as u32);
        self.marks.resize(64 * tiles.len(), 0)?;
        self.spare.resize(64 * tiles.len(), 0)?;
        self.inks.turn_to(tiles, columns, grid.rows)?;
        self.grid = grid;
        self.columns = columns;
        self.bounds = wide_bounds(&grid, columns);
        Ok(())
    }

    /// Draws the dirty ones of the tiles.
    pub(crate) fn put(&self, tiles: &mut [Tile])
        requires { length tiles.old ≡ tiles_in self.now }
        ensures { (image : Spot → Bool) (grid : ℕ → Grid) (first : ℕ)
            → ShowsDirty image grid first self.now tiles.old
            → tiles.new ≡ all_drawn_from (λ k. tile_rows image (grid k)) first tiles.old }
    {
        for k in 0..tiles.len() {
            if tiles[k].is_none() {
                tiles[k] = Some(self.inks.rows(k));
            }
        }
    }

    /// Whether all of it is decided.
    pub(crate) fn is_done(&mut self) -> bool
        ensures kept { self.new ≡ self.old }
        ensures done { IsTrue result → IsDoneSwath self.old }
    {
        self.inks.is_all_done()
    }

    /// The columns and the rows of the centres that a box holds.
    fn reached(&self, low: Spot, high: Spot) -> (Span, Span)
        ensures { AreReachedBy low high self.now.grid self.now.columns result.0 result.1 }
    {
        self.grid.reached(self.columns, low, high)
    }

    /// Paints what a shape covers in some tiles outside of which it covers nothing: it is marked once for all of them.
    fn paint_marked<M: MarkShape>(&mut self, tiles: Span, shape: &M, dark: bool)
        requires sound { M.is_sound shape.now }
        requires tiles { tiles.end ≤ tiles_in self.old }
        requires within { (column row : ℕ) → IsInSwath self.old column row → Covers (M.shape shape.now) (place_in self.old column row)
            → (tiles.first ≤ column / 64) × (column / 64 < tiles.end) }
        ensures { PaintsSwath self.old (leaf (M.shape shape.now) dark ∷ []) self.new }
    {
        let tiles = open_among(&mut self.inks, tiles);
        if tiles.end <= tiles.first {
            return;
        }
        let columns = self.columns.min(64 * tiles.end) - 64 * tiles.first;
        let part = self.grid.from_tile(tiles.first, self.columns);
        shape.mark(&mut self.marks, &mut self.spare, &part, columns);
        let (first, end) = (tiles.first as usize, tiles.end as usize);
        self.inks.take_marked(first, end, &self.marks, dark);
    }

    /// Paints the inside of a contour that lies between two places across, in half nm, by its parts.
    pub(crate) fn paint_contour(
        &mut self,
        contour: &PartedContour<'_>,
        left: i64,
        right: i64,
        dark: bool,
    )
        requires parted { IsParted contour.now.contour.now contour.now.heights.now }
        requires sides { (s : Spot) → Covers (Filled contour.now.contour.now) s → (left ≤ℤ s.x) × (s.x ≤ℤ right) }
        ensures { PaintsSwath self.old (leaf (Filled contour.now.contour.now) dark ∷ []) self.new }
    {
        let columns = self.grid.columns_between(self.columns, left, right);
        if columns.end <= columns.first {
            return;
        }
        self.paint_marked(columns.tiles(), contour, dark);
    }
}

impl Canvas for Swath {
    ghost has = { IsInSwath };

    ghost place = { place_in };

    ghost ink = { ink_in };

    fn bounds(&self) -> Bounds {
        self.bounds
    }

    fn is_decided_in(&self, bounds: Bounds) -> bool {
        let Bounds::Closed { low, high } = bounds else {
            return true;
        };
        let (columns, rows) = self.reached(low, high);
        self.inks.is_decided(columns, rows)
    }

    fn paint(&mut self, print: Print<'_>) {
        let Bounds::Closed { low, high } = print.bounds else {
            return;
        };
        let (columns, rows) = self.reached(low, high);
        if columns.end <= columns.first || self.inks.is_decided(columns, rows) {
            return;
        }
        let heights = Heights {
            low: low.y,
            high: high.y,
        };
        let tiles = columns.tiles();
        if let Some(placed) = placed_of(&print.figure, heights) {
            self.runs.find(&placed, &self.grid, self.columns);
            take_runs(&mut self.inks, tiles, &self.runs, print.dark);
            return;
        }
        match print.figure {
            Figure::Stamp {
                aperture: Aperture::Prims(prims),
                turn,
                at,
            } => {
                self.paint_marked(tiles, &PlacedMacro { prims, turn, at }, print.dark);
            }
            Figure::Filled {
                contour,
                turn,
                offset,
            } => {
                let placing = Placing { turn, offset };
                self.paint_marked(tiles, &PlacedContour { contour, placing }, print.dark);
            }
            _ => {}
        }
    }
}

/// Those of some tiles between which all lie that are not done.
fn open_among(inks: &mut Inks, tiles: Span) -> Span
    requires { tiles.end ≤ inks.old.tiles }
    ensures kept { inks.new ≡ inks.old }
    ensures done { (tile : ℕ) → tiles.first ≤ tile → tile < tiles.end → (tile < result.first) ⊎ (result.end ≤ tile)
        → IsDoneTile inks.old tile }
    ensures within { (tiles.first ≤ result.first) × (result.end ≤ tiles.end) }
{
    if tiles.end <= tiles.first {
        return tiles;
    }
    let first = inks.first_open(tiles.first).min(tiles.end);
    let mut end = tiles.end;
    while first < end && inks.past_done(end - 1) >= end {
        end -= 1;
    }
    Span { first, end }
}

/// Gives a polarity to what is not decided, where a figure that reaches some tiles has columns by its runs.
fn take_runs(inks: &mut Inks, tiles: Span, runs: &FigureRuns, dark: bool)
    requires fit { AllFit 64 runs.now }
    ensures { (holds : ℕ → ℕ → Bool) → AreRunsOf holds runs.now inks.old
        → Takes 0 inks.old.tiles holds dark inks.old inks.new }
{
    if runs.is_whole() {
        inks.take_each(&runs.body, dark);
    } else {
        inks.take_body(runs, dark);
    }
    inks.take_each(&runs.start, dark);
    inks.take_each(&runs.end, dark);
    inks.look(tiles, &runs.body);
}

/// A box that holds the centres in the rows of a grid, in as many columns from its left on, in half nm.
fn wide_bounds(grid: &Grid, columns: u32) -> Bounds
    requires { IsWideGrid grid.now columns }
    ensures { (column row : ℕ) → column < columns → row < grid.now.rows
        → Holds result (centre_in grid.now column row) }
{
    let last = grid.x + i64::from(columns - 1) * grid.step;
    Bounds::Closed {
        low: Spot {
            x: grid.x,
            y: grid.levels().height(grid.rows - 1),
        },
        high: Spot { x: last, y: grid.y },
    }
}
