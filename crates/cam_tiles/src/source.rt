//! Layers as painters.

ghost use Rattle.std.specs.Prelude.{◌≡◌, ◌+◌, count_by, is_none};
ghost use Rattle.cam_objects.specs.Cells.{AreCellsOf, AreFirstCopiesOf, drill_item_boxes, item_boxes};
ghost use Rattle.cam_objects.specs.Contents.{content_leaves, content_of, drill_content_leaves, drill_content_of};
ghost use Rattle.cam_objects.specs.DrillSoundness.{IsSoundDrillLayer};
ghost use Rattle.cam_objects.specs.Soundness.{HasSoundItems};
ghost use Rattle.cam_tiles.specs.Machinery.Shown.{IsReady, leaves_of};
ghost use Rattle.cam_tiles.specs.Sources.{picture_of, unasked};

use crate::drawing::{dirty_in, draw};
use crate::grid::Grid;
use crate::painter::{Painter, Tile};
use crate::plain::tile_of;
use crate::shown::Shown;
use crate::window::Window;
use cam_objects::{DrillLayer, FirstCopies, ItemCells, Layer};
use std::alloc::Global;
use std::marker::Model;

/// Paints the image of a layer: of a Gerber layer a place is black where the last leaf that covers it is dark, of a
/// drill layer where a hole or a slot covers it.
///
/// One that knows the cells of its items draws the dirty tiles of a row of tiles at once, from those items alone that
/// they may show. For that it asks its allocator for memory; where that is refused, and where it knows no cells, it draws
/// tile by tile and takes none. The tiles are the same.
#[derive(Drop)]
pub struct Source<'a> {
    shown: Shown<'a>,
    /// What the quick way asks for memory.
    alloc: Option<Global>,
    asked: u64,
}

impl<'a> Model for Source<'a> {
    ghost use Rattle.cam_tiles.specs.Machinery.Kept.{IsSourceReady, painted_by};
    ghost use Rattle.cam_tiles.specs.Sources.{Painted};

    ghost Value = { Painted };

    ghost view = { painted_by };

    ghost invariant = { IsSourceReady };
}

impl<'a> Source<'a> {
    /// Paints a sound layer. No tile was asked for.
    pub fn gerber(layer: &'a Layer) -> Source<'a>
        requires { HasSoundItems layer.now }
        ensures { result ≡ unasked (content_leaves (content_of layer.now)) }
    {
        let shown = Shown::Gerber {
            layer,
            cells: None,
            copies: None,
        };
        Source::of(shown, None)
    }

    /// Paints a sound layer of whose items the cells are known, and of whose repeats the first copies: items and objects of
    /// repeats whose boxes the tiles do not meet are passed over. No tile was asked for.
    pub fn gerber_by_cells(
        alloc: Global,
        layer: &'a Layer,
        cells: &'a ItemCells,
        copies: &'a FirstCopies,
    ) -> Source<'a>
        requires sound { HasSoundItems layer.now }
        requires cells { AreCellsOf (item_boxes layer.now.apertures layer.now.items.items) cells.now }
        requires copies { AreFirstCopiesOf layer.now.apertures layer.now.items.items copies.now }
        ensures { result ≡ unasked (content_leaves (content_of layer.now)) }
    {
        let shown = Shown::Gerber {
            layer,
            cells: Some(cells),
            copies: Some(copies),
        };
        Source::of(shown, Some(alloc))
    }

    /// Paints a sound drill layer. No tile was asked for.
    pub fn drill(layer: &'a DrillLayer) -> Source<'a>
        requires { IsSoundDrillLayer layer.now }
        ensures { result ≡ unasked (drill_content_leaves (drill_content_of layer.now)) }
    {
        Source::of(Shown::Drill { layer, cells: None }, None)
    }

    /// Paints a sound drill layer of whose items the cells are known: those whose boxes the tiles do not meet are passed
    /// over. No tile was asked for.
    pub fn drill_by_cells(alloc: Global, layer: &'a DrillLayer, cells: &'a ItemCells) -> Source<'a>
        requires sound { IsSoundDrillLayer layer.now }
        requires cells { AreCellsOf (drill_item_boxes layer.now.tools layer.now.items.items) cells.now }
        ensures { result ≡ unasked (drill_content_leaves (drill_content_of layer.now)) }
    {
        let cells = Some(cells);
        Source::of(Shown::Drill { layer, cells }, Some(alloc))
    }
}

impl<'a> Source<'a> {
    /// No tile was asked for.
    fn of(shown: Shown<'a>, alloc: Option<Global>) -> Source<'a>
        requires { IsReady shown }
        ensures { result ≡ unasked (leaves_of shown.entry) }
    {
        Source {
            shown,
            alloc,
            asked: 0,
        }
    }
}

impl<'a> Painter for Source<'a> {
    ghost picture = { picture_of };

    ghost count = { λ s. s.asked };

    fn tile(&mut self, grid: Grid) -> [u64; 64] {
        self.asked += 1;
        tile_of(&self.shown, grid)
    }

    fn draw(&mut self, window: &Window, first: u32, tiles: &mut [Tile]) {
        let dirty = dirty_in(tiles);
        if dirty > 0 {
            draw(self.alloc, &self.shown, window, first, tiles);
        }
        self.asked += dirty as u64;
    }

    fn asked(&self) -> u64 {
        self.asked
    }
}
