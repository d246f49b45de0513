//! What is asked of drill layers by hand.

ghost use Rattle.std.specs.Prelude.{◌≡◌, ◌<◌, ◌↔◌, IfSome, IsTrue, length};
ghost use Rattle.cam_units.specs.Board.{IsPlace};
ghost use Rattle.cam_objects.specs.Bounds.{bounds_of};
ghost use Rattle.cam_objects.specs.Cells.{AreCellsOf, drill_item_boxes};
ghost use Rattle.cam_objects.specs.DrillSoundness.{IsSoundDrillLayer};
ghost use Rattle.cam_objects.specs.Drilling.{drill_leaves};
ghost use Rattle.cam_objects.specs.Enclosed.{FindsEnclosed};
ghost use Rattle.cam_objects.specs.Topmost.{IsCoveredBy, PointsAt, drill_item_lists, leaves_at};

use crate::asking::enclosed::next_enclosed;
use crate::asking::topmost::topmost;
use crate::asking::whole::whole_box;
use crate::cells::kept::ItemCells;
use crate::drill_layer::DrillLayer;
use crate::image::Pixel;
use cam_units::{Bounds, Spot};

impl DrillLayer {
    /// Whether a hole or a slot of the item at a place of the list, counted from 0, covers a place, in half nm.
    /// Takes no memory.
    pub fn item_covers(&self, place: usize, at: Spot) -> bool
        requires sound { IsSoundDrillLayer self.now }
        requires within { place < length self.now.items.items }
        requires at { IsPlace at }
        ensures { IsTrue result
            ↔ IsCoveredBy (leaves_at (drill_item_lists self.now.tools self.now.items.items) place) at }
    {
        let mut pixel = Pixel::at(at);
        self.paint_item(place, &mut pixel);
        pixel.is_decided()
    }

    /// The place of the topmost item at a place, in half nm, among those before one: the last of them of which a hole or a
    /// slot covers it. Where the cells of the items are known, those that lie elsewhere are passed over. Takes no memory.
    pub fn item_at(&self, cells: Option<&ItemCells>, at: Spot, before: usize) -> Option<usize>
        requires sound { IsSoundDrillLayer self.now }
        requires cells { IfSome cells
            (λ kept. AreCellsOf (drill_item_boxes self.now.tools self.now.items.items) kept.now) }
        requires at { IsPlace at }
        ensures { PointsAt (drill_item_lists self.now.tools self.now.items.items) at before result }
    {
        topmost(&self.boxes(), cells, at, before)
    }

    /// The place of the next item, from one on, whose box lies in a box, in half nm, edges included; one that paints
    /// nothing lies in none. Takes no memory.
    pub fn item_in(&self, outer: Bounds, from: usize) -> Option<usize>
        requires { IsSoundDrillLayer self.now }
        ensures { FindsEnclosed (drill_item_boxes self.now.tools self.now.items.items) outer from result }
    {
        next_enclosed(&mut self.boxes(), outer, from)
    }

    /// The least box that holds the boxes of all items, in half nm. Goes through all items. Takes no memory.
    pub fn bounds(&self) -> Bounds
        requires { IsSoundDrillLayer self.now }
        ensures { result ≡ bounds_of (drill_leaves self.now.tools self.now.items.items) }
    {
        whole_box(&mut self.boxes())
    }
}
