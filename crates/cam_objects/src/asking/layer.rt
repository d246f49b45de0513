//! What is asked of layers by hand.

ghost use Rattle.std.specs.Prelude.{◌≡◌, ◌<◌, ◌↔◌, IfSome, IsTrue, length};
ghost use Rattle.cam_units.specs.Board.{IsPlace};
ghost use Rattle.cam_objects.specs.Bounds.{bounds_of};
ghost use Rattle.cam_objects.specs.Cells.{AreCellsOf, item_boxes};
ghost use Rattle.cam_objects.specs.Enclosed.{FindsEnclosed};
ghost use Rattle.cam_objects.specs.Leaves.{leaves_of};
ghost use Rattle.cam_objects.specs.Soundness.{HasSoundItems};
ghost use Rattle.cam_objects.specs.Topmost.{IsCoveredBy, PointsAt, item_lists, leaves_at};

use crate::asking::enclosed::next_enclosed;
use crate::asking::topmost::topmost;
use crate::asking::whole::whole_box;
use crate::cells::kept::ItemCells;
use crate::image::Pixel;
use crate::layer::Layer;
use cam_units::{Bounds, Spot};

impl Layer {
    /// Whether some leaf of the item at a place of the list, counted from 0, covers a place, in half nm, dark or clear.
    /// Takes no memory.
    pub fn item_covers(&self, place: usize, at: Spot) -> bool
        requires sound { HasSoundItems self.now }
        requires within { place < length self.now.items.items }
        requires at { IsPlace at }
        ensures { IsTrue result
            ↔ IsCoveredBy (leaves_at (item_lists self.now.apertures self.now.items.items) place) at }
    {
        let mut pixel = Pixel::at(at);
        self.paint_item(place, &mut pixel);
        pixel.is_decided()
    }

    /// The place of the topmost item at a place, in half nm, among those before one: the last of them of which some leaf
    /// covers it, dark or clear. Where the cells of the items are known, those that lie elsewhere are passed over. Takes
    /// no memory.
    pub fn item_at(&self, cells: Option<&ItemCells>, at: Spot, before: usize) -> Option<usize>
        requires sound { HasSoundItems self.now }
        requires cells { IfSome cells
            (λ kept. AreCellsOf (item_boxes self.now.apertures self.now.items.items) kept.now) }
        requires at { IsPlace at }
        ensures { PointsAt (item_lists self.now.apertures self.now.items.items) at before result }
    {
        topmost(&self.boxes(), cells, at, before)
    }

    /// The place of the next item, from one on, whose box lies in a box, in half nm, edges included; one that paints
    /// nothing lies in none. Takes no memory.
    pub fn item_in(&self, outer: Bounds, from: usize) -> Option<usize>
        requires { HasSoundItems self.now }
        ensures { FindsEnclosed (item_boxes self.now.apertures self.now.items.items) outer from result }
    {
        next_enclosed(&mut self.boxes(), outer, from)
    }

    /// The least box that holds the boxes of all items, in half nm. Goes through all items. Takes no memory.
    pub fn bounds(&self) -> Bounds
        requires { HasSoundItems self.now }
        ensures { result ≡ bounds_of (leaves_of self.now.apertures self.now.items.items) }
    {
        whole_box(&mut self.boxes())
    }
}
