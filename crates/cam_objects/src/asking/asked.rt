//! The items of a layer of either kind, asked one by one.

ghost use Rattle.std.specs.Prelude.{◌≡◌, ◌<◌, ◌↔◌, All, IsTrue, List, length};
ghost use Rattle.cam_units.specs.Board.{IsPlace};
ghost use Rattle.cam_objects.specs.Bounds.{bounds_of};
ghost use Rattle.cam_objects.specs.Leaves.{Leaf};
ghost use Rattle.cam_objects.specs.Machinery.Asked.{AreUncrossed};
ghost use Rattle.cam_objects.specs.Topmost.{IsCoveredBy, drill_item_lists, item_lists, leaves_at};

use crate::boxes::item_boxes::ItemBoxes;
use crate::drill::item_boxes::DrillItemBoxes;
use cam_units::{Bounds, Spot};

/// The items of a sound layer of either kind.
pub(crate) trait AskedItems {
    /// What each of them paints.
    ghost lists: { Self → List (List Leaf) };

    /// How many there are.
    fn count(&self) -> usize
        ensures value { result ≡ length (lists self.now) }
        ensures uncrossed { All AreUncrossed (lists self.now) };

    /// The box of the item at a place of the list, counted from 0, in half nm.
    fn read(&mut self, place: usize) -> Bounds
        requires { place < length (lists self.old) }
        ensures value { result ≡ bounds_of (leaves_at (lists self.old) place) }
        ensures list { lists self.new ≡ lists self.old };

    /// Whether it covers a place, in half nm.
    fn covers(&self, place: usize, at: Spot) -> bool
        requires within { place < length (lists self.now) }
        requires at { IsPlace at }
        ensures { IsTrue result ↔ IsCoveredBy (leaves_at (lists self.now) place) at };
}

impl<'a> AskedItems for ItemBoxes<'a> {
    ghost lists = { λ r. item_lists r.apertures r.items.items };

    fn count(&self) -> usize {
        self.layer().items.len()
    }

    fn read(&mut self, place: usize) -> Bounds {
        self.read(place)
    }

    fn covers(&self, place: usize, at: Spot) -> bool {
        self.layer().item_covers(place, at)
    }
}

impl<'a> AskedItems for DrillItemBoxes<'a> {
    ghost lists = { λ r. drill_item_lists r.tools r.items.items };

    fn count(&self) -> usize {
        self.layer().items.len()
    }

    fn read(&mut self, place: usize) -> Bounds {
        self.read(place)
    }

    fn covers(&self, place: usize, at: Spot) -> bool {
        self.layer().item_covers(place, at)
    }
}
