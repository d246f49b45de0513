//! The first copy of a repeat.

ghost use Rattle.std.specs.Prelude.{◌≡◌, ◌<◌, IfSome, Some, length, slice_get};
ghost use Rattle.cam_objects.specs.Cells.{IsFirstCopyOf};
ghost use Rattle.cam_objects.specs.Machinery.FirstCopies.{once_come, once_gone};
ghost use Rattle.cam_objects.specs.Soundness.{HasSoundItems};
ghost use Rattle.cam_objects.specs.declared.item.Item.{Item};

use crate::boxes::items::block_bounds;
use crate::boxes::object_boxes::{ObjectBoxes, object_cells};
use crate::cells::kept::ItemCells;
use crate::item::Item;
use crate::layer::Layer;
use cam_units::Bounds;
use std::alloc::Global;
use std::marker::Model;

/// The first copy of a repeat: the place of the repeat in the list, counted from 0, the box of what the copy paints, in
/// half nm, and the cells that its objects reach. Who paints the repeat by it ([`Layer::paint_repeat`]) passes over what
/// lies elsewhere.
#[derive(Drop)]
pub struct FirstCopy {
    pub(crate) place: usize,
    pub(crate) bounds: Bounds,
    pub(crate) cells: ItemCells,
}

impl Model for FirstCopy {
    ghost use Rattle.cam_objects.specs.Cells.{FirstCopied};

    ghost Value = { FirstCopied };

    ghost view = { λ f. record { place = f.place; bounds = f.bounds; reaches = f.cells } };
}

impl FirstCopy {
    /// Follows an item that came to a place.
    pub(crate) fn make_room(&mut self, place: usize)
        ensures { self.new ≡ once_come place self.old }
    {
        if place <= self.place {
            self.place = self.place.saturating_add(1);
        }
    }

    /// Follows an item that left a place.
    pub(crate) fn close_gap(&mut self, place: usize)
        ensures { self.new ≡ once_gone place self.old }
    {
        if place < self.place {
            self.place -= 1;
        }
    }

    /// Reads it anew, if it is that of the item at a place, which has changed there. Takes no memory.
    pub(crate) fn renew(&mut self, layer: &Layer, place: usize)
        requires sound { HasSoundItems layer.now }
        requires within { place < length layer.now.items.items }
        ensures there { (item : Item) → self.old.place ≡ place → slice_get layer.now.items.items place ≡ Some item
            → IsFirstCopyOf layer.now.apertures item self.new }
        ensures elsewhere { ¬ (self.old.place ≡ place) → self.new ≡ self.old }
        ensures place { self.new.place ≡ self.old.place }
    {
        if self.place != place {
            return;
        }
        let Item::Repeat { objects, .. } = &layer.items[place] else {
            return;
        };
        let entries = &layer.apertures;
        let objects = objects.as_slice();
        let bounds = block_bounds(entries, objects);
        let mut boxes = ObjectBoxes::of(entries, objects);
        self.bounds = bounds;
        self.cells.read_again(&mut boxes);
    }
}

/// How many objects a repeat has at least for what is known of its first copy to be worth its memory, 8 bytes an object. By
/// callgrind an edit with its redraw on 40 by 40 copies takes 173,000 instructions where they have 63 circles, 142,000
/// where they have 64, and 274,000 where they have 1,000.
const MANY_OBJECTS: usize = 64;

impl Layer {
    /// The first copy of the item at a place of the list, counted from 0, if that is a repeat of many objects.
    pub(crate) fn first_copy(&self, alloc: Global, place: usize) -> Option<FirstCopy>
        requires sound { HasSoundItems self.now }
        requires within { place < length self.now.items.items }
        ensures place { IfSome result (λ first. first.place ≡ place) }
        ensures value { (item : Item) → slice_get self.now.items.items place ≡ Some item
            → IfSome result (IsFirstCopyOf self.now.apertures item) }
    {
        let Item::Repeat { objects, .. } = &self.items[place] else {
            return None;
        };
        let entries = &self.apertures;
        let objects = objects.as_slice();
        if objects.len() < MANY_OBJECTS {
            return None;
        }
        Some(FirstCopy {
            place,
            bounds: block_bounds(entries, objects),
            cells: object_cells(alloc, entries, objects),
        })
    }
}
