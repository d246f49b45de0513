//! Boxes of what objects and items paint, in half nm: a flash of a block costs one box.

ghost use Rattle.std.specs.Prelude.{◌≡◌, ◌<◌, All, IfSome, Some, length, slice_get};
ghost use Rattle.cam_objects.specs.Bounds.{bounds_of};
ghost use Rattle.cam_objects.specs.Cells.{IsFirstCopyOf};
ghost use Rattle.cam_objects.specs.Leaves.{block_leaves, item_leaves, meaning_in, origin};
ghost use Rattle.cam_objects.specs.Machinery.Boxes.{IsNearBox};
ghost use Rattle.cam_objects.specs.Machinery.Painting.{StandsOnBoard};
ghost use Rattle.cam_objects.specs.Shifting.{IsMove, shifted_item};
ghost use Rattle.cam_objects.specs.Soundness.{AreOnBoard, HasSoundItems, IsSoundItem};
ghost use Rattle.cam_objects.specs.declared.item.Item.{Item};

use crate::boxes::extent::Extent;
use crate::boxes::first_copy::FirstCopy;
use crate::boxes::placed::moved;
use crate::dictionary::Dictionary;
use crate::item::Item;
use crate::layer::Layer;
use crate::object::Object;
use cam_units::{Bounds, Point};

/// The box of what the objects of a block paint.
pub(crate) fn block_bounds(entries: &Dictionary, objects: &[Object]) -> Bounds
    requires stands { All StandsOnBoard objects.now }
    requires board { AreOnBoard (block_leaves (meaning_in entries.now) origin objects.now) }
    ensures value { result ≡ bounds_of (block_leaves (meaning_in entries.now) origin objects.now) }
    ensures near { IsNearBox result }
{
    entries.soundness();
    let mut extent = Extent::none(entries);
    let mut all = Bounds::Empty;
    for object in objects {
        all = all.joined(extent.object_bounds(entries, object));
    }
    all
}

impl Layer {
    /// The least box that holds the boxes of all that a sound item paints: of a flash its aperture's, of a stroke its
    /// ends' and, where it is an arc, the whole circle's, widened by half the width, of a rectangle's stroke the
    /// rectangles' at both ends, of a region its points' and its arcs' circles'. Takes no memory, and goes through no
    /// block.
    pub fn bounds_of(&self, item: &Item) -> Bounds
        requires { IsSoundItem self.now.apertures item.now }
        ensures { result ≡ bounds_of (item_leaves (meaning_in self.now.apertures) item.now) }
    {
        self.bounds_with(item, None)
    }

    /// The box of a sound item that is moved by so many nm and stays on the board. Takes no memory.
    pub fn moved_bounds(&self, item: &Item, by: Point) -> Bounds
        requires item { IsSoundItem self.now.apertures item.now }
        requires by { IsMove by }
        ensures { result ≡ bounds_of (item_leaves (meaning_in self.now.apertures) (shifted_item by item.now)) }
    {
        self.apertures.soundness();
        moved(self.bounds_of(item), by)
    }

    /// The box of the item at a place of the list, counted from 0.
    pub fn item_bounds(&self, place: usize) -> Bounds
        requires sound { HasSoundItems self.now }
        requires within { place < length self.now.items.items }
        ensures { (item : Item) → slice_get self.now.items.items place ≡ Some item
            → result ≡ bounds_of (item_leaves (meaning_in self.now.apertures) item) }
    {
        self.bounds_of(&self.items[place])
    }

    /// The box of a sound item, by its first copy, where that is known.
    #[inline(never)]
    pub(crate) fn bounds_with(&self, item: &Item, known: Option<&FirstCopy>) -> Bounds
        requires item { IsSoundItem self.now.apertures item.now }
        requires known { IfSome known (λ first. IsFirstCopyOf self.now.apertures item.now first.now) }
        ensures { result ≡ bounds_of (item_leaves (meaning_in self.now.apertures) item.now) }
    {
        let entries = &self.apertures;
        entries.soundness();
        match item {
            Item::One(object) => Extent::none(entries).object_bounds(entries, object),
            Item::Repeat { objects, .. } => {
                let first = match known {
                    Some(known) => known.bounds,
                    None => block_bounds(entries, objects.as_slice()),
                };
                item.copies().bounds(first)
            }
        }
    }
}
