//! The boxes of the items of a layer, one after another.

ghost use Rattle.std.specs.Prelude.{◌≡◌, ◌<◌, IfSome, IsTrue, Some, length, map, slice_get};
ghost use Rattle.cam_units.specs.Boxes.{Holds};
ghost use Rattle.cam_units.specs.declared.point.Spot.{Spot};
ghost use Rattle.cam_objects.specs.Bounds.{bounds_of};
ghost use Rattle.cam_objects.specs.Cells.{AreFirstCopiesOf, item_boxes};
ghost use Rattle.cam_objects.specs.Image.{IsUncovered};
ghost use Rattle.cam_objects.specs.Leaves.{item_leaves, meaning_in};
ghost use Rattle.cam_objects.specs.Soundness.{HasSoundItems};
ghost use Rattle.cam_objects.specs.Weights.{item_count, weight_in};
ghost use Rattle.cam_objects.specs.declared.item.Item.{Item};

use crate::boxes::extent::Extent;
use crate::boxes::first_copies::FirstCopies;
use crate::cells::item_list::BoxedItems;
use crate::cells::reach::{Measure, Reach};
use crate::item::Item;
use crate::layer::Layer;
use cam_units::Bounds;
use std::marker::Model;

/// Reads the boxes of the items of a layer: an aperture that the item read before named is not looked up again, and the
/// objects of a repeat are not gone through where its first copy is known.
#[derive(Drop)]
pub struct ItemBoxes<'a> {
    layer: &'a Layer,
    copies: Option<&'a FirstCopies>,
    last: Extent,
}

impl<'a> Model for ItemBoxes<'a> {
    ghost use Rattle.cam_objects.specs.declared.layer.Layer.{Layer};

    ghost Value = { Layer };

    ghost use Rattle.cam_objects.specs.Machinery.Extents.{AreBoxesKept};

    ghost view = { λ r. r.layer.now };

    ghost invariant = { AreBoxesKept };
}

impl Layer {
    /// Reads the boxes of the items of a sound layer.
    pub fn boxes(&self) -> ItemBoxes<'_>
        requires { HasSoundItems self.now }
        ensures { result ≡ self.now }
    {
        self.boxes_by(None)
    }

    /// Reads the boxes of the items of a sound layer, those of repeats by their first copies where they are known.
    pub fn boxes_by<'a>(&'a self, copies: Option<&'a FirstCopies>) -> ItemBoxes<'a>
        requires sound { HasSoundItems self.now }
        requires copies { IfSome copies
            (λ known. AreFirstCopiesOf self.now.apertures self.now.items.items known.now) }
        ensures { result ≡ self.now }
    {
        ItemBoxes {
            layer: self,
            copies,
            last: Extent::none(&self.apertures),
        }
    }
}

impl<'a> ItemBoxes<'a> {
    /// The layer.
    pub(crate) fn layer(&self) -> &Layer
        ensures value { result.now ≡ self.now }
        ensures sound { HasSoundItems self.now }
    {
        self.layer
    }

    /// The box of the item at a place of the list, counted from 0: that of `Layer::item_bounds`. Takes no memory.
    #[inline]
    pub fn read(&mut self, place: usize) -> Bounds
        requires { place < length self.old.items.items }
        ensures value { (item : Item) → slice_get self.old.items.items place ≡ Some item
            → result ≡ bounds_of (item_leaves (meaning_in self.old.apertures) item) }
        ensures layer { self.new ≡ self.old }
    {
        let layer = self.layer;
        let item = &layer.items[place];
        match item {
            Item::One(object) => self.last.object_bounds(&layer.apertures, object),
            Item::Repeat { .. } => match self.copies {
                Some(copies) => layer.bounds_with(item, copies.at(place)),
                None => layer.bounds_of(item),
            },
        }
    }

    /// Whether the item at a place of the list is a draw of which one sees by its line alone that it covers no place of a
    /// box, in half nm: all of the box lies beyond the line, on one side. Takes no memory.
    pub fn line_misses(&mut self, place: usize, within: Bounds) -> bool
        requires { place < length self.old.items.items }
        ensures off { IsTrue result → (item : Item) → slice_get self.old.items.items place ≡ Some item
            → (s : Spot) → Holds within s → IsUncovered (item_leaves (meaning_in self.old.apertures) item) s }
        ensures layer { self.new ≡ self.old }
    {
        let layer = self.layer;
        match &layer.items[place] {
            Item::One(object) => self.last.line_misses(&layer.apertures, object, within),
            Item::Repeat { .. } => false,
        }
    }
}

impl<'a> BoxedItems for ItemBoxes<'a> {
    ghost boxes = { λ r. item_boxes r.apertures r.items.items };

    ghost leaf_counts = { λ r. map (item_count (weight_in r.apertures)) r.items.items };

    fn count(&self) -> usize {
        self.layer.items.len()
    }

    fn leaf_count(&self) -> u64 {
        self.layer.leaf_count()
    }

    fn measure_at(&mut self, place: usize) -> Measure {
        let layer = self.layer;
        Measure {
            reach: Reach::of(self.read(place)),
            leaves: layer.item_leaf_count(&layer.items[place]),
        }
    }
}
