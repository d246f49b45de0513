//! Layers, painted on a canvas, item by item from the last one on.

ghost use Rattle.std.specs.Prelude.{◌<◌, ◌≡◌, IfSome, Some, length, slice_get};
ghost use Rattle.cam_objects.specs.Canvases.{Paints};
ghost use Rattle.cam_objects.specs.Cells.{IsFirstCopyOf};
ghost use Rattle.cam_objects.specs.Contents.{content_leaves, content_of};
ghost use Rattle.cam_objects.specs.Leaves.{item_leaves, meaning_in};
ghost use Rattle.cam_objects.specs.Soundness.{HasSoundItems};
ghost use Rattle.cam_objects.specs.declared.item.Item.{Item};

use crate::boxes::first_copy::FirstCopy;
use crate::boxes::items::block_bounds;
use crate::canvas::Canvas;
use crate::item::Item;
use crate::layer::Layer;
use crate::paint::objects::paint_object;
use crate::paint::repeat::Repeat;
use crate::placing::place::Place;

impl Layer {
    /// Paints a sound layer on a canvas, from the last leaf on. What has nothing left to paint in its box is passed over.
    pub fn paint<C: Canvas>(&self, canvas: &mut C)
        requires { HasSoundItems self.now }
        ensures { Paints C.has C.place C.ink canvas.old (content_leaves (content_of self.now)) canvas.new }
    {
        for place in (0..self.items.len()).rev() {
            self.paint_item(place, canvas);
        }
    }

    /// Paints the item at a place of the list, counted from 0, from its last leaf on.
    pub fn paint_item<C: Canvas>(&self, place: usize, canvas: &mut C)
        requires sound { HasSoundItems self.now }
        requires within { place < length self.now.items.items }
        ensures { (item : Item) → slice_get self.now.items.items place ≡ Some item
            → Paints C.has C.place C.ink canvas.old (item_leaves (meaning_in self.now.apertures) item) canvas.new }
    {
        self.paint_by(None, place, canvas);
    }

    /// Paints the item at a place of the list, counted from 0, from its last leaf on: a repeat by its first copy.
    pub fn paint_repeat<C: Canvas>(&self, place: usize, first: &FirstCopy, canvas: &mut C)
        requires sound { HasSoundItems self.now }
        requires within { place < length self.now.items.items }
        requires first { (item : Item) → slice_get self.now.items.items place ≡ Some item
            → IsFirstCopyOf self.now.apertures item first.now }
        ensures { (item : Item) → slice_get self.now.items.items place ≡ Some item
            → Paints C.has C.place C.ink canvas.old (item_leaves (meaning_in self.now.apertures) item) canvas.new }
    {
        self.paint_by(Some(first), place, canvas);
    }

    /// Paints the item at a place of the list: a repeat by its first copy, where that is known.
    fn paint_by<'a, C: Canvas>(&'a self, known: Option<&'a FirstCopy>, place: usize, canvas: &mut C)
        requires sound { HasSoundItems self.now }
        requires within { place < length self.now.items.items }
        requires known { (item : Item) → slice_get self.now.items.items place ≡ Some item
            → IfSome known (λ first. IsFirstCopyOf self.now.apertures item first.now) }
        ensures { (item : Item) → slice_get self.now.items.items place ≡ Some item
            → Paints C.has C.place C.ink canvas.old (item_leaves (meaning_in self.now.apertures) item) canvas.new }
    {
        let entries = &self.apertures;
        let item = &self.items[place];
        match item {
            Item::One(object) => {
                paint_object(entries, entries.len(), object, &Place::origin(), canvas);
            }
            Item::Repeat { objects, .. } => {
                let objects = objects.as_slice();
                let (first, cells) = match known {
                    Some(known) => (known.bounds, Some(&known.cells)),
                    None => (block_bounds(entries, objects), None),
                };
                let repeat = Repeat {
                    entries,
                    objects,
                    copies: item.copies(),
                    first,
                    cells,
                };
                repeat.paint(canvas);
            }
        }
    }
}
