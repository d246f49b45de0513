//! The boxes of the objects of a block or of a repeat, one after another, and the cells that they reach.

ghost use Rattle.std.specs.Prelude.{◌≡◌, map};
ghost use Rattle.cam_objects.specs.Cells.{object_boxes};
ghost use Rattle.cam_objects.specs.Machinery.ObjectCells.{AreMeasurable, AreObjectCells, HasCells};
ghost use Rattle.cam_objects.specs.Soundness.{IsSoundEntry};
ghost use Rattle.cam_objects.specs.Weights.{object_count, weight_in};

use crate::boxes::extent::Extent;
use crate::cells::item_list::BoxedItems;
use crate::cells::kept::ItemCells;
use crate::cells::reach::{Measure, Reach};
use crate::checks::facts::leaf_count;
use crate::dictionary::Dictionary;
use crate::entry::Entry;
use crate::object::Object;
use std::alloc::Global;
use std::marker::Model;

/// Reads the boxes of objects: an aperture that the object read before named is not looked up again.
#[derive(Drop)]
pub(crate) struct ObjectBoxes<'a> {
    entries: &'a Dictionary,
    objects: &'a [Object],
    last: Extent,
}

impl<'a> Model for ObjectBoxes<'a> {
    ghost use Rattle.std.specs.Prelude.{ℕ, List};
    ghost use Rattle.cam_objects.specs.declared.entry.Entry.{Entry};
    ghost use Rattle.cam_objects.specs.declared.object.Object.{Object};

    ghost Value = { List (ℕ × Entry) × List Object };

    ghost use Rattle.cam_objects.specs.Machinery.Extents.{IsExtentIn};
    ghost use Rattle.cam_objects.specs.Machinery.ObjectCells.{AreMeasurable};

    ghost view = { λ r. (r.entries.now, r.objects.now) };

    ghost invariant = { λ r. AreMeasurable r.entries.now r.objects.now
        × IsExtentIn r.entries.now r.last };
}

impl<'a> ObjectBoxes<'a> {
    /// Of the objects of a block or of a repeat.
    pub(crate) fn of(entries: &'a Dictionary, objects: &'a [Object]) -> ObjectBoxes<'a>
        requires { AreMeasurable entries.now objects.now }
        ensures { result ≡ (entries.now, objects.now) }
    {
        ObjectBoxes {
            entries,
            objects,
            last: Extent::none(entries),
        }
    }
}

impl<'a> BoxedItems for ObjectBoxes<'a> {
    ghost boxes = { λ r. object_boxes r.0 r.1 };

    ghost leaf_counts = { λ r. map (object_count (weight_in r.0)) r.1 };

    fn count(&self) -> usize {
        self.objects.len()
    }

    fn leaf_count(&self) -> u64 {
        leaf_count(self.entries, self.objects)
    }

    fn measure_at(&mut self, place: usize) -> Measure {
        let entries = self.entries;
        let object = &self.objects[place];
        Measure {
            reach: Reach::of(self.last.object_bounds(entries, object)),
            leaves: entries.leaf_count(object),
        }
    }
}

/// The cells of objects; where memory is refused, those of none of them.
pub(crate) fn object_cells(alloc: Global, entries: &Dictionary, objects: &[Object]) -> ItemCells
    requires { AreMeasurable entries.now objects.now }
    ensures { AreObjectCells entries.now objects.now result }
{
    let mut boxes = ObjectBoxes::of(entries, objects);
    let (cells, _) = ItemCells::of(alloc, &mut boxes);
    cells
}

/// The cells of the objects of an entry that joins these.
pub(crate) fn entry_cells(alloc: Global, entries: &Dictionary, entry: &Entry) -> ItemCells
    requires { IsSoundEntry entries.now entry.now }
    ensures { HasCells entries.now entry.now result }
{
    entries.soundness();
    match entry {
        Entry::Aperture(_) => ItemCells::none(alloc),
        Entry::Block(objects) => object_cells(alloc, entries, objects.as_slice()),
    }
}
