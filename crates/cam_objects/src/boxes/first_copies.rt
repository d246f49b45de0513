//! The first copies of the repeats of a layer.

ghost use Rattle.std.specs.Prelude.{◌≡◌, ◌==◌, ◌+◌, ◌<◌, ◌≤◌, ◌^◌, [], IfSome, List, Some, filter, insert, length, map, not, remove, slice_get, ℕ};
ghost use Rattle.cam_objects.specs.Cells.{AreFirstCopiesOf, IsFirstCopyOf};
ghost use Rattle.cam_objects.specs.Machinery.FirstCopies.{once_gone};
ghost use Rattle.cam_objects.specs.Soundness.{HasSoundItems};
ghost use Rattle.cam_objects.specs.declared.entry.Entry.{Entry};
ghost use Rattle.cam_objects.specs.declared.item.Item.{Item};

use crate::boxes::first_copy::FirstCopy;
use crate::layer::Layer;
use std::alloc::Global;
use std::marker::Model;

/// The first copies of the repeats of a layer that have many objects, one after another. Found once, they follow the edits
/// of the layer; that of a repeat that comes is not known.
#[derive(Drop)]
pub struct FirstCopies {
    found: Vec<FirstCopy>,
}

impl Model for FirstCopies {
    ghost use Rattle.std.specs.Prelude.{List};
    ghost use Rattle.cam_objects.specs.Cells.{FirstCopied};

    ghost Value = { List FirstCopied };

    ghost view = { λ c. c.found.items };
}

/// Lets that of the item at a place go.
fn let_go(found: &mut Vec<FirstCopy>, place: usize)
    ensures { found.new.items ≡ filter (λ first. not (first.place == place)) found.old.items }
{
    found.retain(|first| first.place != place);
}

/// Lets the others follow an item that left a place.
fn close_gap(found: &mut Vec<FirstCopy>, place: usize)
    ensures { found.new.items ≡ map (once_gone place) found.old.items }
{
    for first in found.iter_mut() {
        first.close_gap(place);
    }
}

impl FirstCopies {
    /// Of no repeat.
    pub fn none(alloc: Global) -> FirstCopies
        ensures { result ≡ [] }
    {
        FirstCopies {
            found: Vec::new(alloc),
        }
    }

    /// That of the item at a place of the list, counted from 0, if it is known.
    pub fn at(&self, place: usize) -> Option<&FirstCopy>
        ensures { (entries : List (ℕ × Entry)) (items : List Item) (item : Item) → AreFirstCopiesOf entries items self.now
            → slice_get items place ≡ Some item → IfSome result (λ first. IsFirstCopyOf entries item first.now) }
    {
        match self.found.binary_search_by_key(&place, |first| first.place) {
            Ok(at) => Some(&self.found[at]),
            Err(_) => None,
        }
    }

    /// Follows an item that came to a place, counted from 0, of which nothing is known. Takes no memory.
    pub fn insert(&mut self, place: usize)
        ensures { (entries : List (ℕ × Entry)) (before : List Item) (item : Item) → AreFirstCopiesOf entries before self.old
            → place ≤ length before → length before + 1 < 2 ^ 64
            → AreFirstCopiesOf entries (insert before place item) self.new }
    {
        for first in self.found.iter_mut() {
            first.make_room(place);
        }
    }

    /// Follows an item that left its place, counted from 0. Takes no memory.
    pub fn remove(&mut self, place: usize)
        ensures { (entries : List (ℕ × Entry)) (before : List Item) → AreFirstCopiesOf entries before self.old
            → place < length before → AreFirstCopiesOf entries (remove before place) self.new }
    {
        let_go(&mut self.found, place);
        close_gap(&mut self.found, place);
    }

    /// Reads that of the item at a place, counted from 0, anew, which has changed there, if it is known. Takes no memory.
    pub fn renew(&mut self, layer: &Layer, place: usize)
        requires sound { HasSoundItems layer.now }
        requires within { place < length layer.now.items.items }
        ensures { (before : List Item) (item : Item) → AreFirstCopiesOf layer.now.apertures before self.old
            → place < length before → layer.now.items.items ≡ insert (remove before place) place item
            → AreFirstCopiesOf layer.now.apertures layer.now.items.items self.new }
    {
        for first in self.found.iter_mut() {
            first.renew(layer, place);
        }
    }
}

impl Layer {
    /// The first copies of all repeats of many objects of a sound layer, as far as there is memory for them.
    pub fn first_copies(&self, alloc: Global) -> FirstCopies
        requires { HasSoundItems self.now }
        ensures { AreFirstCopiesOf self.now.apertures self.now.items.items result }
    {
        let mut found = Vec::new(alloc);
        for place in 0..self.items.len() {
            if let Some(first) = self.first_copy(alloc, place) {
                let _ = found.push(first);
            }
        }
        FirstCopies { found }
    }
}
