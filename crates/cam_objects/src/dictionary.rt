//! The dictionary of a layer.

ghost use Rattle.std.specs.Prelude.{
  ◌≡◌,
  ◌+◌,
  ◌==◌,
  ◌++◌,
  ◌∷◌,
  ◌<◌,
  ◌≤◌,
  ℕ,
  [],
  None,
  Some,
  IfNone,
  IfSome,
  OnErr,
  OnOk,
  length,
  nat_eq,
  slice_get,
  take,
  vec_capacity,
  vec_len,
};
ghost use Rattle.std.specs.List.{IsDistinct};
ghost use Rattle.std.specs.Map.{keys_of, lookup};
ghost use Rattle.indexmap.specs.IndexMap.{spare};
ghost use Rattle.cam_refusals.specs.Limits.{depth_limit, leaf_limit};
ghost use Rattle.cam_objects.specs.Machinery.Boxes.{IsNearBox};
ghost use Rattle.cam_objects.specs.Machinery.Facts.{facts_at};
ghost use Rattle.cam_objects.specs.Machinery.Inside.{IsBoxOnBoard};
ghost use Rattle.cam_objects.specs.Machinery.ObjectCells.{HasCells};
ghost use Rattle.cam_objects.specs.Soundness.{IsSoundDictionary, MayAddEntry};
ghost use Rattle.cam_objects.specs.Weights.{object_count, object_depth, weight_in};
ghost use Rattle.cam_objects.specs.declared.entry.Entry.{Entry};

use crate::boxes::object_boxes::entry_cells;
use crate::cells::kept::ItemCells;
use crate::checks::facts::{Facts, NO_FACTS};
use crate::entry::Entry;
use crate::object::Object;
use indexmap::IndexMap;
use std::alloc::{AllocError, Global};
use std::marker::Model;

/// The dictionary of a layer: apertures and blocks by their numbers, in the order in which they
/// were added. No number stands twice, and each entry might have been added to those before it.
#[derive(Drop)]
pub struct Dictionary {
    map: IndexMap<u32, Entry>,
    facts: Vec<Facts>,
    cells: Vec<ItemCells>,
    /// Of small numbers where each stands in the order; of one that is none, some other place.
    places: Vec<usize>,
    alloc: Global,
}

/// From which number on places are not kept. Nearly all boards have smaller ones alone.
const KEPT_PLACES: u32 = 4_096;

impl Model for Dictionary {
    ghost use Rattle.std.specs.Prelude.{List, ℕ};
    ghost use Rattle.cam_objects.specs.declared.entry.Entry.{Entry};

    ghost Value = { List (ℕ × Entry) };

    ghost use Rattle.cam_objects.specs.Machinery.Facts.{IsKept};
    ghost use Rattle.cam_objects.specs.Machinery.ObjectCells.{AreCellsKept};

    ghost view = { λ d. d.map.entries };

    ghost invariant = { λ d. IsKept d.map.entries d.facts.items × AreCellsKept d.map.entries d.cells.items };
}

impl Clone for Dictionary {
    ghost is_clone = { λ x y. y ≡ x };

    fn clone(&self) -> Result<Dictionary, AllocError> {
        let map = self.map.clone()?;
        let facts = self.facts.clone()?;
        let cells = self.cells.clone()?;
        let places = self.places.clone()?;
        Ok(Dictionary {
            map,
            facts,
            cells,
            places,
            alloc: self.alloc,
        })
    }
}

/// Keeps where a small number stands, if there is memory for it.
fn keep_place(places: &mut Vec<usize>, number: u32, place: usize)
    ensures { number < length places.new.items → slice_get places.new.items number ≡ Some place }
{
    let at = number as usize;
    if number < KEPT_PLACES && places.len() <= at && places.resize(at + 1, 0).is_err() {
        return;
    }
    if let Some(kept) = places.get_mut(at) {
        *kept = place;
    }
}

/// Makes room for one entry more and what is kept of it.
fn make_room(
    map: &mut IndexMap<u32, Entry>,
    facts: &mut Vec<Facts>,
    cells: &mut Vec<ItemCells>,
) -> Result<(), AllocError>
    ensures entries { map.new.entries ≡ map.old.entries }
    ensures facts { facts.new.items ≡ facts.old.items }
    ensures cells { cells.new.items ≡ cells.old.items }
    ensures map_room { OnOk result (0 < spare map.new) }
    ensures facts_room { OnOk result (vec_len facts.new < vec_capacity facts.new) }
    ensures cells_room { OnOk result (vec_len cells.new < vec_capacity cells.new) }
{
    map.reserve(1)?;
    facts.reserve(1)?;
    cells.reserve(1)
}

/// Adds an entry of a new number behind the others, where there is room for it.
fn insert_new(map: &mut IndexMap<u32, Entry>, number: u32, entry: Entry)
    requires room { 0 < spare map.old }
    requires absent { lookup (nat_eq number) map.old.entries ≡ None }
    ensures { map.new.entries ≡ map.old.entries ++ (number, entry) ∷ [] }
{
    map.insert(number, entry).unwrap();
}

impl Dictionary {
    /// No entry.
    pub fn new(alloc: Global) -> Dictionary
        ensures { result ≡ [] }
    {
        Dictionary {
            map: IndexMap::new(alloc),
            facts: Vec::new(alloc),
            cells: Vec::new(alloc),
            places: Vec::new(alloc),
            alloc,
        }
    }

    /// The map of the entries, in their order, without a copy; what is kept beside them is let go.
    pub fn into_map(self) -> IndexMap<u32, Entry>
        ensures { result.entries ≡ self }
    {
        let Dictionary { map, .. } = self;
        map
    }

    /// How many entries there are.
    pub fn len(&self) -> usize
        ensures value { result ≡ length self.now }
        ensures distinct { IsDistinct nat_eq (keys_of self.now) }
    {
        self.map.len()
    }

    /// Each entry might have been added to those before it.
    pub fn soundness(&self)
        ensures { IsSoundDictionary self.now }
    {
        let _entries = &self.map;
    }

    /// Whether there is no entry.
    pub fn is_empty(&self) -> bool
        ensures { result ≡ (length self.now == 0) }
    {
        self.map.is_empty()
    }

    /// The place of a number in the order, counted from 0, and its entry.
    pub fn find(&self, number: u32) -> Option<(usize, &Entry)>
        ensures found { IfSome result (λ r. slice_get self.now r.0 ≡ Some (number, r.1.now)) }
        ensures absent { IfNone result (lookup (nat_eq number) self.now ≡ None) }
        ensures distinct { IsDistinct nat_eq (keys_of self.now) }
    {
        // Each item asks several times, and a hash takes much longer.
        match self.find_by_place(number) {
            Some(found) => Some(found),
            None => self.find_by_hash(number),
        }
    }

    /// The place of a number and its entry, by the hash of the number.
    fn find_by_hash(&self, number: u32) -> Option<(usize, &Entry)>
        ensures found { IfSome result (λ r. slice_get self.now r.0 ≡ Some (number, r.1.now)) }
        ensures absent { IfNone result (lookup (nat_eq number) self.now ≡ None) }
        ensures distinct { IsDistinct nat_eq (keys_of self.now) }
    {
        match self.map.get_full(&number) {
            Some((place, _, entry)) => Some((place, entry)),
            None => None,
        }
    }

    /// The place of a number and its entry, where the place is kept: of small numbers.
    #[inline]
    fn find_by_place(&self, number: u32) -> Option<(usize, &Entry)>
        ensures found { IfSome result (λ r. slice_get self.now r.0 ≡ Some (number, r.1.now)) }
        ensures distinct { IfSome result (λ r. IsDistinct nat_eq (keys_of self.now)) }
    {
        let place = *self.places.get(number as usize)?;
        if place >= self.map.len() {
            return None;
        }
        let (listed, entry) = self.map.get_index(place)?;
        if *listed == number {
            Some((place, entry))
        } else {
            None
        }
    }

    /// The place of a number in the order, counted from 0, its entry, and what is kept of it.
    pub(crate) fn find_with_facts(&self, number: u32) -> Option<(usize, &Entry, &Facts)>
        ensures found { IfSome result (λ r. slice_get self.now r.0 ≡ Some (number, r.1.now)) }
        ensures value { IfSome result (λ r. r.2.now ≡ facts_at self.now number) }
        ensures few { IfSome result (λ r. r.2.now.leaves ≤ leaf_limit) }
        ensures shallow { IfSome result (λ r. r.2.now.depth ≤ depth_limit) }
        ensures near { IfSome result (λ r. IsBoxOnBoard r.2.now.points) }
        ensures reach { IfSome result (λ r. IsNearBox r.2.now.bounds) }
        ensures absent { IfNone result (lookup (nat_eq number) self.now ≡ None) }
        ensures distinct { IsDistinct nat_eq (keys_of self.now) }
    {
        match self.find(number) {
            Some((place, entry)) => Some((place, entry, &self.facts[place])),
            None => None,
        }
    }

    /// The number and the entry at a place in the order, counted from 0.
    pub fn at(&self, place: usize) -> Option<(u32, &Entry)>
        ensures found { IfSome result (λ r. slice_get self.now place ≡ Some (r.0, r.1.now)) }
        ensures past { IfNone result (slice_get self.now place ≡ None) }
    {
        match self.map.get_index(place) {
            Some((number, entry)) => Some((*number, entry)),
            None => None,
        }
    }

    /// What is kept of a number.
    pub(crate) fn facts(&self, number: u32) -> &Facts
        ensures value { result.now ≡ facts_at self.now number }
        ensures few { result.now.leaves ≤ leaf_limit }
        ensures shallow { result.now.depth ≤ depth_limit }
        ensures near { IsBoxOnBoard result.now.points }
        ensures reach { IsNearBox result.now.bounds }
    {
        match self.find_with_facts(number) {
            Some((_, _, facts)) => facts,
            None => &NO_FACTS,
        }
    }

    /// How many leaves an object counts: one, and for a flash of a block those of the block besides.
    pub fn leaf_count(&self, object: &Object) -> u64
        ensures value { result ≡ object_count (weight_in self.now) object.now }
        ensures few { result ≤ leaf_limit + 1 }
    {
        match object {
            Object::Flash { aperture, .. } => 1 + u64::from(self.facts(*aperture).leaves),
            _ => 1,
        }
    }

    /// How many blocks lie in one another in what an object flashes.
    pub fn depth(&self, object: &Object) -> u64
        ensures value { result ≡ object_depth (weight_in self.now) object.now }
        ensures shallow { result ≤ depth_limit }
    {
        match object {
            Object::Flash { aperture, .. } => u64::from(self.facts(*aperture).depth),
            _ => 0,
        }
    }

    /// The cells of the objects of the block at a place in the order, counted from 0.
    pub(crate) fn cells(&self, place: usize) -> &ItemCells
        requires { place < length self.now }
        ensures { (number : ℕ) (entry : Entry) → slice_get self.now place ≡ Some (number, entry)
            → HasCells (take place self.now) entry result.now }
    {
        &self.cells[place]
    }

    /// Adds an entry behind the others; refused for want of memory alone.
    pub fn push(&mut self, number: u32, entry: Entry) -> Result<(), AllocError>
        requires { MayAddEntry self.old number entry }
        ensures ok { OnOk result (self.new ≡ self.old ++ (number, entry) ∷ []) }
        ensures err { OnErr result (self.new ≡ self.old) }
    {
        make_room(&mut self.map, &mut self.facts, &mut self.cells)?;
        let facts = Facts::of(self, &entry);
        let cells = entry_cells(self.alloc, self, &entry);
        let place = self.map.len();
        insert_new(&mut self.map, number, entry);
        self.facts.push_reserved(facts);
        self.cells.push_reserved(cells);
        keep_place(&mut self.places, number, place);
        Ok(())
    }
}
