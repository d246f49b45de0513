//! The checks of a layer: whether an item or an entry may join it.

ghost use Rattle.std.specs.Prelude.{◌≡◌, ◌↔◌, IsTrue};
ghost use Rattle.cam_refusals.specs.Checks.{answer_of, first_holding};
ghost use Rattle.cam_objects.specs.Soundness.{IsSoundBlock, MayAddEntry, item_checks};
ghost use Rattle.cam_objects.specs.declared.item.Item.TheVariants.{One, Repeat};

use crate::checks::demands::{
    are_drawable, are_formed, are_known, has_number, has_radius, have_radii, is_drawable,
    is_formed, is_known,
};
use crate::checks::facts::{depth, leaf_count};
use crate::checks::inside::{is_object_inside, is_repeat_inside};
use crate::checks::room::{fits_repeat, has_few_segs};
use crate::dictionary::Dictionary;
use crate::entry::Entry;
use crate::item::Item;
use crate::item_fault::ItemFault;
use crate::layer::Layer;
use crate::limits::{FIRST_NUMBER, LAST_NUMBER};
use crate::object::Object;
use crate::placing::copies::Copies;
use cam_refusals::limits::{COUNT_LIMIT, DEPTH_LIMIT, LEAF_LIMIT};

impl Layer {
    /// Whether the item is sound beside the layer's dictionary, or the first of its faults.
    pub fn check_item(&self, item: &Item) -> Result<(), ItemFault>
        ensures { result ≡ answer_of (first_holding (item_checks self.now.apertures item.now)) }
    {
        match item {
            Item::One(object) => self.apertures.check_object(object),
            Item::Repeat { objects, .. } => {
                let copies = item.copies();
                check_repeat(&self.apertures, &copies, objects.as_slice())
            }
        }
    }

    /// Whether the entry may be added under the number, from 10 to 2,147,483,647 and new: a sound aperture, or a
    /// block of sound objects that name entries of the layer, with at most 1,000,000 objects and 4,000,000 leaves,
    /// and at most 8 blocks in one another.
    pub fn check_entry(&self, number: u32, entry: &Entry) -> bool
        ensures { IsTrue result ↔ MayAddEntry self.now.apertures number entry.now }
    {
        if number < FIRST_NUMBER || number > LAST_NUMBER {
            return false;
        }
        if has_number(&self.apertures, number) {
            return false;
        }
        match entry {
            Entry::Aperture(aperture) => aperture.is_sound(),
            Entry::Block(objects) => is_sound_block(&self.apertures, objects.as_slice()),
        }
    }
}

impl Dictionary {
    /// Whether the object is sound as an item beside these entries, or the first of its faults.
    #[tactic(auto, unfolding(crate::specs::Soundness::item_checks, crate::specs::Soundness::is_within_limits))]
    pub fn check_object(&self, object: &Object) -> Result<(), ItemFault>
        ensures { result ≡ answer_of (first_holding (item_checks self.now (One object.now))) }
    {
        if !is_formed(object) {
            return Err(ItemFault::Malformed);
        }
        if !is_known(self, object) {
            return Err(ItemFault::UnknownAperture);
        }
        if !is_drawable(self, object) {
            return Err(ItemFault::WrongAperture);
        }
        if !has_radius(object) {
            return Err(ItemFault::ZeroRadius);
        }
        if !is_object_inside(self, object) {
            return Err(ItemFault::OutOfBoard);
        }
        if !has_few_segs(object) || self.leaf_count(object) > LEAF_LIMIT {
            return Err(ItemFault::TooMuch);
        }
        Ok(())
    }
}

/// Whether the repeat is sound as an item beside the entries, or the first of its faults.
#[tactic(auto, unfolding(crate::specs::Soundness::item_checks, crate::specs::Soundness::is_within_limits))]
fn check_repeat(entries: &Dictionary, copies: &Copies, objects: &[Object]) -> Result<(), ItemFault>
    ensures { result
        ≡ answer_of (first_holding (item_checks entries.now
        (Repeat copies.now.columns copies.now.rows copies.now.i copies.now.j objects.now))) }
{
    if copies.count() <= 1 || objects.is_empty() || !are_formed(objects) {
        return Err(ItemFault::Malformed);
    }
    if !are_known(entries, objects) {
        return Err(ItemFault::UnknownAperture);
    }
    if !are_drawable(entries, objects) {
        return Err(ItemFault::WrongAperture);
    }
    if !have_radii(objects) {
        return Err(ItemFault::ZeroRadius);
    }
    if !is_repeat_inside(entries, copies, objects) {
        return Err(ItemFault::OutOfBoard);
    }
    if !fits_repeat(entries, copies.count(), objects) {
        return Err(ItemFault::TooMuch);
    }
    Ok(())
}

/// Whether a block of the objects is sound behind the others.
fn is_sound_block(entries: &Dictionary, objects: &[Object]) -> bool
    ensures { IsTrue result ↔ IsSoundBlock entries.now objects.now }
{
    if objects.len() > COUNT_LIMIT {
        return false;
    }
    objects
        .iter()
        .all(|object| entries.check_object(object).is_ok())
        && leaf_count(entries, objects) <= LEAF_LIMIT
        && depth(entries, objects) <= DEPTH_LIMIT
}
