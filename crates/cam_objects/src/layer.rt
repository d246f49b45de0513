//! Layers.

ghost use Rattle.std.specs.Prelude.{◌≡◌, ◌≤◌, ◌++◌, ◌∷◌, ◌↔◌, [], IfOk, IsTrue, OnErr, OnOk};
ghost use Rattle.cam_units.specs.Board.{IsPlace};
ghost use Rattle.cam_objects.specs.Attributes.{MaySet, attribute_of, attribute_place, with_attribute};
ghost use Rattle.cam_objects.specs.Image.{IsBlack};
ghost use Rattle.cam_objects.specs.Leaves.{leaves_of};
ghost use Rattle.cam_objects.specs.Soundness.{HasSoundItems, IsSoundItem, KeepsLimits, MayAddEntry};
ghost use Rattle.cam_objects.specs.Tests.{is_black};

use crate::attribute::Attribute;
use crate::dictionary::Dictionary;
use crate::entry::Entry;
use crate::image::Pixel;
use crate::item::Item;
use cam_units::{Items, Spot};
use std::alloc::{AllocError, Global};

/// A layer (Gerber Layer Format Specification): its file attributes, its dictionary of apertures and blocks, and
/// what it paints, in order.
///
/// It is sound where the attributes are sound and no name stands twice, each entry might have been added to those
/// before it, every item is sound, and the limits hold: at most 1,000 attributes, at most 1,000,000 items, and at
/// most 4,000,000 leaves. The attributes change nothing of what it paints.
#[derive(Clone, Drop)]
pub struct Layer {
    pub attributes: Vec<Attribute>,
    pub apertures: Dictionary,
    pub items: Vec<Item>,
}

impl Layer {
    /// No attribute, no entry and no item.
    pub fn new(alloc: Global) -> Layer
        ensures attributes { result.attributes.items ≡ [] }
        ensures apertures { result.apertures ≡ [] }
        ensures items { result.items.items ≡ [] }
    {
        Layer {
            attributes: Vec::new(alloc),
            apertures: Dictionary::new(alloc),
            items: Vec::new(alloc),
        }
    }

    /// Adds an entry behind the others; refused for want of memory alone.
    pub fn add_entry(&mut self, number: u32, entry: Entry) -> Result<(), AllocError>
        requires { MayAddEntry self.old.apertures number entry }
        ensures ok { OnOk result (self.new.apertures ≡ self.old.apertures ++ (number, entry) ∷ []) }
        ensures err { OnErr result (self.new.apertures ≡ self.old.apertures) }
        ensures items { self.new.items ≡ self.old.items }
        ensures attributes { self.new.attributes ≡ self.old.attributes }
    {
        self.apertures.push(number, entry)
    }

    /// Adds an item behind the others; refused for want of memory alone.
    pub fn push(&mut self, item: Item) -> Result<(), AllocError>
        requires item { IsSoundItem self.old.apertures item }
        requires room { KeepsLimits self.old.apertures (self.old.items.items ++ item ∷ []) }
        ensures ok { OnOk result (self.new.items.items ≡ self.old.items.items ++ item ∷ []) }
        ensures err { OnErr result (self.new.items.items ≡ self.old.items.items) }
        ensures apertures { self.new.apertures ≡ self.old.apertures }
        ensures attributes { self.new.attributes ≡ self.old.attributes }
    {
        self.items.push(item)?;
        Ok(())
    }

    /// Sets a file attribute: one that has the name keeps its place and takes the fields, another goes behind the
    /// others. Refused for want of memory alone.
    pub fn set_attribute(&mut self, name: Items<u8>, fields: Items<u8>) -> Result<(), AllocError>
        requires { MaySet self.old.attributes.items (attribute_of name fields) }
        ensures ok { OnOk result
            (self.new.attributes.items ≡ with_attribute (attribute_of name fields) self.old.attributes.items) }
        ensures err { OnErr result (self.new.attributes.items ≡ self.old.attributes.items) }
        ensures apertures { self.new.apertures ≡ self.old.apertures }
        ensures items { self.new.items ≡ self.old.items }
    {
        let place = self.attribute_place(name.as_slice());
        let attribute = Attribute { name, fields };
        match place {
            Some(place) => self.attributes[place] = attribute,
            None => self.attributes.push(attribute)?,
        }
        Ok(())
    }

    /// The place of the file attribute with this name, counted from 0. Takes no memory.
    pub fn attribute_place(&self, name: &[u8]) -> Option<usize>
        ensures { result ≡ attribute_place name.now self.now.attributes.items }
    {
        self.attributes
            .iter()
            .position(|attribute| attribute.name.as_slice() == name)
    }

    /// The file attributes, in order.
    pub fn attributes(&self) -> &[Attribute]
        ensures { result.now ≡ self.now.attributes.items }
    {
        self.attributes.as_slice()
    }

    /// The dictionary.
    pub fn entries(&self) -> &Dictionary
        ensures { result.now ≡ self.now.apertures }
    {
        &self.apertures
    }

    /// The items, in order.
    pub fn items(&self) -> &[Item]
        ensures { result.now ≡ self.now.items.items }
    {
        self.items.as_slice()
    }

    /// A copy of the layer in memory of its own, from the allocator of this one.
    pub fn try_copy(&self) -> Result<Layer, AllocError>
        ensures attributes { IfOk result (λ copy. copy.attributes.items ≡ self.now.attributes.items) }
        ensures apertures { IfOk result (λ copy. copy.apertures ≡ self.now.apertures) }
        ensures items { IfOk result (λ copy. copy.items.items ≡ self.now.items.items) }
    {
        self.clone()
    }
}

impl Layer {
    /// Whether a place, in half nm, is black: a leaf covers it, and the last one that does is dark.
    pub fn black_at(&self, spot: Spot) -> bool
        requires sound { HasSoundItems self.now }
        requires spot { IsPlace spot }
        ensures image { IsTrue result ↔ IsBlack (leaves_of self.now.apertures self.now.items.items) spot }
        ensures test { result ≡ is_black (leaves_of self.now.apertures self.now.items.items) spot }
    {
        let mut pixel = Pixel::at(spot);
        self.paint(&mut pixel);
        pixel.is_dark()
    }
}
