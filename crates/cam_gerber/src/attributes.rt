//! The file attributes so far.

ghost use Rattle.std.specs.Prelude.{◌≡◌, ℕ, List, ◌++◌, ◌∷◌, [], None, OnErr, OnOk, length, nat_lt};
ghost use Rattle.cam_objects.specs.Attributes.{attribute_of, attribute_place, with_attribute};
ghost use Rattle.cam_refusals.specs.Limits.{attribute_limit};
ghost use Rattle.cam_commands.specs.Commands as command;
ghost use Rattle.cam_commands.specs.declared.names.FreeText.TheVariants.{FileAttribute};
ghost use Rattle.cam_gerber.specs.Attributes.{attribute_fields, attribute_name};
ghost use Rattle.cam_gerber.specs.Machinery.Tracking.{Takes};

use crate::running::Running;
use cam_commands::FreeText;
use cam_objects::Attribute;
use cam_refusals::limits::ATTRIBUTE_LIMIT;
use cam_refusals::{Refusal, Stop};
use cam_units::Items;
use cam_words::len_before;
use indexmap::IndexSet;
use std::alloc::{AllocError, Global};
use std::marker::Model;

/// File attributes in the order in which their names first appeared, each found by its name.
#[derive(Drop)]
pub struct Attributes {
    list: Vec<Attribute>,
    names: IndexSet<Vec<u8>>,
}

impl Model for Attributes {
    ghost use Rattle.std.specs.Prelude.{List};
    ghost use Rattle.cam_objects.specs.declared.attribute.Attribute.{Attribute};

    ghost Value = { List Attribute };

    ghost use Rattle.cam_gerber.specs.Machinery.Names.{AreNamesOf};

    ghost view = { λ a. a.list.items };

    ghost invariant = { λ a. AreNamesOf a.list.items a.names.keys };
}

impl Attributes {
    /// No attribute.
    pub fn new(alloc: Global) -> Attributes
        ensures { result ≡ [] }
    {
        Attributes {
            list: Vec::new(alloc),
            names: IndexSet::new(alloc),
        }
    }

    /// How many attributes there are.
    pub fn len(&self) -> usize
        ensures { result ≡ length self.now }
    {
        self.list.len()
    }

    /// The place of the attribute with this name, counted from 0.
    pub fn place(&self, name: &[u8]) -> Option<usize>
        ensures { result ≡ attribute_place name.now self.now }
    {
        self.names.get_index_of(name)
    }

    /// Whether there are more than 1,000 attributes with one of this name.
    pub fn is_full_for(&self, name: &[u8]) -> bool
        ensures { (fields : List ℕ)
            → result ≡ nat_lt attribute_limit (length (with_attribute (attribute_of name.now fields) self.now)) }
    {
        match self.place(name) {
            Some(_) => self.len() > ATTRIBUTE_LIMIT,
            None => self.len() >= ATTRIBUTE_LIMIT,
        }
    }

    /// Sets an attribute: one that has the name keeps its place and takes the fields, another goes behind the others.
    pub fn set(&mut self, alloc: Global, name: &[u8], fields: &[u8]) -> Result<(), AllocError>
        ensures { OnOk result (self.new ≡ with_attribute (attribute_of name.now fields.now) self.old) }
    {
        match self.place(name) {
            Some(place) => {
                self.list[place].fields = Items::from_vec(Vec::from_slice(alloc, fields)?);
                Ok(())
            }
            None => self.push(alloc, name, fields),
        }
    }

    /// Adds an attribute of another name behind the others.
    fn push(&mut self, alloc: Global, name: &[u8], fields: &[u8]) -> Result<(), AllocError>
        requires { attribute_place name.now self.old ≡ None }
        ensures { OnOk result (self.new ≡ self.old ++ attribute_of name.now fields.now ∷ []) }
    {
        self.names.insert(Vec::from_slice(alloc, name)?)?;
        match add(alloc, name, fields, &mut self.list) {
            Ok(()) => Ok(()),
            Err(error) => {
                self.names.truncate(self.list.len());
                Err(error)
            }
        }
    }

    /// The attributes, in order.
    pub fn into_vec(self) -> Vec<Attribute>
        ensures { result.items ≡ self }
    {
        let Attributes { list, .. } = self;
        list
    }
}

/// Adds an attribute to the list, or leaves the list as it is.
fn add(
    alloc: Global,
    name: &[u8],
    fields: &[u8],
    list: &mut Vec<Attribute>,
) -> Result<(), AllocError>
    ensures ok { OnOk result (list.new.items ≡ list.old.items ++ attribute_of name.now fields.now ∷ []) }
    ensures err { OnErr result (list.new.items ≡ list.old.items) }
{
    let name = Items::from_vec(Vec::from_slice(alloc, name)?);
    let fields = Items::from_vec(Vec::from_slice(alloc, fields)?);
    list.push(Attribute { name, fields })?;
    Ok(())
}

/// The name of a file attribute, and its fields, of what stands behind `TF`.
fn split(text: &[u8]) -> (&[u8], &[u8])
    ensures name { result.0.now ≡ attribute_name text.now }
    ensures fields { result.1.now ≡ attribute_fields text.now }
{
    let comma = len_before(b',', text);
    (&text[..comma], &text[comma..])
}

impl Running {
    /// TF: a file attribute is set.
    fn set_attribute(&mut self, text: &[u8]) -> Result<(), Stop>
        ensures { Takes (command.KeepText FileAttribute text.now) self.old result self.new }
    {
        let (name, fields) = split(text);
        if self.attributes.is_full_for(name) {
            return Err(Stop::Fault(Refusal::TooMuch));
        }
        self.attributes.set(self.alloc, name, fields)?;
        Ok(())
    }

    /// An attribute or a name: of a file attribute alone something is kept.
    pub fn keep_text(&mut self, name: FreeText, text: &[u8]) -> Result<(), Stop>
        ensures { Takes (command.KeepText name text.now) self.old result self.new }
    {
        match name {
            FreeText::FileAttribute => self.set_attribute(text),
            FreeText::ApertureAttribute
            | FreeText::ObjectAttribute
            | FreeText::DeleteAttribute
            | FreeText::ImageName
            | FreeText::LoadName => Ok(()),
        }
    }
}
