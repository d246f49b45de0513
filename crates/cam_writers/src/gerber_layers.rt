//! The text of a Gerber layer.

ghost use Rattle.std.specs.Prelude.{◌≡◌, ◌++◌, [], All, IfOk, OnOk, fold};
ghost use Rattle.cam_objects.specs.Soundness.{IsSound, objects_of};
ghost use Rattle.cam_objects.specs.Contents.{content_of};
ghost use Rattle.cam_gerber.specs.Computing.{reading_of};
ghost use Rattle.cam_writers.specs.GerberTexts.{Phrases, gerber_text, text_of, with_entry, with_item};
ghost use Rattle.cam_writers.specs.Machinery.Tracking.{ArePoints, AreEntryPoints, TracksPhrases};

use crate::gerber_apertures::push_definition;
use crate::gerber_commands::{push_extended, push_open_block, push_open_repeat, push_word};
use crate::gerber_macros::push_macro;
use crate::gerber_state::GerberText;
use cam_apertures::Aperture;
use cam_objects::{Dictionary, Entry, Item, Layer, Object};
use cam_units::Nm;
use std::alloc::{AllocError, Global};

/// Writes the definition of an aperture at the text's end, as canonical texts have it, behind that of the macro that it
/// is made of, where it is made of one: `%ADD10C,0.500000*%`. An error where memory is refused; the text then has a part
/// of it.
pub fn push_aperture(text: &mut Vec<u8>, number: u32, aperture: &Aperture) -> Result<(), AllocError>
    ensures { OnOk result
        (text.new.items ≡ text.old.items ++ text_of (with_entry [] (number, Entry.Aperture aperture.now))) }
{
    if let Aperture::Prims(primitives) = aperture {
        push_macro(text, number, primitives)?;
    }
    push_definition(text, number, aperture)
}

impl GerberText {
    /// Writes an entry of the dictionary.
    fn write_entry(&mut self, number: u32, entry: &Entry) -> Result<(), AllocError>
        requires { AreEntryPoints entry.now }
        ensures { (phrases : Phrases) → TracksPhrases phrases self.old
            → OnOk result (TracksPhrases (with_entry phrases (number, entry.now)) self.new) }
    {
        match entry {
            Entry::Aperture(aperture) => push_aperture(&mut self.text, number, aperture),
            Entry::Block(objects) => {
                push_open_block(&mut self.text, number)?;
                self.write_objects(objects.as_slice())?;
                push_extended(&mut self.text, b"AB")
            }
        }
    }

    /// Writes the entries of a dictionary in order.
    fn write_entries(&mut self, entries: &Dictionary) -> Result<(), AllocError>
        requires { All (λ e. AreEntryPoints e.1) entries.now }
        ensures { (phrases : Phrases) → TracksPhrases phrases self.old
            → OnOk result (TracksPhrases (fold with_entry phrases entries.now) self.new) }
    {
        for place in 0..entries.len() {
            if let Some((number, entry)) = entries.at(place) {
                self.write_entry(number, entry)?;
            }
        }
        Ok(())
    }

    /// Writes a repeat of so many columns and rows, so far apart.
    fn write_repeat(
        &mut self,
        columns: u32,
        rows: u32,
        i: Nm,
        j: Nm,
        objects: &[Object],
    ) -> Result<(), AllocError>
        requires { All ArePoints objects.now }
        ensures { (phrases : Phrases) → TracksPhrases phrases self.old → OnOk result
            (TracksPhrases (with_item phrases (Item.Repeat columns rows i.0 j.0 objects.now)) self.new) }
    {
        push_open_repeat(&mut self.text, columns, rows, i, j)?;
        self.write_objects(objects)?;
        push_extended(&mut self.text, b"SR")
    }

    /// Writes an item.
    fn write_item(&mut self, item: &Item) -> Result<(), AllocError>
        requires { All ArePoints (objects_of item.now) }
        ensures { (phrases : Phrases) → TracksPhrases phrases self.old
            → OnOk result (TracksPhrases (with_item phrases item.now) self.new) }
    {
        match item {
            Item::One(object) => self.write_object(object),
            Item::Repeat {
                columns,
                rows,
                i,
                j,
                objects,
            } => self.write_repeat(*columns, *rows, Nm(*i), Nm(*j), objects.as_slice()),
        }
    }
}

/// The canonical text of a sound layer, a Gerber file; an error where no memory is left for it. It
/// is read as the same file attributes, dictionary and items.
///
/// (Gerber Layer Format Specification, "File attributes (TF)", "Graphics state", "Aperture dictionary", "Block
/// aperture (AB)", "Step and repeat (SR)" and "Region statement (G36/G37)".)
pub fn gerber_text(alloc: Global, layer: &Layer) -> Result<Vec<u8>, AllocError>
    requires { IsSound layer.now }
    ensures text { IfOk result (λ text.
        text.items ≡ gerber_text layer.now.attributes.items layer.now.apertures layer.now.items.items) }
    ensures reads_back { IfOk result (λ text. reading_of text.items ≡ Ok (content_of layer.now)) }
{
    let mut written = GerberText::new(alloc, layer.attributes())?;
    written.write_entries(layer.entries())?;
    for item in layer.items() {
        written.write_item(item)?;
    }
    push_word(&mut written.text, b"M02")?;
    Ok(written.text)
}
