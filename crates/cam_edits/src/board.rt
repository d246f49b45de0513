//! Boards: named layers in order.

ghost use Rattle.std.specs.Prelude.{◌≡◌, ◌<◌, ◌==◌, ◌++◌, ◌∷◌, [], IfSome, OnErr, OnOk, length, option_map, position, slice_get};
ghost use Rattle.std.specs.Option.{option_copied};
ghost use Rattle.std.specs.Str.{bytes_eq};
ghost use Rattle.cam_edits.specs.Machinery.Room.{HasPlaces};
ghost use Rattle.cam_edits.specs.Boards.{content_at, place_named};
ghost use Rattle.cam_edits.specs.Sheets.{content_of, entry_count, item_count, sheet_of, sheets_of};

use crate::indexed::IndexedLayer;
use crate::indexed_drill::IndexedDrillLayer;
use crate::name::Name;
use std::alloc::{AllocError, Global};

/// A layer of one of two kinds.
#[derive(Drop)]
pub enum SheetContent {
    Gerber(IndexedLayer),
    Drill(IndexedDrillLayer),
}

impl SheetContent {
    /// How many items there are.
    pub fn item_count(&self) -> usize
        ensures { result ≡ item_count (content_of self.now) }
    {
        match self {
            SheetContent::Gerber(layer) => layer.layer().items().len(),
            SheetContent::Drill(layer) => layer.layer().items().len(),
        }
    }

    /// How many apertures and blocks, or tools, are defined.
    pub fn entry_count(&self) -> usize
        ensures { result ≡ entry_count (content_of self.now) }
    {
        match self {
            SheetContent::Gerber(layer) => layer.layer().entries().len(),
            SheetContent::Drill(layer) => layer.layer().tools().len(),
        }
    }

    /// Makes room for so many items more, and for so many attributes; refused for want of memory alone. The content
    /// stays.
    pub(crate) fn reserve(&mut self, items: usize, attributes: usize) -> Result<(), AllocError>
        ensures content { content_of self.new ≡ content_of self.old }
        ensures room { OnOk result (HasPlaces items attributes self.new) }
    {
        match self {
            SheetContent::Gerber(layer) => layer.reserve(items, attributes),
            SheetContent::Drill(layer) => layer.reserve(items),
        }
    }
}

/// A layer under its name.
#[derive(Drop)]
pub struct Sheet {
    pub name: Name,
    pub content: SheetContent,
}

/// The sheets, in the order in which they were added.
#[derive(Drop)]
pub struct Board {
    pub sheets: Vec<Sheet>,
}

impl Board {
    /// No sheet.
    pub fn new(alloc: Global) -> Board
        ensures { sheets_of result ≡ [] }
    {
        Board {
            sheets: Vec::new(alloc),
        }
    }

    /// How many sheets there are.
    pub fn len(&self) -> usize
        ensures { result ≡ length (sheets_of self.now) }
    {
        self.sheets.len()
    }

    /// Whether there is no sheet.
    pub fn is_empty(&self) -> bool
        ensures { result ≡ (length (sheets_of self.now) == 0) }
    {
        self.sheets.is_empty()
    }

    /// The place, from 0, of the first sheet of this name.
    pub fn place(&self, name: &Name) -> Option<usize>
        ensures value { result ≡ place_named name.now (sheets_of self.now) }
        ensures within { IfSome result (λ place. place < length (sheets_of self.now)) }
    {
        place_among(&self.sheets, name)
    }

    /// The sheet at a place, counted from 0.
    pub fn sheet(&self, place: usize) -> Option<&Sheet>
        ensures { option_map sheet_of (option_copied result) ≡ slice_get (sheets_of self.now) place }
    {
        self.sheets.get(place)
    }

    /// What the sheet at a place holds.
    pub fn content(&self, place: usize) -> &SheetContent
        requires { place < length (sheets_of self.now) }
        ensures { content_of result.now ≡ content_at (sheets_of self.now) place }
    {
        &self.sheets[place].content
    }

    /// Adds a sheet behind the others; refused for want of memory alone.
    pub fn add(&mut self, sheet: Sheet) -> Result<(), AllocError>
        ensures ok { OnOk result (sheets_of self.new ≡ sheets_of self.old ++ sheet_of sheet ∷ []) }
        ensures err { OnErr result (sheets_of self.new ≡ sheets_of self.old) }
    {
        self.sheets.push(sheet)?;
        Ok(())
    }
}

/// The place, from 0, of the first of the sheets that has this name.
fn place_among(sheets: &[Sheet], name: &Name) -> Option<usize>
    ensures value { result ≡ position (λ s. bytes_eq s.name name.now) sheets.now }
    ensures within { IfSome result (λ place. place < length sheets.now) }
{
    sheets
        .iter()
        .position(|sheet| sheet.name.as_str() == name.as_str())
}
