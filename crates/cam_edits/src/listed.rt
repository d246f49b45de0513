//! What sheets list, thing by thing.

use cam_objects::{DrillItem, Entry, Item};
use cam_units::Nm;

/// An item of a layer of one of two kinds.
#[derive(Clone, Copy)]
pub enum ListedItem<'a> {
    Gerber(&'a Item),
    Drill(&'a DrillItem),
}

/// A definition of a layer: an aperture or a block under its number, or the diameter of a tool, in nm.
#[derive(Clone, Copy)]
pub enum ListedEntry<'a> {
    Numbered { number: u32, entry: &'a Entry },
    Sized { tool: u16, diameter: Nm },
}
