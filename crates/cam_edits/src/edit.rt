//! Edits, as they are asked for.

use crate::name::Name;
use cam_objects::{DrillItem, Item};
use cam_units::{Items, Nm};

/// An item of a layer of one of two kinds.
#[derive(Drop)]
pub enum NewItem {
    Gerber(Item),
    Drill(DrillItem),
}

/// What an edit changes in its layer. Places are counted from 0; lengths are in nm.
#[derive(Drop)]
pub enum Change {
    /// The item stands at place `k`, at most behind the last one.
    Insert { k: usize, item: NewItem },
    /// The list without place `k`.
    Delete { k: usize },
    /// All control points of item `k` are shifted by `dx` nm to the right and `dy` nm up.
    Move { k: usize, dx: i64, dy: i64 },
    /// Item `k` is taken out, and then stands at place `m`.
    Reorder { k: usize, m: usize },
    /// The aperture of a flash, a draw or an arc becomes that of the number. Of a Gerber layer alone.
    Aperture { k: usize, n: u32 },
    /// The object becomes dark or clear. Of a Gerber layer alone.
    Polarity { k: usize, dark: bool },
    /// The drill item's tool becomes that of the number. Of a drill layer alone.
    Tool { k: usize, t: u16 },
    /// The diameter of the tool of that number changes. Of a drill layer alone.
    Diameter { t: u16, d: Nm },
    /// The file attribute of the name `key` takes the fields; a new name goes last. A key has 1 to 255 bytes from `!`
    /// to `~` but for the comma, `%` and `*`; fields are empty, or a comma and 1 to 4,096 bytes from `!` to `~` but for
    /// `%` and `*`. Of a Gerber layer alone.
    SetAttribute { key: Items<u8>, fields: Items<u8> },
    /// The file attributes without that of the name `key`. Of a Gerber layer alone.
    DropAttribute { key: Items<u8> },
}

/// A change of the layer of a name.
#[derive(Drop)]
pub struct Edit {
    pub name: Name,
    pub change: Change,
}
