//! Questions.

use cam_edits::Name;
use cam_units::Point;

/// What is asked of a layer. Points are in nm; places are counted from 0.
#[derive(Clone, Copy)]
pub enum Query {
    /// The place of the topmost item at a point, among those before one, or among all.
    At { at: Point, before: Option<usize> },
    /// The places of the items whose boxes lie in a box, of which two corners that face each other are given.
    In { from: Point, to: Point },
    /// The item at a place.
    Item { k: usize },
    /// The items from a place on, so many at most.
    Items { from: usize, count: usize },
    /// The box of all items.
    Bounds,
    /// The box of the item at a place.
    ItemBounds { k: usize },
    /// The aperture, block or tool at a place of the order.
    Entry { i: usize },
    /// All of them.
    Entries,
    /// The file attributes.
    Attributes,
}

/// A question to a station.
#[derive(Drop)]
pub enum Question {
    /// Which layers there are.
    Layers,
    /// What can be taken back and made again.
    History,
    /// Something of the layer of a name.
    OfLayer { name: Name, query: Query },
}
