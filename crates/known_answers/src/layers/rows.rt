//! How the rows write layers: points in nm, places in half nm.

use crate::places::At;
use cam_objects::ItemFault;
use cam_units::Turn;

/// A segment of a contour: to a point, or to a point along an arc about a centre, counterclockwise or not.
pub enum Side {
    Line(At),
    Curve(At, At, bool),
}

/// An object; its last field tells whether it is dark.
pub enum Drawn {
    /// Number, point and turn.
    Flash(u32, At, Turn, bool),
    /// Number and ends; it is turned by `M90`, which changes no place of a round stroke.
    Draw(u32, At, At, bool),
    /// Number, ends and turn, with which a rectangle is turned that draws.
    TurnedDraw(u32, At, At, Turn, bool),
    /// Number, ends, centre, and whether it goes counterclockwise.
    Arc(u32, At, At, At, bool, bool),
    /// Start and segments.
    Region(At, &'static [Side], bool),
    /// A region that goes to and fro between (0, 0) and (1, 0), of so many segments.
    Zigzag(u32),
}

/// An entry of a dictionary, sizes in nm.
pub enum Entered {
    Circle(i64, i64),
    Rect(i64, i64, i64),
    Obround(i64, i64, i64),
    Block(&'static [Drawn]),
    /// A block of an object, so many times.
    Many(u32, Drawn),
}

/// An item.
pub enum Listed {
    One(Drawn),
    /// Columns, rows, the steps of each, and objects.
    Repeat(u32, u32, At, &'static [Drawn]),
    /// The same of an object, so many times.
    Repeats(u32, u32, At, u32, Drawn),
}

pub type Entries = &'static [(u32, Entered)];

/// Entries, an item, and its box in half nm: left, below, right, above; `None` where it is empty.
pub type Boxed = (Entries, Listed, Option<[i64; 4]>);

/// Entries, an item, and why it is refused.
pub type Checked = (Entries, Listed, Result<(), ItemFault>);

/// Entries, a number and an entry, and whether it may be added under that.
pub type Added = (Entries, u32, Entered, bool);

/// Entries, items, and whether there is room for one more.
pub type Filled = (Entries, &'static [Listed], Listed, bool);

/// A place, the item before which is asked, and the topmost one there.
pub type Found = (At, usize, Option<usize>);

/// The sides of a box in half nm, the place from which is asked, and the next item in the box.
pub type Enclosed = ([i64; 4], usize, Option<usize>);

/// A layer, what lies at places of it and in boxes, and the box of it all.
pub struct Pointed {
    pub entries: Entries,
    pub items: &'static [Listed],
    pub found: &'static [Found],
    pub enclosed: &'static [Enclosed],
    pub whole: Option<[i64; 4]>,
}
