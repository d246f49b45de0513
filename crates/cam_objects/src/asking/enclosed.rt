//! Items whose boxes lie in a box.

ghost use Rattle.std.specs.Prelude.{◌≡◌, ◌↔◌, IsTrue, map};
ghost use Rattle.cam_units.specs.Boxes.{IsInBox};
ghost use Rattle.cam_objects.specs.Bounds.{bounds_of};
ghost use Rattle.cam_objects.specs.Enclosed.{FindsEnclosed, IsEnclosed};

use crate::asking::asked::AskedItems;
use cam_units::{Bounds, Spot};

/// Whether a place lies between two corners or on the edge.
fn is_between(low: Spot, high: Spot, spot: Spot) -> bool
    ensures { IsTrue result ↔ IsInBox low high spot }
{
    (low.x <= spot.x) & (spot.x <= high.x) & (low.y <= spot.y) & (spot.y <= high.y)
}

/// Whether a box holds a place and lies in another one, their edges in common or not.
pub fn is_enclosed(inner: Bounds, outer: Bounds) -> bool
    ensures { IsTrue result ↔ IsEnclosed inner outer }
{
    match (inner, outer) {
        (
            Bounds::Closed { low, high },
            Bounds::Closed {
                low: least,
                high: greatest,
            },
        ) => {
            is_between(low, high, low)
                & is_between(least, greatest, low)
                & is_between(least, greatest, high)
        }
        _ => false,
    }
}

/// The next item, from a place of the list on, whose box lies in a box, in half nm. Takes no memory.
pub(crate) fn next_enclosed<A: AskedItems>(
    items: &mut A,
    outer: Bounds,
    from: usize,
) -> Option<usize>
    ensures { FindsEnclosed (map bounds_of (A.lists items.old)) outer from result }
{
    for place in from..items.count() {
        if is_enclosed(items.read(place), outer) {
            return Some(place);
        }
    }
    None
}
