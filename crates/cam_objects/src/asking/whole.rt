//! The box of all items.

ghost use Rattle.std.specs.Prelude.{◌≡◌};
ghost use Rattle.std.specs.List.{flat_map};
ghost use Rattle.cam_objects.specs.Bounds.{bounds_of};

use crate::asking::asked::AskedItems;
use cam_units::Bounds;

/// The least box that holds the boxes of all that the items paint, in half nm. Takes no memory.
pub(crate) fn whole_box<A: AskedItems>(items: &mut A) -> Bounds
    ensures { result ≡ bounds_of (flat_map (λ leaves. leaves) (A.lists items.old)) }
{
    let mut all = Bounds::Empty;
    for place in 0..items.count() {
        all = all.joined(items.read(place));
    }
    all
}
