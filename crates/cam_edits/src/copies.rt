//! The first copies of the repeats of a layer, which follow its items.

ghost use Rattle.cam_objects.specs.Cells.{AreFirstCopiesOf};
ghost use Rattle.cam_objects.specs.Soundness.{HasSoundItems};
ghost use Rattle.cam_edits.specs.Machinery.Shifts.{WereFirstCopies};

use crate::shift::Shift;
use cam_objects::{FirstCopies, Layer};

/// Lets the first copies follow a step to a sound layer. That of an item that changed at its place is read anew, and that
/// of one that comes to a place is not known. Takes no memory.
pub(crate) fn mend_copies(copies: &mut FirstCopies, layer: &Layer, shift: Shift)
    requires sound { HasSoundItems layer.now }
    requires was { WereFirstCopies shift layer.now copies.old }
    ensures { AreFirstCopiesOf layer.now.apertures layer.now.items.items copies.new }
{
    match (shift.from, shift.to) {
        (Some(from), Some(to)) if from == to => copies.renew(layer, to),
        (Some(from), Some(to)) => {
            copies.remove(from);
            copies.insert(to);
        }
        (Some(from), None) => copies.remove(from),
        (None, Some(to)) => copies.insert(to),
        (None, None) => {}
    }
}
