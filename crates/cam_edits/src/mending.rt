//! What is kept beside a layer, mended after a step.

ghost use Rattle.std.specs.Prelude.{◌≡◌, MatchOption, None, Some};
ghost use Rattle.cam_objects.specs.Cells.{AreCellsOf};
ghost use Rattle.cam_objects.specs.Soundness.{HasSoundItems};
ghost use Rattle.cam_edits.specs.Machinery.Shifts.{WereCells, leaves_at, there};

use crate::shift::Shift;
use cam_objects::{BoxedItems, ItemCells, Layer};

/// Lets cells follow items that shifted with a step. Takes no memory.
pub(crate) fn mend<B: BoxedItems>(cells: &mut ItemCells, items: &mut B, shift: Shift)
    requires { WereCells shift cells.old (B.boxes items.old) }
    ensures { AreCellsOf (B.boxes items.old) cells.new }
{
    match (shift.from, shift.to) {
        (Some(from), Some(to)) if from == to => cells.renew(items, to),
        (Some(from), Some(to)) => cells.carry(items, from, to),
        (Some(from), None) => cells.remove(from),
        (None, Some(to)) => cells.insert(items, to),
        (None, None) => {}
    }
}

/// The item at a place.
#[inline]
pub(crate) fn item_at<T>(items: &[T], place: Option<usize>) -> Option<&T>
    ensures { MatchOption result (there items.now place ≡ None) (λ item. there items.now place ≡ Some item.now) }
{
    match place {
        Some(place) => items.get(place),
        None => None,
    }
}

/// How many leaves the item at a place of a sound layer has; none where there is no item.
pub(crate) fn leaves_at(layer: &Layer, place: Option<usize>) -> u64
    requires { HasSoundItems layer.now }
    ensures { result ≡ leaves_at layer.now place }
{
    match item_at(&layer.items, place) {
        Some(item) => layer.item_leaf_count(item),
        None => 0,
    }
}
