//! The topmost item at a place.

ghost use Rattle.std.specs.Prelude.{◌≡◌, ◌<◌, ◌≤◌, ℕ, IfSome, List, length, map};
ghost use Rattle.cam_units.specs.Board.{IsPlace};
ghost use Rattle.cam_units.specs.Boxes.{HaveCommonPlace};
ghost use Rattle.cam_units.specs.declared.bounds.Bounds.{Bounds};
ghost use Rattle.cam_objects.specs.Bounds.{bounds_of};
ghost use Rattle.cam_objects.specs.Cells.{AreCellsOf, box_at};
ghost use Rattle.cam_objects.specs.Topmost.{PointsAt};

use crate::asking::asked::AskedItems;
use crate::cells::kept::{ItemCells, near_end};
use cam_units::{Bounds, Spot};

/// The topmost of the items before one, at a place, in half nm: from the last one down, but for those whose cells lie
/// elsewhere. Takes no memory.
pub(crate) fn topmost<A: AskedItems>(
    items: &A,
    cells: Option<&ItemCells>,
    at: Spot,
    before: usize,
) -> Option<usize>
    requires cells { IfSome cells (λ kept. AreCellsOf (map bounds_of (A.lists items.now)) kept.now) }
    requires at { IsPlace at }
    ensures { PointsAt (A.lists items.now) at before result }
{
    let here = Bounds::Closed { low: at, high: at };
    let mut end = near_end(cells, before.min(items.count()), here);
    while end > 0 {
        let place = end - 1;
        if items.covers(place, at) {
            return Some(place);
        }
        end = near_end(cells, place, here);
    }
    None
}
