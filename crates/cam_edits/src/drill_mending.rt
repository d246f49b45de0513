//! What is kept beside a drill layer, mended after a step.

ghost use Rattle.std.specs.Prelude.{◌≡◌};
ghost use Rattle.cam_objects.specs.Cells.{AreCellsOf, drill_item_boxes};
ghost use Rattle.cam_objects.specs.DrillSoundness.{IsSoundDrillLayer};
ghost use Rattle.cam_edits.specs.Machinery.Shifts.{
  AreRenewedUntil,
  AreToolsOf,
  IsKeptOfDrill,
  WasKeptBefore,
  drill_leaves_at,
  tools_of,
};

use crate::indexed::Kept;
use crate::item_tools::next_of_tool;
use crate::mending::{item_at, mend};
use crate::shift::Shift;
use cam_objects::{DrillLayer, ItemCells, ItemNumbers};
use cam_units::Nm;

/// How many holes and slots the item at a place of a drill layer has; none where there is no item.
pub(crate) fn leaves_at(layer: &DrillLayer, place: Option<usize>) -> u64
    ensures { result ≡ drill_leaves_at layer.now place }
{
    match item_at(&layer.items, place) {
        Some(item) => item.leaf_count() as u64,
        None => 0,
    }
}

/// Reads the items of a tool anew, whose diameter was changed.
fn renew_tool(cells: &mut ItemCells, t: u16, tools: &ItemNumbers, layer: &DrillLayer)
    requires sound { IsSoundDrillLayer layer.now }
    requires known { AreToolsOf (tools_of layer.now.items.items) tools.now }
    requires others { AreRenewedUntil 0 t layer.now cells.old }
    ensures { AreCellsOf (drill_item_boxes layer.now.tools layer.now.items.items) cells.new }
{
    let mut boxes = layer.boxes();
    let count = layer.items.len();
    let mut place = next_of_tool(layer, tools, 0, t);
    while place < count {
        cells.renew(&mut boxes, place);
        place = next_of_tool(layer, tools, place + 1, t);
    }
}

/// Lets what is kept follow a step that gave a tool that diameter, or with which items shifted and so many holes and
/// slots left their place. Takes no memory.
pub(crate) fn mend_kept(
    kept: &mut Kept,
    size: Option<(u16, Nm)>,
    shift: Shift,
    gone: u64,
    tools: &ItemNumbers,
    layer: &DrillLayer,
)
    requires was { WasKeptBefore size shift gone layer.now kept.old }
    requires known { AreToolsOf (tools_of layer.now.items.items) tools.now }
    ensures { IsKeptOfDrill layer.now kept.new }
{
    match size {
        Some((t, _)) => renew_tool(&mut kept.cells, t, tools, layer),
        None => {
            let come = leaves_at(layer, shift.to);
            kept.leaves = kept.leaves + come - gone;
            mend(&mut kept.cells, &mut layer.boxes(), shift);
        }
    }
}
