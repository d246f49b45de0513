//! The checks of a drill layer.

ghost use Rattle.std.specs.Prelude.{◌≡◌, ◌++◌, ◌∷◌, ◌↔◌, ◌≤◌, [], IsTrue, sum_by};
ghost use Rattle.cam_refusals.specs.Checks.{answer_of, first_holding};
ghost use Rattle.cam_objects.specs.DrillSoundness.{IsSoundTool, KeepsDrillLimits, drill_count_of, drilling_checks};
ghost use Rattle.cam_objects.specs.Soundness.{are_on_board};
ghost use Rattle.cam_refusals.specs.Limits.{leaf_limit};

use crate::drill_item::DrillItem;
use crate::item_fault::ItemFault;
use crate::limits::LAST_TOOL;
use cam_refusals::limits::{COUNT_LIMIT, LEAF_LIMIT, SIZE_LIMIT};
use cam_units::{Nm, Point, fits_board};

/// Whether a tool has a number from 1 to 9,999 and a diameter from 1 to 200,000,000 nm.
pub(crate) fn fits_tool(tool: u16, diameter: Nm) -> bool
    ensures { IsTrue result ↔ IsSoundTool tool diameter }
{
    1 <= tool && tool <= LAST_TOOL && 1 <= diameter.0 && diameter.0 <= SIZE_LIMIT as i64
}

/// Whether an item of these points is sound, where its tool is known or not, or its first fault.
pub(crate) fn check_drilling(known: bool, points: &[Point]) -> Result<(), ItemFault>
    ensures { result ≡ answer_of (first_holding (drilling_checks known points.now)) }
{
    if points.is_empty() {
        return Err(ItemFault::Malformed);
    }
    if !known {
        return Err(ItemFault::UnknownTool);
    }
    if !are_on_board(points) {
        return Err(ItemFault::OutOfBoard);
    }
    if points.len() > COUNT_LIMIT {
        return Err(ItemFault::TooMuch);
    }
    Ok(())
}

/// Whether each point lies on the board.
fn are_on_board(points: &[Point]) -> bool
    ensures { result ≡ are_on_board points.now }
{
    points.iter().all(|point| fits_board(*point))
}

/// Whether items keep the limits with one more behind them.
pub(crate) fn fits_limits(items: &[DrillItem], item: &DrillItem) -> bool
    requires { KeepsDrillLimits items.now }
    ensures { IsTrue result ↔ KeepsDrillLimits (items.now ++ item.now ∷ []) }
{
    fits_limits_beside(items, leaf_count(items), item)
}

/// Whether items with so many leaves, counted already, keep the limits with one more behind them.
pub(crate) fn fits_limits_beside(items: &[DrillItem], leaves: u64, item: &DrillItem) -> bool
    requires limits { KeepsDrillLimits items.now }
    requires leaves { leaves ≡ sum_by drill_count_of items.now }
    ensures { IsTrue result ↔ KeepsDrillLimits (items.now ++ item.now ∷ []) }
{
    items.len() < COUNT_LIMIT && item.leaf_count() as u64 <= LEAF_LIMIT - leaves
}

/// How many leaves the items have.
pub(crate) fn leaf_count(items: &[DrillItem]) -> u64
    requires { sum_by drill_count_of items.now ≤ leaf_limit }
    ensures { result ≡ sum_by drill_count_of items.now }
{
    let mut leaves = 0;
    for item in items {
        leaves += item.leaf_count() as u64;
    }
    leaves
}
