//! Judges edits of a drill layer.

ghost use Rattle.std.specs.Prelude.{◌≡◌, IfOk, Some};
ghost use Rattle.cam_objects.specs.Contents.{drill_content_of};
ghost use Rattle.cam_objects.specs.DrillSoundness.{IsSoundDrillLayer};
ghost use Rattle.cam_edits.specs.DrillSteps.{IsDrillFit};
ghost use Rattle.cam_edits.specs.Editing.{drill_step_of, judged_drill};
ghost use Rattle.cam_edits.specs.Machinery.Judging.{drill_step_answer};
ghost use Rattle.cam_edits.specs.Machinery.Shifts.{drill_leaves_in};
ghost use Rattle.cam_edits.specs.declared.drill_step.DrillStep.TheVariants.{Diameter, Move, Tool};

use crate::drill_step::DrillStep;
use crate::edit::{Change, NewItem};
use crate::fault::EditFault;
use crate::item_refusal::{judge_item, judge_place};
use crate::moving::{is_move, way};
use cam_objects::DrillLayer;
use cam_refusals::limits::SIZE_LIMIT;
use cam_units::{Nm, Point};

/// The step of an edit of the drill layer, which has so many holes and slots; it fits the layer. Or the edit's first
/// refusal.
pub(crate) fn judged_drill(
    layer: &DrillLayer,
    leaves: u64,
    change: Change,
) -> Result<DrillStep, EditFault>
    requires sound { IsSoundDrillLayer layer.now }
    requires leaves { leaves ≡ drill_leaves_in layer.now }
    ensures value { result ≡ judged_drill (drill_content_of layer.now) (drill_step_of change) }
    ensures fits { IfOk result (λ step. IsDrillFit step (drill_content_of layer.now)) }
{
    match change {
        Change::Insert { k, item } => match item {
            NewItem::Gerber(_) => Err(EditFault::WrongKind),
            NewItem::Drill(item) => checked(layer, leaves, DrillStep::Insert { k, item }),
        },
        Change::Delete { k } => checked(layer, leaves, DrillStep::Delete { k }),
        Change::Move { k, dx, dy } => checked(layer, leaves, DrillStep::Move { k, dx, dy }),
        Change::Reorder { k, m } => checked(layer, leaves, DrillStep::Reorder { k, m }),
        Change::Aperture { .. } => Err(EditFault::WrongKind),
        Change::Polarity { .. } => Err(EditFault::WrongKind),
        Change::Tool { k, t } => checked(layer, leaves, DrillStep::Tool { k, t }),
        Change::Diameter { t, d } => checked(layer, leaves, DrillStep::Diameter { t, d }),
        Change::SetAttribute { .. } => Err(EditFault::WrongKind),
        Change::DropAttribute { .. } => Err(EditFault::WrongKind),
    }
}

/// The step, which fits the layer, or its first refusal.
fn checked(layer: &DrillLayer, leaves: u64, step: DrillStep) -> Result<DrillStep, EditFault>
    requires sound { IsSoundDrillLayer layer.now }
    requires leaves { leaves ≡ drill_leaves_in layer.now }
    ensures value { result ≡ judged_drill (drill_content_of layer.now) (Some step) }
    ensures fits { IfOk result (λ step. IsDrillFit step (drill_content_of layer.now)) }
{
    check_drill(layer, leaves, &step)?;
    Ok(step)
}

/// Whether a step of the sound drill layer, which has so many holes and slots, is refused, and why.
pub(crate) fn check_drill(
    layer: &DrillLayer,
    leaves: u64,
    step: &DrillStep,
) -> Result<(), EditFault>
    requires sound { IsSoundDrillLayer layer.now }
    requires leaves { leaves ≡ drill_leaves_in layer.now }
    ensures { result ≡ drill_step_answer (drill_content_of layer.now) step.now }
{
    match step {
        DrillStep::Insert { k, item } => {
            let has_room = layer.has_room_beside(leaves, item);
            judge_item(layer.check_item(item), *k <= layer.items.len(), has_room)
        }
        DrillStep::Delete { k } => judge_place(layer.items.len(), *k),
        DrillStep::Move { k, dx, dy } => check_move(layer, *k, way(*dx, *dy)),
        DrillStep::Reorder { k, m } => judge_place(layer.items.len(), (*k).max(*m)),
        DrillStep::Tool { k, t } => check_tool(layer, *k, *t),
        DrillStep::Diameter { t, d } => check_diameter(layer, *t, *d),
    }
}

fn check_move(layer: &DrillLayer, k: usize, by: Point) -> Result<(), EditFault>
    requires { IsSoundDrillLayer layer.now }
    ensures { result ≡ drill_step_answer (drill_content_of layer.now) (Move k by.x by.y) }
{
    let Some(item) = layer.items.get(k) else {
        return Err(EditFault::NoItem);
    };
    if !is_move(by) {
        return Err(EditFault::OutOfBoard);
    }
    if !layer.can_move(item, by) {
        return Err(EditFault::OutOfBoard);
    }
    Ok(())
}

#[tactic(auto, unfolding(crate::specs::Editing::drill_step_checks))]
fn check_tool(layer: &DrillLayer, k: usize, t: u16) -> Result<(), EditFault>
    ensures { result ≡ drill_step_answer (drill_content_of layer.now) (Tool k t) }
{
    if k >= layer.items.len() {
        return Err(EditFault::NoItem);
    }
    if layer.tools.get(t).is_none() {
        return Err(EditFault::NoTool);
    }
    Ok(())
}

#[tactic(auto, unfolding(crate::specs::Editing::drill_step_checks))]
fn check_diameter(layer: &DrillLayer, t: u16, d: Nm) -> Result<(), EditFault>
    ensures { result ≡ drill_step_answer (drill_content_of layer.now) (Diameter t d) }
{
    if layer.tools.get(t).is_none() {
        return Err(EditFault::NoTool);
    }
    if d.0 < 1 || d.0 > SIZE_LIMIT as i64 {
        return Err(EditFault::SizeRefused);
    }
    Ok(())
}
