//! Judges edits of a Gerber layer.

ghost use Rattle.std.specs.Prelude.{◌≡◌, IfOk, Some};
ghost use Rattle.cam_objects.specs.Contents.{content_of};
ghost use Rattle.cam_objects.specs.Soundness.{HasSoundItems};
ghost use Rattle.cam_edits.specs.Editing.{judged, judged_change};
ghost use Rattle.cam_edits.specs.Machinery.Judging.{IsItemStep, other_aperture, step_answer};
ghost use Rattle.cam_edits.specs.Machinery.Shifts.{leaves_in};
ghost use Rattle.cam_edits.specs.Sheets.{IsSoundGerber};
ghost use Rattle.cam_edits.specs.Steps.{IsFit};
ghost use Rattle.cam_edits.specs.declared.step.Step.TheVariants.{Aperture, Move};

use crate::apertures::other_aperture;
use crate::attribute_judging::{dropping, setting};
use crate::edit::{Change, NewItem};
use crate::fault::EditFault;
use crate::item_refusal::{judge_item, judge_place};
use crate::moving::{is_move, way};
use crate::step::Step;
use cam_objects::{Item, Layer};
use cam_units::Point;

/// The step of an edit of the layer, which has so many leaves; it fits the layer. Or the edit's first refusal.
pub(crate) fn judged(layer: &Layer, leaves: u64, change: Change) -> Result<Step, EditFault>
    requires sound { IsSoundGerber (content_of layer.now) }
    requires leaves { leaves ≡ leaves_in layer.now }
    ensures value { result ≡ judged_change (content_of layer.now) change }
    ensures fits { IfOk result (λ step. IsFit step (content_of layer.now)) }
{
    match change {
        Change::Insert { k, item } => match item {
            NewItem::Gerber(item) => checked(layer, leaves, Step::Insert { k, item }),
            NewItem::Drill(_) => Err(EditFault::WrongKind),
        },
        Change::Delete { k } => checked(layer, leaves, Step::Delete { k }),
        Change::Move { k, dx, dy } => checked(layer, leaves, Step::Move { k, dx, dy }),
        Change::Reorder { k, m } => checked(layer, leaves, Step::Reorder { k, m }),
        Change::Aperture { k, n } => checked(layer, leaves, Step::Aperture { k, n }),
        Change::Polarity { k, dark } => checked(layer, leaves, Step::Polarity { k, dark }),
        Change::Tool { .. } => Err(EditFault::WrongKind),
        Change::Diameter { .. } => Err(EditFault::WrongKind),
        Change::SetAttribute { key, fields } => setting(layer, key, fields),
        Change::DropAttribute { key } => dropping(layer, key.as_slice()),
    }
}

/// The step of items, which fits the layer, or its first refusal.
fn checked(layer: &Layer, leaves: u64, step: Step) -> Result<Step, EditFault>
    requires sound { HasSoundItems layer.now }
    requires leaves { leaves ≡ leaves_in layer.now }
    requires items { IsItemStep step }
    ensures value { result ≡ judged (content_of layer.now) (Some step) }
    ensures fits { IfOk result (λ step. IsFit step (content_of layer.now)) }
{
    check(layer, leaves, &step)?;
    Ok(step)
}

/// Whether a step of the sound layer, which has so many leaves, is refused, and why.
#[tactic(auto, unfolding(crate::specs::Editing::step_checks))]
pub(crate) fn check(layer: &Layer, leaves: u64, step: &Step) -> Result<(), EditFault>
    requires sound { HasSoundItems layer.now }
    requires leaves { leaves ≡ leaves_in layer.now }
    ensures { result ≡ step_answer (content_of layer.now) step.now }
{
    match step {
        Step::Insert { k, item } => {
            let has_room = layer.has_room_beside(leaves, item);
            judge_item(layer.check_item(item), *k <= layer.items.len(), has_room)
        }
        Step::Delete { k } => judge_place(layer.items.len(), *k),
        Step::Move { k, dx, dy } => check_move(layer, *k, way(*dx, *dy)),
        Step::Reorder { k, m } => judge_place(layer.items.len(), (*k).max(*m)),
        Step::Aperture { k, n } => check_aperture(layer, leaves, *k, *n),
        Step::Polarity { k, .. } => match layer.items.get(*k) {
            Some(Item::One(_)) => Ok(()),
            Some(Item::Repeat { .. }) => Err(EditFault::HasNone),
            None => Err(EditFault::NoItem),
        },
        Step::PutAttribute { .. } => Ok(()),
        Step::TakeAttribute { .. } => Ok(()),
        Step::SetFields { .. } => Ok(()),
    }
}

fn check_move(layer: &Layer, k: usize, by: Point) -> Result<(), EditFault>
    requires { HasSoundItems layer.now }
    ensures { result ≡ step_answer (content_of layer.now) (Move k by.x by.y) }
{
    let Some(item) = layer.items.get(k) else {
        return Err(EditFault::NoItem);
    };
    if !is_move(by) {
        return Err(EditFault::OutOfBoard);
    }
    if !layer.can_move(item, by) {
        return Err(EditFault::OutOfBoard);
    }
    Ok(())
}

fn check_aperture(layer: &Layer, leaves: u64, k: usize, n: u32) -> Result<(), EditFault>
    requires sound { HasSoundItems layer.now }
    requires leaves { leaves ≡ leaves_in layer.now }
    ensures { result ≡ step_answer (content_of layer.now) (Aperture k n) }
{
    let Some(item) = layer.items.get(k) else {
        return Err(EditFault::NoItem);
    };
    let Some(item) = other_aperture(item, n) else {
        return Err(EditFault::HasNone);
    };
    let has_room = layer.has_room_at_beside(leaves, k, &item);
    judge_item(layer.check_item(&item), true, has_room)
}
