//! The boxes of what steps touch.

ghost use Rattle.std.specs.Prelude.{◌≡◌, ◌≤◌, ◌∷◌, [], None, IfOk, length};
ghost use Rattle.cam_objects.specs.Bounds.{bounds_of};
ghost use Rattle.cam_objects.specs.Contents.{content_of, drill_content_of};
ghost use Rattle.cam_objects.specs.Drilling.{drill_item_leaves};
ghost use Rattle.cam_objects.specs.DrillSoundness.{IsSoundDrillItem, IsSoundDrillLayer};
ghost use Rattle.cam_objects.specs.Leaves.{item_leaves, meaning_in};
ghost use Rattle.cam_objects.specs.Soundness.{HasSoundItems, IsSoundItem};
ghost use Rattle.cam_edits.specs.DrillSteps.{with_tool};
ghost use Rattle.cam_refusals.specs.Checks.{first_holding};
ghost use Rattle.cam_edits.specs.Editing.{drill_step_checks, step_checks};
ghost use Rattle.cam_edits.specs.Machinery.Shifts.{AreToolsOf, tools_of};
ghost use Rattle.cam_edits.specs.Steps.{with_aperture, with_object};
ghost use Rattle.cam_edits.specs.Touched.{drill_touched, touched};
ghost use Rattle.cam_edits.specs.declared.drill_step.DrillStep.TheVariants.{Diameter};

use crate::apertures::other_aperture;
use crate::drill_step::DrillStep;
use crate::item_tools::next_of_tool;
use crate::moving::way;
use crate::step::Step;
use cam_objects::{DrillItem, DrillLayer, Item, ItemNumbers, Layer};
use cam_units::{Bounds, Nm};
use std::alloc::{AllocError, Global};

/// The boxes of what an accepted step of the layer touches.
pub(crate) fn touched(alloc: Global, layer: &Layer, step: &Step) -> Result<Vec<Bounds>, AllocError>
    requires sound { HasSoundItems layer.now }
    requires accepted { first_holding (step_checks (content_of layer.now) step.now) ≡ None }
    ensures { IfOk result (λ boxes. boxes.items ≡ touched step.now (content_of layer.now)) }
{
    match step {
        Step::Insert { item, .. } => one_box(alloc, layer.bounds_of(item)),
        Step::Delete { k } => one_box(alloc, layer.item_bounds(*k)),
        Step::Move { k, dx, dy } => {
            let after = layer.moved_bounds(&layer.items[*k], way(*dx, *dy));
            two_boxes(alloc, layer.item_bounds(*k), after)
        }
        Step::Reorder { k, .. } => kept_box(alloc, layer.item_bounds(*k)),
        Step::Aperture { k, n } => {
            let after = bounds_with_aperture(layer, &layer.items[*k], *n);
            two_boxes(alloc, layer.item_bounds(*k), after)
        }
        Step::Polarity { k, .. } => kept_box(alloc, layer.item_bounds(*k)),
        // An edit of attributes touches no box.
        Step::PutAttribute { .. } => Ok(Vec::new(alloc)),
        Step::TakeAttribute { .. } => Ok(Vec::new(alloc)),
        Step::SetFields { .. } => Ok(Vec::new(alloc)),
    }
}

/// The boxes of what an accepted step of the drill layer touches, beside which the tools of its items are kept.
pub(crate) fn drill_touched(
    alloc: Global,
    layer: &DrillLayer,
    tools: &ItemNumbers,
    step: &DrillStep,
) -> Result<Vec<Bounds>, AllocError>
    requires sound { IsSoundDrillLayer layer.now }
    requires known { AreToolsOf (tools_of layer.now.items.items) tools.now }
    requires accepted { first_holding (drill_step_checks (drill_content_of layer.now) step.now) ≡ None }
    ensures { IfOk result (λ boxes. boxes.items ≡ drill_touched step.now (drill_content_of layer.now)) }
{
    match step {
        DrillStep::Insert { item, .. } => one_box(alloc, layer.bounds_of(item)),
        DrillStep::Delete { k } => one_box(alloc, layer.item_bounds(*k)),
        DrillStep::Move { k, dx, dy } => {
            let after = layer.moved_bounds(&layer.items[*k], way(*dx, *dy));
            two_boxes(alloc, layer.item_bounds(*k), after)
        }
        DrillStep::Reorder { k, .. } => kept_box(alloc, layer.item_bounds(*k)),
        DrillStep::Tool { k, t } => {
            let after = bounds_with_tool(layer, &layer.items[*k], *t);
            two_boxes(alloc, layer.item_bounds(*k), after)
        }
        DrillStep::Diameter { t, d } => boxes_of_tool(alloc, layer, tools, *t, *d),
    }
}

/// A box alone.
fn one_box(alloc: Global, bounds: Bounds) -> Result<Vec<Bounds>, AllocError>
    ensures { IfOk result (λ boxes. boxes.items ≡ bounds ∷ []) }
{
    let mut boxes = Vec::with_capacity(alloc, 1)?;
    boxes.push(bounds)?;
    Ok(boxes)
}

/// The box before a step and that after it.
fn two_boxes(alloc: Global, before: Bounds, after: Bounds) -> Result<Vec<Bounds>, AllocError>
    ensures { IfOk result (λ boxes. boxes.items ≡ before ∷ after ∷ []) }
{
    let mut boxes = Vec::with_capacity(alloc, 2)?;
    boxes.push(before)?;
    boxes.push(after)?;
    Ok(boxes)
}

/// The box before a step and after it, of what keeps its box.
fn kept_box(alloc: Global, bounds: Bounds) -> Result<Vec<Bounds>, AllocError>
    ensures { IfOk result (λ boxes. boxes.items ≡ bounds ∷ bounds ∷ []) }
{
    two_boxes(alloc, bounds, bounds)
}

/// The box of the item with another aperture; what has none keeps its box.
fn bounds_with_aperture(layer: &Layer, item: &Item, n: u32) -> Bounds
    requires { IsSoundItem layer.now.apertures (with_object (with_aperture n) item.now) }
    ensures { result ≡ bounds_of
        (item_leaves (meaning_in layer.now.apertures) (with_object (with_aperture n) item.now)) }
{
    match other_aperture(item, n) {
        Some(changed) => layer.bounds_of(&changed),
        None => layer.bounds_of(item),
    }
}

/// The box of the drill item with another tool.
fn bounds_with_tool(layer: &DrillLayer, item: &DrillItem, t: u16) -> Bounds
    requires sound { IsSoundDrillLayer layer.now }
    requires item { IsSoundDrillItem layer.now.tools item.now }
    ensures { result ≡ bounds_of (drill_item_leaves layer.now.tools (with_tool t item.now)) }
{
    match layer.tools.get(t) {
        Some(diameter) => item.bounds(diameter),
        None => Bounds::Empty,
    }
}

/// How many items the tool has.
fn count_of_tool(layer: &DrillLayer, tools: &ItemNumbers, t: u16) -> usize
    requires { AreToolsOf (tools_of layer.now.items.items) tools.now }
    ensures { result ≤ length layer.now.items.items }
{
    let mut count = 0;
    let mut place = next_of_tool(layer, tools, 0, t);
    while place < layer.items.len() {
        count += 1;
        place = next_of_tool(layer, tools, place + 1, t);
    }
    count
}

/// The boxes of each item of the tool, with the diameter before and with that after. Reads these items alone.
fn boxes_of_tool(
    alloc: Global,
    layer: &DrillLayer,
    tools: &ItemNumbers,
    t: u16,
    d: Nm,
) -> Result<Vec<Bounds>, AllocError>
    requires sound { IsSoundDrillLayer layer.now }
    requires known { AreToolsOf (tools_of layer.now.items.items) tools.now }
    requires accepted { first_holding (drill_step_checks (drill_content_of layer.now) (Diameter t d)) ≡ None }
    ensures { IfOk result (λ boxes. boxes.items ≡ drill_touched (Diameter t d) (drill_content_of layer.now)) }
{
    let mut boxes = Vec::with_capacity(alloc, 2 * count_of_tool(layer, tools, t))?;
    let mut place = next_of_tool(layer, tools, 0, t);
    while place < layer.items.len() {
        let item = &layer.items[place];
        boxes.push(layer.bounds_of(item))?;
        boxes.push(item.bounds(d))?;
        place = next_of_tool(layer, tools, place + 1, t);
    }
    Ok(boxes)
}
