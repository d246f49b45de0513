//! Where steps move the items of a layer.

ghost use Rattle.std.specs.Prelude.{◌≡◌};
ghost use Rattle.cam_objects.specs.Contents.{Content, DrillContent};
ghost use Rattle.cam_edits.specs.DrillSteps.{IsDrillFit, drill_items_after};
ghost use Rattle.cam_edits.specs.Machinery.Shifts.{IsShift};
ghost use Rattle.cam_edits.specs.Steps.{IsFit, items_after};

use crate::drill_step::DrillStep;
use crate::step::Step;

/// What a step does to the places of items, counted from 0: one leaves its place, and then one comes to a place; both
/// at a place where one changes.
#[derive(Clone, Copy)]
pub(crate) struct Shift {
    pub from: Option<usize>,
    pub to: Option<usize>,
}

impl Shift {
    /// The item at a place leaves it, if there is one, and then one comes to a place, if there is one.
    fn between(from: Option<usize>, to: Option<usize>) -> Shift
        ensures { result ≡ record { from = from; to = to } }
    {
        Shift { from, to }
    }

    /// Of a step that fits a layer.
    pub(crate) fn of(step: &Step) -> Shift
        ensures { (c : Content) → IsFit step.now c → IsShift result c.items (items_after step.now c.items) }
    {
        match step {
            Step::Insert { k, .. } => Shift::between(None, Some(*k)),
            Step::Delete { k } => Shift::between(Some(*k), None),
            Step::Reorder { k, m } => Shift::between(Some(*k), Some(*m)),
            Step::Move { k, .. } => Shift::between(Some(*k), Some(*k)),
            Step::Aperture { k, .. } => Shift::between(Some(*k), Some(*k)),
            Step::Polarity { k, .. } => Shift::between(Some(*k), Some(*k)),
            Step::PutAttribute { .. } => Shift::between(None, None),
            Step::TakeAttribute { .. } => Shift::between(None, None),
            Step::SetFields { .. } => Shift::between(None, None),
        }
    }

    /// Of a step that fits a drill layer.
    pub(crate) fn of_drill(step: &DrillStep) -> Shift
        ensures { (c : DrillContent) → IsDrillFit step.now c
            → IsShift result c.items (drill_items_after step.now c.items) }
    {
        match step {
            DrillStep::Insert { k, .. } => Shift::between(None, Some(*k)),
            DrillStep::Delete { k } => Shift::between(Some(*k), None),
            DrillStep::Reorder { k, m } => Shift::between(Some(*k), Some(*m)),
            DrillStep::Move { k, .. } => Shift::between(Some(*k), Some(*k)),
            DrillStep::Tool { k, .. } => Shift::between(Some(*k), Some(*k)),
            DrillStep::Diameter { .. } => Shift::between(None, None),
        }
    }
}
