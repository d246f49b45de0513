//! Drill layers beside which it is kept what their items reach.

ghost use Rattle.std.specs.Prelude.{
  ◌≡◌,
  ◌↔◌,
  ◌+◌,
  ◌≤◌,
  ◌∷◌,
  ◌++◌,
  [],
  IsTrue,
  List,
  OnOk,
  length,
  vec_capacity,
};
ghost use Rattle.cam_objects.specs.Cells.{AreCellsOf, drill_item_boxes};
ghost use Rattle.cam_objects.specs.Contents.{drill_content_of};
ghost use Rattle.cam_objects.specs.DrillSoundness.{IsSoundDrillLayer};
ghost use Rattle.cam_edits.specs.DrillSteps.{HasDrillRoom, IsSoundDrillStep, after_drill_step, inverse_drill_step};

use crate::drill_judging::check_drill;
use crate::drill_mending::{leaves_at, mend_kept};
use crate::drill_step::DrillStep;
use crate::indexed::Kept;
use crate::item_tools::{follow, tools_of};
use crate::reversible::Reversible;
use crate::shift::Shift;
use cam_objects::{DrillLayer, ItemCells, ItemNumbers};
use std::alloc::{AllocError, Global};
use std::marker::Model;

/// A drill layer, with the cells that its items reach, the number of its holes and slots, and the tools of its items:
/// an edit reads what it touches alone, and a diameter the items of its tool.
#[derive(Drop)]
pub struct IndexedDrillLayer {
    layer: DrillLayer,
    kept: Kept,
    tools: ItemNumbers,
}

impl Model for IndexedDrillLayer {
    ghost use Rattle.cam_objects.specs.declared.drill_layer.DrillLayer.{DrillLayer};
    ghost use Rattle.cam_edits.specs.Machinery.Shifts.{IsIndexedDrill};

    ghost Value = { DrillLayer };

    ghost view = { λ c. c.layer };

    ghost invariant = { IsIndexedDrill };
}

impl IndexedDrillLayer {
    ghost use Rattle.cam_edits.specs.Machinery.Shifts.{AreToolsOf, drill_leaves_in, tools_of};

    /// Of a sound drill layer. Where memory for the cells is refused, it is not known what its items reach.
    pub fn new(alloc: Global, layer: DrillLayer) -> IndexedDrillLayer
        requires { IsSoundDrillLayer layer }
        ensures { result ≡ layer }
    {
        let (cells, leaves) = ItemCells::of(alloc, &mut layer.boxes());
        let tools = tools_of(alloc, &layer);
        IndexedDrillLayer {
            layer,
            kept: Kept { cells, leaves },
            tools,
        }
    }

    /// The layer.
    pub fn layer(&self) -> &DrillLayer
        ensures { result.now ≡ self.now }
    {
        &self.layer
    }

    /// What its items reach, where it is known.
    pub fn cells(&self) -> &ItemCells
        ensures { AreCellsOf (drill_item_boxes self.now.tools self.now.items.items) result.now }
    {
        &self.kept.cells
    }

    /// How many holes and slots it has.
    pub(crate) fn leaves(&self) -> u64
        ensures { result ≡ drill_leaves_in self.now }
    {
        self.kept.leaves
    }

    /// The tools of its items, from the first on, as far as there was memory for them.
    pub(crate) fn tools(&self) -> &ItemNumbers
        ensures { AreToolsOf (tools_of self.now.items.items) result.now }
    {
        &self.tools
    }

    /// Makes room for so many items more; refused for want of memory alone. The layer stays. Of items for whose cells
    /// there is no memory it will not be known what they reach.
    pub(crate) fn reserve(&mut self, items: usize) -> Result<(), AllocError>
        ensures content { drill_content_of self.new ≡ drill_content_of self.old }
        ensures items { OnOk result (length self.new.items.items + items ≤ vec_capacity self.new.items) }
    {
        self.kept.cells.reserve(items);
        self.tools.reserve(items);
        self.layer.items.reserve(items)
    }

    /// Whether a step may be played on it: it fits the layer, and leads to a sound one.
    pub(crate) fn fits(&self, step: &DrillStep) -> bool
        ensures { IsTrue result ↔ IsSoundDrillStep step.now (drill_content_of self.now) }
    {
        if !step.fits(&self.layer) {
            return false;
        }
        check_drill(&self.layer, self.kept.leaves, step).is_ok()
    }

    /// Plays a step. The answer leads back. Takes no memory.
    pub(crate) fn play(&mut self, step: DrillStep) -> DrillStep
        requires fits { IsSoundDrillStep step (drill_content_of self.old) }
        requires room { HasDrillRoom (step ∷ []) self.old }
        ensures content { drill_content_of self.new ≡ after_drill_step step (drill_content_of self.old) }
        ensures answer { result ≡ inverse_drill_step step (drill_content_of self.old) }
        ensures room { (rest : List DrillStep)
            → HasDrillRoom (rest ++ step ∷ []) self.old → HasDrillRoom rest self.new }
    {
        let size = step.size();
        let shift = Shift::of_drill(&step);
        let gone = leaves_at(&self.layer, shift.from);
        let answer = step.play(&mut self.layer);
        follow(&mut self.tools, &self.layer, shift);
        mend_kept(&mut self.kept, size, shift, gone, &self.tools, &self.layer);
        answer
    }
}
