//! Layers beside which it is kept what their items reach.

ghost use Rattle.std.specs.Prelude.{
  ◌≡◌,
  ◌↔◌,
  ◌+◌,
  ◌≤◌,
  ◌∷◌,
  ◌++◌,
  [],
  IsTrue,
  List,
  OnOk,
  length,
  vec_capacity,
};
ghost use Rattle.cam_objects.specs.Cells.{AreCellsOf, AreFirstCopiesOf, item_boxes};
ghost use Rattle.cam_objects.specs.Contents.{content_of};
ghost use Rattle.cam_objects.specs.Soundness.{HasSoundItems, IsSound};
ghost use Rattle.cam_edits.specs.Steps.{HasRoom, IsSoundStep, after_step, inverse_step};

use crate::attribute_judging::keeps_attributes;
use crate::copies::mend_copies;
use crate::judging::check;
use crate::mending::{leaves_at, mend};
use crate::reversible::Reversible;
use crate::shift::Shift;
use crate::step::Step;
use cam_objects::{FirstCopies, ItemCells, Layer};
use std::alloc::{AllocError, Global};
use std::marker::Model;

/// What is kept beside a layer of either kind: the cells that its items reach, and how many leaves they have.
#[derive(Drop)]
pub(crate) struct Kept {
    pub cells: ItemCells,
    pub leaves: u64,
}

/// A layer, with the cells that its items reach, the number of its leaves and the first copies of its repeats: an edit
/// reads what it touches alone.
#[derive(Drop)]
pub struct IndexedLayer {
    layer: Layer,
    kept: Kept,
    copies: FirstCopies,
}

impl Model for IndexedLayer {
    ghost use Rattle.cam_objects.specs.declared.layer.Layer.{Layer};
    ghost use Rattle.cam_edits.specs.Machinery.Shifts.{IsIndexed};

    ghost Value = { Layer };

    ghost view = { λ c. c.layer };

    ghost invariant = { IsIndexed };
}

impl IndexedLayer {
    ghost use Rattle.cam_edits.specs.Machinery.Shifts.{leaves_in};

    /// Of a sound layer. Where memory for the cells is refused, it is not known what its items reach; nor what the objects
    /// of its repeats reach, where it is refused for these.
    pub fn new(alloc: Global, layer: Layer) -> IndexedLayer
        requires { IsSound layer }
        ensures { result ≡ layer }
    {
        let (cells, leaves) = ItemCells::of(alloc, &mut layer.boxes());
        let copies = first_copies(alloc, &layer, leaves);
        IndexedLayer {
            layer,
            kept: Kept { cells, leaves },
            copies,
        }
    }

    /// The layer.
    pub fn layer(&self) -> &Layer
        ensures { result.now ≡ self.now }
    {
        &self.layer
    }

    /// What its items reach, where it is known.
    pub fn cells(&self) -> &ItemCells
        ensures { AreCellsOf (item_boxes self.now.apertures self.now.items.items) result.now }
    {
        &self.kept.cells
    }

    /// The first copies of its repeats of many objects, as far as they are known.
    pub fn first_copies(&self) -> &FirstCopies
        ensures { AreFirstCopiesOf self.now.apertures self.now.items.items result.now }
    {
        &self.copies
    }

    /// How many leaves it has.
    pub(crate) fn leaves(&self) -> u64
        ensures { result ≡ leaves_in self.now }
    {
        self.kept.leaves
    }

    /// Makes room for so many items more, and for so many attributes; refused for want of memory alone. The layer
    /// stays. Of items for whose cells there is no memory it will not be known what they reach.
    pub(crate) fn reserve(&mut self, items: usize, attributes: usize) -> Result<(), AllocError>
        ensures content { content_of self.new ≡ content_of self.old }
        ensures items { OnOk result (length self.new.items.items + items ≤ vec_capacity self.new.items) }
        ensures attributes { OnOk result
            (length self.new.attributes.items + attributes ≤ vec_capacity self.new.attributes) }
    {
        self.kept.cells.reserve(items);
        self.layer.items.reserve(items)?;
        self.layer.attributes.reserve(attributes)
    }

    /// Whether a step may be played on it: it fits the layer, and leads to a sound one.
    pub(crate) fn fits(&self, step: &Step) -> bool
        ensures { IsTrue result ↔ IsSoundStep step.now (content_of self.now) }
    {
        if !step.fits(&self.layer) {
            return false;
        }
        if !keeps_attributes(&self.layer, step) {
            return false;
        }
        check(&self.layer, self.kept.leaves, step).is_ok()
    }

    /// Plays a step. The answer leads back. Takes no memory: the first copy of a repeat that comes is not known.
    pub(crate) fn play(&mut self, step: Step) -> Step
        requires fits { IsSoundStep step (content_of self.old) }
        requires room { HasRoom (step ∷ []) self.old }
        ensures content { content_of self.new ≡ after_step step (content_of self.old) }
        ensures answer { result ≡ inverse_step step (content_of self.old) }
        ensures room { (rest : List Step) → HasRoom (rest ++ step ∷ []) self.old → HasRoom rest self.new }
    {
        let shift = Shift::of(&step);
        let gone = leaves_at(&self.layer, shift.from);
        let answer = step.play(&mut self.layer);
        let come = leaves_at(&self.layer, shift.to);
        self.kept.leaves = self.kept.leaves + come - gone;
        mend(&mut self.kept.cells, &mut self.layer.boxes(), shift);
        mend_copies(&mut self.copies, &self.layer, shift);
        answer
    }
}

/// The first copies of the repeats of a sound layer with so many leaves.
fn first_copies(alloc: Global, layer: &Layer, leaves: u64) -> FirstCopies
    requires { HasSoundItems layer.now }
    ensures { AreFirstCopiesOf layer.now.apertures layer.now.items.items result }
{
    // Where no item has two leaves there is no repeat to look for.
    if leaves > layer.items.len() as u64 {
        layer.first_copies(alloc)
    } else {
        FirstCopies::none(alloc)
    }
}
