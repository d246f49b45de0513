//! Steps that edit a drill layer.

ghost use Rattle.std.specs.Prelude.{◌≡◌, ℕ, IfNone, IfSome, List};
ghost use Rattle.cam_objects.specs.DrillSoundness.{tool_of};
ghost use Rattle.cam_edits.specs.DrillSteps.{
  HasDrillRoom,
  IsDrillFit,
  after_drill_step,
  inverse_drill_step,
  tools_after,
  with_tool,
};
ghost use Rattle.cam_edits.specs.declared.drill_step.DrillStep.TheVariants.{Diameter};
ghost use Rattle.cam_objects.specs.Contents.{DrillContent, drill_content_of};

use crate::carrying::{carry, put};
use crate::moving::{can_move_drill_item, way};
use crate::reversible::Reversible;
use cam_objects::{DrillItem, DrillLayer};
use cam_units::Nm;
use std::alloc::AllocError;
use std::mem;

/// A change of a drill layer, which turns into its inverse when it is played. Places are counted from 0.
#[derive(Drop)]
pub enum DrillStep {
    /// The item stands at place `k`, those behind it one place further.
    Insert { k: usize, item: DrillItem },
    /// The list without place `k`.
    Delete { k: usize },
    /// The points of item `k` are shifted by `dx` nm to the right and `dy` nm up.
    Move { k: usize, dx: i64, dy: i64 },
    /// Item `k` is taken out, and then stands at place `m`.
    Reorder { k: usize, m: usize },
    /// The item at place `k` gets the tool of that number.
    Tool { k: usize, t: u16 },
    /// The tool of that number gets another diameter, in nm.
    Diameter { t: u16, d: Nm },
}

impl Reversible for DrillStep {
    ghost use Rattle.cam_edits.specs.Machinery.DrillStepLaws.{
      drill_answer_fits,
      drill_gives_back_content,
      drill_gives_back_step,
      drill_last_has_room,
    };

    type Doc = DrillLayer;

    ghost Content = { DrillContent };

    ghost content = { drill_content_of };

    ghost after = { after_drill_step };

    ghost inverse = { inverse_drill_step };

    ghost is_fit = { IsDrillFit };

    ghost has_room = { HasDrillRoom };

    ghost answer_fits = { drill_answer_fits };

    ghost gives_back_content = { drill_gives_back_content };

    ghost gives_back_step = { drill_gives_back_step };

    ghost last_has_room = { drill_last_has_room };

    fn fits(&self, layer: &DrillLayer) -> bool {
        match self {
            DrillStep::Insert { k, .. } => *k <= layer.items.len(),
            DrillStep::Delete { k } => *k < layer.items.len(),
            DrillStep::Move { k, dx, dy } => match layer.items.get(*k) {
                Some(item) => can_move_drill_item(item, way(*dx, *dy)),
                None => false,
            },
            DrillStep::Reorder { k, m } => *k < layer.items.len() && *m < layer.items.len(),
            DrillStep::Tool { k, .. } => *k < layer.items.len(),
            DrillStep::Diameter { t, .. } => layer.tools.get(*t).is_some(),
        }
    }

    fn room(group: &[DrillStep], layer: &mut DrillLayer) -> Result<(), AllocError> {
        let count = group
            .iter()
            .filter(|step| matches!(step, DrillStep::Insert { .. }))
            .count();
        layer.items.reserve(count)
    }

    fn play(self, layer: &mut DrillLayer) -> DrillStep {
        match self {
            DrillStep::Insert { k, item } => {
                put(&mut layer.items, k, item);
                DrillStep::Delete { k }
            }
            DrillStep::Delete { k } => DrillStep::Insert {
                k,
                item: layer.items.remove(k),
            },
            DrillStep::Move { k, dx, dy } => {
                layer.items[k].shift(way(dx, dy));
                DrillStep::Move {
                    k,
                    dx: -dx,
                    dy: -dy,
                }
            }
            DrillStep::Reorder { k, m } => {
                carry(layer.items.as_mut_slice(), k, m);
                DrillStep::Reorder { k: m, m: k }
            }
            DrillStep::Tool { k, t } => {
                let t = set_tool(&mut layer.items[k], t);
                DrillStep::Tool { k, t }
            }
            DrillStep::Diameter { t, d } => {
                let d = layer.tools.replace(t, d);
                DrillStep::Diameter { t, d }
            }
        }
    }
}

impl DrillStep {
    /// The tool and the diameter that it gives to it, in nm, where it is such a step; the others keep the tools.
    pub(crate) fn size(&self) -> Option<(u16, Nm)>
        ensures given { IfSome result (λ size. self.now ≡ Diameter size.0 size.1) }
        ensures kept { IfNone result ((tools : List (ℕ × Nm)) → tools_after self.now tools ≡ tools) }
    {
        match self {
            DrillStep::Insert { .. } => None,
            DrillStep::Delete { .. } => None,
            DrillStep::Move { .. } => None,
            DrillStep::Reorder { .. } => None,
            DrillStep::Tool { .. } => None,
            DrillStep::Diameter { t, d } => Some((*t, *d)),
        }
    }
}

/// Gives the item another tool. The answer is the number before.
fn set_tool(item: &mut DrillItem, t: u16) -> u16
    ensures item { item.new ≡ with_tool t item.old }
    ensures before { result ≡ tool_of item.old }
{
    match item {
        DrillItem::Hit { tool, .. } => mem::replace(tool, t),
        DrillItem::Rout { tool, .. } => mem::replace(tool, t),
    }
}
