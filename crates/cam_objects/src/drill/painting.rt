//! Drill layers, painted on a canvas, item by item from the last one on.

ghost use Rattle.std.specs.Prelude.{◌<◌, ◌≡◌, ℕ, All, Some, length, slice_get};
ghost use Rattle.cam_units.specs.Board.{IsOnBoard, IsSize};
ghost use Rattle.cam_units.specs.declared.length.Nm.{Nm};
ghost use Rattle.cam_objects.specs.Canvases.{Paints};
ghost use Rattle.cam_objects.specs.Contents.{drill_content_leaves, drill_content_of};
ghost use Rattle.cam_objects.specs.Drilling.{drill_item_leaves, rout_leaves};
ghost use Rattle.cam_objects.specs.DrillSoundness.{IsSoundDrillItem, IsSoundDrillLayer, IsSoundTool};
ghost use Rattle.cam_objects.specs.declared.drill_item.DrillItem.{DrillItem};

use crate::boxes::shapes::stroke_bounds;
use crate::canvas::{Canvas, Figure, Print, misses};
use crate::drill_item::DrillItem;
use crate::drill_layer::DrillLayer;
use crate::paint::prints::{paint_hole, paint_leaf};
use crate::tools::Tools;
use cam_shapes::{Capsule, Disc};
use cam_units::{Nm, Point};

/// Routs from each point to the next, the last slot first; one point is a hole.
fn paint_rout<C: Canvas>(points: &[Point], diameter: Nm, canvas: &mut C)
    requires points { All IsOnBoard points.now }
    requires diameter { IsSize diameter.0 }
    ensures { Paints C.has C.place C.ink canvas.old (rout_leaves diameter points.now) canvas.new }
{
    if points.len() == 1 {
        paint_hole(
            Disc {
                centre: points[0],
                diameter,
            },
            canvas,
        );
        return;
    }
    for k in (1..points.len()).rev() {
        let slot = Capsule {
            from: points[k - 1],
            to: points[k],
            width: diameter,
        };
        let print = Print {
            figure: Figure::Stroke(slot),
            dark: true,
            bounds: stroke_bounds(&slot),
        };
        paint_leaf(print, canvas);
    }
}

/// Paints what an item drills or routs, if its box meets the canvas, and, of a rout, if something is left to paint there.
fn paint_item<C: Canvas>(tools: &Tools, item: &DrillItem, canvas: &mut C)
    requires tools { All (λ (e : ℕ × Nm). IsSoundTool e.0 e.1) tools.now }
    requires item { IsSoundDrillItem tools.now item.now }
    ensures { Paints C.has C.place C.ink canvas.old (drill_item_leaves tools.now item.now) canvas.new }
{
    let Some(diameter) = tools.get(item.tool()) else {
        return;
    };
    let bounds = item.bounds(diameter);
    if misses(canvas, bounds) {
        return;
    }
    match item {
        DrillItem::Hit { at, .. } => paint_hole(
            Disc {
                centre: *at,
                diameter,
            },
            canvas,
        ),
        DrillItem::Rout { points, .. } => {
            if canvas.is_decided_in(bounds) {
                return;
            }
            paint_rout(points.as_slice(), diameter, canvas);
        }
    }
}

impl DrillLayer {
    /// Paints a sound drill layer on a canvas, from the last hole or slot on, all dark. What has nothing left to paint in
    /// its box is passed over.
    pub fn paint<C: Canvas>(&self, canvas: &mut C)
        requires { IsSoundDrillLayer self.now }
        ensures { Paints C.has C.place C.ink canvas.old (drill_content_leaves (drill_content_of self.now)) canvas.new }
    {
        for place in (0..self.items.len()).rev() {
            self.paint_item(place, canvas);
        }
    }

    /// Paints the item at a place of the list, counted from 0, from its last slot on.
    pub fn paint_item<C: Canvas>(&self, place: usize, canvas: &mut C)
        requires sound { IsSoundDrillLayer self.now }
        requires within { place < length self.now.items.items }
        ensures { (item : DrillItem) → slice_get self.now.items.items place ≡ Some item
            → Paints C.has C.place C.ink canvas.old (drill_item_leaves self.now.tools item) canvas.new }
    {
        paint_item(&self.tools, &self.items[place], canvas);
    }
}
