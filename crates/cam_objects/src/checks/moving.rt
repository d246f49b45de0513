//! Whether items stay on the board when they are moved: the box of their control points moves with them.

ghost use Rattle.std.specs.Prelude.{◌↔◌, All, IsTrue, map};
ghost use Rattle.cam_units.specs.Board.{IsOnBoard};
ghost use Rattle.cam_shapes.specs.Shifting.{shifted_point};
ghost use Rattle.cam_objects.specs.DrillSoundness.{IsSoundDrillItem, drill_points_of};
ghost use Rattle.cam_objects.specs.Shifting.{IsMove, shifted_drill_item, shifted_item};
ghost use Rattle.cam_objects.specs.Soundness.{IsInside, IsSoundItem};

use crate::boxes::placed::moved;
use crate::checks::inside::{
    fits_box, joined_points, painted_box, painted_boxes, standing_box, standing_boxes,
};
use crate::drill_item::DrillItem;
use crate::drill_layer::DrillLayer;
use crate::item::Item;
use crate::layer::Layer;
use cam_units::{Bounds, Point};

impl Layer {
    /// Whether the item, moved by so many nm, lies on the board with all its leaves.
    pub fn can_move(&self, item: &Item, by: Point) -> bool
        requires item { IsSoundItem self.now.apertures item.now }
        requires by { IsMove by }
        ensures { IsTrue result ↔ IsInside self.now.apertures (shifted_item by item.now) }
    {
        match item {
            Item::One(object) => {
                if !fits_box(&moved(standing_box(object), by)) {
                    return false;
                }
                fits_box(&moved(painted_box(&self.apertures, object), by))
            }
            Item::Repeat { objects, .. } => {
                let copies = item.copies();
                let objects = objects.as_slice();
                if !fits_box(&moved(standing_boxes(objects), by)) {
                    return false;
                }
                let one = moved(painted_boxes(&self.apertures, objects), by);
                if !fits_box(&one) {
                    return false;
                }
                fits_box(&moved(one, copies.last()))
            }
        }
    }
}

impl DrillLayer {
    /// Whether the item, moved by so many nm, lies on the board.
    pub fn can_move(&self, item: &DrillItem, by: Point) -> bool
        requires item { IsSoundDrillItem self.now.tools item.now }
        requires by { IsMove by }
        ensures { IsTrue result ↔ All IsOnBoard (drill_points_of (shifted_drill_item by item.now)) }
    {
        match item {
            DrillItem::Hit { at, .. } => can_move_points(&[*at], &by),
            DrillItem::Rout { points, .. } => can_move_points(points.as_slice(), &by),
        }
    }
}

/// Whether the points, moved, lie on the board.
fn can_move_points(points: &[Point], by: &Point) -> bool
    requires points { All IsOnBoard points.now }
    requires by { IsMove by.now }
    ensures { IsTrue result ↔ All IsOnBoard (map (shifted_point by.now) points.now) }
{
    let bounds = joined_points(Bounds::Empty, points);
    fits_box(&moved(bounds, *by))
}
