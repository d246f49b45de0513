//! Objects and items that are moved.

ghost use Rattle.std.specs.Prelude.{◌≡◌};
ghost use Rattle.cam_shapes.specs.Shifting.{IsShiftable};
ghost use Rattle.cam_objects.specs.Shifting.{
  IsShiftableDrillItem,
  IsShiftableItem,
  IsShiftableObject,
  shifted_drill_item,
  shifted_item,
  shifted_object,
};

use crate::drill_item::DrillItem;
use crate::item::Item;
use crate::object::{Object, shift_objects};
use crate::points::shift_points;
use cam_shapes::shifted;
use cam_units::Point;

impl Object {
    /// Moves each control point by so many nm.
    pub fn shift(&mut self, by: Point)
        requires object { IsShiftableObject self.old }
        requires by { IsShiftable by }
        ensures { self.new ≡ shifted_object by self.old }
    {
        match self {
            Object::Flash { at, .. } => *at = shifted(*at, by),
            Object::Draw { from, to, .. } => {
                *from = shifted(*from, by);
                *to = shifted(*to, by);
            }
            Object::Arc {
                from,
                to,
                centre,
                ..
            } => {
                *from = shifted(*from, by);
                *to = shifted(*to, by);
                *centre = shifted(*centre, by);
            }
            Object::Region { contour, .. } => contour.shift(by),
        }
    }
}

impl Item {
    /// Moves each control point by so many nm, those of a repeat in every copy.
    pub fn shift(&mut self, by: Point)
        requires item { IsShiftableItem self.old }
        requires by { IsShiftable by }
        ensures { self.new ≡ shifted_item by self.old }
    {
        match self {
            Item::One(object) => object.shift(by),
            Item::Repeat { objects, .. } => shift_objects(objects, by),
        }
    }
}

impl DrillItem {
    /// Moves each point by so many nm.
    pub fn shift(&mut self, by: Point)
        requires item { IsShiftableDrillItem self.old }
        requires by { IsShiftable by }
        ensures { self.new ≡ shifted_drill_item by self.old }
    {
        match self {
            DrillItem::Hit { at, .. } => *at = shifted(*at, by),
            DrillItem::Rout { points, .. } => shift_points(points, by),
        }
    }
}
