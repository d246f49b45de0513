//! Boxes of what a drill layer drills and routs, in half nm.

ghost use Rattle.std.specs.Prelude.{◌≡◌, ◌<◌, All, IfSome, Some, length, slice_get};
ghost use Rattle.cam_units.specs.Board.{IsOnBoard, IsSize};
ghost use Rattle.cam_objects.specs.Bounds.{bounds_of};
ghost use Rattle.cam_objects.specs.Drilling.{drill_item_leaves, leaves_with};
ghost use Rattle.cam_objects.specs.DrillSoundness.{IsSoundDrillItem, IsSoundDrillLayer, drill_points_of};
ghost use Rattle.cam_objects.specs.Shifting.{IsMove, shifted_drill_item};
ghost use Rattle.cam_objects.specs.declared.drill_item.DrillItem.{DrillItem};

use crate::boxes::placed::moved;
use crate::boxes::shapes::{hole_bounds, widened};
use crate::checks::inside::joined_points;
use crate::drill_item::DrillItem;
use crate::drill_layer::DrillLayer;
use cam_shapes::Disc;
use cam_units::{Bounds, Nm, Point};

impl DrillItem {
    /// The box of the item with a tool of that diameter: of its points, widened by the radius. Takes no memory.
    #[inline]
    pub fn bounds(&self, diameter: Nm) -> Bounds
        requires points { All IsOnBoard (drill_points_of self.now) }
        requires diameter { IsSize diameter.0 }
        ensures { result ≡ bounds_of (leaves_with (Some diameter) self.now) }
    {
        match self {
            DrillItem::Hit { at, .. } => hole_bounds(&Disc {
                centre: *at,
                diameter,
            }),
            DrillItem::Rout { points, .. } => {
                let points = joined_points(Bounds::Empty, points.as_slice());
                widened(&points, &diameter, &diameter)
            }
        }
    }

    /// The box of what it paints with a tool of this diameter; empty where there is no such tool.
    #[inline]
    pub(crate) fn bounds_with(&self, diameter: Option<Nm>) -> Bounds
        requires points { All IsOnBoard (drill_points_of self.now) }
        requires diameter { IfSome diameter (λ d. IsSize d.0) }
        ensures { result ≡ bounds_of (leaves_with diameter self.now) }
    {
        match diameter {
            Some(diameter) => self.bounds(diameter),
            None => Bounds::Empty,
        }
    }
}

impl DrillLayer {
    /// The least box that holds the boxes of all holes and slots of a sound item: of its points, widened by the radius
    /// of its tool. Takes no memory.
    pub fn bounds_of(&self, item: &DrillItem) -> Bounds
        requires sound { IsSoundDrillLayer self.now }
        requires item { IsSoundDrillItem self.now.tools item.now }
        ensures { result ≡ bounds_of (drill_item_leaves self.now.tools item.now) }
    {
        item.bounds_with(self.tools.get(item.tool()))
    }

    /// The box of a sound item that is moved by so many nm and stays on the board. Takes no memory.
    pub fn moved_bounds(&self, item: &DrillItem, by: Point) -> Bounds
        requires sound { IsSoundDrillLayer self.now }
        requires item { IsSoundDrillItem self.now.tools item.now }
        requires by { IsMove by }
        ensures { result ≡ bounds_of (drill_item_leaves self.now.tools (shifted_drill_item by item.now)) }
    {
        moved(self.bounds_of(item), by)
    }

    /// The box of the item at a place of the list, counted from 0.
    pub fn item_bounds(&self, place: usize) -> Bounds
        requires sound { IsSoundDrillLayer self.now }
        requires within { place < length self.now.items.items }
        ensures { (item : DrillItem) → slice_get self.now.items.items place ≡ Some item
            → result ≡ bounds_of (drill_item_leaves self.now.tools item) }
    {
        self.bounds_of(&self.items[place])
    }
}
