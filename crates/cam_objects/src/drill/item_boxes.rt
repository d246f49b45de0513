//! The boxes of the items of a drill layer, one after another.

ghost use Rattle.std.specs.Prelude.{◌≡◌, ◌<◌, Some, length, map, slice_get};
ghost use Rattle.cam_objects.specs.Bounds.{bounds_of};
ghost use Rattle.cam_objects.specs.Cells.{drill_item_boxes};
ghost use Rattle.cam_objects.specs.Drilling.{diameter_of, drill_item_leaves};
ghost use Rattle.cam_objects.specs.DrillSoundness.{IsSoundDrillLayer, drill_count_of};
ghost use Rattle.cam_objects.specs.Machinery.Extents.{IsLastToolIn};
ghost use Rattle.cam_objects.specs.declared.drill_item.DrillItem.{DrillItem};

use crate::cells::item_list::BoxedItems;
use crate::cells::reach::{Measure, Reach};
use crate::drill_item::DrillItem;
use crate::drill_layer::DrillLayer;
use crate::tools::Tools;
use cam_units::{Bounds, Nm};
use std::marker::Model;

/// The tool that was asked for last, and its diameter, in nm.
#[derive(Clone, Copy)]
pub(crate) struct LastTool {
    pub tool: u16,
    pub diameter: Option<Nm>,
}

impl LastTool {
    /// The diameter of a tool, which is looked up only where it is another one.
    #[inline]
    fn diameter_in(&mut self, tools: &Tools, tool: u16) -> Option<Nm>
        requires { IsLastToolIn tools.now self.old }
        ensures value { result ≡ diameter_of tools.now tool }
        ensures last { IsLastToolIn tools.now self.new }
    {
        if self.tool != tool {
            self.tool = tool;
            self.diameter = tools.get(tool);
        }
        self.diameter
    }
}

/// Reads the boxes of the items of a drill layer: a tool that the item read before named is not looked up again.
#[derive(Drop)]
pub struct DrillItemBoxes<'a> {
    layer: &'a DrillLayer,
    last: LastTool,
}

impl<'a> Model for DrillItemBoxes<'a> {
    ghost use Rattle.cam_objects.specs.declared.drill_layer.DrillLayer.{DrillLayer};

    ghost Value = { DrillLayer };

    ghost use Rattle.cam_objects.specs.DrillSoundness.{IsSoundDrillLayer};
    ghost use Rattle.cam_objects.specs.Machinery.Extents.{IsLastToolIn};

    ghost view = { λ r. r.layer.now };

    ghost invariant = { λ r. IsSoundDrillLayer r.layer.now
        × IsLastToolIn r.layer.now.tools r.last };
}

impl DrillLayer {
    /// Reads the boxes of the items of a sound drill layer.
    pub fn boxes(&self) -> DrillItemBoxes<'_>
        requires { IsSoundDrillLayer self.now }
        ensures { result ≡ self.now }
    {
        DrillItemBoxes {
            layer: self,
            last: LastTool {
                tool: 0,
                diameter: self.tools.get(0),
            },
        }
    }
}

impl<'a> DrillItemBoxes<'a> {
    /// The layer.
    pub(crate) fn layer(&self) -> &DrillLayer
        ensures value { result.now ≡ self.now }
        ensures sound { IsSoundDrillLayer self.now }
    {
        self.layer
    }

    /// The box of the item at a place of the list, counted from 0: that of `DrillLayer::item_bounds`. Takes no memory.
    #[inline]
    pub fn read(&mut self, place: usize) -> Bounds
        requires { place < length self.old.items.items }
        ensures value { (item : DrillItem) → slice_get self.old.items.items place ≡ Some item
            → result ≡ bounds_of (drill_item_leaves self.old.tools item) }
        ensures layer { self.new ≡ self.old }
    {
        let layer = self.layer;
        let item = &layer.items[place];
        item.bounds_with(self.last.diameter_in(&layer.tools, item.tool()))
    }
}

impl<'a> BoxedItems for DrillItemBoxes<'a> {
    ghost boxes = { λ r. drill_item_boxes r.tools r.items.items };

    ghost leaf_counts = { λ r. map drill_count_of r.items.items };

    fn count(&self) -> usize {
        self.layer.items.len()
    }

    fn leaf_count(&self) -> u64 {
        self.layer.leaf_count()
    }

    fn measure_at(&mut self, place: usize) -> Measure {
        let layer = self.layer;
        Measure {
            reach: Reach::of(self.read(place)),
            leaves: layer.items[place].leaf_count() as u64,
        }
    }
}
