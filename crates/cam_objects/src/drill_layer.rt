//! Drill layers.

ghost use Rattle.std.specs.Prelude.{◌≡◌, ◌++◌, ◌∷◌, ◌↔◌, [], IfOk, IsTrue, OnErr, OnOk, sum_by};
ghost use Rattle.cam_units.specs.Board.{IsPlace};
ghost use Rattle.cam_refusals.specs.Checks.{answer_of, first_holding};
ghost use Rattle.cam_objects.specs.Drilling.{drill_leaves};
ghost use Rattle.cam_objects.specs.DrillSoundness.{
  IsSoundDrillItem,
  IsSoundDrillLayer,
  KeepsDrillLimits,
  MayAddTool,
  drill_count_of,
  drill_item_checks,
};
ghost use Rattle.cam_objects.specs.Image.{IsBlack};
ghost use Rattle.cam_objects.specs.Tests.{is_black};

use crate::drill::checks::{
    check_drilling, fits_limits, fits_limits_beside, fits_tool, leaf_count,
};
use crate::drill_item::DrillItem;
use crate::image::Pixel;
use crate::item_fault::ItemFault;
use crate::tools::Tools;
use cam_units::{Nm, Spot};
use std::alloc::{AllocError, Global};

/// A drill layer (XNC Format Specification): its tools, and what it drills and routs, in order.
///
/// It is sound where every tool and every item is, and the limits hold: at most 1,000,000 items, and
/// at most 4,000,000 holes and slots.
#[derive(Clone, Drop)]
pub struct DrillLayer {
    pub tools: Tools,
    pub items: Vec<DrillItem>,
}

impl DrillLayer {
    /// No tool and no item.
    pub fn new(alloc: Global) -> DrillLayer
        ensures tools { result.tools ≡ [] }
        ensures items { result.items.items ≡ [] }
    {
        DrillLayer {
            tools: Tools::new(alloc),
            items: Vec::new(alloc),
        }
    }

    /// Adds a tool behind the others; refused for want of memory alone.
    pub fn add_tool(&mut self, tool: u16, diameter: Nm) -> Result<(), AllocError>
        requires { MayAddTool self.old.tools tool diameter }
        ensures ok { OnOk result (self.new.tools ≡ self.old.tools ++ (tool, diameter) ∷ []) }
        ensures err { OnErr result (self.new.tools ≡ self.old.tools) }
        ensures items { self.new.items ≡ self.old.items }
    {
        self.tools.push(tool, diameter)
    }

    /// Adds an item behind the others; refused for want of memory alone.
    pub fn push(&mut self, item: DrillItem) -> Result<(), AllocError>
        requires item { IsSoundDrillItem self.old.tools item }
        requires room { KeepsDrillLimits (self.old.items.items ++ item ∷ []) }
        ensures ok { OnOk result (self.new.items.items ≡ self.old.items.items ++ item ∷ []) }
        ensures err { OnErr result (self.new.items.items ≡ self.old.items.items) }
        ensures tools { self.new.tools ≡ self.old.tools }
    {
        self.items.push(item)?;
        Ok(())
    }

    /// The tools, in their order.
    pub fn tools(&self) -> &Tools
        ensures { result.now ≡ self.now.tools }
    {
        &self.tools
    }

    /// The items, in order.
    pub fn items(&self) -> &[DrillItem]
        ensures { result.now ≡ self.now.items.items }
    {
        self.items.as_slice()
    }

    /// Whether a tool may be added: its number is from 1 to 9,999 and new, its diameter from 1 to
    /// 200,000,000 nm.
    pub fn check_tool(&self, tool: u16, diameter: Nm) -> bool
        ensures { IsTrue result ↔ MayAddTool self.now.tools tool diameter }
    {
        fits_tool(tool, diameter) && self.tools.get(tool).is_none()
    }

    /// Whether the item is sound beside the layer's tools, or the first of these faults: it has no
    /// point, no tool of the layer, a point outside the board, or more than 1,000,000 points.
    pub fn check_item(&self, item: &DrillItem) -> Result<(), ItemFault>
        ensures { result ≡ answer_of (first_holding (drill_item_checks self.now.tools item.now)) }
    {
        match item {
            DrillItem::Hit { tool, at } => check_drilling(self.tools.get(*tool).is_some(), &[*at]),
            DrillItem::Rout { tool, points } => {
                check_drilling(self.tools.get(*tool).is_some(), points.as_slice())
            }
        }
    }

    /// Whether the layer with the item behind the others keeps its limits. Goes through all items and counts their
    /// holes and slots.
    pub fn has_room(&self, item: &DrillItem) -> bool
        requires { IsSoundDrillLayer self.now }
        ensures { IsTrue result ↔ KeepsDrillLimits (self.now.items.items ++ item.now ∷ []) }
    {
        fits_limits(&self.items, item)
    }

    /// How many holes and slots the layer has. Goes through all items.
    pub fn leaf_count(&self) -> u64
        requires { IsSoundDrillLayer self.now }
        ensures { result ≡ sum_by drill_count_of self.now.items.items }
    {
        leaf_count(&self.items)
    }

    /// What `has_room` answers, where it is known how many holes and slots the layer has: goes through no other item.
    pub fn has_room_beside(&self, leaves: u64, item: &DrillItem) -> bool
        requires sound { IsSoundDrillLayer self.now }
        requires leaves { leaves ≡ sum_by drill_count_of self.now.items.items }
        ensures { IsTrue result ↔ KeepsDrillLimits (self.now.items.items ++ item.now ∷ []) }
    {
        fits_limits_beside(&self.items, leaves, item)
    }

    /// Whether a place, in half nm, is black: a hole or a slot covers it.
    pub fn black_at(&self, spot: Spot) -> bool
        requires sound { IsSoundDrillLayer self.now }
        requires spot { IsPlace spot }
        ensures image { IsTrue result ↔ IsBlack (drill_leaves self.now.tools self.now.items.items) spot }
        ensures test { result ≡ is_black (drill_leaves self.now.tools self.now.items.items) spot }
    {
        let mut pixel = Pixel::at(spot);
        self.paint(&mut pixel);
        pixel.is_dark()
    }

    /// A copy of the layer in memory of its own, from the allocator of this one.
    pub fn try_copy(&self) -> Result<DrillLayer, AllocError>
        ensures tools { IfOk result (λ copy. copy.tools ≡ self.now.tools) }
        ensures items { IfOk result (λ copy. copy.items.items ≡ self.now.items.items) }
    {
        self.clone()
    }
}
