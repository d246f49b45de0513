//! What is asked of sheets by hand.

ghost use Rattle.std.specs.Prelude.{◌≡◌, option_map, slice_get};
ghost use Rattle.std.specs.Option.{option_copied};
ghost use Rattle.cam_units.specs.Board.{IsPlace};
ghost use Rattle.cam_objects.specs.Bounds.{bounds_of};
ghost use Rattle.cam_objects.specs.Enclosed.{FindsEnclosed};
ghost use Rattle.cam_objects.specs.Topmost.{PointsAt};
ghost use Rattle.cam_edits.specs.Asking.{
  attributes_of,
  definition_at,
  definition_of,
  item_at,
  item_of,
  sheet_boxes,
  sheet_lists,
};
ghost use Rattle.cam_edits.specs.Images.{sheet_leaves};
ghost use Rattle.cam_edits.specs.Sheets.{IsSound, content_of};

use crate::board::SheetContent;
use crate::listed::{ListedEntry, ListedItem};
use cam_objects::Attribute;
use cam_units::{Bounds, Spot};

impl SheetContent {
    /// The place of the topmost item at a place, in half nm, among those before one: the last of them of which some leaf
    /// covers it, dark or clear. Takes no memory.
    pub fn item_at(&self, at: Spot, before: usize) -> Option<usize>
        requires sound { IsSound (content_of self.now) }
        requires at { IsPlace at }
        ensures { PointsAt (sheet_lists (content_of self.now)) at before result }
    {
        match self {
            SheetContent::Gerber(layer) => layer.layer().item_at(Some(layer.cells()), at, before),
            SheetContent::Drill(layer) => layer.layer().item_at(Some(layer.cells()), at, before),
        }
    }

    /// The place of the next item, from one on, whose box lies in a box, in half nm, edges included; one that paints
    /// nothing lies in none. Takes no memory.
    pub fn item_in(&self, outer: Bounds, from: usize) -> Option<usize>
        requires { IsSound (content_of self.now) }
        ensures { FindsEnclosed (sheet_boxes (content_of self.now)) outer from result }
    {
        match self {
            SheetContent::Gerber(layer) => layer.layer().item_in(outer, from),
            SheetContent::Drill(layer) => layer.layer().item_in(outer, from),
        }
    }

    /// The least box that holds the boxes of all items, in half nm. Goes through all items. Takes no memory.
    pub fn bounds(&self) -> Bounds
        requires { IsSound (content_of self.now) }
        ensures { result ≡ bounds_of (sheet_leaves (content_of self.now)) }
    {
        match self {
            SheetContent::Gerber(layer) => layer.layer().bounds(),
            SheetContent::Drill(layer) => layer.layer().bounds(),
        }
    }

    /// The box of the item at a place of the list, counted from 0, in half nm. Takes no memory.
    pub fn item_bounds(&self, k: usize) -> Option<Bounds>
        requires { IsSound (content_of self.now) }
        ensures { result ≡ slice_get (sheet_boxes (content_of self.now)) k }
    {
        if self.item_count() <= k {
            return None;
        }
        match self {
            SheetContent::Gerber(layer) => Some(layer.layer().item_bounds(k)),
            SheetContent::Drill(layer) => Some(layer.layer().item_bounds(k)),
        }
    }

    /// The item at a place of the list, counted from 0.
    pub fn item(&self, k: usize) -> Option<ListedItem<'_>>
        ensures { option_map item_of result ≡ item_at (content_of self.now) k }
    {
        match self {
            SheetContent::Gerber(layer) => Some(ListedItem::Gerber(layer.layer().items().get(k)?)),
            SheetContent::Drill(layer) => Some(ListedItem::Drill(layer.layer().items().get(k)?)),
        }
    }

    /// The aperture, the block or the tool at a place of the order, counted from 0.
    pub fn entry(&self, i: usize) -> Option<ListedEntry<'_>>
        ensures { option_map definition_of result ≡ definition_at (content_of self.now) i }
    {
        match self {
            SheetContent::Gerber(layer) => match layer.layer().entries().at(i) {
                Some((number, entry)) => Some(ListedEntry::Numbered { number, entry }),
                None => None,
            },
            SheetContent::Drill(layer) => match layer.layer().tools().at(i) {
                Some((tool, diameter)) => Some(ListedEntry::Sized { tool, diameter }),
                None => None,
            },
        }
    }

    /// The file attribute at a place of the list, counted from 0; a drill layer has none.
    pub fn attribute(&self, i: usize) -> Option<&Attribute>
        ensures { option_copied result ≡ slice_get (attributes_of (content_of self.now)) i }
    {
        match self {
            SheetContent::Gerber(layer) => layer.layer().attributes().get(i),
            SheetContent::Drill(_) => None,
        }
    }
}
