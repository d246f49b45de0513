//! What is asked of a station by hand. Nothing changes, and no memory is taken.

ghost use Rattle.std.specs.Prelude.{◌≡◌, ◌↔◌, IfSome, IsTrue, None, length, option_map, slice_get};
ghost use Rattle.std.specs.Option.{option_copied};
ghost use Rattle.cam_units.specs.Board.{IsPlace};
ghost use Rattle.cam_objects.specs.Bounds.{bounds_of};
ghost use Rattle.cam_objects.specs.Enclosed.{FindsEnclosed};
ghost use Rattle.cam_objects.specs.Topmost.{PointsAt};
ghost use Rattle.cam_edits.specs.Asking.{
  attributes_of,
  definition_at,
  definition_of,
  item_at,
  item_of,
  sheet_boxes,
  sheet_lists,
};
ghost use Rattle.cam_edits.specs.Boards.{content_at, place_named};
ghost use Rattle.cam_edits.specs.Images.{sheet_leaves};
ghost use Rattle.cam_edits.specs.Sheets.{IsSound, sheet_of};

use crate::station::Station;
use cam_edits::{ListedEntry, ListedItem, Name, Sheet};
use cam_objects::{Attribute, is_place};
use cam_units::{Bounds, Spot};

impl Station {
    /// How many layers there are.
    pub fn layer_count(&self) -> usize
        ensures { result ≡ length self.now.timeline.document }
    {
        self.board().len()
    }

    /// The place of the layer of a name, counted from 0.
    pub fn layer_place(&self, name: &Name) -> Option<usize>
        ensures { result ≡ place_named name.now self.now.timeline.document }
    {
        self.board().place(name)
    }

    /// The layer at a place, counted from 0: its name, and what it holds, of one of two kinds.
    pub fn layer(&self, layer: usize) -> Option<&Sheet>
        ensures value { option_map sheet_of (option_copied result) ≡ slice_get self.now.timeline.document layer }
        ensures sound { IfSome result (λ sheet. IsSound (sheet_of sheet.now).content) }
    {
        self.board().sheet(layer)
    }

    /// The place of the topmost item of a layer at a place of the board, in half nm, among the items before one: the last
    /// of them of which some leaf covers the place, dark or clear. So that of all is found with `usize::MAX`, and the one
    /// under an item with that item's place. `None` where there is none, no such layer, or where a coordinate is not under
    /// 2,000,000,000 half nm in absolute value.
    pub fn item_at(&self, layer: usize, at: Spot, before: usize) -> Option<usize>
        ensures place { IsPlace at
            → PointsAt (sheet_lists (content_at self.now.timeline.document layer)) at before result }
        ensures elsewhere { ¬ IsPlace at → result ≡ None }
    {
        if !is_place(at) {
            return None;
        }
        self.layer(layer)?.content.item_at(at, before)
    }

    /// The place of the next item of a layer, from one on, whose box lies in a box, in half nm, edges included; an item
    /// that paints nothing lies in none. `None` where there is none, or no such layer.
    pub fn item_in(&self, layer: usize, outer: Bounds, from: usize) -> Option<usize>
        ensures { FindsEnclosed (sheet_boxes (content_at self.now.timeline.document layer)) outer from result }
    {
        self.layer(layer)?.content.item_in(outer, from)
    }

    /// The least box that holds the boxes of all items of a layer, in half nm. `None` where there is no such layer.
    pub fn bounds(&self, layer: usize) -> Option<Bounds>
        ensures { result ≡ option_map (λ sheet. bounds_of (sheet_leaves sheet.content))
            (slice_get self.now.timeline.document layer) }
    {
        match self.layer(layer) {
            Some(sheet) => Some(sheet.content.bounds()),
            None => None,
        }
    }

    /// The box of the item at a place of a layer, counted from 0, in half nm. `None` where there is no such item or layer.
    pub fn item_bounds(&self, layer: usize, k: usize) -> Option<Bounds>
        ensures { result ≡ slice_get (sheet_boxes (content_at self.now.timeline.document layer)) k }
    {
        self.layer(layer)?.content.item_bounds(k)
    }

    /// The item at a place of a layer, counted from 0. `None` where there is no such item or layer.
    pub fn item(&self, layer: usize, k: usize) -> Option<ListedItem<'_>>
        ensures { option_map item_of result ≡ item_at (content_at self.now.timeline.document layer) k }
    {
        self.layer(layer)?.content.item(k)
    }

    /// The aperture, block or tool at a place of a layer's order, counted from 0, with its number. `None` where there is no
    /// such definition or layer.
    pub fn entry(&self, layer: usize, i: usize) -> Option<ListedEntry<'_>>
        ensures { option_map definition_of result ≡ definition_at (content_at self.now.timeline.document layer) i }
    {
        self.layer(layer)?.content.entry(i)
    }

    /// The file attribute at a place of a layer, counted from 0. `None` where there is no such attribute or layer.
    pub fn attribute(&self, layer: usize, i: usize) -> Option<&Attribute>
        ensures { option_copied result
            ≡ slice_get (attributes_of (content_at self.now.timeline.document layer)) i }
    {
        self.layer(layer)?.content.attribute(i)
    }
}
