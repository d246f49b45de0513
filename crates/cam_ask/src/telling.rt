//! What is told of a layer.

ghost use Rattle.std.specs.Prelude.{◌≡◌, [], IfOk, OnOk, true};
ghost use Rattle.cam_objects.specs.Enclosed.{FindsEnclosed};
ghost use Rattle.cam_edits.specs.Sheets.{IsSound, content_of};
ghost use Rattle.cam_ask.specs.Painted.{painted_boxes};
ghost use Rattle.cam_ask.specs.Telling.{
  IsEnclosedTold,
  IsLayerTold,
  IsTopmostTold,
  box_of,
  can_be_asked,
  has_place,
  is_said,
  spot_of,
};

use crate::contents::{push_attributes, push_entries, push_entry_at, push_items};
use crate::lines::{push_box, push_place};
use crate::painted::next_enclosed;
use cam_edits::SheetContent;
use cam_objects::is_place;
use cam_script::Query;
use cam_units::{Bounds, Point, Spot};
use std::alloc::{AllocError, Global};

/// The greatest absolute value of a coordinate that a line can say, in nm.
const LENGTHS: u64 = 4_000_000_000;

/// Whether a line can say a point.
fn is_said(point: Point) -> bool
    ensures { result ≡ is_said point }
{
    point.x.unsigned_abs() <= LENGTHS && point.y.unsigned_abs() <= LENGTHS
}

/// Whether a line can say what is asked.
pub fn can_be_asked(query: Query) -> bool
    ensures { result ≡ can_be_asked query }
{
    match query {
        Query::At { at, before: _ } => is_said(at),
        Query::In { from, to } => is_said(from) && is_said(to),
        _ => true,
    }
}

/// Whether a layer has the place that is asked for.
pub fn has_place(content: &SheetContent, query: Query) -> bool
    ensures { result ≡ has_place (content_of content.now) query }
{
    match query {
        Query::Item { k } => k < content.item_count(),
        Query::Items { from, count: _ } => from <= content.item_count(),
        Query::ItemBounds { k } => k < content.item_count(),
        Query::Entry { i } => i < content.entry_count(),
        _ => true,
    }
}

/// The place of a point, in half nm.
fn spot_of(point: Point) -> Spot
    requires { is_said point ≡ true }
    ensures { result ≡ spot_of point }
{
    Spot {
        x: 2 * point.x,
        y: 2 * point.y,
    }
}

/// The least box that holds two points.
fn box_of(from: Point, to: Point) -> Bounds
    requires from { is_said from ≡ true }
    requires to { is_said to ≡ true }
    ensures { result ≡ box_of from to }
{
    let from = spot_of(from);
    let to = spot_of(to);
    let corner = Bounds::Closed {
        low: from,
        high: from,
    };
    corner.joined(Bounds::Closed { low: to, high: to })
}

/// Writes the place of the topmost item at a place of the board, among those before one, to a text without a line.
fn push_topmost(
    text: &mut Vec<u8>,
    content: &SheetContent,
    at: Spot,
    before: usize,
) -> Result<(), AllocError>
    requires sound { IsSound (content_of content.now) }
    requires empty { text.old.items ≡ [] }
    ensures { OnOk result (IsTopmostTold (content_of content.now) at before text.new.items) }
{
    if !is_place(at) {
        return Ok(());
    }
    match content.item_at(at, before) {
        Some(place) => push_place(text, place),
        None => Ok(()),
    }
}

/// The place of the next item, from one on, of which the box of what it paints lies in a box.
fn next_in(content: &SheetContent, outer: Bounds, from: usize) -> Option<usize>
    requires { IsSound (content_of content.now) }
    ensures { FindsEnclosed (painted_boxes (content_of content.now)) outer from result }
{
    match content {
        SheetContent::Gerber(layer) => next_enclosed(layer.layer(), outer, from),
        SheetContent::Drill(_) => content.item_in(outer, from),
    }
}

/// Writes the places of the items that a box encloses, to a text without a line.
fn push_enclosed(
    text: &mut Vec<u8>,
    content: &SheetContent,
    outer: Bounds,
) -> Result<(), AllocError>
    requires sound { IsSound (content_of content.now) }
    requires empty { text.old.items ≡ [] }
    ensures { OnOk result (IsEnclosedTold (content_of content.now) outer text.new.items) }
{
    let mut from = 0;
    while let Some(place) = next_in(content, outer, from) {
        push_place(text, place)?;
        from = place + 1;
    }
    Ok(())
}

/// Writes what is told of a layer, where the question can be asked and the place is there, to a text without a line.
fn push_told(text: &mut Vec<u8>, content: &SheetContent, query: Query) -> Result<(), AllocError>
    requires sound { IsSound (content_of content.now) }
    requires asked { can_be_asked query ≡ true }
    requires place { has_place (content_of content.now) query ≡ true }
    requires empty { text.old.items ≡ [] }
    ensures { OnOk result (IsLayerTold (content_of content.now) query text.new.items) }
{
    match query {
        Query::At { at, before } => {
            let before = before.unwrap_or(content.item_count());
            push_topmost(text, content, spot_of(at), before)
        }
        Query::In { from, to } => push_enclosed(text, content, box_of(from, to)),
        Query::Item { k } => push_items(text, content, k, 1),
        Query::Items { from, count } => push_items(text, content, from, count),
        Query::Bounds => push_box(text, content.bounds()),
        Query::ItemBounds { k } => match content.item_bounds(k) {
            Some(bounds) => push_box(text, bounds),
            None => Ok(()),
        },
        Query::Entry { i } => push_entry_at(text, content, i),
        Query::Entries => push_entries(text, content),
        Query::Attributes => push_attributes(text, content),
    }
}

/// What is told of a layer, where the question can be asked and the place is there.
pub fn told(alloc: Global, content: &SheetContent, query: Query) -> Result<Vec<u8>, AllocError>
    requires sound { IsSound (content_of content.now) }
    requires asked { can_be_asked query ≡ true }
    requires place { has_place (content_of content.now) query ≡ true }
    ensures { IfOk result (λ text. IsLayerTold (content_of content.now) query text.items) }
{
    let mut text = Vec::new(alloc);
    push_told(&mut text, content, query)?;
    Ok(text)
}
