//! The lines of what a layer lists.

ghost use Rattle.std.specs.Prelude.{◌++◌, ◌≡◌, ◌≤◌, OnOk, drop, length, take};
ghost use Rattle.cam_edits.specs.Sheets.{content_of, item_count};
ghost use Rattle.cam_ask.specs.Texts.{attributes_text, entries_text, entry_text, items_text};

use crate::lines::{push_attribute, push_drill_item, push_entry, push_item, push_tool};
use cam_edits::SheetContent;
use std::alloc::AllocError;

/// The elements from a place on, so many at most.
#[tactic(auto, using(crate::proofs::Lists::taken_all))]
fn part<T>(items: &[T], from: usize, count: usize) -> &[T]
    requires { from ≤ length items.now }
    ensures { result.now ≡ take count (drop from items.now) }
{
    let rest = &items[from..];
    if rest.len() <= count {
        return rest;
    }
    &rest[..count]
}

/// Writes the lines of the items from a place on, so many at most.
pub fn push_items(
    text: &mut Vec<u8>,
    content: &SheetContent,
    from: usize,
    count: usize,
) -> Result<(), AllocError>
    requires { from ≤ item_count (content_of content.now) }
    ensures { OnOk result
        (text.new.items ≡ text.old.items ++ items_text (content_of content.now) from count) }
{
    match content {
        SheetContent::Gerber(layer) => {
            let items = part(layer.layer().items(), from, count);
            for item in items {
                push_item(text, item)?;
            }
            Ok(())
        }
        SheetContent::Drill(layer) => {
            let items = part(layer.layer().items(), from, count);
            for item in items {
                push_drill_item(text, item)?;
            }
            Ok(())
        }
    }
}

/// Writes the lines of the aperture, the block or the tool at a place of the order.
pub fn push_entry_at(text: &mut Vec<u8>, content: &SheetContent, i: usize) -> Result<(), AllocError>
    ensures { OnOk result
        (text.new.items ≡ text.old.items ++ entry_text (content_of content.now) i) }
{
    match content {
        SheetContent::Gerber(layer) => match layer.layer().entries().at(i) {
            Some((number, entry)) => push_entry(text, number, entry),
            None => Ok(()),
        },
        SheetContent::Drill(layer) => match layer.layer().tools().at(i) {
            Some((tool, diameter)) => push_tool(text, tool, diameter),
            None => Ok(()),
        },
    }
}

/// Writes the lines of all apertures and blocks, or of all tools, in order.
#[tactic(auto, using(crate::proofs::Lists::entries_none))]
pub fn push_entries(text: &mut Vec<u8>, content: &SheetContent) -> Result<(), AllocError>
    ensures { OnOk result
        (text.new.items ≡ text.old.items ++ entries_text (content_of content.now)) }
{
    for place in 0..content.entry_count() {
        push_entry_at(text, content, place)?;
    }
    Ok(())
}

/// Writes the lines of the file attributes of a layer; a drill layer has none.
pub fn push_attributes(text: &mut Vec<u8>, content: &SheetContent) -> Result<(), AllocError>
    ensures { OnOk result
        (text.new.items ≡ text.old.items ++ attributes_text (content_of content.now)) }
{
    match content {
        SheetContent::Gerber(layer) => {
            let attributes = layer.layer().attributes();
            for attribute in attributes {
                push_attribute(text, attribute)?;
            }
            Ok(())
        }
        SheetContent::Drill(_) => Ok(()),
    }
}
