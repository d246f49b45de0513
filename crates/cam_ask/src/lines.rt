//! The lines of answers.

ghost use Rattle.std.specs.Prelude.{[], ◌++◌, ◌∷◌, ◌≡◌, OnOk, codes, decimal};
ghost use Rattle.std.specs.Fmt.{signed_decimal};
ghost use Rattle.cam_edits.specs.Sheets.{content_of};
ghost use Rattle.cam_script.specs.Spelling.{spaced};
ghost use Rattle.cam_ask.specs.Texts.{
  attribute_line,
  box_line,
  coordinate_text,
  corner_text,
  drill_item_lines,
  entry_lines,
  history_line,
  item_lines,
  kind_word,
  layer_line,
  part_lines,
  place_line,
  repeated_text,
  tool_lines,
};

use cam_edits::{Name, SheetContent};
use cam_objects::{Attribute, DrillItem, Entry, Item, Object};
use cam_script::{push_drill_item_words, push_length, push_number, push_object_words, push_word};
use cam_undo::Counts;
use cam_units::{Bounds, Nm, Spot};
use cam_writers::{push_aperture, push_decimal, push_declaration};
use std::alloc::AllocError;

/// Ends a line.
fn end_line(text: &mut Vec<u8>) -> Result<(), AllocError>
    ensures { OnOk result (text.new.items ≡ text.old.items ++ codes "\n") }
{
    text.push(b'\n')?;
    Ok(())
}

/// The word of a layer's kind.
fn kind_word(content: &SheetContent) -> &'static [u8]
    ensures { result.now ≡ kind_word (content_of content.now) }
{
    match content {
        SheetContent::Gerber(_) => b"gerber",
        SheetContent::Drill(_) => b"drill",
    }
}

/// Writes the line of a layer.
pub fn push_layer(text: &mut Vec<u8>, name: &Name, content: &SheetContent) -> Result<(), AllocError>
    ensures { OnOk result
        (text.new.items ≡ text.old.items ++ layer_line name.now (content_of content.now)) }
{
    text.extend_from_slice(name.as_str().as_bytes())?;
    push_word(text, kind_word(content))?;
    push_number(text, content.item_count() as u64)?;
    push_number(text, content.entry_count() as u64)?;
    end_line(text)
}

/// Writes the line of a place of a list.
pub fn push_place(text: &mut Vec<u8>, place: usize) -> Result<(), AllocError>
    ensures { OnOk result (text.new.items ≡ text.old.items ++ place_line place) }
{
    push_decimal(text, place as u64)?;
    end_line(text)
}

/// Writes a coordinate of so many half nm, in nm.
#[tactic(auto, unfolding(crate::specs::Texts::coordinate_text))]
fn push_coordinate(text: &mut Vec<u8>, halves: i64) -> Result<(), AllocError>
    ensures { OnOk result (text.new.items ≡ text.old.items ++ coordinate_text halves) }
{
    if halves < 0 {
        text.push(b'-')?;
    }
    let halves = halves.unsigned_abs();
    push_decimal(text, halves / 2)?;
    if halves % 2 == 0 {
        return Ok(());
    }
    text.extend_from_slice(b".5")
}

/// Writes the coordinates of a corner.
fn push_corner(text: &mut Vec<u8>, corner: Spot) -> Result<(), AllocError>
    ensures { OnOk result (text.new.items ≡ text.old.items ++ corner_text corner) }
{
    push_coordinate(text, corner.x)?;
    text.push(b' ')?;
    push_coordinate(text, corner.y)
}

/// Writes the line of a box, where a place lies in it.
pub fn push_box(text: &mut Vec<u8>, bounds: Bounds) -> Result<(), AllocError>
    ensures { OnOk result (text.new.items ≡ text.old.items ++ box_line bounds) }
{
    let Bounds::Closed { low, high } = bounds else {
        return Ok(());
    };
    if bounds.is_empty() {
        return Ok(());
    }
    push_corner(text, low)?;
    text.push(b' ')?;
    push_corner(text, high)?;
    end_line(text)
}

/// Writes the lines of the objects of a block or of a repeat.
fn push_parts(text: &mut Vec<u8>, objects: &[Object]) -> Result<(), AllocError>
    ensures { OnOk result (text.new.items ≡ text.old.items ++ part_lines objects.now) }
{
    for object in objects {
        text.extend_from_slice(b"  ")?;
        push_object_words(text, object)?;
        end_line(text)?;
    }
    Ok(())
}

/// Writes how many copies a repeat has along each axis, a space before each.
fn push_counts(text: &mut Vec<u8>, columns: u32, rows: u32) -> Result<(), AllocError>
    ensures { OnOk result
        (text.new.items ≡ text.old.items ++ spaced (decimal columns ∷ decimal rows ∷ [])) }
{
    push_number(text, u64::from(columns))?;
    push_number(text, u64::from(rows))
}

/// Writes the steps of a repeat, a space before each.
fn push_steps(text: &mut Vec<u8>, i: i64, j: i64) -> Result<(), AllocError>
    ensures { OnOk result
        (text.new.items ≡ text.old.items ++ spaced (signed_decimal i ∷ signed_decimal j ∷ [])) }
{
    push_length(text, i)?;
    push_length(text, j)
}

/// Writes how many objects a repeat has, and their lines.
fn push_repeated(text: &mut Vec<u8>, objects: &[Object]) -> Result<(), AllocError>
    ensures { OnOk result (text.new.items ≡ text.old.items ++ repeated_text objects.now) }
{
    push_number(text, objects.len() as u64)?;
    end_line(text)?;
    push_parts(text, objects)
}

/// Writes the lines of an item.
pub fn push_item(text: &mut Vec<u8>, item: &Item) -> Result<(), AllocError>
    ensures { OnOk result (text.new.items ≡ text.old.items ++ item_lines item.now) }
{
    match item {
        Item::One(object) => {
            push_object_words(text, object)?;
            end_line(text)
        }
        Item::Repeat {
            columns,
            rows,
            i,
            j,
            objects,
        } => {
            text.extend_from_slice(b"repeat")?;
            push_counts(text, *columns, *rows)?;
            push_steps(text, *i, *j)?;
            push_repeated(text, objects.as_slice())
        }
    }
}

/// Writes the line of a drill item.
pub fn push_drill_item(text: &mut Vec<u8>, item: &DrillItem) -> Result<(), AllocError>
    ensures { OnOk result (text.new.items ≡ text.old.items ++ drill_item_lines item.now) }
{
    push_drill_item_words(text, item)?;
    end_line(text)
}

/// Writes the lines of an aperture or a block.
pub fn push_entry(text: &mut Vec<u8>, number: u32, entry: &Entry) -> Result<(), AllocError>
    ensures { OnOk result (text.new.items ≡ text.old.items ++ entry_lines number entry.now) }
{
    match entry {
        Entry::Aperture(aperture) => {
            text.extend_from_slice(b"aperture")?;
            push_number(text, u64::from(number))?;
            end_line(text)?;
            push_aperture(text, number, aperture)
        }
        Entry::Block(objects) => {
            let objects = objects.as_slice();
            text.extend_from_slice(b"block")?;
            push_number(text, u64::from(number))?;
            push_number(text, objects.len() as u64)?;
            end_line(text)?;
            push_parts(text, objects)
        }
    }
}

/// Writes the lines of a tool.
pub fn push_tool(text: &mut Vec<u8>, tool: u16, diameter: Nm) -> Result<(), AllocError>
    ensures { OnOk result (text.new.items ≡ text.old.items ++ tool_lines tool diameter) }
{
    text.extend_from_slice(b"tool")?;
    push_number(text, u64::from(tool))?;
    end_line(text)?;
    push_declaration(text, tool, diameter)
}

/// Writes the line of a file attribute.
pub fn push_attribute(text: &mut Vec<u8>, attribute: &Attribute) -> Result<(), AllocError>
    ensures { OnOk result (text.new.items ≡ text.old.items ++ attribute_line attribute.now) }
{
    text.extend_from_slice(attribute.name.as_slice())?;
    text.extend_from_slice(attribute.fields.as_slice())?;
    end_line(text)
}

/// Writes the line of a history.
pub fn push_history(text: &mut Vec<u8>, counts: Counts) -> Result<(), AllocError>
    ensures { OnOk result (text.new.items ≡ text.old.items ++ history_line counts) }
{
    push_decimal(text, counts.past as u64)?;
    push_number(text, counts.future as u64)?;
    if let Some(edits) = counts.group {
        push_number(text, edits as u64)?;
    }
    end_line(text)
}
