//! The items that a line names.

ghost use Rattle.std.specs.Prelude.{◌≡◌, false};
ghost use Rattle.cam_script.specs.Items.{
  arc_in,
  as_item,
  draw_in,
  flash_in,
  hit_in,
  item_in,
  region_read,
  rout_in,
};
ghost use Rattle.cam_script.specs.Parsing.{is_no_memory};
ghost use Rattle.cam_script.specs.Machinery.Reading.{unless_refused};

use crate::line::LineFault;
use crate::marks::{direction, polarity, turn};
use crate::numbers::{count, point, tool};
use crate::pieces::is;
use crate::segments::{count_points, count_segments, take_points, take_segments};
use crate::words::Words;
use cam_edits::NewItem;
use cam_objects::{DrillItem, Item, Object};
use cam_shapes::Contour;
use std::alloc::Global;

/// The words behind `flash`.
#[tactic(auto, using(crate::proofs::Forms::no_flash))]
fn flash(words: &mut Words<'_>) -> Option<Object>
    ensures { result ≡ flash_in words.old }
{
    let (number, x, y, orientation, tone) = words.five()?;
    let aperture = count(number)?;
    let at = point((x, y))?;
    let turn = turn(orientation)?;
    let dark = polarity(tone)?;
    Some(Object::Flash {
        aperture,
        at,
        turn,
        dark,
    })
}

/// The words behind `draw`.
#[tactic(auto, using(crate::proofs::Forms::no_draw))]
fn draw(words: &mut Words<'_>) -> Option<Object>
    ensures { result ≡ draw_in words.old }
{
    let number = words.next()?;
    let from = words.next_two()?;
    let to = words.next_two()?;
    let (orientation, tone) = words.two()?;
    let aperture = count(number)?;
    let from = point(from)?;
    let to = point(to)?;
    let turn = turn(orientation)?;
    let dark = polarity(tone)?;
    Some(Object::Draw {
        aperture,
        from,
        to,
        turn,
        dark,
    })
}

/// The words behind `arc`.
#[tactic(auto, using(crate::proofs::Forms::no_arc))]
fn arc(words: &mut Words<'_>) -> Option<Object>
    ensures { result ≡ arc_in words.old }
{
    let number = words.next()?;
    let from = words.next_two()?;
    let to = words.next_two()?;
    let centre = words.next_two()?;
    let (sense, tone) = words.two()?;
    let aperture = count(number)?;
    let from = point(from)?;
    let to = point(to)?;
    let centre = point(centre)?;
    let ccw = direction(sense)?;
    let dark = polarity(tone)?;
    Some(Object::Arc {
        ccw,
        dark,
        aperture,
        from,
        to,
        centre,
    })
}

/// The words behind `region`. Its segments are counted, and so judged, before memory is asked for.
fn region(alloc: Global, words: &mut Words<'_>) -> Result<Object, LineFault>
    ensures { unless_refused (region_read words.old) (is_no_memory result) ≡ result }
{
    let tone = words.next().ok_or(LineFault::BadLine)?;
    let start = words.next_two().ok_or(LineFault::BadLine)?;
    let dark = polarity(tone).ok_or(LineFault::BadLine)?;
    let start = point(start).ok_or(LineFault::BadLine)?;
    let segment_count = count_segments(words).ok_or(LineFault::BadLine)?;
    if segment_count == 0 {
        return Err(LineFault::BadLine);
    }
    let segs = take_segments(alloc, words, segment_count)?;
    Ok(Object::Region {
        contour: Contour { start, segs },
        dark,
    })
}

/// The words behind `hit`.
#[tactic(auto, using(crate::proofs::Forms::no_hit))]
fn hit(words: &mut Words<'_>) -> Option<NewItem>
    ensures { result ≡ hit_in words.old }
{
    let (number, x, y) = words.three()?;
    let tool = tool(number)?;
    let at = point((x, y))?;
    Some(NewItem::Drill(DrillItem::Hit { tool, at }))
}

/// The words behind `rout`. Its points are counted, and so judged, before memory is asked for.
fn rout(alloc: Global, words: &mut Words<'_>) -> Result<NewItem, LineFault>
    ensures { unless_refused (rout_in words.old) (is_no_memory result) ≡ result }
{
    let number = words.next().ok_or(LineFault::BadLine)?;
    let tool = tool(number).ok_or(LineFault::BadLine)?;
    let point_count = count_points(words).ok_or(LineFault::BadLine)?;
    if point_count == 0 {
        return Err(LineFault::BadLine);
    }
    let points = take_points(alloc, words, point_count)?;
    Ok(NewItem::Drill(DrillItem::Rout { tool, points }))
}

/// The item of an object that takes no memory.
fn object_item(object: Option<Object>) -> Result<NewItem, LineFault>
    ensures { result ≡ unless_refused (as_item object) false }
{
    let object = object.ok_or(LineFault::BadLine)?;
    Ok(NewItem::Gerber(Item::One(object)))
}

/// The item of a region.
fn region_item(alloc: Global, words: &mut Words<'_>) -> Result<NewItem, LineFault>
    ensures { unless_refused (as_item (region_read words.old)) (is_no_memory result) ≡ result }
{
    let object = region(alloc, words)?;
    Ok(NewItem::Gerber(Item::One(object)))
}

/// The item of a form and of the words behind it.
pub fn item(alloc: Global, form: &[u8], words: &mut Words<'_>) -> Result<NewItem, LineFault>
    ensures { unless_refused (item_in form.now words.old) (is_no_memory result) ≡ result }
{
    if is(form, b"flash") {
        object_item(flash(words))
    } else if is(form, b"draw") {
        object_item(draw(words))
    } else if is(form, b"arc") {
        object_item(arc(words))
    } else if is(form, b"region") {
        region_item(alloc, words)
    } else if is(form, b"hit") {
        hit(words).ok_or(LineFault::BadLine)
    } else if is(form, b"rout") {
        rout(alloc, words)
    } else {
        Err(LineFault::BadLine)
    }
}
