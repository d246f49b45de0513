//! Items in the words of a line.

ghost use Rattle.std.specs.Prelude.{[], ◌++◌, ◌∷◌, ◌≡◌, OnOk, decimal};
ghost use Rattle.std.specs.Fmt.{signed_decimal};
ghost use Rattle.std.specs.List.{flat_map};
ghost use Rattle.cam_script.specs.Spelling.{
  direction_word,
  drill_item_text,
  object_text,
  point_words,
  polarity_word,
  seg_words,
  spaced,
  turn_word,
};

use cam_objects::{DrillItem, Object};
use cam_shapes::{Contour, Seg};
use cam_units::{Point, Turn};
use itoa::Buffer;
use std::alloc::AllocError;

/// The word of a mirror and of quarter turns.
fn turn_word(turn: Turn) -> &'static [u8]
    ensures { result.now ≡ turn_word turn }
{
    match turn {
        Turn::R0 => b"r0",
        Turn::R90 => b"r90",
        Turn::R180 => b"r180",
        Turn::R270 => b"r270",
        Turn::M0 => b"m0",
        Turn::M90 => b"m90",
        Turn::M180 => b"m180",
        Turn::M270 => b"m270",
    }
}

/// The word of a polarity.
fn polarity_word(dark: bool) -> &'static [u8]
    ensures { result.now ≡ polarity_word dark }
{
    if dark { b"dark" } else { b"clear" }
}

/// The word of an arc's direction.
fn direction_word(ccw: bool) -> &'static [u8]
    ensures { result.now ≡ direction_word ccw }
{
    if ccw { b"ccw" } else { b"cw" }
}

/// Writes a space and a word at the text's end; an error where memory is refused.
pub fn push_word(text: &mut Vec<u8>, word: &[u8]) -> Result<(), AllocError>
    ensures { OnOk result (text.new.items ≡ text.old.items ++ 32 ∷ word.now) }
{
    text.push(b' ')?;
    text.extend_from_slice(word)
}

/// Writes a space and a number at the text's end, in decimal; an error where memory is refused.
pub fn push_number(text: &mut Vec<u8>, number: u64) -> Result<(), AllocError>
    ensures { OnOk result (text.new.items ≡ text.old.items ++ 32 ∷ decimal number) }
{
    let mut buffer = Buffer::new();
    push_word(text, buffer.format(number).as_bytes())
}

/// Writes a space and a length in nm at the text's end; an error where memory is refused.
pub fn push_length(text: &mut Vec<u8>, length: i64) -> Result<(), AllocError>
    ensures { OnOk result (text.new.items ≡ text.old.items ++ 32 ∷ signed_decimal length) }
{
    let mut buffer = Buffer::new();
    push_word(text, buffer.format(length).as_bytes())
}

/// Writes the words of a point, a space before each.
fn push_point(text: &mut Vec<u8>, point: Point) -> Result<(), AllocError>
    ensures { OnOk result (text.new.items ≡ text.old.items ++ spaced (point_words point)) }
{
    push_length(text, point.x)?;
    push_length(text, point.y)
}

/// Writes the words of a turn and of a polarity, a space before each.
fn push_setting(text: &mut Vec<u8>, turn: Turn, dark: bool) -> Result<(), AllocError>
    ensures { OnOk result
        (text.new.items ≡ text.old.items ++ spaced (turn_word turn ∷ polarity_word dark ∷ [])) }
{
    push_word(text, turn_word(turn))?;
    push_word(text, polarity_word(dark))
}

/// Writes the words of a direction and of a polarity, a space before each.
fn push_sense(text: &mut Vec<u8>, ccw: bool, dark: bool) -> Result<(), AllocError>
    ensures { OnOk result
        (text.new.items ≡ text.old.items ++ spaced (direction_word ccw ∷ polarity_word dark ∷ [])) }
{
    push_word(text, direction_word(ccw))?;
    push_word(text, polarity_word(dark))
}

/// Writes the words of a segment, a space before each.
fn push_seg(text: &mut Vec<u8>, seg: Seg) -> Result<(), AllocError>
    ensures { OnOk result (text.new.items ≡ text.old.items ++ spaced (seg_words seg)) }
{
    match seg {
        Seg::Line { to } => {
            push_word(text, b"l")?;
            push_point(text, to)
        }
        Seg::Curve { to, centre, ccw } => {
            push_word(text, direction_word(ccw))?;
            push_point(text, to)?;
            push_point(text, centre)
        }
    }
}

/// Writes the words of segments.
fn push_segs(text: &mut Vec<u8>, segs: &[Seg]) -> Result<(), AllocError>
    ensures { OnOk result (text.new.items ≡ text.old.items ++ spaced (flat_map seg_words segs.now)) }
{
    for seg in segs {
        push_seg(text, *seg)?;
    }
    Ok(())
}

/// Writes the words of points.
fn push_points(text: &mut Vec<u8>, points: &[Point]) -> Result<(), AllocError>
    ensures { OnOk result (text.new.items ≡ text.old.items ++ spaced (flat_map point_words points.now)) }
{
    for point in points {
        push_point(text, *point)?;
    }
    Ok(())
}

/// Writes the word of a form at the text's end, and a number.
fn push_form(text: &mut Vec<u8>, form: &[u8], number: u64) -> Result<(), AllocError>
    ensures { OnOk result (text.new.items ≡ text.old.items ++ (form.now ++ 32 ∷ decimal number)) }
{
    text.extend_from_slice(form)?;
    push_number(text, number)
}

/// Writes the words of two points.
fn push_ends(text: &mut Vec<u8>, from: Point, to: Point) -> Result<(), AllocError>
    ensures { OnOk result (text.new.items ≡ text.old.items
        ++ (spaced (point_words from) ++ spaced (point_words to))) }
{
    push_point(text, from)?;
    push_point(text, to)
}

/// Writes the words of a contour: its start and its segments.
fn push_contour(text: &mut Vec<u8>, contour: &Contour) -> Result<(), AllocError>
    ensures { OnOk result (text.new.items ≡ text.old.items
        ++ (spaced (point_words contour.now.start) ++ spaced (flat_map seg_words contour.now.segs))) }
{
    push_point(text, contour.start)?;
    push_segs(text, contour.segs.as_slice())
}

/// Writes an object at the text's end, in the words of a line that inserts it: `flash 10 -1000 2000 r90 dark`, or
/// `region dark 0 0 l 4000 0 ccw ..`. An error where memory is refused; the text then has some of the words.
pub fn push_object_words(text: &mut Vec<u8>, object: &Object) -> Result<(), AllocError>
    ensures { OnOk result (text.new.items ≡ text.old.items ++ object_text object.now) }
{
    match object {
        Object::Flash {
            aperture,
            at,
            turn,
            dark,
        } => {
            push_form(text, b"flash", u64::from(*aperture))?;
            push_point(text, *at)?;
            push_setting(text, *turn, *dark)
        }
        Object::Draw {
            aperture,
            from,
            to,
            turn,
            dark,
        } => {
            push_form(text, b"draw", u64::from(*aperture))?;
            push_ends(text, *from, *to)?;
            push_setting(text, *turn, *dark)
        }
        Object::Arc {
            ccw,
            dark,
            aperture,
            from,
            to,
            centre,
        } => {
            push_form(text, b"arc", u64::from(*aperture))?;
            push_ends(text, *from, *to)?;
            push_point(text, *centre)?;
            push_sense(text, *ccw, *dark)
        }
        Object::Region { contour, dark } => {
            text.extend_from_slice(b"region")?;
            push_word(text, polarity_word(*dark))?;
            push_contour(text, contour)
        }
    }
}

/// Writes a drill item at the text's end, in the words of a line that inserts it: `hit 1 0 2000`. An error where memory
/// is refused; the text then has some of the words.
pub fn push_drill_item_words(text: &mut Vec<u8>, item: &DrillItem) -> Result<(), AllocError>
    ensures { OnOk result (text.new.items ≡ text.old.items ++ drill_item_text item.now) }
{
    match item {
        DrillItem::Hit { tool, at } => {
            push_form(text, b"hit", u64::from(*tool))?;
            push_point(text, *at)
        }
        DrillItem::Rout { tool, points } => {
            push_form(text, b"rout", u64::from(*tool))?;
            push_points(text, points.as_slice())
        }
    }
}
