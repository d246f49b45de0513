//! The commands of Gerber texts, apertures and macros apart. Each ends its line.

ghost use Rattle.std.specs.Prelude.{◌≡◌, ◌++◌, ◌-ℤ◌, OnOk};
ghost use Rattle.cam_units.specs.Board.{IsOnBoard};
ghost use Rattle.cam_writers.specs.Phrases.{ArcTo, Attach, EnterBlock, EnterRepeat, UseAperture};
ghost use Rattle.cam_writers.specs.Phrases.{UseMirror, UseMode, UsePolarity, UseRotation, coordinates, extended, line_of};
ghost use Rattle.cam_writers.specs.Phrases.{offsets, spelled, word};
ghost use Rattle.cam_writers.specs.Machinery.Tracking.{attribute_lines, steps_text};

use crate::lengths::{push_decimal, push_mm, push_whole};
use cam_commands::Mode;
use cam_objects::Attribute;
use cam_units::{Nm, Point, Turn};
use std::alloc::AllocError;

/// Writes a word command.
pub fn push_word(text: &mut Vec<u8>, command: &[u8]) -> Result<(), AllocError>
    ensures { OnOk result (text.new.items ≡ text.old.items ++ line_of (word command.now)) }
{
    text.extend_from_slice(command)?;
    text.extend_from_slice(b"*\n")
}

/// Writes an extended command.
pub fn push_extended(text: &mut Vec<u8>, command: &[u8]) -> Result<(), AllocError>
    ensures { OnOk result (text.new.items ≡ text.old.items ++ line_of (extended command.now)) }
{
    text.extend_from_slice(b"%")?;
    text.extend_from_slice(command)?;
    text.extend_from_slice(b"*%\n")
}

/// Writes the command that sets a file attribute.
#[tactic(auto, unfolding(crate::specs::Phrases::spelled))]
fn push_attribute(text: &mut Vec<u8>, attribute: &Attribute) -> Result<(), AllocError>
    ensures { OnOk result (text.new.items ≡ text.old.items ++ line_of (spelled (Attach attribute.now))) }
{
    text.extend_from_slice(b"%TF")?;
    text.extend_from_slice(attribute.name.as_slice())?;
    text.extend_from_slice(attribute.fields.as_slice())?;
    text.extend_from_slice(b"*%\n")
}

/// Writes the commands that set file attributes, in order.
pub fn push_attributes(text: &mut Vec<u8>, attributes: &[Attribute]) -> Result<(), AllocError>
    ensures { OnOk result (text.new.items ≡ text.old.items ++ attribute_lines attributes.now) }
{
    for attribute in attributes {
        push_attribute(text, attribute)?;
    }
    Ok(())
}

/// Writes the command that sets the polarity.
#[tactic(auto, unfolding(crate::specs::Phrases::spelled))]
pub fn push_polarity(text: &mut Vec<u8>, dark: bool) -> Result<(), AllocError>
    ensures { OnOk result (text.new.items ≡ text.old.items ++ line_of (spelled (UsePolarity dark))) }
{
    push_extended(text, if dark { b"LPD" } else { b"LPC" })
}

/// Writes the command that sets the mirror of a turn.
#[tactic(auto, unfolding(crate::specs::Phrases::spelled))]
pub fn push_mirror(text: &mut Vec<u8>, turn: Turn) -> Result<(), AllocError>
    ensures { OnOk result (text.new.items ≡ text.old.items ++ line_of (spelled (UseMirror turn))) }
{
    match turn {
        Turn::R0 | Turn::R90 | Turn::R180 | Turn::R270 => push_extended(text, b"LMN"),
        Turn::M0 | Turn::M90 | Turn::M180 | Turn::M270 => push_extended(text, b"LMX"),
    }
}

/// Writes the command that sets the rotation of a turn.
#[tactic(auto, unfolding(crate::specs::Phrases::spelled))]
pub fn push_rotation(text: &mut Vec<u8>, turn: Turn) -> Result<(), AllocError>
    ensures { OnOk result (text.new.items ≡ text.old.items ++ line_of (spelled (UseRotation turn))) }
{
    match turn {
        Turn::R0 | Turn::M0 => push_extended(text, b"LR0"),
        Turn::R90 | Turn::M90 => push_extended(text, b"LR90"),
        Turn::R180 | Turn::M180 => push_extended(text, b"LR180"),
        Turn::R270 | Turn::M270 => push_extended(text, b"LR270"),
    }
}

/// Writes the command that selects an aperture.
#[tactic(auto, unfolding(crate::specs::Phrases::spelled))]
pub fn push_selection(text: &mut Vec<u8>, number: u32) -> Result<(), AllocError>
    ensures { OnOk result (text.new.items ≡ text.old.items ++ line_of (spelled (UseAperture number))) }
{
    text.extend_from_slice(b"D")?;
    push_decimal(text, u64::from(number))?;
    text.extend_from_slice(b"*\n")
}

/// Writes the command that sets the mode of plots.
#[tactic(auto, unfolding(crate::specs::Phrases::spelled))]
pub fn push_mode(text: &mut Vec<u8>, mode: Mode) -> Result<(), AllocError>
    ensures { OnOk result (text.new.items ≡ text.old.items ++ line_of (spelled (UseMode mode))) }
{
    match mode {
        Mode::Linear => push_word(text, b"G01"),
        Mode::Clockwise => push_word(text, b"G02"),
        Mode::Counterclockwise => push_word(text, b"G03"),
    }
}

/// Writes the coordinates of a point.
#[tactic(auto, unfolding(crate::specs::Phrases::coordinates))]
fn push_coordinates(text: &mut Vec<u8>, at: Point) -> Result<(), AllocError>
    ensures { OnOk result (text.new.items ≡ text.old.items ++ coordinates at) }
{
    text.extend_from_slice(b"X")?;
    push_whole(text, Nm(at.x))?;
    text.extend_from_slice(b"Y")?;
    push_whole(text, Nm(at.y))
}

/// Writes an operation at a point: its coordinates, and what is left of its line, from its D code on.
pub fn push_operation(text: &mut Vec<u8>, at: Point, rest: &[u8]) -> Result<(), AllocError>
    ensures { OnOk result (text.new.items ≡ text.old.items ++ (coordinates at ++ rest.now)) }
{
    push_coordinates(text, at)?;
    text.extend_from_slice(rest)
}

/// How far one point lies from another, in each coordinate.
fn offset(from: Point, to: Point) -> Point
    requires from { IsOnBoard from }
    requires to { IsOnBoard to }
    ensures x { result.x ≡ to.x -ℤ from.x }
    ensures y { result.y ≡ to.y -ℤ from.y }
{
    Point {
        x: to.x - from.x,
        y: to.y - from.y,
    }
}

/// Writes how far an arc's centre is from its start.
#[tactic(auto, unfolding(crate::specs::Phrases::offsets))]
fn push_offsets(text: &mut Vec<u8>, start: Point, centre: Point) -> Result<(), AllocError>
    requires start { IsOnBoard start }
    requires centre { IsOnBoard centre }
    ensures { OnOk result (text.new.items ≡ text.old.items ++ offsets start centre) }
{
    let offset = offset(start, centre);
    text.extend_from_slice(b"I")?;
    push_whole(text, Nm(offset.x))?;
    text.extend_from_slice(b"J")?;
    push_whole(text, Nm(offset.y))
}

/// Writes the command that plots an arc.
#[tactic(auto, unfolding(crate::specs::Phrases::spelled))]
pub fn push_arc(
    text: &mut Vec<u8>,
    start: Point,
    to: Point,
    centre: Point,
) -> Result<(), AllocError>
    requires start { IsOnBoard start }
    requires centre { IsOnBoard centre }
    ensures { OnOk result (text.new.items ≡ text.old.items ++ line_of (spelled (ArcTo start to centre))) }
{
    push_coordinates(text, to)?;
    push_offsets(text, start, centre)?;
    text.extend_from_slice(b"D01*\n")
}

/// Writes the command that opens a block.
#[tactic(auto, unfolding(crate::specs::Phrases::spelled))]
pub fn push_open_block(text: &mut Vec<u8>, number: u32) -> Result<(), AllocError>
    ensures { OnOk result (text.new.items ≡ text.old.items ++ line_of (spelled (EnterBlock number))) }
{
    text.extend_from_slice(b"%ABD")?;
    push_decimal(text, u64::from(number))?;
    text.extend_from_slice(b"*%\n")
}

/// Writes the steps of a repeat.
fn push_steps(text: &mut Vec<u8>, i: Nm, j: Nm) -> Result<(), AllocError>
    ensures { OnOk result (text.new.items ≡ text.old.items ++ steps_text i j) }
{
    text.extend_from_slice(b"I")?;
    push_mm(text, i)?;
    text.extend_from_slice(b"J")?;
    push_mm(text, j)
}

/// Writes the command that opens a repeat, of so many columns and rows, so far apart.
#[tactic(auto, unfolding(crate::specs::Phrases::spelled))]
pub fn push_open_repeat(
    text: &mut Vec<u8>,
    columns: u32,
    rows: u32,
    i: Nm,
    j: Nm,
) -> Result<(), AllocError>
    ensures { OnOk result
        (text.new.items ≡ text.old.items ++ line_of (spelled (EnterRepeat columns rows i.0 j.0))) }
{
    text.extend_from_slice(b"%SRX")?;
    push_decimal(text, u64::from(columns))?;
    text.extend_from_slice(b"Y")?;
    push_decimal(text, u64::from(rows))?;
    push_steps(text, i, j)?;
    text.extend_from_slice(b"*%\n")
}
