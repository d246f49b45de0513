//! The macros of apertures, as Gerber texts write them.

ghost use Rattle.std.specs.Prelude.{◌≡◌, ◌++◌, OnOk};
ghost use Rattle.std.specs.List.{flat_map};
ghost use Rattle.cam_macros.specs.declared.primitive.PrimShape.TheVariants.{Outline};
ghost use Rattle.cam_writers.specs.Phrases.{NameMacro, line_of, point_fields, primitive_text, shape_code, shape_fields};
ghost use Rattle.cam_writers.specs.Phrases.{spelled};
ghost use Rattle.cam_writers.specs.Lengths.{mm};
ghost use Rattle.cam_writers.specs.Machinery.Tracking.{behind_comma, fields_text};
ghost use Rattle.cam_writers.specs.Machinery.Tracking.{primitive_lines};

use crate::gerber_apertures::push_macro_name;
use crate::lengths::{push_decimal, push_mm};
use cam_apertures::Primitives;
use cam_macros::{Prim, PrimShape};
use cam_units::{Nm, Point};
use std::alloc::AllocError;

/// Writes a length behind a comma.
fn push_length(text: &mut Vec<u8>, length: Nm) -> Result<(), AllocError>
    ensures { OnOk result (text.new.items ≡ text.old.items ++ behind_comma (mm length.0)) }
{
    text.extend_from_slice(b",")?;
    push_mm(text, length)
}

/// Writes the coordinates of a point, each behind a comma.
fn push_point(text: &mut Vec<u8>, point: Point) -> Result<(), AllocError>
    ensures { OnOk result (text.new.items ≡ text.old.items ++ fields_text (point_fields point)) }
{
    push_length(text, Nm(point.x))?;
    push_length(text, Nm(point.y))
}

/// Writes the coordinates of points.
fn push_points(text: &mut Vec<u8>, points: &[Point]) -> Result<(), AllocError>
    ensures { OnOk result (text.new.items
        ≡ text.old.items ++ fields_text (flat_map point_fields points.now)) }
{
    for point in points {
        push_point(text, *point)?;
    }
    Ok(())
}

/// Writes how many points an outline has, its points, and again the first.
fn push_outline(text: &mut Vec<u8>, points: &[Point]) -> Result<(), AllocError>
    ensures { OnOk result (text.new.items ≡ text.old.items ++ fields_text (shape_fields (Outline points.now))) }
{
    text.extend_from_slice(b",")?;
    push_decimal(text, points.len() as u64)?;
    push_points(text, points)?;
    match points.first() {
        Some(first) => push_point(text, *first),
        None => Ok(()),
    }
}

/// Writes the fields of a shape.
fn push_shape(text: &mut Vec<u8>, shape: &PrimShape) -> Result<(), AllocError>
    ensures { OnOk result (text.new.items ≡ text.old.items ++ fields_text (shape_fields shape.now)) }
{
    match shape {
        PrimShape::Disc { centre, diameter } => {
            push_length(text, *diameter)?;
            push_point(text, *centre)
        }
        PrimShape::Bar { from, to, width } => {
            push_length(text, *width)?;
            push_point(text, *from)?;
            push_point(text, *to)
        }
        PrimShape::Rect {
            centre,
            width,
            height,
        } => {
            push_length(text, *width)?;
            push_length(text, *height)?;
            push_point(text, *centre)
        }
        PrimShape::Outline { points } => push_outline(text, points.as_slice()),
    }
}

/// The code of a shape.
fn shape_code(shape: &PrimShape) -> &'static [u8]
    ensures { result.now ≡ shape_code shape.now }
{
    match shape {
        PrimShape::Disc { .. } => b"1",
        PrimShape::Bar { .. } => b"20",
        PrimShape::Rect { .. } => b"21",
        PrimShape::Outline { .. } => b"4",
    }
}

/// Writes a primitive.
#[tactic(auto, unfolding(crate::specs::Phrases::primitive_text))]
fn push_primitive(text: &mut Vec<u8>, primitive: &Prim) -> Result<(), AllocError>
    ensures { OnOk result (text.new.items ≡ text.old.items ++ primitive_text primitive.now) }
{
    text.extend_from_slice(shape_code(&primitive.shape))?;
    text.extend_from_slice(if primitive.paint { b",1" } else { b",0" })?;
    push_shape(text, &primitive.shape)?;
    text.extend_from_slice(b",0")
}

/// Writes the line of each primitive behind the end of the line before it.
fn push_primitives(text: &mut Vec<u8>, primitives: &Primitives) -> Result<(), AllocError>
    ensures { OnOk result (text.new.items ≡ text.old.items ++ primitive_lines primitives.now) }
{
    for place in 0..primitives.len() {
        text.extend_from_slice(b"*\n")?;
        let primitive = primitives.at(place);
        push_primitive(text, primitive)?;
    }
    Ok(())
}

/// Writes the command that defines the macro of an aperture.
#[tactic(auto, unfolding(crate::specs::Phrases::spelled))]
pub fn push_macro(
    text: &mut Vec<u8>,
    number: u32,
    primitives: &Primitives,
) -> Result<(), AllocError>
    ensures { OnOk result
        (text.new.items ≡ text.old.items ++ line_of (spelled (NameMacro number primitives.now))) }
{
    text.extend_from_slice(b"%AM")?;
    push_macro_name(text, number)?;
    push_primitives(text, primitives)?;
    text.extend_from_slice(b"*\n%\n")
}
