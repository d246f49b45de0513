//! The definitions of apertures, as Gerber texts write them.

ghost use Rattle.std.specs.Prelude.{◌≡◌, ◌++◌, OnOk};
ghost use Rattle.cam_writers.specs.Phrases.{NameAperture, hole_text, line_of, macro_name, spelled, template_text};
ghost use Rattle.cam_writers.specs.Machinery.Tracking.{sides_text};

use crate::lengths::{push_decimal, push_mm};
use cam_apertures::Aperture;
use cam_units::Nm;
use std::alloc::AllocError;

/// Writes the name of the macro of an aperture.
pub fn push_macro_name(text: &mut Vec<u8>, number: u32) -> Result<(), AllocError>
    ensures { OnOk result (text.new.items ≡ text.old.items ++ macro_name number) }
{
    text.extend_from_slice(b"M")?;
    push_decimal(text, u64::from(number))
}

/// Writes the diameter of a hole, where there is one.
fn push_hole(text: &mut Vec<u8>, hole: Nm) -> Result<(), AllocError>
    ensures { OnOk result (text.new.items ≡ text.old.items ++ hole_text hole) }
{
    if hole.0 == 0 {
        return Ok(());
    }
    text.extend_from_slice(b"X")?;
    push_mm(text, hole)
}

/// Writes a width and a height.
fn push_sides(text: &mut Vec<u8>, width: Nm, height: Nm) -> Result<(), AllocError>
    ensures { OnOk result (text.new.items ≡ text.old.items ++ sides_text width height) }
{
    push_mm(text, width)?;
    text.extend_from_slice(b"X")?;
    push_mm(text, height)
}

/// Writes the template of an aperture, and its parameters.
fn push_template(text: &mut Vec<u8>, number: u32, aperture: &Aperture) -> Result<(), AllocError>
    ensures { OnOk result (text.new.items ≡ text.old.items ++ template_text number aperture.now) }
{
    match aperture {
        Aperture::Circle { diameter, hole } => {
            text.extend_from_slice(b"C,")?;
            push_mm(text, *diameter)?;
            push_hole(text, *hole)
        }
        Aperture::Rect {
            width,
            height,
            hole,
        } => {
            text.extend_from_slice(b"R,")?;
            push_sides(text, *width, *height)?;
            push_hole(text, *hole)
        }
        Aperture::Obround {
            width,
            height,
            hole,
        } => {
            text.extend_from_slice(b"O,")?;
            push_sides(text, *width, *height)?;
            push_hole(text, *hole)
        }
        Aperture::Prims(_) => push_macro_name(text, number),
    }
}

/// Writes the command that defines an aperture.
#[tactic(auto, unfolding(crate::specs::Phrases::spelled))]
pub fn push_definition(
    text: &mut Vec<u8>,
    number: u32,
    aperture: &Aperture,
) -> Result<(), AllocError>
    ensures { OnOk result
        (text.new.items ≡ text.old.items ++ line_of (spelled (NameAperture number aperture.now))) }
{
    text.extend_from_slice(b"%ADD")?;
    push_decimal(text, u64::from(number))?;
    push_template(text, number, aperture)?;
    text.extend_from_slice(b"*%\n")
}
