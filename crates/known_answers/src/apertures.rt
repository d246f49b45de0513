//! Apertures (Gerber Layer Format Specification, "Standard apertures", "Aperture macro (AM)", "Aperture definition
//! (AD)").

ghost use Rattle.std.specs.Prelude.{◌≡◌, []};

mod covering;
mod defining;

use crate::tables::{each_in, each_row};
use cam_apertures::{AdFault, Aperture, Macros, ad_number, parse_ad};
use cam_macros::{Macro, MacroFault, PrimShape};
use cam_units::{Bounds, Point, Spot, Turn, Unit};
use covering::{BOXES, Boxed, NOTHING, PLACES, Place, SOLID, Solid, Text};
use defining::{DEFINITIONS, NUMBERS, Wanted, definition_of};
use std::alloc::{AllocError, Global};
use std::test::Fail;

/// Adds the first macro, that of the text, or none where it is empty.
fn add_macro(alloc: Global, macros: &mut Macros, text: &[u8]) -> Result<(), MacroFault>
    requires { macros.old ≡ [] }
{
    if !text.is_empty() {
        macros.add(alloc, Macro::parse(alloc, text)?)?;
    }
    Ok(())
}

/// What the text behind AD reads in a file with this macro, or with none where its text is empty.
fn defined(
    alloc: Global,
    macro_text: &[u8],
    text: &[u8],
    unit: Unit,
) -> Result<Result<(u32, Aperture), AdFault>, MacroFault> {
    let mut macros = Macros::new(alloc);
    add_macro(alloc, &mut macros, macro_text)?;
    Ok(parse_ad(alloc, text, &mut macros, unit))
}

/// The aperture of the texts, in millimetres, if they define one.
fn aperture_of(alloc: Global, text: Text) -> Result<Option<Aperture>, MacroFault> {
    match defined(alloc, text.0, text.1, Unit::Mm)? {
        Ok((_, aperture)) => Ok(Some(aperture)),
        Err(_) => Ok(None),
    }
}

/// Whether the aperture is one dark disc of this diameter, in nm, about the flash point.
fn is_disc(aperture: &Aperture, wanted: i64) -> bool {
    let Aperture::Prims(prims) = aperture else {
        return false;
    };
    if prims.len() != 1 {
        return false;
    }
    let prim = prims.at(0);
    match &prim.shape {
        PrimShape::Disc { centre, diameter } => {
            prim.paint && *centre == Point { x: 0, y: 0 } && diameter.0 == wanted
        }
        _ => false,
    }
}

/// Whether this aperture is wanted.
fn is(aperture: &Aperture, wanted: Wanted) -> bool {
    match (aperture, wanted) {
        (Aperture::Circle { diameter, hole }, Wanted::Circle(size, inner)) => {
            diameter.0 == size && hole.0 == inner
        }
        (
            Aperture::Rect {
                width,
                height,
                hole,
            },
            Wanted::Rect(across, up, inner),
        )
        | (
            Aperture::Obround {
                width,
                height,
                hole,
            },
            Wanted::Obround(across, up, inner),
        ) => width.0 == across && height.0 == up && hole.0 == inner,
        (Aperture::Prims(_), Wanted::Disc(size)) => is_disc(aperture, size),
        _ => false,
    }
}

/// Whether a definition gives what is wanted.
fn gives(answer: &Result<(u32, Aperture), AdFault>, number: u32, wanted: Wanted) -> bool {
    match (answer, wanted) {
        (Err(fault), Wanted::Fault(code)) => fault.number() == code,
        (Ok((found, aperture)), _) => *found == number && is(aperture, wanted),
        _ => false,
    }
}

/// Whether the row's definition gives what it wants.
fn is_right(alloc: Global, row: &[u8]) -> Result<bool, MacroFault> {
    let Some(row) = definition_of(row) else {
        return Ok(false);
    };
    let answer = defined(alloc, row.macro_text, row.text, row.unit)?;
    Ok(gives(&answer, row.number, row.wanted))
}

/// Whether the aperture is sound, and covers the place once it is turned exactly if that is wanted.
fn covers_as(aperture: &Aperture, turn: Turn, at: (i32, i32), wanted: bool) -> bool {
    let spot = Spot {
        x: i64::from(at.0),
        y: i64::from(at.1),
    };
    aperture.is_sound() && aperture.covers(spot, turn) == wanted
}

/// Whether the aperture of the row's text covers its place as it wants.
fn is_covered(alloc: Global, &(text, turn, at, wanted): &Place) -> Result<bool, MacroFault> {
    match aperture_of(alloc, text)? {
        Some(aperture) => Ok(covers_as(&aperture, turn, at, wanted)),
        None => Ok(false),
    }
}

/// Whether the aperture is sound, and has this box once it is turned.
fn is_boxed(aperture: &Aperture, turn: Turn, wanted: Bounds) -> bool {
    aperture.is_sound() && aperture.bounds(turn) == wanted
}

/// Whether the aperture and its copy have this box once they are turned.
fn keeps_box(aperture: &Aperture, turn: Turn, wanted: Bounds) -> Result<bool, AllocError> {
    let copy = aperture.clone()?;
    Ok(is_boxed(aperture, turn, wanted) && is_boxed(&copy, turn, wanted))
}

/// The same of the aperture that a text defines.
fn has_box(alloc: Global, text: Text, turn: Turn, wanted: Bounds) -> Result<bool, MacroFault> {
    match aperture_of(alloc, text)? {
        Some(aperture) => Ok(keeps_box(&aperture, turn, wanted)?),
        None => Ok(false),
    }
}

/// The same of the row's box; the box of an aperture without a primitive is empty.
fn is_in_box(alloc: Global, row: &Boxed) -> Result<bool, MacroFault> {
    let &(text, turn, [left, below, right, above]) = row;
    let wanted = Bounds::Closed {
        low: Spot { x: left, y: below },
        high: Spot { x: right, y: above },
    };
    Ok(has_box(alloc, text, turn, wanted)? && has_box(alloc, NOTHING, turn, Bounds::Empty)?)
}

/// Whether the aperture is a circle without a hole, or a rectangle without one, or neither, as the row has it.
fn is_solid(alloc: Global, &(text, circle, rectangle): &Solid) -> Result<bool, MacroFault> {
    match aperture_of(alloc, text)? {
        Some(it) => Ok(it.is_solid_circle() == circle && it.is_solid_rect() == rectangle),
        None => Ok(false),
    }
}

/// Whether the text defines this number.
fn is_number(alloc: Global, &(text, wanted): &(&[u8], Option<u32>)) -> Result<bool, AllocError> {
    Ok(ad_number(alloc, text)? == wanted)
}

#[test]
fn definitions(rt: HostRuntime) -> Result<(), Fail> {
    each_row(rt.alloc(), &[(DEFINITIONS, 76)], is_right)?;
    each_in(rt.alloc(), NUMBERS, is_number)
}

#[test]
fn covers_and_boxes(rt: HostRuntime) -> Result<(), Fail> {
    each_in(rt.alloc(), PLACES, is_covered)?;
    each_in(rt.alloc(), BOXES, is_in_box)?;
    each_in(rt.alloc(), SOLID, is_solid)
}
