//! Aperture macros (Gerber Layer Format Specification, "Aperture macro (AM)").

mod rows;

use crate::tables::{each_in, each_row, numbered};
use crate::text::{Pieces, text_of};
use cam_macros::{Macro, MacroFault, PrimShape, Prims};
use cam_units::Unit;
use rows::{EXPANSIONS, LONG_OUTLINES, LONG_TEXTS, PRIMITIVES, Row, Shape, TEXTS, WITH_PARAMETERS};
use std::alloc::{AllocError, Global};
use std::test::Fail;

/// The number of a fault, 0 for none.
fn number<T: Drop>(answer: Result<T, MacroFault>) -> u8 {
    match answer {
        Ok(_) => 0,
        Err(fault) => fault.number(),
    }
}

/// The number of the fault of this text's primitives, in millimetres.
fn expanded(alloc: Global, text: &[u8], params: &[i64]) -> Result<u8, MacroFault> {
    let made = Macro::parse(alloc, text)?;
    Ok(number(made.expand(alloc, params, Unit::Mm)))
}

/// Whether the text of the row is read so.
fn reads(alloc: Global, row: &[u8]) -> Result<bool, AllocError> {
    match numbered(row) {
        Some((wanted, text)) => Ok(number(Macro::parse(alloc, text)) == wanted),
        None => Ok(false),
    }
}

/// Whether the primitives of the row's text are made so.
fn expands(alloc: Global, row: &[u8]) -> Result<bool, MacroFault> {
    match numbered(row) {
        Some((wanted, text)) => Ok(expanded(alloc, text, &[])? == wanted),
        None => Ok(false),
    }
}

/// The same of the text of these pieces.
fn reads_long(alloc: Global, &(pieces, wanted): &(Pieces, u8)) -> Result<bool, AllocError> {
    let text = text_of(alloc, pieces)?;
    Ok(number(Macro::parse(alloc, &text)) == wanted)
}

/// Whether the primitives of the text with these parameters are made so.
fn expands_with(
    alloc: Global,
    &(text, params, wanted): &(&[u8], &[i64], u8),
) -> Result<bool, MacroFault> {
    Ok(expanded(alloc, text, params)? == wanted)
}

/// The same of the text of these pieces, without parameters.
fn expands_long(alloc: Global, &(pieces, wanted): &(Pieces, u8)) -> Result<bool, MacroFault> {
    let text = text_of(alloc, pieces)?;
    Ok(expanded(alloc, &text, &[])? == wanted)
}

/// Whether the primitive is of this shape.
fn is(shape: &PrimShape, wanted: &Shape) -> bool {
    match (shape, wanted) {
        (PrimShape::Disc { centre, diameter }, Shape::Disc(at, size)) => {
            centre == at && diameter.0 == *size
        }
        (PrimShape::Bar { from, to, width }, Shape::Bar(start, end, size)) => {
            from == start && to == end && width.0 == *size
        }
        (
            PrimShape::Rect {
                centre,
                width,
                height,
            },
            Shape::Rect(at, across, up),
        ) => centre == at && width.0 == *across && height.0 == *up,
        (PrimShape::Outline { points }, Shape::Outline(corners)) => points.as_slice() == *corners,
        _ => false,
    }
}

/// Whether these are the wanted primitives.
fn are(prims: &Prims, wanted: &[(bool, Shape)]) -> bool {
    let prims = prims.as_slice();
    for (prim, (paint, shape)) in prims.iter().zip(wanted) {
        if prim.paint != *paint || !is(&prim.shape, shape) {
            return false;
        }
    }
    prims.len() == wanted.len()
}

/// Whether these and a copy are the wanted primitives.
fn keep(prims: &Prims, wanted: &[(bool, Shape)]) -> Result<bool, AllocError> {
    let copy = prims.clone()?;
    Ok(are(prims, wanted) && are(&copy, wanted))
}

/// Whether the text, and a copy of its primitives, are what the row wants.
fn is_right(alloc: Global, row: &Row) -> Result<bool, MacroFault> {
    let made = Macro::parse(alloc, row.text)?;
    let prims = made.expand(alloc, row.params, row.unit)?;
    Ok(keep(&prims, row.wanted)?)
}

#[test]
fn readings(rt: HostRuntime) -> Result<(), Fail> {
    each_row(rt.alloc(), &[(TEXTS, 31)], reads)?;
    each_in(rt.alloc(), LONG_TEXTS, reads_long)
}

#[test]
fn expansions(rt: HostRuntime) -> Result<(), Fail> {
    each_row(rt.alloc(), &[(EXPANSIONS, 43)], expands)?;
    each_in(rt.alloc(), WITH_PARAMETERS, expands_with)?;
    each_in(rt.alloc(), LONG_OUTLINES, expands_long)?;
    each_in(rt.alloc(), PRIMITIVES, is_right)
}
