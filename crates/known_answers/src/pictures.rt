//! Gerber layers and their images (Gerber Layer Format Specification, "Graphics objects", "Region statement", "Block
//! Aperture (AB)" and "Step and Repeat (SR)").

ghost use Rattle.cam_objects.specs.Soundness.{IsSound};

mod blocks;
mod rectangles;
mod regions;
mod repeats;
mod strokes;

use crate::places::place_in;
use crate::tables::{each_row, two_texts};
use blocks::BLOCKS;
use cam_gerber::read_gerber;
use cam_objects::Layer;
use rectangles::RECTANGLES;
use regions::REGIONS;
use repeats::REPEATS;
use std::alloc::{AllocError, Global};
use std::test::Fail;
use strokes::STROKES;

/// A Gerber file, and the places in half nm that are black and that are white in its layer, each as `x,y`, with a space
/// between two.
#[derive(Clone, Copy)]
struct Picture<'a> {
    file: &'a [u8],
    black: &'a [u8],
    white: &'a [u8],
}

/// The picture of a row, whose three texts have a `!` between them.
fn picture_of(row: &[u8]) -> Option<Picture<'_>> {
    let (file, places) = two_texts(row)?;
    let (black, white) = two_texts(places)?;
    Some(Picture { file, black, white })
}

/// Whether the places are all black, or all white.
fn are(layer: &Layer, places: &[u8], black: bool) -> bool
    requires { IsSound layer.now }
{
    if places.is_empty() {
        return true;
    }
    for text in places.split(|byte| *byte == b' ') {
        let Some(spot) = place_in(text) else {
            return false;
        };
        if layer.black_at(spot) != black {
            return false;
        }
    }
    true
}

/// Whether the layer shows the picture's places.
fn has_places(layer: &Layer, picture: Picture<'_>) -> bool
    requires { IsSound layer.now }
{
    are(layer, picture.black, true) && are(layer, picture.white, false)
}

/// Whether the layer and a copy show the picture's places.
fn keeps_places(layer: &Layer, picture: Picture<'_>) -> Result<bool, AllocError>
    requires { IsSound layer.now }
{
    let copy = layer.try_copy()?;
    Ok(has_places(layer, picture) && has_places(&copy, picture))
}

/// Whether the row's file is read, and its layer and a copy show the row's places.
fn shows(alloc: Global, row: &[u8]) -> Result<bool, AllocError> {
    let Some(picture) = picture_of(row) else {
        return Ok(false);
    };
    match read_gerber(alloc, picture.file) {
        Ok(layer) => keeps_places(&layer, picture),
        Err(_) => Ok(false),
    }
}

#[test]
fn pictures(rt: HostRuntime) -> Result<(), Fail> {
    each_row(
        rt.alloc(),
        &[
            (STROKES, 17),
            (RECTANGLES, 10),
            (REGIONS, 22),
            (BLOCKS, 11),
            (REPEATS, 5),
        ],
        shows,
    )
}
