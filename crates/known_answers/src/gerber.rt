//! Gerber files, and the layers that they give (Gerber Layer Format Specification).

ghost use Rattle.cam_objects.specs.Soundness.{IsSound};

mod layers;

use crate::places::{At, place};
use crate::tables::each_in;
use cam_gerber::{ReadFault, read_gerber};
use cam_objects::Layer;
use layers::LAYERS;
use std::alloc::Global;
use std::test::Fail;

/// A file that is a layer: its text, how many entries and items it has, and places in half nm that are black and white.
struct File {
    text: &'static [u8],
    entries: usize,
    items: usize,
    black: &'static [At],
    white: &'static [At],
}

/// Whether the places are all black, or all white.
fn are(layer: &Layer, places: &[At], black: bool) -> bool
    requires { IsSound layer.now }
{
    for at in places {
        let Some(spot) = place(*at) else {
            return false;
        };
        if layer.black_at(spot) != black {
            return false;
        }
    }
    true
}

/// Whether the file is a layer of so many entries and items that shows these places.
fn is_layer(alloc: Global, file: &File) -> Result<bool, ReadFault> {
    let layer = read_gerber(alloc, file.text)?;
    Ok(
        layer.entries().len() == file.entries
            && layer.items().len() == file.items
            && are(&layer, file.black, true)
            && are(&layer, file.white, false),
    )
}

#[test]
fn files(rt: HostRuntime) -> Result<(), Fail> {
    each_in(rt.alloc(), LAYERS, is_layer)
}
