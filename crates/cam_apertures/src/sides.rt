//! Sides of shapes that are turned.

ghost use Rattle.std.specs.Prelude.{◌≡◌};
ghost use Rattle.cam_apertures.specs.Turned.{exchanges_axes, turned_height, turned_width};

use cam_units::{Nm, Turn};

/// Whether the turn exchanges the axes, as a quarter turn does.
fn exchanges_axes(turn: Turn) -> bool
    ensures { result ≡ exchanges_axes turn }
{
    match turn {
        Turn::R0 | Turn::R180 | Turn::M0 | Turn::M180 => false,
        Turn::R90 | Turn::R270 | Turn::M90 | Turn::M270 => true,
    }
}

/// How wide a shape is, once it is turned.
pub fn turned_width(turn: Turn, width: Nm, height: Nm) -> Nm
    ensures { result ≡ turned_width turn width height }
{
    if exchanges_axes(turn) { height } else { width }
}

/// How high a shape is, once it is turned.
pub fn turned_height(turn: Turn, width: Nm, height: Nm) -> Nm
    ensures { result ≡ turned_height turn width height }
{
    if exchanges_axes(turn) { width } else { height }
}
