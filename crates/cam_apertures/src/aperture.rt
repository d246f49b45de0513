//! Apertures.

ghost use Rattle.std.specs.Prelude.{◌≡◌, ◌↔◌, IsTrue};
ghost use Rattle.cam_units.specs.Board.{IsInReach};
ghost use Rattle.cam_apertures.specs.Bounds.{bounds_of};
ghost use Rattle.cam_apertures.specs.Cover.{IsCovered, disc};
ghost use Rattle.cam_apertures.specs.Soundness.{IsSideLength, IsSolidCircle, IsSolidRect, IsSoundAperture};

use crate::boxes::box_about;
use crate::primitives::Primitives;
use crate::shape::ORIGIN;
use crate::sides::{turned_height, turned_width};
use cam_shapes::{Disc, Obround, Rectangle, in_disc, in_hole, in_obround, in_rect};
use cam_units::{Bounds, Nm, Spot, Turn, fits_size};
use std::alloc::AllocError;

/// What a flash paints (Gerber Layer Format Specification, "Standard apertures" and "Aperture macro
/// (AM)"), about the flash point. Sizes are in nm, and a hole of 0 is none.
#[derive(Debug, Drop)]
pub enum Aperture {
    /// A disc.
    Circle { diameter: Nm, hole: Nm },
    /// A rectangle, its width in x and its height in y.
    Rect { width: Nm, height: Nm, hole: Nm },
    /// A rectangle whose shorter ends are half circles, its width in x and its height in y.
    Obround { width: Nm, height: Nm, hole: Nm },
    /// The primitives of a macro in order, in which a later one takes back what it clears.
    Prims(Primitives),
}

impl Aperture {
    /// Whether the aperture is a circle without a hole, with which lines and arcs may be drawn.
    pub fn is_solid_circle(&self) -> bool
        ensures { IsTrue result ↔ IsSolidCircle self.now }
    {
        match self {
            Aperture::Circle { hole, .. } => hole.0 == 0,
            _ => false,
        }
    }

    /// Whether the aperture is a rectangle without a hole, with which straight lines may be drawn.
    pub fn is_solid_rect(&self) -> bool
        ensures { IsTrue result ↔ IsSolidRect self.now }
    {
        match self {
            Aperture::Rect { hole, .. } => hole.0 == 0,
            _ => false,
        }
    }

    /// Whether the aperture, mirrored and turned about the flash point, covers the place, in hn
    /// from the flash point: it lies in the closed shape and not in the open hole; of primitives,
    /// the last that holds it paints.
    pub fn covers(&self, spot: Spot, turn: Turn) -> bool
        requires sound { IsSoundAperture self.now }
        requires spot { IsInReach spot }
        ensures { IsTrue result ↔ IsCovered self.now turn spot }
    {
        match self {
            Aperture::Circle { diameter, hole } => {
                in_disc(spot, disc(*diameter)) && !in_hole(spot, disc(*hole))
            }
            Aperture::Rect {
                width,
                height,
                hole,
            } => {
                let rectangle = Rectangle {
                    centre: ORIGIN,
                    width: turned_width(turn, *width, *height),
                    height: turned_height(turn, *width, *height),
                };
                in_rect(spot, rectangle) && !in_hole(spot, disc(*hole))
            }
            Aperture::Obround {
                width,
                height,
                hole,
            } => {
                let obround = Obround {
                    centre: ORIGIN,
                    width: turned_width(turn, *width, *height),
                    height: turned_height(turn, *width, *height),
                };
                in_obround(spot, obround) && !in_hole(spot, disc(*hole))
            }
            Aperture::Prims(prims) => prims.covers(spot, turn),
        }
    }

    /// The box of the aperture under a turn, in hn from the flash point: the full sides, hole or
    /// not; of primitives the box of all, those that clear too and those of size 0. No primitive
    /// has the empty box.
    pub fn bounds(&self, turn: Turn) -> Bounds
        requires { IsSoundAperture self.now }
        ensures { result ≡ bounds_of turn self.now }
    {
        match self {
            Aperture::Circle { diameter, .. } => box_about(ORIGIN, *diameter, *diameter),
            Aperture::Rect { width, height, .. } | Aperture::Obround { width, height, .. } => {
                let width_then = turned_width(turn, *width, *height);
                let height_then = turned_height(turn, *width, *height);
                box_about(ORIGIN, width_then, height_then)
            }
            Aperture::Prims(prims) => prims.bounds(turn),
        }
    }

    /// Whether the sizes are within the limits: diameters and holes from 0 to 200,000,000 nm,
    /// sides from 1 nm. Primitives always are.
    pub fn is_sound(&self) -> bool
        ensures { IsTrue result ↔ IsSoundAperture self.now }
    {
        match self {
            Aperture::Circle { diameter, hole } => fits_size(*diameter) && fits_size(*hole),
            Aperture::Rect {
                width,
                height,
                hole,
            }
            | Aperture::Obround {
                width,
                height,
                hole,
            } => is_side(*width) && is_side(*height) && fits_size(*hole),
            Aperture::Prims(prims) => prims.are_sound(),
        }
    }
}

/// A disc about the flash point.
fn disc(diameter: Nm) -> Disc
    ensures { result ≡ disc diameter }
{
    Disc {
        centre: ORIGIN,
        diameter,
    }
}

/// Whether a side is from 1 to 200,000,000 nm.
fn is_side(length: Nm) -> bool
    ensures { IsTrue result ↔ IsSideLength length.0 }
{
    0 < length.0 && fits_size(length)
}

impl Clone for Aperture {
    ghost is_clone = { λ x y. y ≡ x };

    fn clone(&self) -> Result<Aperture, AllocError> {
        match self {
            Aperture::Circle { diameter, hole } => Ok(Aperture::Circle {
                diameter: *diameter,
                hole: *hole,
            }),
            Aperture::Rect {
                width,
                height,
                hole,
            } => Ok(Aperture::Rect {
                width: *width,
                height: *height,
                hole: *hole,
            }),
            Aperture::Obround {
                width,
                height,
                hole,
            } => Ok(Aperture::Obround {
                width: *width,
                height: *height,
                hole: *hole,
            }),
            Aperture::Prims(prims) => Ok(Aperture::Prims(prims.clone()?)),
        }
    }
}
