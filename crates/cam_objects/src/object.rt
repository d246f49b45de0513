//! Objects of a layer.

ghost use Rattle.std.specs.Prelude.{◌≡◌, All, map};
ghost use Rattle.cam_shapes.specs.Shifting.{IsShiftable};
ghost use Rattle.cam_objects.specs.Shifting.{IsShiftableObject, shifted_object};

use cam_shapes::Contour;
use cam_units::{Items, Point, Turn};
use std::alloc::AllocError;

/// One object, as the Gerber Layer Format Specification names them ("Objects"): points in nm, an
/// aperture by its number in the dictionary, and whether it darkens or clears.
#[derive(Debug, Drop)]
pub enum Object {
    /// The aperture, mirrored and turned, at a point. A flash of a block paints what the block holds.
    Flash {
        aperture: u32,
        at: Point,
        turn: Turn,
        dark: bool,
    },
    /// The stroke of a solid circle or of a solid rectangle along a straight line. The rectangle is
    /// mirrored and turned as a flash of it is, and keeps its sides along the axes; of a circle's
    /// stroke the turn changes no place, and is kept as the file has it.
    Draw {
        aperture: u32,
        from: Point,
        to: Point,
        turn: Turn,
        dark: bool,
    },
    /// The stroke of a solid circle along an arc, a full circle where it ends at its start.
    Arc {
        ccw: bool,
        dark: bool,
        aperture: u32,
        from: Point,
        to: Point,
        centre: Point,
    },
    /// The inside of a contour.
    Region {
        contour: Contour,
        dark: bool,
    },
}

// By hand, since a region's contour alone takes memory: derived, each number might refuse its copy.
impl Clone for Object {
    ghost is_clone = { λ x y. y ≡ x };

    fn clone(&self) -> Result<Object, AllocError> {
        match self {
            Object::Flash {
                aperture,
                at,
                turn,
                dark,
            } => Ok(Object::Flash {
                aperture: *aperture,
                at: *at,
                turn: *turn,
                dark: *dark,
            }),
            Object::Draw {
                aperture,
                from,
                to,
                turn,
                dark,
            } => Ok(Object::Draw {
                aperture: *aperture,
                from: *from,
                to: *to,
                turn: *turn,
                dark: *dark,
            }),
            Object::Arc {
                ccw,
                dark,
                aperture,
                from,
                to,
                centre,
            } => Ok(Object::Arc {
                ccw: *ccw,
                dark: *dark,
                aperture: *aperture,
                from: *from,
                to: *to,
                centre: *centre,
            }),
            Object::Region { contour, dark } => {
                let contour = contour.clone()?;
                Ok(Object::Region {
                    contour,
                    dark: *dark,
                })
            }
        }
    }
}

/// The objects of a block or of a repeat, in order.
pub type Objects = Items<Object>;

/// Moves the control points of each object by so many nm.
pub(crate) fn shift_objects(objects: &mut Objects, by: Point)
    requires objects { All IsShiftableObject objects.old }
    requires by { IsShiftable by }
    ensures { objects.new ≡ map (shifted_object by) objects.old }
{
    for object in objects.as_mut_slice() {
        object.shift(by);
    }
}
