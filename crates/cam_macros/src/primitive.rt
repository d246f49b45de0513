//! The primitives of an expanded macro.

ghost use Rattle.std.specs.Prelude.{◌≡◌};

use cam_units::{Items, Nm, Point};
use std::alloc::AllocError;

/// A list of points, in nm.
pub type Points = Items<Point>;

/// The shape of a primitive, in nm about the macro's origin, already rotated.
#[derive(Debug, Drop)]
pub enum PrimShape {
    /// A disc.
    Disc {
        centre: Point,
        diameter: Nm,
    },
    /// The rectangle about the line from one point to the other, without round ends.
    Bar {
        from: Point,
        to: Point,
        width: Nm,
    },
    /// A rectangle with its sides along the axes.
    Rect {
        centre: Point,
        width: Nm,
        height: Nm,
    },
    /// The closed outline through the points, the first of which is not told again.
    Outline {
        points: Points,
    },
}

/// A primitive, which paints or clears.
#[derive(Debug, Drop)]
pub struct MacroPrimitive {
    pub paint: bool,
    pub shape: PrimShape,
}

/// The primitives of a macro, in order.
pub type Prims = Items<MacroPrimitive>;

impl Clone for PrimShape {
    ghost is_clone = { λ x y. y ≡ x };

    fn clone(&self) -> Result<PrimShape, AllocError> {
        match self {
            PrimShape::Disc { centre, diameter } => Ok(PrimShape::Disc {
                centre: *centre,
                diameter: *diameter,
            }),
            PrimShape::Bar { from, to, width } => Ok(PrimShape::Bar {
                from: *from,
                to: *to,
                width: *width,
            }),
            PrimShape::Rect {
                centre,
                width,
                height,
            } => Ok(PrimShape::Rect {
                centre: *centre,
                width: *width,
                height: *height,
            }),
            PrimShape::Outline { points } => {
                let points = points.clone()?;
                Ok(PrimShape::Outline { points })
            }
        }
    }
}

impl Clone for MacroPrimitive {
    ghost is_clone = { λ x y. y ≡ x };

    fn clone(&self) -> Result<MacroPrimitive, AllocError> {
        let shape = self.shape.clone()?;
        Ok(MacroPrimitive {
            paint: self.paint,
            shape,
        })
    }
}
