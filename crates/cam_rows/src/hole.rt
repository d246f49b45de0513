//! The row of a hole.

ghost use Rattle.cam_shapes.specs.Disc.{IsInHole, IsSoundDisc};
ghost use Rattle.cam_rows.specs.Rows.{IsRow, Marks};

use crate::centres::Centres;
use crate::rows::row_of;
use crate::run_shape::RunShape;
use crate::runs::circle::narrow_to_circle;
use cam_shapes::Disc;

/// The hole of an aperture: a disc without its edge. The diameter is in nanometres.
#[derive(Clone, Copy)]
pub struct Hole(pub Disc);

impl RunShape for Hole {
    ghost is_sound = { λ h. IsSoundDisc h.0 };

    ghost holds = { λ h s. IsInHole s h.0 };

    fn find(&self, top: &Centres, firsts: &mut [u32], ends: &mut [u32]) {
        let radius = self.0.diameter.0 as u64;
        let bound = u128::from(radius * radius);
        narrow_to_circle(&self.0.centre, bound, top, firsts, ends);
    }
}

/// The centres in a disc, but not on its edge: one run, or none where the row lies above or below the disc or touches
/// it, or its diameter is 0. Bit i is that of centre i, from the left; the diameter is in nanometres, the centres in
/// half nanometres.
pub fn hole_row(disc: Disc, centres: Centres) -> u64
    requires disc { IsSoundDisc disc }
    requires row { IsRow centres }
    ensures { Marks result centres (λ s. IsInHole s disc) }
{
    row_of(&Hole(disc), &centres)
}
