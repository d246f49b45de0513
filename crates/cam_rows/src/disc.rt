//! The row of a disc.

ghost use Rattle.std.specs.Prelude.{◌↔◌};
ghost use Rattle.cam_units.specs.declared.point.Spot.{Spot};
ghost use Rattle.cam_shapes.specs.Disc.{IsInDisc, IsSoundDisc};
ghost use Rattle.cam_rows.specs.Machinery.Narrowing.{IsNearer};
ghost use Rattle.cam_rows.specs.Rows.{IsRow, Marks};

use crate::centres::Centres;
use crate::rows::row_of;
use crate::run_shape::RunShape;
use crate::runs::circle::narrow_to_circle;
use cam_shapes::Disc;

impl RunShape for Disc {
    ghost is_sound = { IsSoundDisc };

    ghost holds = { λ d s. IsInDisc s d };

    fn find(&self, top: &Centres, firsts: &mut [u32], ends: &mut [u32]) {
        let bound = u128::from(bound_of(self));
        narrow_to_circle(&self.centre, bound, top, firsts, ends);
    }
}

/// The centres in a disc or on its edge: one run, as wide as the chord on which the row lies, or none where the row
/// lies above or below the disc, or its diameter is 0. Bit i is that of centre i, from the left; the diameter is in
/// nanometres, the centres in half nanometres.
pub fn disc_row(disc: Disc, centres: Centres) -> u64
    requires disc { IsSoundDisc disc }
    requires row { IsRow centres }
    ensures { Marks result centres (λ s. IsInDisc s disc) }
{
    row_of(&disc, &centres)
}

/// What the squared distances from a disc's centre are less than at its places.
#[inline]
#[tactic(auto, using(crate::proofs::Chords::in_no_disc, crate::proofs::Chords::cast_size, crate::proofs::Chords::in_disc_is))]
fn bound_of(disc: &Disc) -> u64
    requires { IsSoundDisc disc.now }
    ensures { (s : Spot) → IsNearer disc.now.centre result s ↔ IsInDisc s disc.now }
{
    let radius = disc.diameter.0 as u64;
    if radius == 0 {
        return 0;
    }
    radius * radius + 1
}
