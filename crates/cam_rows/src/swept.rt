//! Rows of the strokes of rectangles.

ghost use Rattle.cam_shapes.specs.Swept.{IsInSwept, IsSoundSwept};
ghost use Rattle.cam_rows.specs.Rows.{IsRow, Marks};

use crate::centres::Centres;
use crate::rows::row_of;
use crate::run_shape::RunShape;
use crate::runs::swept::swept_runs;
use cam_shapes::Swept;

impl RunShape for Swept {
    ghost is_sound = { IsSoundSwept };

    ghost holds = { λ w s. IsInSwept s w };

    #[tactic(auto, using(crate::proofs::FoundRuns::found_anew))]
    fn find(&self, top: &Centres, firsts: &mut [u32], ends: &mut [u32]) {
        swept_runs(self, top, firsts, ends);
    }
}

/// The centres in the stroke of a rectangle along a straight line, or on its edge: those in the box of both ends,
/// widened by the sides, that are no farther from the line than the rectangle's corners; none where a side is 0. Bit i
/// is that of centre i, from the left; the sides and the ends are in nanometres, the centres in half nanometres.
pub fn swept_row(swept: Swept, centres: Centres) -> u64
    requires swept { IsSoundSwept swept }
    requires row { IsRow centres }
    ensures { Marks result centres (λ s. IsInSwept s swept) }
{
    row_of(&swept, &centres)
}
