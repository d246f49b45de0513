//! The row of a rectangle.

ghost use Rattle.cam_shapes.specs.Box.{IsInRectangle, IsSoundRectangle};
ghost use Rattle.cam_rows.specs.Rows.{IsRow, Marks};

use crate::centres::Centres;
use crate::rows::row_of;
use crate::run_shape::RunShape;
use crate::runs::rect::rect_runs;
use cam_shapes::Rectangle;

impl RunShape for Rectangle {
    ghost is_sound = { IsSoundRectangle };

    ghost holds = { λ r s. IsInRectangle s r };

    #[tactic(auto, using(crate::proofs::FoundRuns::found_anew))]
    fn find(&self, top: &Centres, firsts: &mut [u32], ends: &mut [u32]) {
        rect_runs(self, top, firsts, ends);
    }
}

/// The centres in a rectangle or on its edge: one run, or none where the row lies above or below it, or a side is 0.
/// Bit i is that of centre i, from the left; the sides are in nanometres, the centres in half nanometres.
pub fn rect_row(rectangle: Rectangle, centres: Centres) -> u64
    requires rectangle { IsSoundRectangle rectangle }
    requires row { IsRow centres }
    ensures { Marks result centres (λ s. IsInRectangle s rectangle) }
{
    row_of(&rectangle, &centres)
}
