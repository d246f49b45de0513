//! Rows of bars.

ghost use Rattle.cam_shapes.specs.Bar.{IsInBar, IsSoundBar};
ghost use Rattle.cam_rows.specs.Rows.{IsRow, Marks};

use crate::centres::Centres;
use crate::rows::row_of;
use crate::run_shape::RunShape;
use crate::runs::bar::bar_runs;
use cam_shapes::Bar;

impl RunShape for Bar {
    ghost is_sound = { IsSoundBar };

    ghost holds = { λ b s. IsInBar s b };

    #[tactic(auto, using(crate::proofs::FoundRuns::found_anew))]
    fn find(&self, top: &Centres, firsts: &mut [u32], ends: &mut [u32]) {
        bar_runs(self, top, firsts, ends);
    }
}

/// The centres in a bar or on its edge; none where its width or its length is 0. Bit i is that of centre i, from the
/// left; the width and the ends are in nanometres, the centres in half nanometres.
pub fn bar_row(bar: Bar, centres: Centres) -> u64
    requires bar { IsSoundBar bar }
    requires row { IsRow centres }
    ensures { Marks result centres (λ s. IsInBar s bar) }
{
    row_of(&bar, &centres)
}
