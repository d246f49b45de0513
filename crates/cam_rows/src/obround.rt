//! The row of an obround.

ghost use Rattle.std.specs.Prelude.{◌^◌, ◌<◌, ◌≤◌, ◌↔◌, ℕ};
ghost use Rattle.cam_shapes.specs.Box.{IsInObround, IsSoundObround};
ghost use Rattle.cam_rows.specs.Machinery.Quarters.{IsInQuarter};
ghost use Rattle.cam_rows.specs.Rows.{IsRow, Marks};

use crate::centres::Centres;
use crate::rows::row_of;
use crate::run_shape::RunShape;
use crate::runs::obround::obround_runs;
use cam_shapes::Obround;
use cam_units::isqrt;

impl RunShape for Obround {
    ghost is_sound = { IsSoundObround };

    ghost holds = { λ o s. IsInObround s o };

    #[tactic(auto, using(crate::proofs::FoundRuns::found_anew))]
    fn find(&self, top: &Centres, firsts: &mut [u32], ends: &mut [u32]) {
        obround_runs(self, top, firsts, ends);
    }
}

/// The centres in an obround or on its edge: one run, or none where the row lies above or below it, or a side is 0.
/// Bit i is that of centre i, from the left; the sides are in nanometres, the centres in half nanometres.
pub fn obround_row(obround: Obround, centres: Centres) -> u64
    requires obround { IsSoundObround obround }
    requires row { IsRow centres }
    ensures { Marks result centres (λ s. IsInObround s obround) }
{
    row_of(&obround, &centres)
}

/// How far an obround of these sides reaches to the left and to the right of its centre, so far over it: half its
/// straight part, and half the chord of its round ends where the row passes those.
#[tactic(auto, using(crate::proofs::Circling::short_root))]
pub(crate) fn reach_at(over: u64, width: u64, height: u64) -> u64
    requires low { over ≤ height }
    requires width { width < 2 ^ 28 }
    requires height { height < 2 ^ 28 }
    ensures each { (x : ℕ) → (x ≤ result) ↔ IsInQuarter x over width height }
    ensures short { result < 2 ^ 34 }
{
    let radius = width.min(height);
    let past_straight = over.saturating_sub(height - radius);
    if past_straight == 0 {
        return width;
    }
    width - radius + isqrt(u128::from(radius * radius - past_straight * past_straight))
}
