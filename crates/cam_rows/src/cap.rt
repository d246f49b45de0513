//! The row of a cap.

ghost use Rattle.std.specs.Prelude.{◌≡◌, IsTrue};
ghost use Rattle.cam_shapes.specs.Cap.{IsSoundCap, is_in_cap, is_on_side};
ghost use Rattle.cam_shapes.specs.Plane.{way};
ghost use Rattle.cam_rows.specs.Rows.{IsRow, Marks};
ghost use Rattle.cam_rows.specs.Runs.{IsWideRow};
ghost use Rattle.cam_rows.specs.Machinery.HalfPlanes.{IsHalfPlaneOf};
ghost use Rattle.cam_rows.specs.Machinery.Ties.{leads_down_or_right};

use crate::centres::Centres;
use crate::half_plane::HalfPlane;
use crate::rows::row_of;
use crate::run_shape::RunShape;
use crate::runs::cap::cap_runs;
use cam_shapes::Cap;

impl RunShape for Cap {
    ghost is_sound = { IsSoundCap };

    ghost holds = { λ c s. IsTrue (is_in_cap s c) };

    #[tactic(auto, using(crate::proofs::FoundRuns::found_anew))]
    fn find(&self, top: &Centres, firsts: &mut [u32], ends: &mut [u32]) {
        cap_runs(self, top, firsts, ends);
    }
}

/// The centres in a cap: those in its circle and on its side of the chord, with the ties of `cam_shapes::in_cap`; none
/// where the row lies above or below the circle. Bit i is that of centre i, from the left; points are in nanometres,
/// the centres in half nanometres.
pub fn cap_row(cap: Cap, centres: Centres) -> u64
    requires cap { IsSoundCap cap }
    requires row { IsRow centres }
    ensures { Marks result centres (λ s. IsTrue (is_in_cap s cap)) }
{
    row_of(&cap, &centres)
}

/// The side of a cap's chord on which the cap lies, with the places of the chord's line that belong to it.
pub(crate) fn side(cap: &Cap, top: &Centres) -> HalfPlane
    requires cap { IsSoundCap cap.now }
    requires row { IsWideRow top.now }
    ensures { IsHalfPlaneOf top.now (λ s. IsTrue (is_on_side s cap.now)) result }
{
    let tie = if leads_down_or_right(cap) { 0 } else { -1 };
    if cap.ccw {
        return HalfPlane::left(&cap.to, &cap.from, -1 - tie, top);
    }
    HalfPlane::left(&cap.from, &cap.to, tie, top)
}

/// Whether a cap's chord leads down, or level to the right.
fn leads_down_or_right(cap: &Cap) -> bool
    requires { IsSoundCap cap.now }
    ensures { result ≡ leads_down_or_right (way cap.now.from cap.now.to) }
{
    let Cap { from, to, .. } = *cap;
    if to.y == from.y {
        return from.x < to.x;
    }
    to.y < from.y
}
