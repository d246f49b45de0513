//! Runs of edges of closed polygons.

ghost use Rattle.std.specs.Prelude.{◌≢◌, ◌<◌, ℕ, IsTrue, length, pos, ◌<ℤ◌};
ghost use Rattle.cam_units.specs.Board.{IsOnBoard};
ghost use Rattle.cam_shapes.specs.Edge.{crosses_ray, edge, is_above};
ghost use Rattle.cam_shapes.specs.Plane.{cross, seen_from, way};
ghost use Rattle.cam_rows.specs.Rows.{first_centre, row_below};
ghost use Rattle.cam_rows.specs.Runs.{AreEnds, AreWideRows, end_in};

use crate::centres::Centres;
use crate::edge::is_above;
use crate::half_plane::HalfPlane;
use cam_units::Point;

/// The runs of an edge in wide rows that it crosses, one below another from the top one: the columns from the leftmost
/// one up to before an end, from which the ray to the right crosses it. Where all rows have one end, as beside a steep
/// edge, it may answer that and write none. The ends of the edge are in nanometres, the centres in half nanometres, up
/// to 32,768 of them in a row. It divides a few times for all rows.
#[tactic(auto, using(crate::proofs::WideRows::top_is_wide))]
pub fn edge_runs(from: Point, to: Point, top: &Centres, ends: &mut [u32]) -> Option<u32>
    requires from { IsOnBoard from }
    requires to { IsOnBoard to }
    requires rows { AreWideRows top.now (length ends.old) }
    requires crossed { (k : ℕ) → k < length ends.old
        → is_above from (first_centre (row_below top.now k)) ≢ is_above to (first_centre (row_below top.now k)) }
    ensures { AreEnds (end_in result ends.new) (length ends.old) top.now (λ s. IsTrue (crosses_ray s (edge from to))) }
{
    if ends.is_empty() {
        return None;
    }
    if is_above(&from, top) {
        runs_left(&to, &from, top, ends)
    } else {
        runs_left(&from, &to, top, ends)
    }
}

/// The runs of the columns strictly left of the line from a point to a higher one, in the same way.
fn runs_left(from: &Point, to: &Point, top: &Centres, ends: &mut [u32]) -> Option<u32>
    requires from { IsOnBoard from.now }
    requires to { IsOnBoard to.now }
    requires rises { from.now.y <ℤ to.now.y }
    requires some { 0 < length ends.old }
    requires rows { AreWideRows top.now (length ends.old) }
    ensures { AreEnds (end_in result ends.new) (length ends.old) top.now
        (λ s. pos 0 <ℤ cross (way from.now to.now) (seen_from from.now s)) }
{
    HalfPlane::left(from, to, -1, top).count_columns(top.n, ends)
}
