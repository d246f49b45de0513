//! Rows of edges of closed polygons.

ghost use Rattle.std.specs.Prelude.{◌≡◌, IsTrue};
ghost use Rattle.cam_units.specs.Board.{IsOnBoard};
ghost use Rattle.cam_shapes.specs.Edge.{crosses_ray, edge, is_above};
ghost use Rattle.cam_rows.specs.Rows.{IsRow, Marks, first_centre};

use crate::centres::Centres;
use crate::runs::edge::edge_runs;
use crate::runs::run_row;
use cam_units::Point;

/// The row of the edge: bit i is set exactly where the edge crosses the ray that goes right from centre i.
///
/// Where exactly one end of the edge is higher than the centres, these are the centres strictly left of its crossing
/// with their line, as many as one division tells; where both are or none is, the row is 0.
#[tactic(auto, using(crate::proofs::EdgeSides::only_crossed))]
pub fn edge_row(from: Point, to: Point, centres: Centres) -> u64
    requires from { IsOnBoard from }
    requires to { IsOnBoard to }
    requires row { IsRow centres }
    ensures { Marks result centres (λ s. IsTrue (crosses_ray s (edge from to))) }
{
    if is_above(&from, &centres) == is_above(&to, &centres) {
        return 0;
    }
    let mut ends = [0];
    let end = edge_runs(from, to, &centres, &mut ends).unwrap_or(ends[0]);
    run_row(0, end, 0, centres.n)
}

/// Whether the point is higher than the centres.
pub(crate) fn is_above(point: &Point, centres: &Centres) -> bool
    requires { IsOnBoard point.now }
    ensures { result ≡ is_above point.now (first_centre centres.now) }
{
    centres.y < 2 * point.y
}
