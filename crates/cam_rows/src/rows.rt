//! Rows of up to 64 centres, by the runs of shapes.

ghost use Rattle.cam_rows.specs.Rows.{IsRow, Marks};

use crate::centres::Centres;
use crate::run_shape::RunShape;
use crate::runs::run_row;

/// The row of a shape: the bits of its run.
pub(crate) fn row_of<S: RunShape>(shape: &S, centres: &Centres) -> u64
    requires sound { S.is_sound shape.now }
    requires row { IsRow centres.now }
    ensures { Marks result centres.now (S.holds shape.now) }
{
    let mut firsts = [0];
    let mut ends = [centres.n];
    shape.find(centres, &mut firsts, &mut ends);
    run_row(firsts[0], ends[0], 0, centres.n)
}
