//! Shapes of which the runs are known.

ghost use Rattle.std.specs.Prelude.{◌≡◌, length};
ghost use Rattle.cam_units.specs.declared.point.Spot.{Spot};
ghost use Rattle.cam_rows.specs.Runs.{AreFound, AreWideRows};

use crate::centres::Centres;

/// A shape whose runs are known: the columns of a row that it holds are side by side. Sizes and points are in
/// nanometres, centres in half nanometres.
pub trait RunShape {
    /// Whether its sizes and points are within the limits.
    ghost is_sound: { Self → Type 0 };

    /// The places that it holds.
    ghost holds: { Self → Spot → Type 0 };

    /// Finds its columns in the runs of wide rows, one below another from the top one: a run goes from its first column
    /// on and before its end, in up to 32,768 centres. Of the columns that were in a row's run all those are left that
    /// it holds; a column that was not may be found too, where it holds that. So the runs of all columns, from 0 on and
    /// before the count of the centres, become its own.
    fn find(&self, top: &Centres, firsts: &mut [u32], ends: &mut [u32])
        requires sound { is_sound self.now }
        requires rows { AreWideRows top.now (length firsts.old) }
        requires ends { length ends.old ≡ length firsts.old }
        ensures { AreFound firsts.old ends.old top.now (holds self.now) firsts.new ends.new };
}
