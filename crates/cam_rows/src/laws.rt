//! Laws of the definitions.

ghost use Rattle.cam_rows.specs.ArcRuns.{ArcRunsLaw};

/// An arc's stroke is what its outer runs hold without its hollow ones and those beyond its sweep, and the discs about
/// its ends.
pub fn arc_is_its_runs()
    ensures { ArcRunsLaw }
{}
