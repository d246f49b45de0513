//! Laws of the definitions.

ghost use Rattle.cam_units.specs.Nearest.{NearestLaw};
ghost use Rattle.cam_units.specs.Turns.{ThenLaw, AssociativeLaw, InverseLaw, QuartersLaw};

/// Exactly one whole number is nearest to a quotient, where ties go away from zero.
pub fn nearest_is_nearest()
    ensures { NearestLaw }
{}

/// A product of turns moves each point as one turn after the other does.
pub fn then_is_apply_after_apply()
    ensures { ThenLaw }
{}

/// Of three turns in a row, any two neighbours may be joined first.
pub fn turns_associate()
    ensures { AssociativeLaw }
{}

/// Each turn is taken back by one turn.
pub fn turns_have_inverses()
    ensures { InverseLaw }
{}

/// The eight turns differ, and each quarter is one turn by 90 degrees more.
pub fn turns_go_by_quarters()
    ensures { QuartersLaw }
{}
