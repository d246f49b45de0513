//! Laws of what apertures cover. Each function does nothing: its contract is a law.

ghost use Rattle.cam_apertures.specs.Laws.{BoxLaw, HoleLaw, TurnLaw};
ghost use Rattle.cam_apertures.specs.Tests.{TestLaw};

/// Each place that an aperture covers, under each of the eight turns, lies in its box.
pub fn covers_lie_in_their_box()
    ensures { BoxLaw }
{}

/// A place is covered under a turn exactly where the place, turned back, is covered without, of
/// apertures without outlines: on an outline's edges ties are decided after it is turned.
pub fn turns_turn_the_cover()
    ensures { TurnLaw }
{}

/// A place in the hole of an aperture is not covered.
pub fn holes_are_not_covered()
    ensures { HoleLaw }
{}

/// The test of apertures that computes holds exactly of the places that are covered.
pub fn test_tells_cover()
    ensures { TestLaw }
{}
