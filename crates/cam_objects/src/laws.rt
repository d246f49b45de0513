//! Laws of layers. Each function does nothing: its contract is a law of what layers mean.

ghost use Rattle.cam_objects.specs.BoxLaws.{CoverBoxLaw, BoxRedrawLaw};
ghost use Rattle.cam_objects.specs.DrillSoundness.{DrillGrowthLaw};
ghost use Rattle.cam_objects.specs.LayerLaws.{AttributeEditLaw, DrillEditLaw, LayerEditLaw, SettingLaw};
ghost use Rattle.cam_objects.specs.Tests.{BoardTestLaw, CoverTestLaw, InsideTestLaw, LastInkLaw, LimitTestLaw, PaintingTestLaw};
ghost use Rattle.cam_objects.specs.Topmost.{TopmostLaw};
ghost use Rattle.cam_objects.specs.Turning.{AfterLaw};

/// One turn after another is the turn whose matrix is the product of theirs.
pub fn turns_follow_their_matrices()
    ensures { AfterLaw }
{}

/// A drill layer stays sound with a sound item more that the limits leave room for, at any place; with a tool more
/// that may be added; without an item; with an item moved that stays on the board; with another sound item in the place
/// of one; with an item taken to another place; and with another diameter of a tool.
pub fn drill_layers_stay_sound()
    ensures growth { DrillGrowthLaw }
    ensures edits { DrillEditLaw }
{}

/// Each place that a leaf covers lies in its box, and so in the box of all leaves of an item.
pub fn covers_lie_in_their_bounds()
    ensures { CoverBoxLaw }
{}

/// Outside the boxes of the items that are taken out and put in, or that go from one place of the list to
/// another, a layer and a drill layer paint what they did.
pub fn edits_stay_in_their_bounds()
    ensures { BoxRedrawLaw }
{}

/// The test of a shape that computes holds exactly of the places that the shape covers.
pub fn tests_tell_covers()
    ensures { CoverTestLaw }
{}

/// Painting leaves in order, each over those before it, makes exactly those places black of which
/// the last leaf that covers them is dark.
pub fn painting_in_order_makes_the_image()
    ensures { PaintingTestLaw }
{}

/// So does looking for the last leaf that covers a place: the place is black exactly where there is one, and it is dark.
pub fn last_leaves_make_the_image()
    ensures { LastInkLaw }
{}

/// A place is black exactly where some item covers it and, of the topmost one that does, the last leaf that covers the
/// place is dark. There is one topmost item at most.
pub fn topmost_items_make_the_image()
    ensures { TopmostLaw }
{}

/// The tests that compute hold exactly of the points that lie on the board, and of the items whose control points do.
pub fn tests_tell_what_is_inside()
    ensures items { InsideTestLaw }
    ensures points { BoardTestLaw }
{}

/// The tests that compute hold exactly where the limits of a layer are kept.
pub fn tests_tell_limits()
    ensures { LimitTestLaw }
{}

/// A layer stays sound with one entry more that may be added, and paints what it painted; with one sound item more
/// that the limits leave room for, at any place; without an item; with an item moved that stays on the board; with
/// another sound item in the place of one, where the limits are kept; and with an item taken to another place.
pub fn layers_stay_sound()
    ensures { LayerEditLaw }
{}

/// No attributes are sound, and the attributes of a layer stay sound with one that may be set, with one of a new name
/// put at any place, without one, and with other fields of one. One that is set keeps the place that its name has; a
/// new name goes last.
pub fn attributes_stay_sound()
    ensures edits { AttributeEditLaw }
    ensures setting { SettingLaw }
{}
