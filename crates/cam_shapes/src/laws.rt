//! Laws of the definitions.

ghost use Rattle.cam_shapes.specs.Arc.{ArcSquareLaw, CircleDistanceLaw, CircleFormsLaw};
ghost use Rattle.cam_shapes.specs.Cap.{CapSquareLaw};
ghost use Rattle.cam_shapes.specs.Contour.{ContourBoxLaw};
ghost use Rattle.cam_shapes.specs.Edge.{CrossingLaw};
ghost use Rattle.cam_shapes.specs.Swept.{SweptAxisLaw, SweptBoxLaw, SweptEndsLaw, SweptTurnLaw, SweptWayLaw};
ghost use Rattle.cam_shapes.specs.Tests.{TestsLaw};

/// A place near a circle is so by its distance from the centre.
pub fn circle_is_near_by_distance()
    ensures { CircleDistanceLaw }
{}

/// The inequality of an arc stroke has two forms.
pub fn circle_forms_agree()
    ensures { CircleFormsLaw }
{}

/// A place in an arc stroke lies in a square about the centre or in a disc about an end.
pub fn arc_is_in_its_square()
    ensures { ArcSquareLaw }
{}

/// An edge crosses the ray that goes right from a place exactly where it lies strictly right of
/// the place, at the place's height.
pub fn edge_lies_right()
    ensures { CrossingLaw }
{}

/// A place in a contour lies in each box of the contour's points, or in the cap of an arc.
pub fn contour_is_in_its_box()
    ensures { ContourBoxLaw }
{}

/// A place in a cap lies in a square about the centre.
pub fn cap_is_in_its_square()
    ensures { CapSquareLaw }
{}

/// The rectangle at either end of a line lies in its stroke along the line; of a line of length 0
/// the stroke is the rectangle.
pub fn swept_holds_its_ends()
    ensures { SweptEndsLaw }
{}

/// The stroke of a rectangle along an axis is the box of both ends, widened by the sides.
pub fn swept_along_an_axis_is_its_box()
    ensures { SweptAxisLaw }
{}

/// The stroke of a rectangle lies in each box that holds the rectangles at its ends.
pub fn swept_is_in_its_box()
    ensures { SweptBoxLaw }
{}

/// The stroke of a rectangle along a line is all that the rectangle passes on its way.
pub fn swept_is_all_that_is_passed()
    ensures { SweptWayLaw }
{}

/// Each of the eight turns of a rectangle's stroke turns what it covers.
pub fn swept_turns()
    ensures { SweptTurnLaw }
{}

/// The tests of shapes that compute tell exactly the places of the shapes.
pub fn tests_tell_shapes()
    ensures { TestsLaw }
{}
