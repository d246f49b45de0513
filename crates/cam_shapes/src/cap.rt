//! Caps of arcs.

ghost use Rattle.std.specs.Prelude.{◌≡◌};
ghost use Rattle.cam_units.specs.Board.{IsInReach};
ghost use Rattle.cam_shapes.specs.Plane.{IsShort};
ghost use Rattle.cam_shapes.specs.Cap.{IsSoundCap, is_in_cap, is_in_circle, is_left_of_chord};

use crate::vector::Vector;
use cam_units::{Point, Spot};

/// What an arc of a contour adds to its chord or takes from it: the disc about the centre
/// through the arc's start, cut by the chord from start to end. It is the part right of the
/// chord where `ccw` says that the arc is counterclockwise, else the part left of it, and the
/// whole disc where the arc ends at its start.
#[derive(Clone, Copy, Debug, PartialEq, Eq)]
pub struct Cap {
    pub from: Point,
    pub to: Point,
    pub centre: Point,
    pub ccw: bool,
}

/// Whether the place is in the cap.
///
/// On the circle it is where its x is less than the centre's, or the same and its y is less. On
/// the chord's line it is left where the chord leads down, or level to the right, and else right.
pub fn in_cap(spot: Spot, cap: Cap) -> bool
    requires spot { IsInReach spot }
    requires cap { IsSoundCap cap }
    ensures { result ≡ is_in_cap spot cap }
{
    let Cap {
        from,
        to,
        centre,
        ccw,
    } = cap;
    if !is_in_circle(
        Vector::between(centre, from),
        Vector::seen_from(centre, spot),
    ) {
        return false;
    }
    from == to || is_left_of_chord(Vector::between(from, to), Vector::seen_from(from, spot)) != ccw
}

/// Whether a place is in the circle about the centre through the start; both are seen from there.
fn is_in_circle(start: Vector, seen: Vector) -> bool
    requires start { IsShort start }
    requires seen { IsShort seen }
    ensures { result ≡ is_in_circle start seen }
{
    let circle = start.dot(start);
    let place = seen.dot(seen);
    if place != circle {
        return place < circle;
    }
    seen.x < 0 || seen.x == 0 && seen.y < 0
}

/// Whether a place, seen from the chord's start, is left of the chord.
fn is_left_of_chord(chord: Vector, seen: Vector) -> bool
    requires chord { IsShort chord }
    requires seen { IsShort seen }
    ensures { result ≡ is_left_of_chord chord seen }
{
    let side = chord.cross(seen);
    if side != 0 {
        return side > 0;
    }
    chord.y < 0 || chord.y == 0 && chord.x > 0
}
