//! The boxes of what items paint, in half nm, and the items of which a box encloses them.

ghost use Rattle.std.specs.Prelude.{[], ◌∷◌, ◌≡◌, ◌≤◌, ◌<◌, ◌+ℤ◌, ◌≤ℤ◌, ◌↔◌, IfSome, IsTrue, map, pos};
ghost use Rattle.std.specs.Int.RustNames.{unsigned_abs};
ghost use Rattle.cam_units.specs.Board.{IsOnBoard, IsSize};
ghost use Rattle.cam_shapes.specs.Arc.{IsSoundArc};
ghost use Rattle.cam_shapes.specs.Plane.{place_of, way};
ghost use Rattle.cam_objects.specs.Bounds.{bounds_of, box_of_all};
ghost use Rattle.cam_objects.specs.Enclosed.{FindsEnclosed, IsEnclosed};
ghost use Rattle.cam_objects.specs.Leaves.{item_leaves, meaning_in, round_width, solid_tip};
ghost use Rattle.cam_objects.specs.Soundness.{HasSoundItems, IsSoundDictionary, IsSoundItem};
ghost use Rattle.cam_ask.specs.Painted.{
  arc_box,
  axis_box,
  ceiling_of,
  down,
  floor_of,
  is_passed,
  left,
  painted_box,
  passed_box,
  pen_box,
  reach_of,
  right,
  up,
};

use cam_apertures::Aperture;
use cam_objects::{Dictionary, Entry, Item, Layer, Object, is_enclosed, squared_length};
use cam_shapes::{Arc, in_arc};
use cam_units::{Bounds, Nm, Point, Spot, isqrt};

/// How far from the origin along an axis, in half nm, no place is pointed at.
const REACH: u64 = 4_000_000_000;

/// The length of a way, rounded down and up to half nm.
#[derive(Clone, Copy)]
struct Length {
    floor: u64,
    ceiling: u64,
}

/// The length of the way from one point to another.
fn rounded_length(from: Point, to: Point) -> Length
    requires from { IsOnBoard from }
    requires to { IsOnBoard to }
    ensures floor { result.floor ≡ floor_of (way from to) }
    ensures ceiling { result.ceiling ≡ ceiling_of (way from to) }
    ensures order { result.floor ≤ result.ceiling }
    ensures short { result.ceiling ≤ 5700000000 }
{
    let square = squared_length(&from, &to);
    let floor = isqrt(square);
    let root = u128::from(floor);
    if root * root == square {
        return Length {
            floor,
            ceiling: floor,
        };
    }
    Length {
        floor,
        ceiling: floor + 1,
    }
}

/// How far an arc reaches beyond its line.
fn reach(arc: Arc) -> i64
    requires { IsSoundArc arc }
    ensures value { result ≡ reach_of arc }
    ensures some { pos 0 ≤ℤ result }
    ensures few { result ≤ℤ pos 6000000000 }
{
    let start = rounded_length(arc.centre, arc.from);
    let end = rounded_length(arc.centre, arc.to);
    let slack = start.ceiling.max(end.ceiling) - start.floor.min(end.floor);
    arc.width.0 + slack as i64
}

/// The square about a place of an arc.
fn pen_bounds(arc: Arc, reach: i64, at: Spot) -> Bounds
    requires reach { reach ≡ reach_of arc }
    requires some { pos 0 ≤ℤ reach }
    requires few { reach ≤ℤ pos 6000000000 }
    requires x { unsigned_abs at.x ≤ 8000000000 }
    requires y { unsigned_abs at.y ≤ 8000000000 }
    ensures { result ≡ pen_box arc at }
{
    Bounds::Closed {
        low: Spot {
            x: at.x - reach,
            y: at.y - reach,
        },
        high: Spot {
            x: at.x + reach,
            y: at.y + reach,
        },
    }
}

/// The place of a point.
fn place(point: Point) -> Spot
    requires { IsOnBoard point }
    ensures value { result ≡ place_of point }
    ensures x { unsigned_abs result.x ≤ 2000000000 }
    ensures y { unsigned_abs result.y ≤ 2000000000 }
{
    Spot {
        x: 2 * point.x,
        y: 2 * point.y,
    }
}

/// A place, moved so far along x and y.
fn moved(at: Spot, x: i64, y: i64) -> Spot
    requires at_x { unsigned_abs at.x ≤ 2000000000 }
    requires at_y { unsigned_abs at.y ≤ 2000000000 }
    requires x { unsigned_abs x ≤ 5700000000 }
    requires y { unsigned_abs y ≤ 5700000000 }
    ensures x { result.x ≡ at.x +ℤ x }
    ensures y { result.y ≡ at.y +ℤ y }
{
    Spot {
        x: at.x + x,
        y: at.y + y,
    }
}

/// Whether an arc passes a place of its circle.
fn is_passed(arc: Arc, at: Spot) -> bool
    requires { IsSoundArc arc }
    ensures { result ≡ is_passed arc at }
{
    if at.x.unsigned_abs() >= REACH || at.y.unsigned_abs() >= REACH {
        return true;
    }
    in_arc(
        at,
        Arc {
            width: Nm(1),
            ..arc
        },
    )
}

/// The square about a place of the circle, where the arc passes it.
fn passed_bounds(arc: Arc, reach: i64, at: Spot) -> Bounds
    requires sound { IsSoundArc arc }
    requires reach { reach ≡ reach_of arc }
    requires some { pos 0 ≤ℤ reach }
    requires few { reach ≤ℤ pos 6000000000 }
    requires x { unsigned_abs at.x ≤ 8000000000 }
    requires y { unsigned_abs at.y ≤ 8000000000 }
    ensures { result ≡ passed_box arc at }
{
    if is_passed(arc, at) {
        pen_bounds(arc, reach, at)
    } else {
        Bounds::Empty
    }
}

/// The box of the places of the circle straight to the right, above, to the left and below of the centre that the arc passes.
fn axis_bounds(arc: Arc, reach: i64) -> Bounds
    requires sound { IsSoundArc arc }
    requires reach { reach ≡ reach_of arc }
    requires some { pos 0 ≤ℤ reach }
    requires few { reach ≤ℤ pos 6000000000 }
    ensures { result ≡ box_of_all (axis_box arc) (right ∷ up ∷ left ∷ down ∷ []) }
{
    let radius = rounded_length(arc.centre, arc.from).floor as i64;
    let centre = place(arc.centre);
    passed_bounds(arc, reach, moved(centre, radius, 0))
        .joined(passed_bounds(arc, reach, moved(centre, 0, radius)))
        .joined(passed_bounds(arc, reach, moved(centre, -radius, 0)))
        .joined(passed_bounds(arc, reach, moved(centre, 0, -radius)))
}

/// The box of what an arc paints.
fn arc_bounds(arc: Arc) -> Bounds
    requires { IsSoundArc arc }
    ensures { result ≡ arc_box arc }
{
    let reach = reach(arc);
    let start = pen_bounds(arc, reach, place(arc.from));
    let end = pen_bounds(arc, reach, place(arc.to));
    start.joined(end).joined(axis_bounds(arc, reach))
}

/// How wide the strokes of an aperture are; arcs are drawn with a solid circle alone.
fn stroke_width(aperture: &Aperture) -> Option<Nm>
    ensures { result ≡ round_width (solid_tip aperture.now) }
{
    match aperture {
        Aperture::Circle { diameter, hole } if hole.0 == 0 => Some(*diameter),
        _ => None,
    }
}

/// How wide the arcs of a number are.
fn width(entries: &Dictionary, number: u32) -> Option<Nm>
    requires { IsSoundDictionary entries.now }
    ensures value { result ≡ round_width (meaning_in entries.now number).tip }
    ensures size { IfSome result (λ width. IsSize width.0) }
{
    let (_, entry) = match entries.find(number) {
        Some(found) => found,
        None => return None,
    };
    match entry {
        Entry::Aperture(aperture) => stroke_width(aperture),
        Entry::Block(_) => None,
    }
}

/// The box of what a sound item paints, by its box.
fn painted(bounds: Bounds, entries: &Dictionary, item: &Item) -> Bounds
    requires item { IsSoundItem entries.now item.now }
    requires bounds { bounds ≡ bounds_of (item_leaves (meaning_in entries.now) item.now) }
    ensures { result ≡ painted_box (meaning_in entries.now) item.now }
{
    entries.soundness();
    let Item::One(object) = item else {
        return bounds;
    };
    match object {
        Object::Arc {
            ccw,
            aperture,
            from,
            to,
            centre,
            ..
        } => match width(entries, *aperture) {
            Some(width) => bounds.clipped(arc_bounds(Arc {
                from: *from,
                to: *to,
                centre: *centre,
                ccw: *ccw,
                width,
            })),
            None => Bounds::Empty,
        },
        Object::Flash { .. } | Object::Draw { .. } | Object::Region { .. } => bounds,
    }
}

/// Whether an item of this box paints something, and all of it in another box. Most items lie apart from that, by their boxes
/// alone; what an arc paints takes more to find.
fn is_painted_in(bounds: Bounds, entries: &Dictionary, item: &Item, outer: Bounds) -> bool
    requires item { IsSoundItem entries.now item.now }
    requires bounds { bounds ≡ bounds_of (item_leaves (meaning_in entries.now) item.now) }
    ensures { IsTrue result ↔ IsEnclosed (painted_box (meaning_in entries.now) item.now) outer }
{
    bounds.meets(outer) && is_enclosed(painted(bounds, entries, item), outer)
}

/// The place of the next item, from one on, of which the box of what it paints lies in a box, edges included.
pub fn next_enclosed(layer: &Layer, outer: Bounds, from: usize) -> Option<usize>
    requires { HasSoundItems layer.now }
    ensures { FindsEnclosed (map (painted_box (meaning_in layer.now.apertures)) layer.now.items.items) outer from result }
{
    let mut boxes = layer.boxes();
    let items = layer.items();
    for place in from..items.len() {
        let bounds = boxes.read(place);
        if is_painted_in(bounds, layer.entries(), &items[place], outer) {
            return Some(place);
        }
    }
    None
}
