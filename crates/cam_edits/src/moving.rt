//! Whether items can be moved and moved back: each control point, where it stands and where it is moved to.

ghost use Rattle.std.specs.Prelude.{◌≡◌, ◌↔◌, IsTrue};
ghost use Rattle.cam_objects.specs.Shifting.{IsMove};
ghost use Rattle.cam_shapes.specs.Shifting.{IsShiftable};
ghost use Rattle.cam_edits.specs.Moving.{
  IsMovableDrillItem,
  IsMovableItem,
  IsMovableObject,
  IsMovablePoint,
  IsMovableSeg,
  way,
};

use cam_objects::{DrillItem, Item, Object, Seg};
use cam_shapes::shifted;
use cam_units::Point;

/// The farthest that an item is moved to a side, in nm.
const FARTHEST: u64 = 4_000_000_000;

/// Whether it is not so far that an item of the board would leave it in any case.
pub(crate) fn is_move(by: Point) -> bool
    ensures { IsTrue result ↔ IsMove by }
{
    by.x.unsigned_abs() <= FARTHEST && by.y.unsigned_abs() <= FARTHEST
}

/// The way of a move: `dx` nm to the right and `dy` nm up.
pub(crate) fn way(dx: i64, dy: i64) -> Point
    ensures { result ≡ way dx dy }
{
    Point { x: dx, y: dy }
}

/// Whether the item can be moved by so many nm, and back.
pub(crate) fn can_move_item(item: &Item, by: Point) -> bool
    ensures { IsTrue result ↔ IsShiftable by × IsMovableItem by item.now }
{
    if !is_shiftable(by) {
        return false;
    }
    match item {
        Item::One(object) => can_move_object(object, by),
        Item::Repeat { objects, .. } => objects
            .as_slice()
            .iter()
            .all(|object| can_move_object(object, by)),
    }
}

/// Whether the item of a drill layer can be moved by so many nm, and back.
pub(crate) fn can_move_drill_item(item: &DrillItem, by: Point) -> bool
    ensures { IsTrue result ↔ IsShiftable by × IsMovableDrillItem by item.now }
{
    if !is_shiftable(by) {
        return false;
    }
    match item {
        DrillItem::Hit { at, .. } => can_move_point(*at, by),
        DrillItem::Rout { points, .. } => points
            .as_slice()
            .iter()
            .all(|point| can_move_point(*point, by)),
    }
}

/// Whether the coordinates have sums with those of another such point.
fn is_shiftable(point: Point) -> bool
    ensures { IsTrue result ↔ IsShiftable point }
{
    point.x.unsigned_abs() < 1 << 62 && point.y.unsigned_abs() < 1 << 62
}

fn can_move_point(point: Point, by: Point) -> bool
    requires { IsShiftable by }
    ensures { IsTrue result ↔ IsMovablePoint by point }
{
    is_shiftable(point) && is_shiftable(shifted(point, by))
}

fn can_move_seg(seg: Seg, by: Point) -> bool
    requires { IsShiftable by }
    ensures { IsTrue result ↔ IsMovableSeg by seg }
{
    match seg {
        Seg::Line { to } => can_move_point(to, by),
        Seg::Curve { to, centre, .. } => can_move_point(to, by) && can_move_point(centre, by),
    }
}

fn can_move_object(object: &Object, by: Point) -> bool
    requires { IsShiftable by }
    ensures { IsTrue result ↔ IsMovableObject by object.now }
{
    match object {
        Object::Flash { at, .. } => can_move_point(*at, by),
        Object::Draw { from, to, .. } => can_move_point(*from, by) && can_move_point(*to, by),
        Object::Arc {
            from,
            to,
            centre,
            ..
        } => { can_move_point(*from, by) && can_move_point(*to, by) && can_move_point(*centre, by) }
        Object::Region { contour, .. } => {
            let segs = contour.segs.as_slice();
            can_move_point(contour.start, by) && segs.iter().all(|seg| can_move_seg(*seg, by))
        }
    }
}
