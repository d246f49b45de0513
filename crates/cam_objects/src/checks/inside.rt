//! Whether what items paint lies on the board, by the boxes of its control points: a flash of a block costs one box.

ghost use Rattle.std.specs.Prelude.{◌≡◌, ◌*◌, ◌<◌, ◌↔◌, All, IsTrue};
ghost use Rattle.cam_units.specs.Board.{IsOnBoard, IsPlace};
ghost use Rattle.cam_apertures.specs.Primitives.{box_of_point};
ghost use Rattle.cam_objects.specs.Bounds.{box_of_all};
ghost use Rattle.cam_objects.specs.Leaves.{block_leaves, meaning_in, object_leaves, origin};
ghost use Rattle.cam_objects.specs.Machinery.Facts.{points_bounds_of};
ghost use Rattle.cam_objects.specs.Machinery.Inside.{ArePainted, IsBoxOnBoard, box_behind};
ghost use Rattle.cam_objects.specs.Machinery.Painting.{StandsOnBoard};
ghost use Rattle.cam_objects.specs.Soundness.{is_drawable, is_inside, points_of, points_of_contour, points_of_seg};
ghost use Rattle.cam_objects.specs.declared.item.Item.TheVariants.{One, Repeat};

use crate::boxes::placed::moved;
use crate::boxes::shapes::point_bounds;
use crate::dictionary::Dictionary;
use crate::limits::PLACE_LIMIT;
use crate::object::Object;
use crate::placing::copies::Copies;
use crate::placing::place::Place;
use cam_shapes::{Contour, Seg};
use cam_units::{Bounds, Point, Spot, fits_board};

/// Whether the control points lie on the board, as they stand.
fn stands_on_board(object: &Object) -> bool
    ensures { IsTrue result ↔ StandsOnBoard object.now }
{
    match object {
        Object::Flash { at, .. } => fits_board(*at),
        Object::Draw { from, to, .. } => fits_board(*from) && fits_board(*to),
        Object::Arc {
            from,
            to,
            centre,
            ..
        } => fits_board(*from) && fits_board(*to) && fits_board(*centre),
        Object::Region { contour, .. } => {
            fits_board(contour.start) && fit_segs(contour.segs.as_slice())
        }
    }
}

/// Whether the control points of all lie on the board, as they stand.
fn stand_on_board(objects: &[Object]) -> bool
    ensures { IsTrue result ↔ All StandsOnBoard objects.now }
{
    objects.iter().all(stands_on_board)
}

/// Whether the points of the segments lie on the board.
fn fit_segs(segs: &[Seg]) -> bool
    ensures { IsTrue result ↔ All (λ seg. All IsOnBoard (points_of_seg seg)) segs.now }
{
    segs.iter().all(|seg| fits_seg(*seg))
}

/// Whether the points of a segment lie on the board.
fn fits_seg(seg: Seg) -> bool
    ensures { IsTrue result ↔ All IsOnBoard (points_of_seg seg) }
{
    match seg {
        Seg::Line { to } => fits_board(to),
        Seg::Curve { to, centre, .. } => fits_board(to) && fits_board(centre),
    }
}

// ---- boxes

/// The box that holds the points besides.
#[inline(never)]
pub(crate) fn joined_points(bounds: Bounds, points: &[Point]) -> Bounds
    requires { All IsOnBoard points.now }
    ensures { result ≡ box_behind bounds points.now }
{
    let mut all = bounds;
    for point in points {
        all = all.joined(point_bounds(point));
    }
    all
}

/// The box of the points of a contour.
fn contour_box(contour: &Contour) -> Bounds
    requires { All IsOnBoard (points_of_contour contour.now) }
    ensures { result ≡ box_of_all box_of_point (points_of_contour contour.now) }
{
    let mut all = point_bounds(&contour.start);
    for seg in contour.segs.as_slice() {
        all = match seg {
            Seg::Line { to } => joined_points(all, &[*to]),
            Seg::Curve { to, centre, .. } => joined_points(all, &[*to, *centre]),
        };
    }
    all
}

/// The box of the control points as they stand.
pub(crate) fn standing_box(object: &Object) -> Bounds
    requires { StandsOnBoard object.now }
    ensures { result ≡ box_of_all box_of_point (points_of object.now) }
{
    match object {
        Object::Flash { at, .. } => joined_points(Bounds::Empty, &[*at]),
        Object::Draw { from, to, .. } => joined_points(Bounds::Empty, &[*from, *to]),
        Object::Arc {
            from,
            to,
            centre,
            ..
        } => joined_points(Bounds::Empty, &[*from, *to, *centre]),
        Object::Region { contour, .. } => contour_box(contour),
    }
}

/// The box of the control points of all, as they stand.
pub(crate) fn standing_boxes(objects: &[Object]) -> Bounds
    requires { All StandsOnBoard objects.now }
    ensures { result ≡ box_of_all (λ o. box_of_all box_of_point (points_of o)) objects.now }
{
    let mut all = Bounds::Empty;
    for object in objects {
        all = all.joined(standing_box(object));
    }
    all
}

/// The box of the control points of what an object paints.
pub(crate) fn painted_box(entries: &Dictionary, object: &Object) -> Bounds
    requires stands { StandsOnBoard object.now }
    requires drawable { IsTrue (is_drawable (meaning_in entries.now) object.now) }
    ensures { result ≡ points_bounds_of (object_leaves (meaning_in entries.now) origin object.now) }
{
    match object {
        Object::Flash {
            aperture,
            at,
            turn,
            dark,
        } => {
            let place = Place::origin().flashed(*at, *turn, *dark);
            place.bounds(entries.facts(*aperture).points)
        }
        _ => standing_box(object),
    }
}

/// The box of the control points of what the objects of a block paint.
pub(crate) fn painted_boxes(entries: &Dictionary, objects: &[Object]) -> Bounds
    requires { ArePainted entries.now objects.now }
    ensures { result ≡ points_bounds_of (block_leaves (meaning_in entries.now) origin objects.now) }
{
    let mut all = Bounds::Empty;
    for object in objects {
        all = all.joined(painted_box(entries, object));
    }
    all
}

/// Whether both corners lie on the board.
pub(crate) fn fits_box(bounds: &Bounds) -> bool
    ensures { IsTrue result ↔ IsBoxOnBoard bounds.now }
{
    match bounds {
        Bounds::Empty => true,
        Bounds::Closed { low, high } => is_place(*low) && is_place(*high),
    }
}

/// Whether a spot is a place of the board.
pub fn is_place(spot: Spot) -> bool
    ensures { IsTrue result ↔ IsPlace spot }
{
    spot.x.unsigned_abs() < PLACE_LIMIT && spot.y.unsigned_abs() < PLACE_LIMIT
}

// ---- items

/// Whether the object, as an item, lies on the board with all its leaves.
pub(crate) fn is_object_inside(entries: &Dictionary, object: &Object) -> bool
    requires { IsTrue (is_drawable (meaning_in entries.now) object.now) }
    ensures { result ≡ is_inside entries.now (One object.now) }
{
    if !stands_on_board(object) {
        return false;
    }
    fits_box(&painted_box(entries, object))
}

/// Whether the repeat lies on the board with all its leaves, and its steps are short.
pub(crate) fn is_repeat_inside(entries: &Dictionary, copies: &Copies, objects: &[Object]) -> bool
    requires drawable { All (λ o. IsTrue (is_drawable (meaning_in entries.now) o)) objects.now }
    requires copies { 1 < copies.now.columns * copies.now.rows }
    ensures { result
        ≡ is_inside entries.now (Repeat copies.now.columns copies.now.rows copies.now.i copies.now.j objects.now) }
{
    if !stand_on_board(objects) {
        return false;
    }
    if !copies.are_short() {
        return false;
    }
    let one = painted_boxes(entries, objects);
    if !fits_box(&one) {
        return false;
    }
    fits_box(&moved(one, copies.last()))
}
