//! What objects have to be, for a layer to take them.

ghost use Rattle.std.specs.Prelude.{◌≡◌};
ghost use Rattle.std.specs.List.{list_all};
ghost use Rattle.cam_objects.specs.Leaves.{meaning_in};
ghost use Rattle.cam_objects.specs.Soundness.{has_number, has_radius, have_radii, is_drawable, is_formed, is_known};

use crate::dictionary::Dictionary;
use crate::object::Object;
use crate::tip::{Tip, round_width};
use cam_shapes::Seg;
use cam_units::Point;

/// Whether each contour has a segment.
pub(crate) fn are_formed(objects: &[Object]) -> bool
    ensures { result ≡ list_all is_formed objects.now }
{
    objects.iter().all(is_formed)
}

pub(crate) fn is_formed(object: &Object) -> bool
    ensures { result ≡ is_formed object.now }
{
    match object {
        Object::Region { contour, .. } => !contour.segs.as_slice().is_empty(),
        _ => true,
    }
}

/// Whether the dictionary has each number.
pub(crate) fn are_known(entries: &Dictionary, objects: &[Object]) -> bool
    ensures { result ≡ list_all (is_known entries.now) objects.now }
{
    objects.iter().all(|object| is_known(entries, object))
}

pub(crate) fn is_known(entries: &Dictionary, object: &Object) -> bool
    ensures { result ≡ is_known entries.now object.now }
{
    match object {
        Object::Flash { aperture, .. }
        | Object::Draw { aperture, .. }
        | Object::Arc { aperture, .. } => has_number(entries, *aperture),
        Object::Region { .. } => true,
    }
}

/// Whether the dictionary has the number.
pub(crate) fn has_number(entries: &Dictionary, number: u32) -> bool
    ensures { result ≡ has_number entries.now number }
{
    match entries.find(number) {
        Some(_) => true,
        None => false,
    }
}

/// Whether each draw is a stroke of a solid circle or of a solid rectangle, and each arc one of a solid circle.
pub(crate) fn are_drawable(entries: &Dictionary, objects: &[Object]) -> bool
    ensures { result ≡ list_all (is_drawable (meaning_in entries.now)) objects.now }
{
    objects.iter().all(|object| is_drawable(entries, object))
}

pub(crate) fn is_drawable(entries: &Dictionary, object: &Object) -> bool
    ensures { result ≡ is_drawable (meaning_in entries.now) object.now }
{
    match object {
        Object::Draw { aperture, .. } => tip(entries, *aperture).is_some(),
        Object::Arc { aperture, .. } => round_width(tip(entries, *aperture)).is_some(),
        _ => true,
    }
}

/// What the strokes of a number are drawn with.
fn tip(entries: &Dictionary, number: u32) -> Option<Tip>
    ensures { result ≡ (meaning_in entries.now number).tip }
{
    match entries.find(number) {
        Some((_, entry)) => entry.tip(),
        None => None,
    }
}

/// Whether no arc starts at its centre.
pub(crate) fn have_radii(objects: &[Object]) -> bool
    ensures { result ≡ list_all has_radius objects.now }
{
    objects.iter().all(has_radius)
}

pub(crate) fn has_radius(object: &Object) -> bool
    ensures { result ≡ has_radius object.now }
{
    match object {
        Object::Arc { from, centre, .. } => from != centre,
        Object::Region { contour, .. } => curves_have_radii(contour.start, contour.segs.as_slice()),
        _ => true,
    }
}

fn curves_have_radii(start: Point, segs: &[Seg]) -> bool
    ensures { result ≡ have_radii start segs.now }
{
    let mut here = start;
    for seg in segs {
        match *seg {
            Seg::Line { to } => here = to,
            Seg::Curve { to, centre, .. } => {
                if here == centre {
                    return false;
                }
                here = to;
            }
        }
    }
    true
}
