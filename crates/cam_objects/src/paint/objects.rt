//! Objects, painted on a canvas from the last one on. Nothing is unfolded.

ghost use Rattle.std.specs.Prelude.{◌≡◌, ◌+◌, ◌≤◌, All, IfSome, length, take};
ghost use Rattle.cam_objects.specs.Canvases.{Paints};
ghost use Rattle.cam_objects.specs.Leaves.{block_leaves, object_leaves};
ghost use Rattle.cam_objects.specs.Machinery.Boxes.{IsSizedTip};
ghost use Rattle.cam_objects.specs.Machinery.ObjectCells.{AreObjectCells};
ghost use Rattle.cam_objects.specs.Machinery.Painting.{IsPrintable, StandsOnBoard, flash_leaves, meaning_before};
ghost use Rattle.cam_objects.specs.Soundness.{IsSoundDictionary};

use crate::canvas::{Canvas, Figure, Print, misses};
use crate::cells::kept::{ItemCells, near_end};
use crate::dictionary::Dictionary;
use crate::entry::Entry;
use crate::object::Object;
use crate::paint::prints::{paint_region, paint_stroke, paint_sweep};
use crate::placing::place::Place;
use crate::tip::{Tip, round_width};
use cam_shapes::Arc;

/// Paints what a flash of the number paints at a place, if its box meets the canvas, and, of a block, if something is left
/// to paint there.
#[cycle(paint)]
fn paint_flash<C: Canvas>(
    entries: &Dictionary,
    upto: usize,
    number: u32,
    place: &Place,
    canvas: &mut C,
)
    requires { IsPrintable entries.now upto upto place.now (flash_leaves upto entries.now number place.now) }
    ensures { Paints C.has C.place C.ink canvas.old (flash_leaves upto entries.now number place.now) canvas.new }
{
    let (at, entry, facts) = match entries.find_with_facts(number) {
        Some(found) => found,
        None => return,
    };
    if upto <= at {
        return;
    }
    let bounds = place.bounds(facts.bounds);
    if misses(canvas, bounds) {
        return;
    }
    match entry {
        Entry::Aperture(aperture) => canvas.paint(Print {
            figure: Figure::Stamp {
                aperture,
                turn: place.turn,
                at: place.offset,
            },
            dark: place.dark,
            bounds,
        }),
        Entry::Block(objects) => {
            if canvas.is_decided_in(bounds) {
                return;
            }
            let cells = Some(entries.cells(at));
            paint_block(entries, at, objects.as_slice(), cells, place, canvas);
        }
    }
}

/// Paints the objects of a block at a place, from the last one on: where their cells are known, those alone whose boxes may
/// meet that of the canvas.
#[cycle(paint)]
pub(crate) fn paint_block<C: Canvas>(
    entries: &Dictionary,
    upto: usize,
    objects: &[Object],
    cells: Option<&ItemCells>,
    place: &Place,
    canvas: &mut C,
)
    requires objects { All StandsOnBoard objects.now }
    requires cells { IfSome cells (λ kept. AreObjectCells (take upto entries.now) objects.now kept.now) }
    requires ready { IsPrintable entries.now upto (upto + 1) place.now
        (block_leaves (meaning_before upto entries.now) place.now objects.now) }
    ensures { Paints C.has C.place C.ink canvas.old
        (block_leaves (meaning_before upto entries.now) place.now objects.now) canvas.new }
{
    let near = place.seen(canvas.bounds());
    let mut end = near_end(cells, objects.len(), near);
    while end > 0 {
        let k = end - 1;
        paint_object(entries, upto, &objects[k], place, canvas);
        end = near_end(cells, k, near);
    }
}

/// Paints an object at a place.
#[cycle(paint)]
pub(crate) fn paint_object<C: Canvas>(
    entries: &Dictionary,
    upto: usize,
    object: &Object,
    place: &Place,
    canvas: &mut C,
)
    requires object { StandsOnBoard object.now }
    requires ready { IsPrintable entries.now upto (upto + 1) place.now
        (object_leaves (meaning_before upto entries.now) place.now object.now) }
    ensures { Paints C.has C.place C.ink canvas.old
        (object_leaves (meaning_before upto entries.now) place.now object.now) canvas.new }
{
    match object {
        Object::Flash {
            aperture,
            at,
            turn,
            dark,
        } => {
            let inner = place.flashed(*at, *turn, *dark);
            paint_flash(entries, upto, *aperture, &inner, canvas);
        }
        Object::Draw {
            aperture,
            from,
            to,
            turn,
            dark,
        } => {
            if let Some(tip) = tip(entries, upto, *aperture) {
                let tip = tip.turned(place.turned(*turn));
                paint_stroke(place, *from, *to, tip, *dark, canvas);
            }
        }
        Object::Arc {
            ccw,
            dark,
            aperture,
            from,
            to,
            centre,
        } => {
            if let Some(width) = round_width(tip(entries, upto, *aperture)) {
                let stroke = Arc {
                    from: *from,
                    to: *to,
                    centre: *centre,
                    ccw: *ccw,
                    width,
                };
                paint_sweep(place, stroke, *dark, canvas);
            }
        }
        Object::Region { contour, dark } => paint_region(place, contour, *dark, canvas),
    }
}

/// What the strokes of a number are drawn with.
fn tip(entries: &Dictionary, upto: usize, number: u32) -> Option<Tip>
    requires within { upto ≤ length entries.now }
    requires sound { IsSoundDictionary entries.now }
    ensures value { result ≡ (meaning_before upto entries.now number).tip }
    ensures size { IfSome result IsSizedTip }
{
    let (at, entry) = match entries.find(number) {
        Some(found) => found,
        None => return None,
    };
    if upto <= at {
        return None;
    }
    entry.tip()
}
