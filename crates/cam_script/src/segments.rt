//! The segments of contours and the points of routs.

ghost use Rattle.std.specs.Prelude.{◌≡◌, ◌<◌, ◌≤◌, ◌∷◌, [], IfErr, IfNone, IfOk, IfSome, None, Some, length};
ghost use Rattle.std.specs.Option.{option_map};
ghost use Rattle.cam_script.specs.Items.{curve_seg, joined, line_seg, points_in, segs_in};

use crate::line::LineFault;
use crate::marks::{direction, is_line};
use crate::numbers::point;
use crate::words::Words;
use cam_objects::Points;
use cam_shapes::{Seg, Segments};
use cam_units::Point;
use std::alloc::Global;

/// A straight segment to a point.
fn line_seg(to: (&[u8], &[u8])) -> Option<Seg>
    ensures { result ≡ line_seg to.entry.0.now to.entry.1.now }
{
    let to = point(to)?;
    Some(Seg::Line { to })
}

/// An arc to a point about a centre.
fn curve_seg(form: &[u8], to: (&[u8], &[u8]), centre: (&[u8], &[u8])) -> Option<Seg>
    ensures { result ≡ curve_seg form.now to.entry.0.now to.entry.1.now
        centre.entry.0.now centre.entry.1.now }
{
    let ccw = direction(form)?;
    let to = point(to)?;
    let centre = point(centre)?;
    Some(Seg::Curve { to, centre, ccw })
}

/// The segment of a form and of the words behind it, which are taken.
fn seg_behind(form: &[u8], words: &mut Words<'_>) -> Option<Seg>
    ensures some { IfSome result (λ seg.
        segs_in (form.now ∷ words.old) ≡ joined (Some seg) (segs_in words.new)) }
    ensures none { IfNone result (segs_in (form.now ∷ words.old) ≡ None) }
    ensures taken { length words.new ≤ length words.old }
{
    let to = words.next_two()?;
    if is_line(form) {
        return line_seg(to);
    }
    let centre = words.next_two()?;
    curve_seg(form, to, centre)
}

/// Takes the next segment.
fn next_seg(words: &mut Words<'_>) -> Option<Seg>
    ensures some { IfSome result (λ seg.
        segs_in words.old ≡ joined (Some seg) (segs_in words.new)) }
    ensures none { IfNone result (IfSome (segs_in words.old) (λ segs. segs ≡ [])) }
    ensures taken { IfSome result (λ _. length words.new < length words.old) }
{
    let form = words.next()?;
    seg_behind(form, words)
}

/// How many segments the words are, if they are segments.
pub fn count_segments(words: &Words<'_>) -> Option<usize>
    ensures { result ≡ option_map length (segs_in words.now) }
{
    let mut rest = words.again();
    let mut count = 0;
    while let Some(form) = rest.next() {
        let _seg = seg_behind(form, &mut rest)?;
        count += 1;
    }
    Some(count)
}

/// Takes the segments that the words are.
pub fn take_segments(
    alloc: Global,
    words: &mut Words<'_>,
    count: usize,
) -> Result<Segments, LineFault>
    requires { option_map length (segs_in words.old) ≡ Some count }
    ensures ok { IfOk result (λ segs. segs_in words.old ≡ Some segs) }
    ensures err { IfErr result (λ fault. fault ≡ LineFault.Memory) }
{
    let Ok(mut segs) = Vec::with_capacity(alloc, count) else {
        return Err(LineFault::Memory);
    };
    while let Some(seg) = next_seg(words) {
        let Ok(()) = segs.push(seg) else {
            return Err(LineFault::Memory);
        };
    }
    Ok(Segments::from_vec(segs))
}

/// The point of a first word and of the word behind it, which is taken.
fn point_behind(x: &[u8], words: &mut Words<'_>) -> Option<Point>
    ensures some { IfSome result (λ point.
        points_in (x.now ∷ words.old) ≡ joined (Some point) (points_in words.new)) }
    ensures none { IfNone result (points_in (x.now ∷ words.old) ≡ None) }
    ensures taken { length words.new ≤ length words.old }
{
    let y = words.next()?;
    point((x, y))
}

/// Takes the next point.
fn next_point(words: &mut Words<'_>) -> Option<Point>
    ensures some { IfSome result (λ point.
        points_in words.old ≡ joined (Some point) (points_in words.new)) }
    ensures none { IfNone result (IfSome (points_in words.old) (λ points. points ≡ [])) }
    ensures taken { IfSome result (λ _. length words.new < length words.old) }
{
    let x = words.next()?;
    point_behind(x, words)
}

/// How many points the words are, if they are points.
pub fn count_points(words: &Words<'_>) -> Option<usize>
    ensures { result ≡ option_map length (points_in words.now) }
{
    let mut rest = words.again();
    let mut count = 0;
    while let Some(x) = rest.next() {
        let _point = point_behind(x, &mut rest)?;
        count += 1;
    }
    Some(count)
}

/// Takes the points that the words are.
pub fn take_points(alloc: Global, words: &mut Words<'_>, count: usize) -> Result<Points, LineFault>
    requires { option_map length (points_in words.old) ≡ Some count }
    ensures ok { IfOk result (λ points. points_in words.old ≡ Some points) }
    ensures err { IfErr result (λ fault. fault ≡ LineFault.Memory) }
{
    let Ok(mut points) = Vec::with_capacity(alloc, count) else {
        return Err(LineFault::Memory);
    };
    while let Some(point) = next_point(words) {
        let Ok(()) = points.push(point) else {
            return Err(LineFault::Memory);
        };
    }
    Ok(Points::from_vec(points))
}
