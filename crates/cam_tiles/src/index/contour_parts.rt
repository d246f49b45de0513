//! The heights of long contours, by their parts: found once for all rows of tiles that the contours reach.

ghost use Rattle.std.specs.Prelude.{◌≡◌, ◌≤◌, All, IfOk, IfSome, IsTrue, length, map};
ghost use Rattle.cam_units.specs.Board.{IsOnBoard};
ghost use Rattle.cam_units.specs.declared.point.Spot.{Spot};
ghost use Rattle.cam_shapes.specs.Contour.{IsSoundSeg};
ghost use Rattle.cam_shapes.specs.Sides.{changes_side};
ghost use Rattle.cam_tiles.specs.Machinery.Indexes.{IsBoxed};
ghost use Rattle.cam_tiles.specs.Machinery.Masks.{IsWithin};
ghost use Rattle.cam_tiles.specs.Machinery.Parts.{AreHeightsOf, ChangeWithin, IsPartsOf, IsSoundContour, bare};
ghost use Rattle.cam_tiles.specs.Machinery.Shown.{IsReady, leaves_by_item};

use crate::index::Boxed;
use crate::masks::heights::{HasHeights, Heights, crossed_heights};
use crate::masks::parts::{PART_SIZE, end_from, split_part};
use crate::shown::Shown;
use cam_shapes::{Cap, Contour, Seg};
use cam_units::Point;
use std::alloc::{AllocError, Global};

/// The heights of the parts of a region's contour, and the place of its item in the list.
#[derive(Drop)]
pub(crate) struct ContourParts {
    pub(super) place: u32,
    pub(super) heights: Vec<Heights>,
}

impl ContourParts {
    /// Those of the contour of the item at a place.
    fn of(alloc: Global, place: u32, contour: &Contour) -> Result<ContourParts, AllocError>
        requires { IsSoundContour contour.now }
        ensures place { IfOk result (λ parts. parts.place ≡ place) }
        ensures heights { IfOk result (λ parts. AreHeightsOf contour.now.start contour.now.segs parts.heights.items) }
    {
        let mut here = contour.start;
        let mut rest = contour.segs.as_slice();
        let mut heights = Vec::with_capacity(alloc, rest.len().div_ceil(PART_SIZE))?;
        while !rest.is_empty() {
            let (part, behind) = split_part(rest);
            heights.push(part_heights(here, part))?;
            here = end_from(here, part);
            rest = behind;
        }
        Ok(ContourParts { place, heights })
    }
}

/// The heights of segments from a point, all together.
fn part_heights(from: Point, part: &[Seg]) -> Heights
    requires from { IsOnBoard from }
    requires part { All IsSoundSeg part.now }
    ensures { ChangeWithin result from part.now }
{
    let mut here = from;
    let mut heights = Heights::NONE;
    for seg in part {
        heights = heights.joined(segment_heights(here, *seg));
        here = seg.end();
    }
    heights
}

/// The heights of a segment from a point: those of a line, or of a curve and of its cap.
fn segment_heights(from: Point, seg: Seg) -> Heights
    requires from { IsOnBoard from }
    requires seg { IsSoundSeg seg }
    ensures { (s : Spot) → IsTrue (changes_side s from seg) → IsWithin result s }
{
    match seg {
        Seg::Line { to } => crossed_heights(from, to),
        Seg::Curve { to, centre, ccw } => {
            let cap = Cap {
                from,
                to,
                centre,
                ccw,
            };
            let line = crossed_heights(from, to);
            let curve = cap.heights();
            line.joined(curve)
        }
    }
}

/// How many segments a contour has at least to be gone through by its parts.
const LONG_CONTOUR: usize = 2 * PART_SIZE;

/// The parts of the contour of an item that is a region with a long one, if it reaches two rows of tiles or more.
fn parts_of(
    alloc: Global,
    shown: &Shown<'_>,
    item: &Boxed,
) -> Result<Option<ContourParts>, AllocError>
    requires ready { IsReady shown.now }
    requires item { IsBoxed (leaves_by_item shown.now) item.now }
    ensures { IfOk result (λ found. IfSome found (IsPartsOf (leaves_by_item shown.now))) }
{
    if item.rows.end.saturating_sub(item.rows.first) < 2 {
        return Ok(None);
    }
    let Some((contour, _)) = shown.region(item.place as usize) else {
        return Ok(None);
    };
    if contour.segs.as_slice().len() < LONG_CONTOUR {
        return Ok(None);
    }
    let parts = ContourParts::of(alloc, item.place, contour)?;
    Ok(Some(parts))
}

/// The parts of the long contours among items; each item that has one is told its number.
pub(super) fn contours_of(
    alloc: Global,
    shown: &Shown<'_>,
    boxed: &mut [Boxed],
) -> Result<Vec<ContourParts>, AllocError>
    requires ready { IsReady shown.now }
    requires few { length boxed.old ≤ 1000000 }
    requires boxed { All (IsBoxed (leaves_by_item shown.now)) boxed.old }
    ensures parts { IfOk result (λ contours. All (IsPartsOf (leaves_by_item shown.now)) contours.items) }
    ensures kept { map bare boxed.new ≡ map bare boxed.old }
{
    let mut contours = Vec::new(alloc);
    for k in 0..boxed.len() {
        if let Some(parts) = parts_of(alloc, shown, &boxed[k])? {
            boxed[k].contour = contours.len() as u32;
            contours.push(parts)?;
        }
    }
    Ok(contours)
}
