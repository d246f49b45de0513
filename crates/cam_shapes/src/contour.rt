//! Contours.

ghost use Rattle.std.specs.Prelude.{◌≡◌, ◌↔◌, All, IsTrue, map};
ghost use Rattle.cam_units.specs.Board.{IsInReach, IsOnBoard};
ghost use Rattle.cam_shapes.specs.Contour.{IsInContour, IsSoundSeg};
ghost use Rattle.cam_shapes.specs.Placing.{IsOffset, IsPlaceable, IsPlaceableSeg, placed_contour, placed_seg};
ghost use Rattle.cam_shapes.specs.Sides.{change_side, changes_side};

use crate::cap::{Cap, in_cap};
use crate::edge::in_edge;
use crate::placing::Placing;
use crate::segments::{Seg, Segments};
use cam_units::{Point, Spot, Turn};

/// A closed line of segments. Where the last one does not end at the start, a straight line
/// closes it.
#[derive(Clone, Debug, Drop)]
pub struct Contour {
    pub start: Point,
    pub segs: Segments,
}

/// Whether the place is in the contour, once the contour is turned about (0, 0) and then moved:
/// the edges that cross the ray going right from the place, and the arcs' caps that hold the
/// place, are odd in number, all together. A mirror reverses the direction of arcs.
pub fn in_contour(spot: Spot, contour: &Contour, turn: Turn, offset: Point) -> bool
    requires spot { IsInReach spot }
    requires contour { IsPlaceable turn offset contour.now }
    ensures { IsTrue result ↔ IsInContour spot (placed_contour turn offset contour.now) }
{
    let placing = Placing { turn, offset };
    is_enclosed(
        spot,
        placing.point(contour.start),
        contour.segs.as_slice(),
        placing,
    )
}

/// Whether the contour's points lie on the board, also once they are turned about (0, 0) and
/// then moved.
pub fn fits_contour(contour: &Contour, turn: Turn, offset: Point) -> bool
    ensures { IsTrue result ↔ IsPlaceable turn offset contour.now }
{
    let placing = Placing { turn, offset };
    if !placing.fits_offset() {
        return false;
    }
    placing.fits_point(contour.start) && placing.fits_segs(contour.segs.as_slice())
}

/// Whether the place is on the other side of the closed line, once its segments are placed.
fn is_enclosed(spot: Spot, start: Point, segs: &[Seg], placing: Placing) -> bool
    requires spot { IsInReach spot }
    requires start { IsOnBoard start }
    requires offset { IsOffset placing.offset }
    requires segs { All (IsPlaceableSeg placing.turn placing.offset) segs.now }
    ensures { result
        ≡ change_side spot start start (map (placed_seg placing.turn placing.offset) segs.now) }
{
    let mut inside = false;
    let mut here = start;
    for seg in segs {
        let placed = placing.seg(*seg);
        inside ^= changes_side(spot, here, placed);
        here = placed.end();
    }
    inside ^ in_edge(spot, here, start)
}

/// Whether the segment from a point changes the side of the place.
fn changes_side(spot: Spot, here: Point, seg: Seg) -> bool
    requires spot { IsInReach spot }
    requires here { IsOnBoard here }
    requires seg { IsSoundSeg seg }
    ensures { result ≡ changes_side spot here seg }
{
    match seg {
        Seg::Line { to } => in_edge(spot, here, to),
        Seg::Curve { to, centre, ccw } => {
            let cap = Cap {
                from: here,
                to,
                centre,
                ccw,
            };
            in_edge(spot, here, to) ^ in_cap(spot, cap)
        }
    }
}
