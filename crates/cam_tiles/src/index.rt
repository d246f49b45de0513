//! What of a layer a redraw may show: the items that may be seen in a box, and which of them reach each row of tiles.

pub(crate) mod contour_parts;
mod row_lists;
mod seen;

ghost use Rattle.std.specs.Prelude.{◌≡◌, ◌↔◌, ◌+◌, ◌<◌, ◌≤◌, ◌≤ℤ◌, ◌∷◌, ℕ, [], All, IfNone, IfOk, IfSome, IsTrue, OnOk, length, map, reverse, slice_index_or, true};
ghost use Rattle.cam_units.specs.Boxes.{Holds};
ghost use Rattle.cam_units.specs.declared.point.Spot.{Spot};
ghost use Rattle.cam_objects.specs.Leaves.{Filled, leaf};
ghost use Rattle.cam_tiles.specs.Machinery.Indexes.{IsBoxed, IsBoxOf, IsIndexOf, IsSeen, numbered_leaves};
ghost use Rattle.cam_tiles.specs.Machinery.Parts.{IsParted, IsPartsOf, bare};
ghost use Rattle.cam_tiles.specs.Machinery.RowLists.{AreListed, reaches};
ghost use Rattle.cam_tiles.specs.Machinery.Shown.{IsReady, leaves_by_item, leaves_of};
ghost use Rattle.cam_tiles.specs.Machinery.Swaths.{HasRowOf, IsInSwath, PaintsSwath, place_in};
ghost use Rattle.cam_tiles.specs.Picture.{accepts};
ghost use Rattle.cam_tiles.specs.Tiles.{tiles_of};

use crate::index::contour_parts::{ContourParts, contours_of};
use crate::index::row_lists::RowLists;
use crate::index::seen::Seen;
use crate::masks::parts::PartedContour;
use crate::masks::swath::Swath;
use crate::shown::Shown;
use crate::span::Span;
use crate::window::Window;
use cam_apertures::has_place;
use cam_objects::Canvas;
use cam_units::{Bounds, Spot};
use std::alloc::{AllocError, Global};
use std::mem::size_of;

/// An item that may be seen: its place in the list, the rows of tiles that its box reaches, the number of its contour among
/// those whose parts are known, and the corners of the box, in half nm.
// In this order of the fields it has 48 bytes: those of a row of tiles are gone through each time that it is painted.
#[derive(Clone, Copy)]
pub(crate) struct Boxed {
    place: u32,
    rows: Span,
    contour: u32,
    low: Spot,
    high: Spot,
}

const _: () = prove!(size_of::<Boxed>() == 48);

/// Where an item has no contour whose parts are known.
const NO_CONTOUR: u32 = u32::MAX;

/// The items that may be seen in a box, from the last one on. For few tiles they are looked for as they are needed, as long
/// as something is not decided; for many tiles all are looked for, once, and listed.
#[derive(Drop)]
pub(crate) struct Index {
    seen: Seen,
    listed: Option<Listed>,
}

/// Row of tiles by row of tiles of a window the items that reach it, and the parts of their contours.
#[derive(Drop)]
struct Listed {
    rows: RowLists,
    contours: Vec<ContourParts>,
}

impl Boxed {
    /// The item at a place, if some row of tiles of a window has a place of its box in a part of this: it reaches the rows
    /// of the part alone.
    fn seen(place: u32, bounds: Bounds, part: Bounds, window: &Window) -> Option<Boxed>
        requires { accepts window.now ≡ true }
        ensures place { IfSome result (λ b. b.place ≡ place) }
        ensures some { IfSome result (IsBoxOf window.now part bounds) }
        ensures none { IfNone result
            ((row : ℕ) (s : Spot) → IsSeen window.now part row s → ¬ Holds bounds s) }
    {
        let Bounds::Closed {
            low: bottom,
            high: top,
        } = part
        else {
            return None;
        };
        let Bounds::Closed { low, high } = bounds else {
            return None;
        };
        let rows = window.rows_between(&bottom, &top);
        if rows.end <= rows.first {
            return None;
        }
        Some(Boxed {
            place,
            rows,
            contour: NO_CONTOUR,
            low,
            high,
        })
    }

    /// Whether it reaches a row of tiles.
    #[inline]
    fn is_in_row(&self, row: u32) -> bool
        ensures { result ≡ reaches row self.now }
    {
        self.rows.first <= row && row < self.rows.end
    }
}

impl Index {
    /// An index of the items that may be seen in a box, for few tiles or for many.
    pub(crate) fn of(
        alloc: Global,
        shown: &Shown<'_>,
        window: &Window,
        within: Bounds,
        is_few: bool,
    ) -> Result<Index, AllocError>
        requires ready { IsReady shown.now }
        requires accepted { accepts window.now ≡ true }
        ensures { IfOk result (λ index. IsIndexOf (leaves_by_item shown.now) window.now index) }
    {
        // no item was looked at yet
        let count = shown.len();
        let mut seen = Seen {
            within,
            boxed: Vec::new(alloc),
            left: count,
            is_crowd: false,
        };
        if is_few {
            return Ok(Index { seen, listed: None });
        }
        seen.look(shown, &mut shown.boxes(), window, count)?;
        let contours = contours_of(alloc, shown, &mut seen.boxed)?;
        let rows = RowLists::new(alloc, &seen.boxed, window.height.div_ceil(64))?;
        let listed = Some(Listed { rows, contours });
        Ok(Index { seen, listed })
    }

    /// Paints all items, from the last one on, on tiles of the row of tiles of a tile: where they lie in the box of the index,
    /// those items alone that reach the row, since the others leave the tiles as they are; and none once all is decided.
    pub(crate) fn paint(
        &mut self,
        shown: &Shown<'_>,
        window: &Window,
        tile: u32,
        swath: &mut Swath,
    ) -> Result<(), AllocError>
        requires ready { IsReady shown.now }
        requires accepted { accepts window.now ≡ true }
        requires index { IsIndexOf (leaves_by_item shown.now) window.now self.old }
        requires tile { tile < tiles_of window.now }
        requires rows { HasRowOf window.now tile swath.old }
        ensures index { OnOk result (IsIndexOf (leaves_by_item shown.now) window.now self.new) }
        ensures painted { OnOk result (PaintsSwath swath.old (leaves_of shown.now) swath.new) }
    {
        let Bounds::Closed { low, high } = swath.bounds() else {
            return Ok(());
        };
        let within = self.seen.within;
        if !has_place(within, low) || !has_place(within, high) {
            shown.paint(swath);
            return Ok(());
        }
        let row = tile / window.across();
        match &mut self.listed {
            None => self.seen.paint(shown, window, row, swath),
            Some(listed) => {
                listed.rows.go_to(&self.seen.boxed, row)?;
                listed.paint(&self.seen.boxed, shown, low.x, high.x, swath);
                Ok(())
            }
        }
    }
}

impl Listed {
    /// Paints the items of the list at hand, from the last one on, on tiles whose centres lie between two places across; none
    /// once all is decided.
    fn paint(&self, boxed: &[Boxed], shown: &Shown<'_>, left: i64, right: i64, swath: &mut Swath)
        requires ready { IsReady shown.now }
        requires numbers { All (λ k. k < length boxed.now) self.now.rows.reaching.items }
        requires boxed { All (IsBoxed (leaves_by_item shown.now)) boxed.now }
        requires contours { All (IsPartsOf (leaves_by_item shown.now)) self.now.contours.items }
        requires sides { (column row : ℕ) → IsInSwath swath.old column row
            → (left ≤ℤ (place_in swath.old column row).x) × ((place_in swath.old column row).x ≤ℤ right) }
        ensures { PaintsSwath swath.old (numbered_leaves (leaves_by_item shown.now) boxed.now
            (reverse self.now.rows.reaching.items)) swath.new }
    {
        let numbers = self.rows.reaching.as_slice();
        for k in 0..numbers.len() {
            if swath.is_done() {
                return;
            }
            let item = &boxed[numbers[k] as usize];
            // whether its box has a place from the first column of a tile to the last
            if item.low.x <= right && left <= item.high.x {
                paint_item(item, &self.contours, shown, swath);
            }
        }
    }
}

/// The contour of an item that is a region of which the parts are known, and its polarity.
#[inline]
fn parted<'a>(
    item: &Boxed,
    contours: &'a [ContourParts],
    shown: &'a Shown<'_>,
) -> Option<(PartedContour<'a>, bool)>
    requires item { IsBoxed (leaves_by_item shown.now) item.now }
    requires contours { All (IsPartsOf (leaves_by_item shown.now)) contours.now }
    requires ready { IsReady shown.now }
    ensures parted { IfSome result (λ region. IsParted region.0.contour.now region.0.heights.now) }
    ensures leaves { IfSome result (λ region. slice_index_or (leaves_by_item shown.now) item.now.place []
        ≡ leaf (Filled region.0.contour.now) region.1 ∷ []) }
{
    let parts = contours.get(item.contour as usize)?;
    // By the place the parts are known to be the item's, whatever its number is.
    if parts.place != item.place {
        return None;
    }
    let (contour, dark) = shown.region(item.place as usize)?;
    let heights = parts.heights.as_slice();
    Some((PartedContour { contour, heights }, dark))
}

/// Paints an item, from its last leaf on: a region by the parts of its contour, where they are known.
#[inline]
fn paint_item(item: &Boxed, contours: &[ContourParts], shown: &Shown<'_>, swath: &mut Swath)
    requires item { IsBoxed (leaves_by_item shown.now) item.now }
    requires contours { All (IsPartsOf (leaves_by_item shown.now)) contours.now }
    requires ready { IsReady shown.now }
    ensures { PaintsSwath swath.old (slice_index_or (leaves_by_item shown.now) item.now.place []) swath.new }
{
    match parted(item, contours, shown) {
        Some((contour, dark)) => swath.paint_contour(&contour, item.low.x, item.high.x, dark),
        None => shown.paint_item(item.place as usize, swath),
    }
}
