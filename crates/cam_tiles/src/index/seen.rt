//! The items of a layer that may be seen in a box, looked for from the last one on.

ghost use Rattle.std.specs.Prelude.{◌≡◌, ℕ, ◌<◌, ◌≤◌, ◌⊎◌, [], OnOk, length, slice_index_or, true};
ghost use Rattle.cam_units.specs.Boxes.{HaveCommonPlace};
ghost use Rattle.cam_objects.specs.Bounds.{bounds_of};
ghost use Rattle.cam_tiles.specs.Machinery.Indexes.{AreSeenBy, IsBegunBy, IsSeen};
ghost use Rattle.cam_tiles.specs.Machinery.Shown.{IsReady, leaves_by_item, leaves_of, lists_of};
ghost use Rattle.cam_tiles.specs.Machinery.Swaths.{IsInSwath, PaintsSwath, place_in};
ghost use Rattle.cam_tiles.specs.Picture.{accepts};

use crate::index::Boxed;
use crate::masks::swath::Swath;
use crate::shown::{Boxes, Shown};
use crate::window::Window;
use cam_objects::Canvas;
use cam_units::Bounds;
use std::alloc::AllocError;

/// The items that may be seen in a box, from the last on.
#[derive(Drop)]
pub(crate) struct Seen {
    pub(super) within: Bounds,
    pub(super) boxed: Vec<Boxed>,
    /// How many items stand before those that were looked at.
    pub(super) left: usize,
    /// Whether what was looked at last is near and stands right before what was looked at before it.
    pub(super) is_crowd: bool,
}

impl Seen {
    /// The place behind the next item that may be near, or 0: those from there on are not. In a crowd most are near, so
    /// the next one is taken to be, and is not looked for.
    fn next_end(&self, shown: &Shown<'_>) -> usize
        requires { IsReady shown.now }
        ensures within { result ≤ self.now.left }
        ensures apart { (k : ℕ) → result ≤ k → k < self.now.left → k < length (leaves_by_item shown.now)
            → ¬ HaveCommonPlace (bounds_of (slice_index_or (leaves_by_item shown.now) k [])) self.now.within }
    {
        if self.is_crowd {
            return self.left;
        }
        shown.near_end(self.left, self.within)
    }

    /// Looks at the next item that may be near, if there is one. A draw whose line misses the box is passed over: so are
    /// nearly all of many slanted ones, whose boxes reach far beyond what they cover.
    fn look_at_next(
        &mut self,
        shown: &Shown<'_>,
        boxes: &mut Boxes<'_>,
        window: &Window,
    ) -> Result<(), AllocError>
        requires ready { IsReady shown.now }
        requires accepted { accepts window.now ≡ true }
        requires seen { AreSeenBy (leaves_by_item shown.now) window.now self.old }
        requires lists { lists_of boxes.old ≡ leaves_by_item shown.now }
        requires some { 0 < self.old.left }
        ensures seen { OnOk result (AreSeenBy (leaves_by_item shown.now) window.now self.new) }
        ensures onward { OnOk result (self.new.left < self.old.left) }
        ensures begun { OnOk result (IsBegunBy self.old self.new) }
        ensures lists { lists_of boxes.new ≡ leaves_by_item shown.now }
    {
        let end = self.next_end(shown);
        self.is_crowd = end == self.left;
        self.left = end;
        if self.left == 0 {
            return Ok(());
        }
        self.left -= 1;
        let bounds = boxes.read(self.left);
        let part = bounds.clipped(self.within);
        self.is_crowd &= !part.is_empty();
        // an item whose box lies within the other is near it
        if part != bounds && boxes.line_misses(self.left, self.within) {
            return Ok(());
        }
        if let Some(item) = Boxed::seen(self.left as u32, bounds, part, window) {
            self.boxed.push(item)?;
        }
        Ok(())
    }

    /// Looks at more items, until more than so many were found that may be seen, or all were looked at.
    pub(super) fn look(
        &mut self,
        shown: &Shown<'_>,
        boxes: &mut Boxes<'_>,
        window: &Window,
        enough: usize,
    ) -> Result<(), AllocError>
        requires ready { IsReady shown.now }
        requires accepted { accepts window.now ≡ true }
        requires seen { AreSeenBy (leaves_by_item shown.now) window.now self.old }
        requires lists { lists_of boxes.old ≡ leaves_by_item shown.now }
        ensures seen { OnOk result (AreSeenBy (leaves_by_item shown.now) window.now self.new) }
        ensures begun { OnOk result (IsBegunBy self.old self.new) }
        ensures enough { OnOk result ((self.new.left ≡ 0) ⊎ (enough < length self.new.boxed.items)) }
        ensures lists { OnOk result (lists_of boxes.new ≡ leaves_by_item shown.now) }
    {
        while self.left > 0 && self.boxed.len() <= enough {
            self.look_at_next(shown, boxes, window)?;
        }
        Ok(())
    }

    /// Paints all items, from the last one on, on tiles of a row of tiles: those alone in whose box something may be seen
    /// there that is not decided. They are looked for as they are needed, until all is decided.
    pub(super) fn paint(
        &mut self,
        shown: &Shown<'_>,
        window: &Window,
        row: u32,
        swath: &mut Swath,
    ) -> Result<(), AllocError>
        requires ready { IsReady shown.now }
        requires accepted { accepts window.now ≡ true }
        requires seen { AreSeenBy (leaves_by_item shown.now) window.now self.old }
        requires there { (column r : ℕ) → IsInSwath swath.old column r
            → IsSeen window.now self.old.within row (place_in swath.old column r) }
        ensures seen { OnOk result (AreSeenBy (leaves_by_item shown.now) window.now self.new) }
        ensures painted { OnOk result (PaintsSwath swath.old (leaves_of shown.now) swath.new) }
    {
        let mut boxes = shown.boxes();
        for number in 0..shown.len() {
            self.look(shown, &mut boxes, window, number)?;
            let Some(item) = self.boxed.get(number) else {
                return Ok(());
            };
            let bounds = Bounds::Closed {
                low: item.low,
                high: item.high,
            };
            if !item.is_in_row(row) || swath.is_decided_in(bounds) {
                continue;
            }
            shown.paint_item(item.place as usize, swath);
            if swath.is_done() {
                return Ok(());
            }
        }
        Ok(())
    }
}
