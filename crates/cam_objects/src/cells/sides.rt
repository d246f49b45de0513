//! The cells of many items, and which of them have one in common with a box.

ghost use Rattle.std.specs.Prelude.{◌≡◌, ◌↔◌, ◌⊎◌, ◌+◌, ◌<◌, ◌≤◌, ℕ, IsTrue, false};
ghost use Rattle.cam_objects.specs.Machinery.Sides.{HasSides, MeetsAt};

use crate::cells::reach::Reach;

/// The cells that the items of a list reach: the left column of each, the bottom row, the right column and the top row.
#[derive(Clone, Copy)]
pub(crate) struct Sides<'a> {
    pub left: &'a [u16],
    pub bottom: &'a [u16],
    pub right: &'a [u16],
    pub top: &'a [u16],
}

/// How many items are tested at once, without a branch for each: most redraws are far from most items. By callgrind 64 items
/// take 190 instructions together (a redraw among 1,000,000 circles, and among 100,000).
const CHUNK_SIZE: usize = 64;

impl<'a> Sides<'a> {
    /// Whether the item at a place reaches a cell of these.
    #[inline]
    fn meets(self, place: usize, reach: Reach) -> bool
        requires { HasSides self (place + 1) }
        ensures { IsTrue result ↔ MeetsAt self.entry place reach }
    {
        (self.left[place] <= reach.right)
            & (reach.left <= self.right[place])
            & (self.bottom[place] <= reach.top)
            & (reach.bottom <= self.top[place])
    }

    /// Whether some item from a place to an end reaches a cell of these. It tests all, which is quicker than to stop.
    fn any_meets(self, first: usize, end: usize, reach: Reach) -> bool
        requires { HasSides self end }
        ensures { result ≡ false → (k : ℕ) → first ≤ k → k < end → ¬ MeetsAt self.entry k reach }
    {
        let mut any = false;
        for place in first..end {
            any |= self.meets(place, reach);
        }
        any
    }

    /// The place behind the last item from one place to another that reaches a cell of these, or the first place.
    fn end_of_last(self, first: usize, end: usize, reach: Reach) -> usize
        requires sides { HasSides self end }
        requires order { first ≤ end }
        ensures within { result ≤ end }
        ensures apart { (k : ℕ) → result ≤ k → k < end → ¬ MeetsAt self.entry k reach }
    {
        for place in (first..end).rev() {
            if self.meets(place, reach) {
                return place + 1;
            }
        }
        first
    }

    /// The place behind the last item before an end that may reach a cell of these, or 0: the items from there to the
    /// end reach none.
    pub(crate) fn end_of_meeting(self, end: usize, reach: Reach) -> usize
        ensures within { result ≤ end }
        ensures apart { (k : ℕ) → result ≤ k → k < end → ¬ MeetsAt self.entry k reach }
        ensures known { (result ≡ end) ⊎ HasSides self.entry end }
    {
        let known = self
            .left
            .len()
            .min(self.bottom.len())
            .min(self.right.len())
            .min(self.top.len());
        // where most are near, the last one is
        if end == 0 || known < end || self.meets(end - 1, reach) {
            return end;
        }
        let chunks = end / CHUNK_SIZE;
        for chunk in 0..chunks {
            let last = end - chunk * CHUNK_SIZE;
            if self.any_meets(last - CHUNK_SIZE, last, reach) {
                return self.end_of_last(last - CHUNK_SIZE, last, reach);
            }
        }
        self.end_of_last(0, end - chunks * CHUNK_SIZE, reach)
    }
}
