//! Lists of items, by their boxes and their leaves.

ghost use Rattle.std.specs.Prelude.{◌≡◌, ◌<◌, ◌≤◌, ℕ, List, length, slice_index, sum};
ghost use Rattle.cam_units.specs.declared.bounds.Bounds.{Bounds};
ghost use Rattle.cam_objects.specs.Cells.{IsReachOf, box_at};
ghost use Rattle.cam_refusals.specs.Limits.{leaf_limit};

use crate::cells::reach::{Measure, Reach};

/// A list of items that are read, one after another.
pub trait BoxedItems {
    /// The box of what each item paints, in half nm.
    ghost boxes: { Self → List Bounds };

    /// How many leaves each has.
    ghost leaf_counts: { Self → List ℕ };

    /// How many items there are.
    fn count(&self) -> usize
        ensures boxes { result ≡ length (boxes self.now) }
        ensures leaf_counts { result ≡ length (leaf_counts self.now) }
        ensures few { sum (leaf_counts self.now) ≤ leaf_limit };

    /// How many leaves all of them have.
    fn leaf_count(&self) -> u64
        ensures { result ≡ sum (leaf_counts self.now) };

    /// The cells that the box of the item at a place of the list reaches, counted from 0, and how many leaves it has.
    fn measure_at(&mut self, place: usize) -> Measure
        requires { place < length (boxes self.old) }
        ensures reach { IsReachOf (box_at (boxes self.old) place) result.reach }
        ensures leaves { result.leaves ≡ slice_index (leaf_counts self.old) place }
        ensures list { self.new ≡ self.old };

    /// The cells alone.
    fn reach_at(&mut self, place: usize) -> Reach
        requires { place < length (boxes self.old) }
        ensures value { IsReachOf (box_at (boxes self.old) place) result }
        ensures list { boxes self.new ≡ boxes self.old }
    {
        self.measure_at(place).reach
    }
}
