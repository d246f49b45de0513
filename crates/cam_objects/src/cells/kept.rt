//! The cells that the items of a list reach.

ghost use Rattle.std.specs.Prelude.{◌≡◌, ◌<◌, ◌≤◌, ℕ, IfNone, IfOk, IfSome, List, insert, length, remove, slice_set, sum};
ghost use Rattle.cam_units.specs.declared.bounds.Bounds.{Bounds};
ghost use Rattle.cam_units.specs.Boxes.{HaveCommonPlace};
ghost use Rattle.cam_objects.specs.Cells.{AreCellsOf, box_at};

use crate::cells::item_list::BoxedItems;
use crate::cells::numbers::ItemNumbers;
use crate::cells::reach::Reach;
use crate::cells::sides::Sides;
use cam_units::Bounds;
use std::alloc::{AllocError, Global};
use std::marker::Model;

/// Of each item of a list, one after another, the cells that its box reaches: who looks for what meets some box passes
/// over the others. The items behind those are read as they are.
#[derive(Clone, Drop)]
pub struct ItemCells {
    left: ItemNumbers,
    bottom: ItemNumbers,
    right: ItemNumbers,
    top: ItemNumbers,
}

impl Model for ItemCells {
    ghost use Rattle.cam_objects.specs.Cells.{Reaches};

    ghost Value = { Reaches };

    ghost view = { λ c. record { left = c.left; bottom = c.bottom; right = c.right; top = c.top } };
}

/// A number for each of so many items, to be written over.
fn zeros(alloc: Global, items: usize) -> Result<Vec<u16>, AllocError>
    ensures { IfOk result (λ numbers. length numbers.items ≡ items) }
{
    let mut numbers = Vec::with_capacity(alloc, items)?;
    numbers.resize(items, 0)?;
    Ok(numbers)
}

impl ItemCells {
    /// Of no items.
    pub(crate) fn none(alloc: Global) -> ItemCells
        ensures { (boxes : List Bounds) → AreCellsOf boxes result }
    {
        ItemCells {
            left: ItemNumbers::from_vec(Vec::new(alloc)),
            bottom: ItemNumbers::from_vec(Vec::new(alloc)),
            right: ItemNumbers::from_vec(Vec::new(alloc)),
            top: ItemNumbers::from_vec(Vec::new(alloc)),
        }
    }

    /// Of all items of a list, and how many leaves they have; refused for want of memory alone.
    fn of_all<B: BoxedItems>(alloc: Global, items: &mut B) -> Result<(ItemCells, u64), AllocError>
        ensures cells { IfOk result (λ all. AreCellsOf (B.boxes items.old) all.0) }
        ensures leaves { IfOk result (λ all. all.1 ≡ sum (B.leaf_counts items.old)) }
        ensures list { items.new ≡ items.old }
    {
        let count = items.count();
        let mut left = zeros(alloc, count)?;
        let mut bottom = zeros(alloc, count)?;
        let mut right = zeros(alloc, count)?;
        let mut top = zeros(alloc, count)?;
        let mut leaves = 0;
        for place in 0..count {
            let measure = items.measure_at(place);
            leaves += measure.leaves;
            left[place] = measure.reach.left;
            bottom[place] = measure.reach.bottom;
            right[place] = measure.reach.right;
            top[place] = measure.reach.top;
        }
        let cells = ItemCells {
            left: ItemNumbers::from_vec(left),
            bottom: ItemNumbers::from_vec(bottom),
            right: ItemNumbers::from_vec(right),
            top: ItemNumbers::from_vec(top),
        };
        Ok((cells, leaves))
    }

    /// Of a list of items, and how many leaves they have; where memory is refused, the cells of none of them.
    pub fn of<B: BoxedItems>(alloc: Global, items: &mut B) -> (ItemCells, u64)
        ensures cells { AreCellsOf (B.boxes items.old) result.0 }
        ensures leaves { result.1 ≡ sum (B.leaf_counts items.old) }
        ensures list { B.boxes items.new ≡ B.boxes items.old }
    {
        match ItemCells::of_all(alloc, items) {
            Ok(all) => all,
            Err(_) => (ItemCells::none(alloc), items.leaf_count()),
        }
    }

    /// Reads all items of a list anew, as far as there is room for their cells. Takes no memory.
    pub(crate) fn read_again<B: BoxedItems>(&mut self, items: &mut B)
        ensures cells { AreCellsOf (B.boxes items.old) self.new }
        ensures list { B.boxes items.new ≡ B.boxes items.old }
    {
        for place in 0..items.count() {
            self.renew(items, place);
        }
    }

    /// Makes room for so many items more; where memory for it is refused, those behind an item that comes will be read
    /// as they are.
    pub fn reserve(&mut self, items: usize)
        ensures { self.new ≡ self.old }
    {
        self.left.reserve(items);
        self.bottom.reserve(items);
        self.right.reserve(items);
        self.top.reserve(items);
    }

    /// Follows an item that came to a place, counted from 0. Takes no memory.
    pub fn insert<B: BoxedItems>(&mut self, items: &mut B, place: usize)
        requires { place < length (B.boxes items.old) }
        ensures cells { (before : List Bounds) (b : Bounds) → AreCellsOf before self.old → place ≤ length before
            → B.boxes items.old ≡ insert before place b → AreCellsOf (B.boxes items.old) self.new }
        ensures list { B.boxes items.new ≡ B.boxes items.old }
    {
        let reach = items.reach_at(place);
        self.left.insert(place, reach.left);
        self.bottom.insert(place, reach.bottom);
        self.right.insert(place, reach.right);
        self.top.insert(place, reach.top);
    }

    /// Follows an item that left its place, counted from 0. Takes no memory.
    pub fn remove(&mut self, place: usize)
        ensures { (boxes : List Bounds) → AreCellsOf boxes self.old → place < length boxes
            → AreCellsOf (remove boxes place) self.new }
    {
        self.left.remove(place);
        self.bottom.remove(place);
        self.right.remove(place);
        self.top.remove(place);
    }

    /// Follows an item that left its place and came to another one, both counted from 0, the second where the first item is
    /// gone. Takes no memory.
    pub fn carry<B: BoxedItems>(&mut self, items: &mut B, from: usize, to: usize)
        requires { to < length (B.boxes items.old) }
        ensures cells { (before : List Bounds) (b : Bounds) → AreCellsOf before self.old → from < length before
            → to < length before → B.boxes items.old ≡ insert (remove before from) to b
            → AreCellsOf (B.boxes items.old) self.new }
        ensures list { B.boxes items.new ≡ B.boxes items.old }
    {
        let reach = items.reach_at(to);
        self.left.carry(from, to, reach.left);
        self.bottom.carry(from, to, reach.bottom);
        self.right.carry(from, to, reach.right);
        self.top.carry(from, to, reach.top);
    }

    /// Reads the item at a place anew. Takes no memory.
    pub fn renew<B: BoxedItems>(&mut self, items: &mut B, place: usize)
        requires { place < length (B.boxes items.old) }
        ensures cells { (before : List Bounds) (b : Bounds) → AreCellsOf before self.old
            → B.boxes items.old ≡ slice_set before place b → AreCellsOf (B.boxes items.old) self.new }
        ensures one { (before : List Bounds) → AreCellsOf before self.old → place < length before
            → AreCellsOf (slice_set before place (box_at (B.boxes items.old) place)) self.new }
        ensures list { B.boxes items.new ≡ B.boxes items.old }
    {
        let reach = items.reach_at(place);
        self.left.set(place, reach.left);
        self.bottom.set(place, reach.bottom);
        self.right.set(place, reach.right);
        self.top.set(place, reach.top);
    }

    /// The place behind the last item before an end that may have a place in common with a box, in half nm, or 0: the
    /// items from there to the end have none.
    pub fn near_end(&self, end: usize, near: Bounds) -> usize
        ensures within { result ≤ end }
        ensures apart { (boxes : List Bounds) → AreCellsOf boxes self.now → (k : ℕ) → result ≤ k → k < end
            → k < length boxes → ¬ HaveCommonPlace (box_at boxes k) near }
    {
        let sides = Sides {
            left: self.left.as_slice(),
            bottom: self.bottom.as_slice(),
            right: self.right.as_slice(),
            top: self.top.as_slice(),
        };
        sides.end_of_meeting(end, Reach::of(near))
    }
}

/// As `ItemCells::near_end`, where the cells of the items are known; else the end.
pub fn near_end(cells: Option<&ItemCells>, end: usize, near: Bounds) -> usize
    ensures within { result ≤ end }
    ensures unknown { IfNone cells.entry (result ≡ end) }
    ensures apart { (boxes : List Bounds) → IfSome cells.entry (λ kept. AreCellsOf boxes kept.now) → (k : ℕ) → result ≤ k
        → k < end → k < length boxes → ¬ HaveCommonPlace (box_at boxes k) near }
{
    match cells {
        Some(cells) => cells.near_end(end, near),
        None => end,
    }
}
