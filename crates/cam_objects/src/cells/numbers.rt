//! Numbers beside the items of a list.

ghost use Rattle.std.specs.Prelude.{
  ◌≡◌,
  ◌+◌,
  ◌<◌,
  ◌≤◌,
  ◌⊎◌,
  ◌∷◌,
  ◌++◌,
  ℕ,
  [],
  false,
  insert,
  length,
  remove,
  slice_index,
  slice_set,
  take,
};

use std::alloc::Global;
use std::marker::Model;

/// A number of each item of a list, one after another from the first item on. The items behind have none, where memory
/// was refused.
#[derive(Clone, Drop)]
pub struct ItemNumbers {
    numbers: Vec<u16>,
}

impl Model for ItemNumbers {
    ghost use Rattle.std.specs.Prelude.{ℕ, List};

    ghost Value = { List ℕ };

    ghost view = { λ c. c.numbers.items };
}

/// How many numbers are tested at once, without a branch for each: most holes are of another tool. By callgrind the numbers of
/// 1,000,000 holes are gone through in 0.8 million instructions (an edit of a diameter, and one of a place).
const CHUNK_SIZE: usize = 64;

/// Whether a number stands somewhere from a place to an end. It tests all, which is quicker than to stop.
fn any_is(numbers: &[u16], first: usize, end: usize, number: u16) -> bool
    requires { end ≤ length numbers.now }
    ensures { result ≡ false → (k : ℕ) → first ≤ k → k < end → ¬ (slice_index numbers.now k ≡ number) }
{
    let mut any = false;
    for place in first..end {
        any |= numbers[place] == number;
    }
    any
}

/// The first place from one to an end where a number stands, or the end.
fn first_place(numbers: &[u16], first: usize, end: usize, number: u16) -> usize
    requires listed { end ≤ length numbers.now }
    requires order { first ≤ end }
    ensures onward { first ≤ result }
    ensures within { result ≤ end }
    ensures others { (k : ℕ) → first ≤ k → k < result → ¬ (slice_index numbers.now k ≡ number) }
{
    for place in first..end {
        if numbers[place] == number {
            return place;
        }
    }
    end
}

/// The next place from one on where a number stands; where there is none, the place behind the last number.
fn next_place(numbers: &[u16], place: usize, number: u16) -> usize
    requires { place < length numbers.now }
    ensures onward { place ≤ result }
    ensures within { result ≤ length numbers.now }
    ensures others { (k : ℕ) → place ≤ k → k < result → ¬ (slice_index numbers.now k ≡ number) }
{
    let chunks = (numbers.len() - place) / CHUNK_SIZE;
    for chunk in 0..chunks {
        let first = place + chunk * CHUNK_SIZE;
        if any_is(numbers, first, first + CHUNK_SIZE, number) {
            return first_place(numbers, first, first + CHUNK_SIZE, number);
        }
    }
    first_place(numbers, place + chunks * CHUNK_SIZE, numbers.len(), number)
}

/// Takes the number at a place out and puts one at a place: those between the two move by one, and no others.
fn carry(numbers: &mut [u16], from: usize, to: usize, number: u16)
    requires from { from < length numbers.old }
    requires to { to < length numbers.old }
    ensures { numbers.new ≡ insert (remove numbers.old from) to number }
{
    if from < to {
        numbers.copy_within(from + 1..to + 1, from);
    } else {
        numbers.copy_within(to..from, to + 1);
    }
    numbers[to] = number;
}

impl ItemNumbers {
    /// The numbers of a vector.
    pub(crate) fn from_vec(numbers: Vec<u16>) -> ItemNumbers
        ensures { result ≡ numbers.items }
    {
        ItemNumbers { numbers }
    }

    /// Of no items yet, with room for so many; where memory is refused, without.
    pub fn with_room(alloc: Global, items: usize) -> ItemNumbers
        ensures { result ≡ [] }
    {
        let numbers = match Vec::with_capacity(alloc, items) {
            Ok(numbers) => numbers,
            Err(_) => Vec::new(alloc),
        };
        ItemNumbers { numbers }
    }

    /// Makes room for those of so many items more; where memory for it is refused, they will have none.
    pub fn reserve(&mut self, items: usize)
        ensures { self.new ≡ self.old }
    {
        let _ = self.numbers.reserve(items);
    }

    /// The numbers.
    #[inline]
    pub fn as_slice(&self) -> &[u16]
        ensures { result.now ≡ self.now }
    {
        self.numbers.as_slice()
    }

    /// Puts that of the item at a place behind the last, if those of the items before it are there, and room.
    #[inline]
    pub fn push_at(&mut self, place: usize, number: u16)
        ensures { (self.new ≡ self.old) ⊎ ((length self.old ≡ place) × (self.new ≡ self.old ++ number ∷ [])) }
    {
        if place == self.numbers.len() && place < self.numbers.capacity() {
            self.numbers.push_reserved(number);
        }
    }

    /// Puts one at a place, before those from there on. Takes no memory: without room, those have none from then on.
    pub fn insert(&mut self, place: usize, number: u16)
        ensures came { self.new ≡ take (length self.new) (insert self.old place number) }
        ensures behind { length self.old < place → self.new ≡ self.old }
    {
        if place > self.numbers.len() {
            return;
        }
        if self.numbers.len() == self.numbers.capacity() {
            self.numbers.truncate(place);
            return;
        }
        self.numbers.insert(place, number).unwrap();
    }

    /// Takes that at a place out.
    pub fn remove(&mut self, place: usize)
        ensures went { place < length self.old → self.new ≡ remove self.old place }
        ensures behind { length self.old ≤ place → self.new ≡ self.old }
    {
        if place < self.numbers.len() {
            self.numbers.remove(place);
        }
    }

    /// Takes that at a place out and puts one at a place, as `remove` and `insert` do: those between the two move by one,
    /// and no others. Takes no memory: where a place has none, those from the first of the two on have none from then on.
    pub fn carry(&mut self, from: usize, to: usize, number: u16)
        ensures within { from < length self.old → to < length self.old
            → self.new ≡ insert (remove self.old from) to number }
        ensures behind { (length self.old ≤ from) ⊎ (length self.old ≤ to) → self.new ≡ take to (take from self.old) }
    {
        if self.numbers.len() <= from.max(to) {
            self.numbers.truncate(from);
            self.numbers.truncate(to);
            return;
        }
        carry(&mut self.numbers, from, to, number);
    }

    /// Changes that at a place.
    #[inline]
    pub fn set(&mut self, place: usize, number: u16)
        ensures { self.new ≡ slice_set self.old place number }
    {
        if place < self.numbers.len() {
            self.numbers[place] = number;
        }
    }

    /// The next place from one on whose item may have a number: the items before it, from that place on, have others.
    pub fn next_of(&self, place: usize, number: u16) -> usize
        ensures onward { place ≤ result }
        ensures others { (k : ℕ) → place ≤ k → k < result
            → (k < length self.now) × ¬ (slice_index self.now k ≡ number) }
    {
        let numbers = self.numbers.as_slice();
        // where many have it, the next one has
        if numbers.len() <= place || numbers[place] == number {
            return place;
        }
        next_place(numbers, place, number)
    }
}
