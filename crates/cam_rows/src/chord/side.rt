//! The columns on one side of a circle's middle.

ghost use Rattle.std.specs.Prelude.{◌≡◌, ◌↔◌, ◌-◌, ◌*◌, ◌<◌, IsTrue, false};
ghost use Rattle.cam_rows.specs.Machinery.Chords.{AreBeyond, AreNear, HasReached, IsBeyond, IsSameSide, IsSide};
ghost use Rattle.cam_rows.specs.Machinery.Chords.{distance_at};

use super::NEAR;

/// The columns on one side of a circle's middle, counted outwards: how far the nearest one lies from the middle, the
/// distance of neighbours, and how many they are. Those that lie in the chord of a row are the first ones of them, up to
/// the next one; their distances have squares less than `room`.
#[derive(Clone, Copy)]
pub(crate) struct ChordSide {
    pub(super) start: u64,
    pub(super) step: u64,
    pub columns: u32,
    inside: u32,
    next: u64,
    room: u128,
}

impl ChordSide {
    /// A side none of whose columns is in the chord yet.
    #[inline]
    pub(super) fn new(start: u64, step: u64, columns: u32) -> ChordSide
        ensures { result ≡ record { start = start; step = step; columns = columns; inside = 0; next = start; room = 0 } }
    {
        ChordSide {
            start,
            step,
            columns,
            inside: 0,
            next: start,
            room: 0,
        }
    }

    /// Goes to the chord of another row: it tells how many columns lie in that. A side that has none stays as it is.
    #[inline]
    pub(super) fn walk<const REACH: u64, const HAS_COLUMNS: bool>(&mut self, room: u128) -> u32
        requires side { IsSide REACH self.old }
        requires reached { HasReached self.old self.old.room }
        requires fits { room < REACH * REACH }
        requires columns { HAS_COLUMNS ≡ false → self.old.columns ≡ 0 }
        ensures side { IsSide REACH self.new }
        ensures reached { HasReached self.new self.new.room }
        ensures there { HasReached self.new room }
        ensures same { IsSameSide self.old self.new }
        ensures inside { result ≡ self.new.inside }
    {
        if !HAS_COLUMNS {
            return 0;
        }
        if is_less::<REACH>(room, self.room) {
            self.narrow::<REACH>(room);
        } else {
            self.widen::<REACH>(room);
        }
        self.inside
    }

    /// Goes to a chord of which about half the length is known: to that at once, and from there column by column. Any
    /// guess is right.
    pub(super) fn leap<const REACH: u64>(&mut self, half: u64, room: u128)
        requires side { IsSide REACH self.old }
        requires fits { room < REACH * REACH }
        ensures side { IsSide REACH self.new }
        ensures reached { HasReached self.new self.new.room }
        ensures same { IsSameSide self.old self.new }
    {
        let columns = u64::from(self.columns);
        let inside = (half.saturating_sub(self.start) / self.step).min(columns) as u32;
        self.inside = inside;
        self.next = self.start + u64::from(inside) * self.step;
        if inside > 0 && self.is_last_beyond::<REACH>(room) {
            self.narrow::<REACH>(room);
        } else {
            self.widen::<REACH>(room);
        }
    }

    /// Goes outwards to a longer chord.
    #[inline]
    fn widen<const REACH: u64>(&mut self, room: u128)
        requires side { IsSide REACH self.old }
        requires near { AreNear self.old room }
        requires fits { room < REACH * REACH }
        ensures side { IsSide REACH self.new }
        ensures reached { HasReached self.new self.new.room }
        ensures room { self.new.room ≡ room }
        ensures same { IsSameSide self.old self.new }
    {
        // by places, which the compiler does not count: it would test many columns at once, and a walk is short
        let end = self.start + u64::from(self.columns) * self.step;
        while self.next < end && !is_beyond::<REACH>(self.next, room) {
            self.inside += 1;
            self.next += self.step;
        }
        self.room = room;
    }

    /// Goes inwards to a shorter chord.
    #[inline]
    fn narrow<const REACH: u64>(&mut self, room: u128)
        requires side { IsSide REACH self.old }
        requires beyond { AreBeyond self.old room }
        requires fits { room < REACH * REACH }
        ensures side { IsSide REACH self.new }
        ensures reached { HasReached self.new self.new.room }
        ensures room { self.new.room ≡ room }
        ensures same { IsSameSide self.old self.new }
    {
        while self.next > self.start && self.is_last_beyond::<REACH>(room) {
            self.inside -= 1;
            self.next -= self.step;
        }
        self.room = room;
    }

    /// Whether the last column of the chord lies beyond another one.
    #[inline]
    fn is_last_beyond<const REACH: u64>(&self, room: u128) -> bool
        requires side { IsSide REACH self.now }
        requires some { 0 < self.now.inside }
        requires fits { room < REACH * REACH }
        ensures { IsTrue result ↔ IsBeyond (distance_at self.now (self.now.inside - 1)) room }
    {
        is_beyond::<REACH>(self.next - self.step, room)
    }
}

/// Whether a distance is past half a chord, where the square of the half is so: in 64 bits, but for what is far.
#[inline]
fn is_beyond<const REACH: u64>(distance: u64, room: u128) -> bool
    requires near { distance < REACH }
    requires fits { room < REACH * REACH }
    ensures { IsTrue result ↔ IsBeyond distance room }
{
    if REACH > NEAR {
        return squared(distance) >= room;
    }
    distance * distance >= room as u64
}

/// Whether one square is less than another: in 64 bits, but for those of what is far.
#[inline]
fn is_less<const REACH: u64>(square: u128, other: u128) -> bool
    requires fits { square < REACH * REACH }
    requires other { other < REACH * REACH }
    ensures { IsTrue result ↔ (square < other) }
{
    if REACH > NEAR {
        return square < other;
    }
    (square as u64) < other as u64
}

/// The square of a distance, by a multiplication in 64 bits where it fits them.
#[inline]
pub(super) fn squared(distance: u64) -> u128
    ensures { result ≡ distance * distance }
{
    if distance < NEAR {
        return u128::from(distance * distance);
    }
    u128::from(distance) * u128::from(distance)
}
