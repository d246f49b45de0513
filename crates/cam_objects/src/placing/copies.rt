//! The copies of a repeat.

ghost use Rattle.std.specs.Prelude.{◌≡◌, ◌*◌, ◌<◌, ◌-◌, ◌≤◌, ◌*ℤ◌, ◌+ℤ◌, ◌^◌, ◌↔◌, IsTrue, pos};
ghost use Rattle.std.specs.Int.RustNames.{unsigned_abs};
ghost use Rattle.cam_refusals.specs.Limits.{board_limit};
ghost use Rattle.cam_units.specs.Boxes.{join_of};
ghost use Rattle.cam_objects.specs.Bounds.{moved};
ghost use Rattle.cam_refusals.specs.Limits.{leaf_limit};
ghost use Rattle.cam_objects.specs.Machinery.Boxes.{IsBoxOffset, IsNearBox, copies_of};
ghost use Rattle.cam_objects.specs.Machinery.Inside.{last_copy};

use crate::boxes::placed::moved;
use crate::item::Item;
use cam_refusals::limits::BOARD_LIMIT;
use cam_units::{Bounds, Point};

/// How many columns and rows of copies a repeat has, and the steps from one to the next, in nm.
#[derive(Clone, Copy)]
pub(crate) struct Copies {
    pub columns: u32,
    pub rows: u32,
    pub i: i64,
    pub j: i64,
}

impl Item {
    /// The copies of a repeat; of an object the one that it is.
    pub(crate) fn copies(&self) -> Copies
        ensures { result ≡ copies_of self.now }
    {
        match self {
            Item::One(_) => Copies {
                columns: 1,
                rows: 1,
                i: 0,
                j: 0,
            },
            Item::Repeat {
                columns,
                rows,
                i,
                j,
                ..
            } => Copies {
                columns: *columns,
                rows: *rows,
                i: *i,
                j: *j,
            },
        }
    }
}

impl Copies {
    /// How many copies there are.
    pub(crate) fn count(&self) -> u64
        ensures { result ≡ self.now.columns * self.now.rows }
    {
        u64::from(self.columns) * u64::from(self.rows)
    }

    /// Whether both steps are under a metre in absolute value.
    pub(crate) fn are_short(&self) -> bool
        ensures { IsTrue result ↔ ((unsigned_abs self.now.i < board_limit) × (unsigned_abs self.now.j < board_limit)) }
    {
        self.i.unsigned_abs() < BOARD_LIMIT && self.j.unsigned_abs() < BOARD_LIMIT
    }

    /// Where the last copy lies, beside the first.
    pub(crate) fn last(&self) -> Point
        requires copies { 0 < self.now.columns * self.now.rows }
        requires across { unsigned_abs self.now.i < board_limit }
        requires up { unsigned_abs self.now.j < board_limit }
        ensures value { result ≡ last_copy self.now.columns self.now.rows self.now.i self.now.j }
        ensures reach { IsBoxOffset result }
    {
        Point {
            x: last_step(self.columns, self.i),
            y: last_step(self.rows, self.j),
        }
    }

    /// Where the copy of a column and a row lies, beside the first.
    pub(crate) fn offset(&self, column: u32, row: u32) -> Point
        requires column { column ≤ leaf_limit }
        requires row { row ≤ leaf_limit }
        requires across { unsigned_abs self.now.i < board_limit }
        requires up { unsigned_abs self.now.j < board_limit }
        ensures value { result ≡ record { x = pos column *ℤ self.now.i; y = pos row *ℤ self.now.j } }
        ensures x { unsigned_abs result.x < 2 ^ 53 }
        ensures y { unsigned_abs result.y < 2 ^ 53 }
    {
        Point {
            x: i64::from(column) * self.i,
            y: i64::from(row) * self.j,
        }
    }

    /// The box of all copies of what has this box: that of the first, joined with the last.
    pub(crate) fn bounds(&self, first: Bounds) -> Bounds
        requires copies { 0 < self.now.columns * self.now.rows }
        requires across { unsigned_abs self.now.i < board_limit }
        requires up { unsigned_abs self.now.j < board_limit }
        requires first { IsNearBox first }
        ensures { result ≡ join_of first
            (moved (last_copy self.now.columns self.now.rows self.now.i self.now.j) first) }
    {
        first.joined(moved(first, self.last()))
    }
}

/// So many steps but one, in nm.
fn last_step(count: u32, step: i64) -> i64
    requires count { 0 < count }
    requires step { unsigned_abs step < board_limit }
    ensures value { result ≡ pos (count - 1) *ℤ step }
    ensures reach { unsigned_abs result < 4400000000000000000 }
{
    i64::from(count - 1) * step
}
