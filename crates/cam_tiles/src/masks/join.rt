//! How marks are joined.

ghost use Rattle.std.specs.Prelude.{◌≡◌, ◌↔◌, ◌<◌, ◌^◌, ℕ, slice_index};
ghost use Rattle.std.specs.Int.{IsBitSet};
ghost use Rattle.cam_rows.specs.Lanes.{AreJoined};
ghost use Rattle.cam_tiles.specs.Machinery.Masks.{inked, joined};

use cam_rows::{clear_rows, or_rows};

/// What becomes of the marks of a mask where others are joined with them.
#[derive(Clone, Copy)]
pub(crate) enum Join {
    /// The others are added.
    Add,
    /// They are cleared.
    Clear,
}

impl Join {
    /// What is dark is added, and what is clear is cleared.
    pub(crate) fn inked(dark: bool) -> Join
        ensures { result ≡ inked dark }
    {
        if dark { Join::Add } else { Join::Clear }
    }

    /// The row that a row becomes, joined with another.
    #[inline]
    #[tactic(auto, using(cam_rows::proofs::SetBits::set_in_or, cam_rows::proofs::SetBits::set_in_rest))]
    pub(crate) fn join_row(self, row: u64, other: u64) -> u64
        ensures { (i : ℕ) → i < 64 → IsBitSet result i ↔ joined self (IsBitSet row i) (IsBitSet other i) }
    {
        match self {
            Join::Add => row | other,
            Join::Clear => row & !other,
        }
    }

    /// Joins rows with others, each with the one of its place.
    pub(crate) fn join_rows(self, rows: &mut [u64; 64], others: &[u64; 64])
        ensures bits { AreJoined (joined self) rows.old others.now rows.new }
        ensures fit { (row : ℕ) → slice_index rows.new row < 2 ^ 64 }
    {
        match self {
            Join::Add => or_rows(rows, others),
            Join::Clear => clear_rows(rows, others),
        }
        told_by_type(rows);
    }
}

/// Numbers of 64 bits are less than 2^64: a proof is told so of a slice, and not of an array.
pub(crate) fn told_by_type(rows: &[u64])
    ensures { (row : ℕ) → slice_index rows.now row < 2 ^ 64 }
{}
