//! The 64 rows of a tile, joined lane by lane as one vector, and their bytes in a file.

ghost use Rattle.std.specs.Prelude.{◌<◌, ◌≤◌, ◌↔◌, ◌⊎◌, ◌+◌, ◌-◌, ◌/◌, ◌%◌, ℕ, slice_index};
ghost use Rattle.std.specs.Int.{IsBitSet};
ghost use Rattle.cam_rows.specs.Lanes.{AreJoined};

use std::simd::u64x64;

/// Of each two bits of a row the lower one.
const LOWER_BITS: u64 = 0x5555_5555_5555_5555;

/// Of each four bits of a row the lower two.
const LOWER_TWOS: u64 = 0x3333_3333_3333_3333;

/// Of each eight bits of a row the lower four.
const LOWER_FOURS: u64 = 0x0f0f_0f0f_0f0f_0f0f;

/// Adds the bits of other rows: bit i of a row is then set where it was, or where the other row of its place has it.
pub fn or_rows(rows: &mut [u64; 64], other: &[u64; 64])
    ensures { AreJoined (λ P Q. P ⊎ Q) rows.old other.now rows.new }
{
    *rows = (u64x64::from_array(*rows) | u64x64::from_array(*other)).to_array();
}

/// Takes out the bits of other rows: bit i of a row is then set where it was, and the other row of its place does not
/// have it.
pub fn clear_rows(rows: &mut [u64; 64], other: &[u64; 64])
    ensures { AreJoined (λ P Q. P × (Q → ⊥)) rows.old other.now rows.new }
{
    let lanes = u64x64::from_array(*rows);
    // what both have is turned over
    *rows = (lanes ^ (lanes & u64x64::from_array(*other))).to_array();
}

/// Turns over the bits of other rows: bit i of a row is then set where exactly one of the two rows of its place had it.
pub fn xor_rows(rows: &mut [u64; 64], other: &[u64; 64])
    ensures { AreJoined (λ P Q. (P × (Q → ⊥)) ⊎ ((P → ⊥) × Q)) rows.old other.now rows.new }
{
    *rows = (u64x64::from_array(*rows) ^ u64x64::from_array(*other)).to_array();
}

/// The bytes of a row in a bitmap file (netpbm's pbm(5), "P4"): eight pixels a byte, the leftmost of them, which is the
/// lowest bit of the row, in the highest bit.
pub fn pbm_bytes(row: u64) -> [u8; 8]
    ensures { (i : ℕ) → i < 64 → IsBitSet (slice_index result (i / 8)) (7 - i % 8) ↔ IsBitSet row i }
{
    let by_fours = exchanged(row, LOWER_FOURS, 4);
    let by_twos = exchanged(by_fours, LOWER_TWOS, 2);
    exchanged(by_twos, LOWER_BITS, 1).to_le_bytes()
}

/// Exchanges each of the `lower` bits with the bit so many places above it.
#[tactic(auto, using(crate::proofs::RowBytes::exchanged_bit))]
fn exchanged(row: u64, lower: u64, places: u32) -> u64
    requires { places < 64 }
    ensures { (i : ℕ) → i < 64 → IsBitSet result i
        ↔ ((IsBitSet lower i × IsBitSet row (i + places))
        ⊎ ((places ≤ i) × IsBitSet lower (i - places) × IsBitSet row (i - places))) }
{
    ((row >> places) & lower) | ((row & lower) << places)
}
