//! Rows joined lane by lane, and the bytes of a row in a file (netpbm's pbm(5), "P4").

use crate::tables::each;
use cam_rows::{clear_rows, or_rows, pbm_bytes, xor_rows};
use std::test::Fail;

/// The rows of a lane, and what becomes of the first one: with the second one's bits, without them, and with them
/// turned over.
const LANES: &[(u64, u64, [u64; 3])] = &[
    (0, 0, [0, 0, 0]),
    (0b1100, 0b1010, [0b1110, 0b0100, 0b0110]),
    (u64::MAX, 0, [u64::MAX, u64::MAX, u64::MAX]),
    (0, u64::MAX, [u64::MAX, 0, u64::MAX]),
    (u64::MAX, 1 << 63, [u64::MAX, u64::MAX >> 1, u64::MAX >> 1]),
];

/// A row, and its bytes.
const BYTES: &[(u64, [u8; 8])] = &[
    (0, [0, 0, 0, 0, 0, 0, 0, 0]),
    (1, [0x80, 0, 0, 0, 0, 0, 0, 0]),
    (1 << 7, [1, 0, 0, 0, 0, 0, 0, 0]),
    (1 << 8, [0, 0x80, 0, 0, 0, 0, 0, 0]),
    (1 << 63, [0, 0, 0, 0, 0, 0, 0, 1]),
    (0b1011 << 36, [0, 0, 0, 0, 0b1101, 0, 0, 0]),
    (u64::MAX >> 3, [255, 255, 255, 255, 255, 255, 255, 0xf8]),
];

/// Whether each lane of rows that have the table over and over is joined so.
fn are_joined() -> bool {
    let mut rows = [0; 64];
    let mut other = [0; 64];
    for lane in 0..64 {
        (rows[lane], other[lane], _) = LANES[lane % LANES.len()];
    }
    let (mut joined, mut cleared, mut turned) = (rows, rows, rows);
    or_rows(&mut joined, &other);
    clear_rows(&mut cleared, &other);
    xor_rows(&mut turned, &other);
    for lane in 0..64 {
        let found = [joined[lane], cleared[lane], turned[lane]];
        if found != LANES[lane % LANES.len()].2 {
            return false;
        }
    }
    true
}

#[test]
fn lanes(rt: HostRuntime) -> Result<(), Fail> {
    assert!(rt; are_joined());
    each(BYTES, |&(row, wanted)| pbm_bytes(row) == wanted)
}
