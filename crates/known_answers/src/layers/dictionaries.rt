//! Dictionaries of several rows.

use crate::layers::rows::{Drawn, Entered, Entries};
use Drawn::Flash;
use Entered::{Block, Circle, Many, Obround, Rect};
use Turn::{R0, R90};
use cam_units::Turn;

/// A solid circle and others, and two blocks.
pub const BASE: Entries = &[
    (10, Circle(5, 0)),
    (11, Circle(5, 2)),
    (12, Rect(8, 4, 0)),
    (13, Block(&[Flash(10, (10, 0), R0, true)])),
    (14, Circle(0, 0)),
    (15, Block(&[Flash(13, (0, 20), R90, true)])),
    (16, Obround(4, 4, 0)),
];

/// Blocks in blocks, a flash of the last of which counts 4,000,000 leaves.
pub const FULL: Entries = &[
    (10, Circle(5, 0)),
    (11, Many(650, Flash(10, (0, 0), R0, true))),
    (12, Many(32, Flash(11, (0, 0), R0, true))),
    (13, Many(4, Flash(12, (0, 0), R0, true))),
    (14, Many(4, Flash(13, (0, 0), R0, true))),
    (15, Many(4, Flash(14, (0, 0), R0, true))),
    (16, Many(3, Flash(15, (0, 0), R0, true))),
];

/// Blocks of ten of the last: a flash of number 16 counts 1,111,111 leaves.
pub const TENS: Entries = &[
    (10, Circle(5, 0)),
    (11, Many(10, Flash(10, (0, 0), R0, true))),
    (12, Many(10, Flash(11, (0, 0), R0, true))),
    (13, Many(10, Flash(12, (0, 0), R0, true))),
    (14, Many(10, Flash(13, (0, 0), R0, true))),
    (15, Many(10, Flash(14, (0, 0), R0, true))),
    (16, Many(10, Flash(15, (0, 0), R0, true))),
];

/// Eight blocks, each of the last.
pub const DEEP: Entries = &[
    (10, Circle(5, 0)),
    (11, Block(&[Flash(10, (0, 0), R0, true)])),
    (12, Block(&[Flash(11, (0, 0), R0, true)])),
    (13, Block(&[Flash(12, (0, 0), R0, true)])),
    (14, Block(&[Flash(13, (0, 0), R0, true)])),
    (15, Block(&[Flash(14, (0, 0), R0, true)])),
    (16, Block(&[Flash(15, (0, 0), R0, true)])),
    (17, Block(&[Flash(16, (0, 0), R0, true)])),
    (18, Block(&[Flash(17, (0, 0), R0, true)])),
];
