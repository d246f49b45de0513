//! What lies at a place and in a box: worked out by hand.

use crate::layers::rows::{Drawn, Entered, Entries, Listed, Pointed, Side};
use Drawn::{Draw, Flash, Region};
use Entered::{Block, Circle};
use Listed::{One, Repeat};
use Side::Line;
use cam_units::Turn::{R0, R90};

/// Before all of any layer's items.
const ALL: usize = 1_000_000;

/// A ring from 4 to 8 half nm about its point, a disc of 20, and a block of the disc with the ring on it, clear.
const SHAPES: Entries = &[
    (10, Circle(8, 4)),
    (11, Circle(20, 0)),
    (
        12,
        Block(&[Flash(11, (0, 0), R0, true), Flash(10, (0, 0), R0, false)]),
    ),
];

pub const POINTED: &[Pointed] = &[
    // nothing
    Pointed {
        entries: SHAPES,
        items: &[],
        found: &[((0, 0), ALL, None)],
        enclosed: &[([-1_000, -1_000, 1_000, 1_000], 0, None)],
        whole: None,
    },
    // a clear ring over a disc, and a disc elsewhere
    Pointed {
        entries: SHAPES,
        items: &[
            One(Flash(11, (0, 0), R0, true)),
            One(Flash(10, (0, 0), R0, false)),
            One(Flash(11, (100, 0), R0, true)),
        ],
        found: &[
            // the ring, though it is clear, and under it the disc
            ((6, 0), ALL, Some(1)),
            ((6, 0), 3, Some(1)),
            ((6, 0), 2, Some(1)),
            ((6, 0), 1, Some(0)),
            ((6, 0), 0, None),
            // its hole
            ((0, 0), ALL, Some(0)),
            ((3, 0), ALL, Some(0)),
            // its edge, and beyond
            ((8, 0), ALL, Some(1)),
            ((9, 0), ALL, Some(0)),
            ((-20, 0), ALL, Some(0)),
            ((-21, 0), ALL, None),
            // in the box of the disc, and not on it
            ((20, 20), ALL, None),
            ((200, 0), ALL, Some(2)),
            ((200, 0), 2, None),
        ],
        enclosed: &[
            ([-20, -20, 20, 20], 0, Some(0)),
            ([-20, -20, 20, 20], 1, Some(1)),
            ([-20, -20, 20, 20], 2, None),
            ([-19, -20, 20, 20], 0, Some(1)),
            ([-20, -20, 20, 19], 0, Some(1)),
            ([-8, -8, 8, 8], 0, Some(1)),
            ([-8, -8, 7, 8], 0, None),
            ([180, -20, 220, 20], 0, Some(2)),
            ([-20, -20, 220, 20], 2, Some(2)),
            ([-20, -20, 220, 20], 3, None),
            ([-20, -20, 220, 20], ALL, None),
            // corners that are crossed
            ([20, 20, -20, -20], 0, None),
        ],
        whole: Some([-20, -20, 220, 20]),
    },
    // blocks, repeats, a draw and a region
    Pointed {
        entries: SHAPES,
        items: &[
            Repeat(3, 2, (50, 60), &[Flash(11, (0, 0), R0, true)]),
            One(Flash(12, (0, 60), R90, false)),
            One(Draw(11, (0, 0), (50, 0), false)),
            One(Region(
                (200, 0),
                &[Line((220, 0)), Line((220, 20)), Line((200, 0))],
                true,
            )),
        ],
        found: &[
            // the block's disc is clear and its ring dark, and both count
            ((0, 120), ALL, Some(1)),
            ((6, 120), ALL, Some(1)),
            ((6, 120), 1, Some(0)),
            ((0, 141), ALL, None),
            // the copies that stand last
            ((200, 120), ALL, Some(0)),
            ((200, 100), ALL, Some(0)),
            ((200, 99), ALL, None),
            // the draw lies over two of the copies
            ((100, 0), ALL, Some(2)),
            ((100, 0), 2, Some(0)),
            ((50, 20), ALL, Some(2)),
            ((50, 20), 2, None),
            ((200, 0), ALL, Some(0)),
            // inside of the region, and beside it in its box
            ((430, 10), ALL, Some(3)),
            ((410, 30), ALL, None),
        ],
        enclosed: &[
            ([-20, -20, 220, 140], 0, Some(0)),
            ([-20, -20, 220, 140], 1, Some(1)),
            ([-20, -20, 219, 140], 0, Some(1)),
            ([-20, -20, 120, 20], 0, Some(2)),
            ([-20, -20, 440, 139], 0, Some(2)),
            ([400, 0, 440, 40], 0, Some(3)),
        ],
        whole: Some([-20, -20, 440, 140]),
    },
];
