//! Entries and items at the limits: worked out by hand.

use crate::layers::dictionaries::{BASE, DEEP, FULL, TENS};
use crate::layers::rows::{Added, Drawn, Entered, Filled, Listed, Side};
use Drawn::{Arc, Draw, Flash, Region, Zigzag};
use Entered::{Block, Circle, Many, Obround, Rect};
use Listed::{One, Repeat};
use Side::Line;
use Turn::R0;
use cam_units::Turn;

/// Entries that may be added or not.
pub const ENTRIES: &[Added] = &[
    // numbers
    (&[], 10, Circle(5, 0), true),
    (&[], 9, Circle(5, 0), false),
    (&[], 0, Circle(5, 0), false),
    (&[], 2_147_483_647, Circle(5, 0), true),
    (&[], 2_147_483_648, Circle(5, 0), false),
    (&[], 4_294_967_295, Circle(5, 0), false),
    (BASE, 10, Circle(5, 0), false),
    (BASE, 15, Circle(1, 0), false),
    (BASE, 17, Circle(5, 0), true),
    // sizes
    (&[], 10, Circle(0, 0), true),
    (&[], 10, Circle(200_000_000, 200_000_000), true),
    (&[], 10, Circle(200_000_001, 0), false),
    (&[], 10, Circle(-1, 0), false),
    (&[], 10, Circle(5, -1), false),
    (&[], 10, Circle(5, 200_000_001), false),
    (&[], 10, Circle(5, 6), true),
    (&[], 10, Rect(1, 1, 0), true),
    (&[], 10, Rect(0, 1, 0), false),
    (&[], 10, Rect(1, 0, 0), false),
    (&[], 10, Rect(200_000_000, 200_000_000, 200_000_000), true),
    (&[], 10, Rect(200_000_001, 1, 0), false),
    (&[], 10, Rect(1, 200_000_001, 0), false),
    (&[], 10, Rect(1, 1, -1), false),
    (&[], 10, Obround(1, 1, 0), true),
    (&[], 10, Obround(0, 1, 0), false),
    (&[], 10, Obround(1, -1, 0), false),
    (&[], 10, Obround(200_000_000, 200_000_001, 0), false),
    (&[], 10, Obround(1, 1, 200_000_001), false),
    // blocks: without an object, of earlier entries, of the number itself, of a later one
    (BASE, 17, Block(&[]), true),
    (
        BASE,
        17,
        Block(&[
            Flash(10, (0, 0), R0, true),
            Draw(14, (0, 0), (0, 0), true),
            Region((0, 0), &[Line((4, 0)), Line((0, 4))], false),
            Flash(15, (0, 0), R0, true),
        ]),
        true,
    ),
    (BASE, 17, Block(&[Flash(17, (0, 0), R0, true)]), false),
    (
        BASE,
        17,
        Block(&[Flash(10, (0, 0), R0, true), Flash(18, (0, 0), R0, true)]),
        false,
    ),
    // of objects that are refused as items
    (BASE, 17, Block(&[Region((0, 0), &[], true)]), false),
    (
        BASE,
        17,
        Block(&[Flash(10, (0, 0), R0, true), Draw(12, (0, 0), (0, 0), true)]),
        true,
    ),
    (
        BASE,
        17,
        Block(&[Flash(10, (0, 0), R0, true), Draw(16, (0, 0), (0, 0), true)]),
        false,
    ),
    (
        BASE,
        17,
        Block(&[
            Flash(10, (0, 0), R0, true),
            Arc(10, (0, 0), (0, 0), (0, 0), true, true),
        ]),
        false,
    ),
    (
        BASE,
        17,
        Block(&[
            Flash(10, (0, 0), R0, true),
            Flash(10, (1_000_000_000, 0), R0, true),
        ]),
        false,
    ),
    (
        BASE,
        17,
        Block(&[
            Flash(10, (0, 0), R0, true),
            Flash(13, (999_999_990, 0), R0, true),
        ]),
        false,
    ),
    // 8 blocks in one another, and 9
    (DEEP, 19, Block(&[Flash(17, (0, 0), R0, true)]), true),
    (
        DEEP,
        19,
        Block(&[
            Flash(10, (0, 0), R0, true),
            Flash(18, (0, 0), R0, true),
            Flash(11, (0, 0), R0, true),
        ]),
        false,
    ),
    (
        DEEP,
        19,
        Block(&[Flash(10, (0, 0), R0, true), Zigzag(1)]),
        true,
    ),
    // 4,000,000 leaves, and one more
    (FULL, 17, Block(&[Flash(16, (0, 0), R0, true)]), true),
    (
        FULL,
        17,
        Block(&[Flash(16, (0, 0), R0, true), Flash(10, (0, 0), R0, true)]),
        false,
    ),
    (FULL, 17, Many(2, Flash(16, (0, 0), R0, true)), false),
    (TENS, 17, Many(3, Flash(16, (0, 0), R0, true)), true),
    (TENS, 17, Many(10, Flash(16, (0, 0), R0, true)), false),
    (TENS, 17, Many(9, Flash(16, (0, 0), R0, true)), false),
    // a million objects, and a million segments
    (BASE, 17, Many(1_000_000, Flash(10, (0, 0), R0, true)), true),
    (
        BASE,
        17,
        Many(1_000_001, Flash(10, (0, 0), R0, true)),
        false,
    ),
    (BASE, 17, Block(&[Zigzag(1_000_000)]), true),
    (BASE, 17, Block(&[Zigzag(1_000_001)]), false),
];

/// Layers that have room for an item or not.
pub const ROOMS: &[Filled] = &[
    // items of 4,000,000 leaves
    (
        BASE,
        &[],
        Repeat(2_000, 2_000, (0, 0), &[Flash(10, (0, 0), R0, true)]),
        true,
    ),
    (
        BASE,
        &[Repeat(2_000, 1_999, (0, 0), &[Flash(10, (0, 0), R0, true)])],
        Repeat(2_000, 1, (0, 0), &[Flash(10, (0, 0), R0, true)]),
        true,
    ),
    (
        BASE,
        &[Repeat(2_000, 1_999, (0, 0), &[Flash(10, (0, 0), R0, true)])],
        Repeat(2_001, 1, (0, 0), &[Flash(10, (0, 0), R0, true)]),
        false,
    ),
    (
        BASE,
        &[
            Repeat(2_000, 1_999, (0, 0), &[Flash(10, (0, 0), R0, true)]),
            Repeat(1_999, 1, (0, 0), &[Flash(10, (0, 0), R0, true)]),
        ],
        One(Flash(10, (0, 0), R0, true)),
        true,
    ),
    (
        BASE,
        &[
            Repeat(2_000, 1_999, (0, 0), &[Flash(10, (0, 0), R0, true)]),
            Repeat(1_999, 1, (0, 0), &[Flash(10, (0, 0), R0, true)]),
            One(Flash(10, (0, 0), R0, true)),
        ],
        One(Flash(10, (0, 0), R0, true)),
        false,
    ),
    (
        BASE,
        &[
            Repeat(2_000, 1_999, (0, 0), &[Flash(10, (0, 0), R0, true)]),
            Repeat(1_999, 1, (0, 0), &[Flash(10, (0, 0), R0, true)]),
        ],
        One(Flash(13, (0, 0), R0, true)),
        false,
    ),
    (FULL, &[], One(Flash(16, (0, 0), R0, true)), true),
    (
        FULL,
        &[One(Flash(16, (0, 0), R0, true))],
        One(Flash(10, (0, 0), R0, true)),
        false,
    ),
    (
        FULL,
        &[One(Flash(10, (0, 0), R0, true))],
        One(Flash(16, (0, 0), R0, true)),
        false,
    ),
    (
        TENS,
        &[
            One(Flash(16, (0, 0), R0, true)),
            One(Flash(16, (0, 0), R0, true)),
            One(Flash(16, (0, 0), R0, true)),
        ],
        One(Flash(15, (0, 0), R0, true)),
        true,
    ),
    (
        TENS,
        &[
            One(Flash(16, (0, 0), R0, true)),
            One(Flash(16, (0, 0), R0, true)),
            One(Flash(16, (0, 0), R0, true)),
        ],
        One(Flash(16, (0, 0), R0, true)),
        false,
    ),
];
