//! Drill layers: images and boxes by an independent program, refusals by hand.

use crate::places::At;
use Drilled::{Hit, Rout};
use ItemFault::{Malformed, OutOfBoard, UnknownTool};
use cam_objects::ItemFault;

/// A hole or a slot: its tool, and its point or points in nm.
pub enum Drilled {
    Hit(u16, (i64, i64)),
    Rout(u16, &'static [(i64, i64)]),
}

/// The numbers of tools and their diameters in nm.
pub type Kit = &'static [(u16, i64)];

/// A drill layer, and places in half nm that are black and that are white.
pub struct Drilling {
    pub tools: Kit,
    pub items: &'static [Drilled],
    pub black: &'static [At],
    pub white: &'static [At],
}

/// A drill layer; places, each with the item before which is asked, and the topmost one there; the sides of boxes, each with
/// the place from which is asked, and the next item in it; and the box of the whole.
pub struct Pointed {
    pub tools: Kit,
    pub items: &'static [Drilled],
    pub found: &'static [(At, usize, Option<usize>)],
    pub enclosed: &'static [([i64; 4], usize, Option<usize>)],
    pub whole: [i64; 4],
}

pub const DRILL_POINTED: &[Pointed] = &[
    // two holes in one another, and a rout over them
    Pointed {
        tools: &[(1, 5), (2, 10)],
        items: &[
            Hit(2, (0, 0)),
            Hit(1, (0, 0)),
            Rout(1, &[(20, 0), (5, 0), (5, 20)]),
        ],
        found: &[
            ((3, 4), 9, Some(1)),
            ((3, 4), 1, Some(0)),
            ((3, 4), 0, None),
            ((6, 0), 9, Some(2)),
            ((6, 0), 2, Some(0)),
            ((15, 40), 9, Some(2)),
            ((16, 40), 9, None),
            ((10, 10), 2, None),
            ((-10, 0), 9, Some(0)),
            ((-11, 0), 9, None),
        ],
        enclosed: &[
            ([-10, -10, 10, 10], 0, Some(0)),
            ([-10, -10, 10, 10], 1, Some(1)),
            ([-10, -10, 10, 10], 2, None),
            ([-9, -10, 10, 10], 0, Some(1)),
            ([5, -5, 45, 45], 0, Some(2)),
            ([5, -5, 45, 44], 0, None),
        ],
        whole: [-10, -10, 45, 45],
    },
];

pub const DRILLINGS: &[Drilling] = &[
    // a hit, and a rout of one point: closed discs
    Drilling {
        tools: &[(1, 5), (2, 10)],
        items: &[Hit(1, (0, 0)), Rout(2, &[(20, 0)])],
        black: &[(3, 4), (-5, 0), (34, -8), (50, 0)],
        white: &[(3, 5), (-6, 0), (34, -9), (51, 0), (15, 0)],
    },
    // a rout of five points: a capsule from each to the next
    Drilling {
        tools: &[(7, 5)],
        items: &[Rout(7, &[(0, 0), (15, 20), (15, 40), (0, 40), (15, 20)])],
        black: &[
            (-4, 3),
            (26, 43),
            (34, 37),
            (25, 60),
            (33, 84),
            (0, 85),
            (-5, 80),
            (-3, 84),
            (20, 55),
            (15, 64),
            (10, 60),
            (4, -3),
            (-3, -4),
        ],
        white: &[(34, 36), (24, 60), (35, 84), (35, 85), (0, 86), (-3, -5)],
    },
    // a slot and a hole in millimetres
    Drilling {
        tools: &[(1, 800_000), (2, 1_000_000)],
        items: &[
            Hit(1, (1_000_000, 1_000_000)),
            Rout(
                2,
                &[
                    (3_000_000, 1_000_000),
                    (5_000_000, 1_000_000),
                    (5_000_000, 3_000_000),
                ],
            ),
        ],
        black: &[
            (10_600_000, 1_200_000),
            (2_800_000, 2_000_000),
            (6_000_000, 3_000_000),
            (10_000_000, 7_000_000),
            (11_000_000, 4_000_000),
        ],
        white: &[
            (2_900_000, 2_000_000),
            (2_800_001, 2_000_000),
            (10_600_001, 1_200_000),
            (6_000_000, 3_000_001),
        ],
    },
    // with the hole of the wider tool
    Drilling {
        tools: &[(1, 1_000_000)],
        items: &[Hit(1, (1_000_000, 1_000_000))],
        black: &[(2_900_000, 2_000_000), (3_000_000, 2_000_000)],
        white: &[(3_000_001, 2_000_000)],
    },
    // the least tool, and the edge of the board
    Drilling {
        tools: &[(9999, 1), (1, 200_000_000)],
        items: &[
            Hit(9999, (0, 0)),
            Rout(
                1,
                &[(-999_999_999, -999_999_999), (999_999_999, -999_999_999)],
            ),
        ],
        black: &[
            (0, 0),
            (1, 0),
            (0, -1_799_999_998),
            (1_999_999_999, -1_999_999_999),
        ],
        white: &[(1, 1), (2, 0), (0, -1_799_999_997)],
    },
];

/// Tools, an item, and its box in half nm: left, below, right, above.
pub type Boxed = (Kit, Drilled, [i64; 4]);

pub const DRILL_BOXES: &[Boxed] = &[
    (&[(1, 5)], Hit(1, (3, -4)), [1, -13, 11, -3]),
    (&[(1, 5)], Rout(1, &[(3, -4)]), [1, -13, 11, -3]),
    (
        &[(1, 5), (2, 7)],
        Rout(2, &[(3, -4), (0, 10), (-20, 5)]),
        [-47, -15, 13, 27],
    ),
    (
        &[(1, 200_000_000)],
        Rout(
            1,
            &[(-999_999_999, -999_999_999), (999_999_999, 999_999_999)],
        ),
        [-2_199_999_998, -2_199_999_998, 2_199_999_998, 2_199_999_998],
    ),
];

/// An item beside the tools 1 and 2, and why it is refused.
pub type Checked = (Drilled, Result<(), ItemFault>);

pub const DRILL_ITEMS: &[Checked] = &[
    // sound items
    (Hit(1, (999_999_999, -999_999_999)), Ok(())),
    (Rout(1, &[(0, 0)]), Ok(())),
    (
        Rout(2, &[(-999_999_999, 999_999_999), (0, 0), (0, 0)]),
        Ok(()),
    ),
    // no point, an unknown tool, and a point outside the board
    (Rout(1, &[]), Err(Malformed)),
    (Rout(3, &[]), Err(Malformed)),
    (Hit(0, (0, 0)), Err(UnknownTool)),
    (Hit(3, (1_000_000_000, 0)), Err(UnknownTool)),
    (Rout(10000, &[(0, -1_000_000_000)]), Err(UnknownTool)),
    (Hit(1, (1_000_000_000, 0)), Err(OutOfBoard)),
    (Hit(2, (0, -1_000_000_000)), Err(OutOfBoard)),
    (
        Rout(1, &[(0, 0), (1, 1), (0, 1_000_000_000)]),
        Err(OutOfBoard),
    ),
    (Rout(1, &[(-1_000_000_000, 0), (0, 0)]), Err(OutOfBoard)),
];

/// A rout of so many points, and whether it is refused.
pub type LongRout = (u32, Result<(), ItemFault>);

pub const LONG_ROUTS: &[LongRout] = &[(1_000_000, Ok(())), (1_000_001, Err(ItemFault::TooMuch))];

/// A tool and its diameter, and whether it may be added beside tool 5.
pub type Offered = (u16, i64, bool);

pub const KITS: &[Offered] = &[
    (1, 1, true),
    (0, 1, false),
    (9_999, 1, true),
    (10_000, 1, false),
    (65_535, 1, false),
    (1, 0, false),
    (1, -1, false),
    (1, 200_000_000, true),
    (1, 200_000_001, false),
    (5, 5, false),
    (4, 5, true),
];
