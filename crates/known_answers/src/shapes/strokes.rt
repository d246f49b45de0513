//! Worked places of the strokes of rectangles.

use super::{HIGHEST, LOWEST, ORIGIN, WIDE, Wanted};
use crate::shapes::FAR;
use cam_shapes::Swept;
use cam_units::{Nm, Point};

/// Along a line of 25 nm, from the origin up to the right: a corner goes along its edge.
const SLANTING: Swept = Swept {
    from: ORIGIN,
    to: Point { x: 15, y: 20 },
    width: Nm(8),
    height: Nm(6),
};

pub(super) const STROKES: &[(Swept, &[Wanted])] = &[
    (
        SLANTING,
        &[
            (15, 20, true),
            (-8, -6, true),
            (38, 46, true),
            (8, -6, true),
            (-8, 6, true),
            (38, 34, true),
            (22, 46, true),
            (23, 14, true),
            (9, -6, false),
            (-8, 7, false),
            (38, 33, false),
            (21, 46, false),
            (23, 13, false),
            (-9, -6, false),
            (-8, -7, false),
            (39, 46, false),
            (38, 47, false),
        ],
    ),
    // the same, back
    (
        Swept {
            from: Point { x: 15, y: 20 },
            to: ORIGIN,
            ..SLANTING
        },
        &[
            (8, -6, true),
            (22, 46, true),
            (9, -6, false),
            (21, 46, false),
        ],
    ),
    // down to the right
    (
        Swept {
            to: Point { x: 15, y: -20 },
            ..SLANTING
        },
        &[
            (8, 6, true),
            (38, -34, true),
            (9, 6, false),
            (38, -33, false),
        ],
    ),
    // level, upright, and of no length: boxes
    (
        Swept {
            to: Point { x: 10, y: 0 },
            ..SLANTING
        },
        &[(-8, -6, true), (28, 6, true), (29, 0, false), (0, 7, false)],
    ),
    (
        Swept {
            to: Point { x: 0, y: -10 },
            ..SLANTING
        },
        &[
            (-8, -26, true),
            (8, 6, true),
            (0, 7, false),
            (-9, -10, false),
        ],
    ),
    (
        Swept {
            to: ORIGIN,
            ..SLANTING
        },
        &[(8, 6, true), (-8, -6, true), (9, 0, false), (0, -7, false)],
    ),
    // a side of 0 covers nothing
    (
        Swept {
            width: Nm(0),
            ..SLANTING
        },
        &[(0, 0, false), (15, 20, false)],
    ),
    (
        Swept {
            height: Nm(0),
            ..SLANTING
        },
        &[(0, 0, false), (15, 20, false)],
    ),
    // across the board
    (
        Swept {
            from: LOWEST,
            to: HIGHEST,
            width: Nm(1),
            height: WIDE,
        },
        &[
            (0, 200_000_001, true),
            (0, 200_000_002, false),
            (2 * FAR + 1, 2 * FAR + 200_000_000, true),
            (2 * FAR + 2, 2 * FAR, false),
        ],
    ),
];
