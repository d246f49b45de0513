//! Strokes, edges and caps across the whole board.

use super::{Figure, MM, Sheet, TIES};
use crate::shapes::FAR;

/// Points that are 2 m from the lowest corner, by triangles of 3, 4, 5.
const STEEP: (i64, i64) = (1_200 * MM - FAR, 1_600 * MM - FAR);

const FLAT: (i64, i64) = (1_600 * MM - FAR, 1_200 * MM - FAR);

const FIGURES: &[Figure] = &[
    Figure::Draw((-FAR, -FAR), (FAR, FAR), 1),
    Figure::Draw((-FAR, -FAR), (FAR, FAR), 200 * MM),
    Figure::Draw((-FAR, FAR), (FAR, -FAR), 200 * MM),
    Figure::Draw((-FAR, FAR), (FAR, FAR), 200 * MM),
    Figure::Draw((FAR, FAR), (FAR, -FAR), 200 * MM),
    Figure::Draw((-800 * MM, -600 * MM), (800 * MM, 600 * MM), 200 * MM),
    Figure::Draw((-600 * MM, 800 * MM), (600 * MM, -800 * MM), 100 * MM),
    Figure::Draw((-FAR, -1), (FAR, 0), 1),
    Figure::Draw((FAR, FAR), (FAR, FAR), 200 * MM),
    Figure::Stroke((-FAR, -FAR), (FAR, FAR), 1, 200 * MM),
    Figure::Stroke((-FAR, FAR), (FAR, -FAR), 200 * MM, 200 * MM),
    Figure::Stroke((-FAR, FAR), (FAR, FAR), 200 * MM, 1),
    Figure::Stroke(
        (-800 * MM, -600 * MM),
        (800 * MM, 600 * MM),
        200 * MM,
        100 * MM,
    ),
    Figure::Stroke((-FAR, -1), (FAR, 0), 1, 1),
    Figure::Turn((FAR, -FAR), (-FAR, FAR), (-FAR, -FAR), 200 * MM),
    Figure::Turn((-FAR, FAR), (FAR, FAR), (0, 0), 1),
    Figure::Turn((FAR, FAR), (FAR, FAR), (-FAR, -FAR), 200 * MM),
    Figure::Turn((FAR, FAR), (-FAR, -FAR), (0, 0), 200 * MM),
    Figure::Turn((-FAR, FAR), (FAR, -FAR), (0, 0), 200 * MM),
    Figure::Turn(STEEP, FLAT, (-FAR, -FAR), 200 * MM),
    Figure::Turn(STEEP, STEEP, (-FAR, -FAR), 200 * MM),
    Figure::Turn((450 * MM, 0), (450 * MM, 0), (0, 0), 100 * MM),
    Figure::Turn((400 * MM, 0), (-400 * MM, 0), (0, 0), 200 * MM),
    Figure::Turn(
        (300 * MM, 400 * MM),
        (-400 * MM, -300 * MM),
        (0, 0),
        100 * MM,
    ),
];

/// With a pitch of 100 mm: 20 centres on the board, and up to 64 as they are seen from a point of it.
pub const ACROSS: Sheet = Sheet {
    figures: FIGURES,
    places: &[((0, 0), (0, 0))],
    rows: &[
        ((-1_900 * MM, 200 * MM, 20), (-1_975 * MM, 25 * MM, 159)),
        ((-2 * FAR, 200 * MM, 20), (-2 * FAR, 100 * MM, 40)),
        (
            (2 * FAR - 3_800 * MM, 200 * MM, 20),
            (2 * FAR - 3_900 * MM, 100 * MM, 40),
        ),
        ((-2_000 * MM, 200 * MM, 21), (-2_000 * MM, 40 * MM, 101)),
        (
            (-2 * FAR - 2_000 * MM, 200 * MM, 40),
            (-2 * FAR - 2_000 * MM, 100 * MM, 80),
        ),
        (
            (1 - 4_000 * MM, 126 * MM, 64),
            (1 - 4_000 * MM, 100 * MM, 80),
        ),
        ((4_000 * MM - 1, 1, 1), (1 - 4_000 * MM, 100 * MM, 80)),
    ],
};

/// With a pitch of 1 nm, about places where there are ties.
pub const EDGES: Sheet = Sheet {
    figures: FIGURES,
    places: &[
        ((0, 0), (0, 0)),
        // corners of the board
        ((0, 0), (2 * FAR, 2 * FAR)),
        ((0, 0), (-2 * FAR, 2 * FAR)),
        ((0, 0), (-2 * FAR, -2 * FAR)),
        ((0, 0), (2 * FAR, -2 * FAR)),
        // past the end of a capsule, and at the side and at a corner of a bar
        ((0, 0), (2 * FAR + 120 * MM, 2 * FAR + 160 * MM)),
        ((0, 0), (-200 * MM, 100 * MM)),
        ((0, 0), (1_480 * MM, 1_360 * MM)),
        // on the edges of strokes of rectangles, and at a corner of one
        ((0, 0), (200 * MM, 200 * MM)),
        ((0, 0), (0, 250 * MM)),
        ((0, 0), (1_800 * MM, 1_300 * MM)),
        // on a circle of 2 m: where its chord ends, at triangles of 7, 24, 25, and at its right end
        ((0, 0), (2_400 * MM - 2 * FAR, 3_200 * MM - 2 * FAR)),
        ((0, 0), (3_200 * MM - 2 * FAR, 2_400 * MM - 2 * FAR)),
        ((0, 0), (1_120 * MM - 2 * FAR, 3_840 * MM - 2 * FAR)),
        ((0, 0), (3_840 * MM - 2 * FAR, 1_120 * MM - 2 * FAR)),
        ((0, 0), (4_000 * MM - 2 * FAR, -2 * FAR)),
        // on the edges of its stroke
        ((0, 0), (3_360 * MM - 2 * FAR, 2_520 * MM - 2 * FAR)),
        ((0, 0), (3_040 * MM - 2 * FAR, 2_280 * MM - 2 * FAR)),
        ((0, 0), (4_200 * MM - 2 * FAR, -2 * FAR)),
    ],
    rows: TIES,
};
