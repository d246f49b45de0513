//! Figures of some tens of nm, with a pitch of 1 nm.

use super::{Figure, Run, Sheet};

/// Rows of 64 centres about a point so far out end at the edge of the board.
pub const NEAR: i64 = 999_999_968;

/// About the origin. Triangles of 3, 4, 5 and of 7, 24, 25 give ties.
const FIGURES: &[Figure] = &[
    Figure::Flash(0, 10),
    Figure::Flash(10, 0),
    Figure::Flash(1, 1),
    Figure::Flash(2, 3),
    Figure::Flash(25, 7),
    Figure::Flash(10, 25),
    Figure::Flash(50, 50),
    Figure::Flash(40, 15),
    Figure::Flash(15, 40),
    Figure::Flash(65, 5),
    Figure::Flash(64, 64),
    Figure::Flash(200, 150),
    // level, upright, along a diagonal, and beside triangles of 3, 4, 5
    Figure::Draw((-20, 0), (20, 0), 10),
    Figure::Draw((20, 5), (-20, 5), 3),
    Figure::Draw((0, -15), (0, 20), 7),
    Figure::Draw((-8, 12), (-8, -12), 4),
    Figure::Draw((-10, -10), (10, 10), 9),
    Figure::Draw((-10, 10), (10, -10), 9),
    Figure::Draw((-16, -12), (16, 12), 10),
    Figure::Draw((12, -16), (-12, 16), 10),
    Figure::Draw((-9, 12), (9, -12), 5),
    Figure::Draw((3, 4), (-3, -4), 60),
    // nearly level, nearly upright, and wherever
    Figure::Draw((-31, 0), (31, 1), 2),
    Figure::Draw((1, -31), (0, 31), 2),
    Figure::Draw((-31, -7), (30, 12), 4),
    Figure::Draw((-5, 31), (8, -31), 20),
    Figure::Draw((-31, -31), (31, 31), 1),
    Figure::Draw((31, -31), (-31, 31), 1),
    // short ones, and one without a width
    Figure::Draw((0, 0), (1, 0), 1),
    Figure::Draw((0, 0), (0, 1), 1),
    Figure::Draw((5, 5), (5, 5), 12),
    Figure::Draw((-10, 3), (12, 7), 0),
    // strokes of rectangles: level, upright, along a diagonal, and along triangles of 3, 4, 5
    Figure::Stroke((-20, 0), (20, 0), 10, 4),
    Figure::Stroke((0, -15), (0, 20), 7, 3),
    Figure::Stroke((-10, -10), (10, 10), 9, 4),
    Figure::Stroke((-16, -12), (16, 12), 10, 5),
    Figure::Stroke((-9, 12), (9, -12), 5, 8),
    // nearly level, nearly upright, and wherever
    Figure::Stroke((-31, 0), (31, 1), 2, 2),
    Figure::Stroke((1, -31), (0, 31), 2, 6),
    Figure::Stroke((-31, -7), (30, 12), 4, 1),
    Figure::Stroke((-5, 31), (8, -31), 20, 1),
    // short ones, wider than long, and one without a side
    Figure::Stroke((0, 0), (1, 1), 1, 1),
    Figure::Stroke((5, 5), (5, 5), 12, 6),
    Figure::Stroke((3, 4), (-3, -4), 60, 50),
    Figure::Stroke((-10, 3), (12, 7), 0, 5),
    // quarters
    Figure::Turn((10, 0), (0, 10), (0, 0), 5),
    Figure::Turn((0, 10), (-10, 0), (0, 0), 5),
    Figure::Turn((-10, 0), (0, -10), (0, 0), 5),
    Figure::Turn((0, -10), (10, 0), (0, 0), 5),
    // half turns: level, upright and else
    Figure::Turn((10, 0), (-10, 0), (0, 0), 5),
    Figure::Turn((0, -10), (0, 10), (0, 0), 5),
    Figure::Turn((6, 8), (-6, -8), (0, 0), 5),
    Figure::Turn((8, -6), (-8, 6), (0, 0), 5),
    // more and less than a half turn: chords level, upright and else
    Figure::Turn((6, 8), (-6, 8), (0, 0), 5),
    Figure::Turn((-6, -8), (6, -8), (0, 0), 5),
    Figure::Turn((8, -6), (8, 6), (0, 0), 5),
    Figure::Turn((-8, 6), (-8, -6), (0, 0), 5),
    Figure::Turn((8, 6), (-8, 7), (0, 0), 5),
    Figure::Turn((-8, -6), (8, 7), (0, 0), 5),
    // a nanometre, and all but it
    Figure::Turn((10, 0), (10, 1), (0, 0), 4),
    // whole circles
    Figure::Turn((6, 8), (6, 8), (0, 0), 5),
    Figure::Turn((25, 0), (25, 0), (0, 0), 12),
    // ends off the circle
    Figure::Turn((10, 0), (0, 12), (0, 0), 3),
    Figure::Turn((0, 7), (-15, 0), (0, 0), 3),
    // as wide as the circle, and wider
    Figure::Turn((3, 4), (-4, 3), (0, 0), 10),
    Figure::Turn((3, 4), (-4, 3), (0, 0), 11),
    Figure::Turn((3, 4), (-4, -3), (0, 0), 40),
    Figure::Turn((1, 0), (0, 1), (0, 0), 1),
    // without a radius, and without a width
    Figure::Turn((0, 0), (10, 0), (0, 0), 8),
    Figure::Turn((0, 0), (0, 0), (0, 0), 8),
    Figure::Turn((6, 8), (0, 0), (0, 0), 8),
    Figure::Turn((10, 0), (0, 10), (0, 0), 0),
    // about another centre
    Figure::Turn((10, 1), (3, 0), (7, -3), 3),
    Figure::Turn((30, -5), (20, 25), (-25, 0), 7),
];

/// Each height where a figure may have its ties.
const HEIGHTS: Run = (-64, 1, 129);

/// Heights where many have some.
const FIFTHS: Run = (-60, 5, 25);

/// In the middle of the board.
pub const MIDDLE: Sheet = Sheet {
    figures: FIGURES,
    places: &[((0, 0), (0, 0))],
    rows: &[
        ((-63, 2, 64), HEIGHTS),
        ((-62, 2, 63), HEIGHTS),
        ((-20, 2, 1), HEIGHTS),
        ((15, 2, 1), HEIGHTS),
        ((-60, 5, 24), FIFTHS),
    ],
};

/// At its corners, in rows up to them.
pub const CORNERS: Sheet = Sheet {
    figures: FIGURES,
    places: &[
        ((NEAR, NEAR), (2 * NEAR, 2 * NEAR)),
        ((-NEAR, NEAR), (-2 * NEAR, 2 * NEAR)),
        ((-NEAR, -NEAR), (-2 * NEAR, -2 * NEAR)),
        ((NEAR, -NEAR), (2 * NEAR, -2 * NEAR)),
    ],
    rows: &[
        ((-63, 2, 64), FIFTHS),
        ((-62, 2, 63), FIFTHS),
        ((-63, 2, 1), FIFTHS),
        ((63, 2, 1), FIFTHS),
    ],
};
