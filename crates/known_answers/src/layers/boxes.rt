//! Items and their boxes: worked out by an independent program.

use crate::layers::rows::{Boxed, Drawn, Entered, Listed, Side};
use Drawn::{Arc, Draw, Flash, Region, TurnedDraw};
use Entered::{Block, Circle, Obround, Rect};
use Listed::{One, Repeat};
use Side::{Curve, Line};
use Turn::{M0, M90, M270, R0, R90, R180};
use cam_units::Turn;

pub const BOXES: &[Boxed] = &[
    // flashes: the full sides, hole or not
    (
        &[(10, Rect(8, 4, 2))],
        One(Flash(10, (3, -5), R0, true)),
        Some([-2, -14, 14, -6]),
    ),
    (
        &[(10, Obround(8, 4, 0))],
        One(Flash(10, (3, -5), M90, false)),
        Some([2, -18, 10, -2]),
    ),
    // draws
    (
        &[(10, Circle(5, 0))],
        One(Draw(10, (15, 20), (-3, 2), false)),
        Some([-11, -1, 35, 45]),
    ),
    (
        &[(10, Circle(0, 0))],
        One(Draw(10, (1, 2), (1, 2), true)),
        Some([2, 4, 2, 4]),
    ),
    // draws with a rectangle, which is turned with them
    (
        &[(10, Rect(8, 6, 0))],
        One(TurnedDraw(10, (15, 20), (-3, 2), R180, false)),
        Some([-14, -2, 38, 46]),
    ),
    (
        &[(10, Rect(8, 6, 0))],
        One(TurnedDraw(10, (15, 20), (-3, 2), R90, true)),
        Some([-12, -4, 36, 48]),
    ),
    // arcs: the square about the centre, also of a short arc
    (
        &[(10, Circle(5, 0))],
        One(Arc(10, (25, 0), (0, 25), (0, 0), true, true)),
        Some([-56, -56, 56, 56]),
    ),
    (
        &[(10, Circle(5, 0))],
        One(Arc(10, (2, 1), (1, 2), (0, 0), false, true)),
        Some([-10, -10, 10, 10]),
    ),
    // an end off the circle
    (
        &[(10, Circle(5, 0))],
        One(Arc(10, (3, 4), (0, 40), (1, 1), true, true)),
        Some([-11, -11, 15, 85]),
    ),
    // across the board
    (
        &[(10, Circle(200_000_000, 0))],
        One(Arc(
            10,
            (-999_999_999, -999_999_999),
            (999_999_999, 999_999_999),
            (999_999_999, -999_999_999),
            true,
            true,
        )),
        Some([-2_199_999_999, -6_199_999_995, 6_199_999_995, 2_199_999_999]),
    ),
    // regions
    (
        &[],
        One(Region((1, 2), &[Line((5, -3)), Line((-2, 8))], true)),
        Some([-4, -6, 10, 16]),
    ),
    (
        &[],
        One(Region(
            (1, 2),
            &[Line((5, 2)), Curve((3, 4), (3, 2), false), Line((0, 9))],
            false,
        )),
        Some([0, -1, 11, 18]),
    ),
    // blocks, also in blocks
    (
        &[
            (10, Circle(5, 0)),
            (
                11,
                Block(&[
                    Arc(10, (25, 0), (0, 25), (0, 0), true, true),
                    Region(
                        (0, 0),
                        &[Line((-30, 0)), Curve((0, -30), (0, 0), true)],
                        true,
                    ),
                    Draw(10, (40, 0), (40, 20), true),
                ]),
            ),
        ],
        One(Flash(11, (100, -50), R0, true)),
        Some([139, -161, 285, -39]),
    ),
    (
        &[
            (10, Circle(5, 0)),
            (
                11,
                Block(&[
                    Arc(10, (25, 0), (0, 25), (0, 0), true, true),
                    Region(
                        (0, 0),
                        &[Line((-30, 0)), Curve((0, -30), (0, 0), true)],
                        true,
                    ),
                    Draw(10, (40, 0), (40, 20), true),
                ]),
            ),
        ],
        One(Flash(11, (100, -50), R90, true)),
        Some([139, -161, 261, -15]),
    ),
    (
        &[
            (10, Circle(5, 0)),
            (
                11,
                Block(&[
                    Arc(10, (25, 0), (0, 25), (0, 0), true, true),
                    Region(
                        (0, 0),
                        &[Line((-30, 0)), Curve((0, -30), (0, 0), true)],
                        true,
                    ),
                    Draw(10, (40, 0), (40, 20), true),
                ]),
            ),
        ],
        One(Flash(11, (100, -50), M0, true)),
        Some([115, -161, 261, -39]),
    ),
    (
        &[
            (10, Circle(5, 0)),
            (
                11,
                Block(&[
                    Arc(10, (25, 0), (0, 25), (0, 0), true, true),
                    Region(
                        (0, 0),
                        &[Line((-30, 0)), Curve((0, -30), (0, 0), true)],
                        true,
                    ),
                    Draw(10, (40, 0), (40, 20), true),
                ]),
            ),
        ],
        One(Flash(11, (100, -50), M270, false)),
        Some([139, -161, 261, -15]),
    ),
    (
        &[
            (10, Circle(20, 0)),
            (11, Circle(8, 0)),
            (
                12,
                Block(&[Flash(10, (0, 0), R0, true), Flash(11, (10, 0), R0, false)]),
            ),
            (
                13,
                Block(&[Flash(12, (0, 0), R90, false), Flash(12, (40, 0), M0, true)]),
            ),
            (
                14,
                Block(&[
                    Flash(13, (0, 30), R180, false),
                    Flash(11, (0, 0), R0, false),
                ]),
            ),
        ],
        One(Flash(14, (7, 8), R90, true)),
        Some([-66, -84, 22, 36]),
    ),
    // a block without objects
    (
        &[
            (11, Block(&[])),
            (12, Block(&[Flash(11, (5, 5), R0, true)])),
        ],
        One(Flash(12, (9, 9), R0, true)),
        None,
    ),
    // repeats
    (
        &[(10, Circle(8, 0)), (11, Circle(4, 0))],
        Repeat(3, 2, (10, 20), &[Flash(10, (1, 1), R0, true)]),
        Some([-6, -6, 50, 50]),
    ),
    (
        &[(10, Circle(8, 0)), (11, Circle(4, 0))],
        Repeat(
            3,
            2,
            (-10, 20),
            &[Flash(10, (1, 1), R0, true), Draw(11, (0, 0), (5, 0), false)],
        ),
        Some([-46, -6, 14, 50]),
    ),
    (
        &[(10, Circle(8, 0)), (11, Circle(4, 0))],
        Repeat(1, 4, (-10, -20), &[Flash(10, (1, 1), R0, true)]),
        Some([-6, -126, 10, 10]),
    ),
    (
        &[
            (10, Circle(8, 0)),
            (11, Circle(4, 0)),
            (12, Block(&[Flash(10, (3, 0), R0, true)])),
        ],
        Repeat(2, 2, (100, -100), &[Flash(12, (1, 1), M90, true)]),
        Some([-6, -212, 210, 4]),
    ),
];
