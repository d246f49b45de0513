//! Apertures, what they cover, their boxes, and which of them draw lines: worked out by hand.

use cam_units::Turn;

/// The text behind AM of its macro, empty where it has none, and the text behind AD.
pub(crate) type Text = (&'static [u8], &'static [u8]);

const CIRCLE_WITH_HOLE: Text = (b"", b"D10C,1X0.5");

const CIRCLE: Text = (b"", b"D10C,1");

const CIRCLE_OF_NO_SIZE: Text = (b"", b"D10C,0");

const RECTANGLE: Text = (b"", b"D10R,2X1");

const RECTANGLE_WITH_HOLE: Text = (b"", b"D10R,2X1X0.5");

const LYING_OBROUND: Text = (b"", b"D10O,2X1");

const STANDING_OBROUND_WITH_HOLE: Text = (b"", b"D10O,1X2X0.5");

const ROUND_OBROUND: Text = (b"", b"D10O,1X1");
/// A dark disc, a clear one over it, and a dark one over that.
const DARK_AGAIN: Text = (b"M*1,1,2,0,0*1,0,1,0,0*1,1,0.2,0,0", b"D10M");
/// 1.5 by 1 mm, its corners of a radius of 0.25 mm, as KiCad writes it.
const ROUNDED_RECTANGLE: Text = (
    b"M*4,1,4,-0.5,-0.25,0.5,-0.25,0.5,0.25,-0.5,0.25,-0.5,-0.25,0*\
        1,1,0.5,-0.5,-0.25*1,1,0.5,0.5,-0.25*1,1,0.5,0.5,0.25*1,1,0.5,-0.5,0.25*\
        20,1,0.5,-0.5,-0.25,0.5,-0.25,0*20,1,0.5,0.5,-0.25,0.5,0.25,0*\
        20,1,0.5,0.5,0.25,-0.5,0.25,0*20,1,0.5,-0.5,0.25,-0.5,-0.25,0",
    b"D10M",
);
/// A rectangle and a disc above its left end.
const WITHOUT_SYMMETRY: Text = (b"M*21,1,3,1,1.5,0.5*1,1,1,0.5,2", b"D10M");
/// A dark disc, a clear square beside it, and a disc of diameter 0.
const CLEAR_BESIDE: Text = (b"M*1,1,1,0,0*21,0,1,1,5,0*1,1,0,0,7", b"D10M");

const SLANTING_BAR: Text = (b"M*20,1,1,0,0,3,4", b"D10M");

pub const NOTHING: Text = (b"M*0 no primitive", b"D10M");

/// An aperture, a turn, a place in half nm from the flash point, and whether it is covered there.
pub(crate) type Place = (Text, Turn, (i32, i32), bool);

pub const PLACES: &[Place] = &[
    (CIRCLE, Turn::R0, (1_000_000, 0), true),
    (CIRCLE, Turn::R0, (1_000_001, 0), false),
    (CIRCLE, Turn::M90, (600_000, 800_000), true),
    (CIRCLE, Turn::M90, (600_001, 800_000), false),
    (CIRCLE_OF_NO_SIZE, Turn::R0, (0, 0), false),
    (CIRCLE_WITH_HOLE, Turn::R0, (0, 0), false),
    (CIRCLE_WITH_HOLE, Turn::R0, (500_000, 0), true),
    (CIRCLE_WITH_HOLE, Turn::R0, (499_999, 0), false),
    (CIRCLE_WITH_HOLE, Turn::R90, (300_000, 400_000), true),
    (CIRCLE_WITH_HOLE, Turn::R90, (300_000, 399_999), false),
    (RECTANGLE_WITH_HOLE, Turn::R0, (2_000_000, 1_000_000), true),
    (RECTANGLE_WITH_HOLE, Turn::R0, (2_000_001, 0), false),
    (RECTANGLE_WITH_HOLE, Turn::R0, (2_000_000, 0), true),
    (RECTANGLE_WITH_HOLE, Turn::R90, (2_000_000, 0), false),
    (RECTANGLE_WITH_HOLE, Turn::R90, (1_000_000, 2_000_000), true),
    (RECTANGLE_WITH_HOLE, Turn::R90, (0, 2_000_000), true),
    (RECTANGLE_WITH_HOLE, Turn::R90, (0, 2_000_001), false),
    (RECTANGLE_WITH_HOLE, Turn::R90, (500_000, 0), true),
    (RECTANGLE_WITH_HOLE, Turn::R90, (0, 499_999), false),
    (LYING_OBROUND, Turn::R0, (2_000_000, 0), true),
    (LYING_OBROUND, Turn::R0, (2_000_000, 1), false),
    (LYING_OBROUND, Turn::R0, (1_000_000, 1_000_000), true),
    (LYING_OBROUND, Turn::R0, (1_600_000, 800_000), true),
    (LYING_OBROUND, Turn::R0, (1_600_001, 800_000), false),
    (LYING_OBROUND, Turn::R90, (0, 2_000_000), true),
    (LYING_OBROUND, Turn::R90, (2_000_000, 0), false),
    (LYING_OBROUND, Turn::R90, (1_000_000, 1_000_000), true),
    (STANDING_OBROUND_WITH_HOLE, Turn::R0, (0, 2_000_000), true),
    (
        STANDING_OBROUND_WITH_HOLE,
        Turn::R0,
        (1_000_000, 1_000_000),
        true,
    ),
    (STANDING_OBROUND_WITH_HOLE, Turn::R0, (0, 0), false),
    (STANDING_OBROUND_WITH_HOLE, Turn::R270, (2_000_000, 0), true),
    (
        STANDING_OBROUND_WITH_HOLE,
        Turn::R0,
        (800_000, 1_600_000),
        true,
    ),
    (
        STANDING_OBROUND_WITH_HOLE,
        Turn::R0,
        (800_001, 1_600_000),
        false,
    ),
    (ROUND_OBROUND, Turn::R0, (600_000, 800_000), true),
    (ROUND_OBROUND, Turn::R0, (600_001, 800_000), false),
    (ROUND_OBROUND, Turn::R90, (1_000_000, 0), true),
    (ROUND_OBROUND, Turn::R90, (1_000_000, 1), false),
    (DARK_AGAIN, Turn::R0, (2_000_000, 0), true),
    (DARK_AGAIN, Turn::R0, (1_000_000, 0), false),
    (DARK_AGAIN, Turn::R0, (1_000_001, 0), true),
    (DARK_AGAIN, Turn::R0, (200_001, 0), false),
    (DARK_AGAIN, Turn::R0, (200_000, 0), true),
    (DARK_AGAIN, Turn::R0, (0, 0), true),
    (ROUNDED_RECTANGLE, Turn::R0, (1_300_000, 900_000), true),
    (ROUNDED_RECTANGLE, Turn::R0, (1_300_001, 900_000), false),
    (ROUNDED_RECTANGLE, Turn::R0, (1_300_000, 900_001), false),
    (ROUNDED_RECTANGLE, Turn::R0, (1_500_000, 0), true),
    (ROUNDED_RECTANGLE, Turn::R0, (1_500_001, 0), false),
    (ROUNDED_RECTANGLE, Turn::R90, (-900_000, 1_300_000), true),
    (ROUNDED_RECTANGLE, Turn::R90, (-900_001, 1_300_000), false),
    (WITHOUT_SYMMETRY, Turn::R0, (6_000_000, 0), true),
    (WITHOUT_SYMMETRY, Turn::R0, (1_000_000, 5_000_000), true),
    (WITHOUT_SYMMETRY, Turn::R0, (-1_000_000, 5_000_000), false),
    (WITHOUT_SYMMETRY, Turn::R0, (5_000_000, 1_000_000), true),
    (WITHOUT_SYMMETRY, Turn::R90, (6_000_000, 0), false),
    (WITHOUT_SYMMETRY, Turn::R90, (1_000_000, 5_000_000), false),
    (WITHOUT_SYMMETRY, Turn::R90, (-1_000_000, 5_000_000), true),
    (WITHOUT_SYMMETRY, Turn::R90, (5_000_000, 1_000_000), false),
    (WITHOUT_SYMMETRY, Turn::R180, (6_000_000, 0), false),
    (WITHOUT_SYMMETRY, Turn::R180, (1_000_000, 5_000_000), false),
    (WITHOUT_SYMMETRY, Turn::R180, (-1_000_000, 5_000_000), false),
    (WITHOUT_SYMMETRY, Turn::R180, (5_000_000, 1_000_000), false),
    (WITHOUT_SYMMETRY, Turn::R270, (6_000_000, 0), false),
    (WITHOUT_SYMMETRY, Turn::R270, (1_000_000, 5_000_000), false),
    (WITHOUT_SYMMETRY, Turn::R270, (-1_000_000, 5_000_000), false),
    (WITHOUT_SYMMETRY, Turn::R270, (5_000_000, 1_000_000), false),
    (WITHOUT_SYMMETRY, Turn::M0, (6_000_000, 0), false),
    (WITHOUT_SYMMETRY, Turn::M0, (1_000_000, 5_000_000), false),
    (WITHOUT_SYMMETRY, Turn::M0, (-1_000_000, 5_000_000), true),
    (WITHOUT_SYMMETRY, Turn::M0, (5_000_000, 1_000_000), false),
    (WITHOUT_SYMMETRY, Turn::M90, (6_000_000, 0), false),
    (WITHOUT_SYMMETRY, Turn::M90, (1_000_000, 5_000_000), false),
    (WITHOUT_SYMMETRY, Turn::M90, (-1_000_000, 5_000_000), false),
    (WITHOUT_SYMMETRY, Turn::M90, (5_000_000, 1_000_000), false),
    (WITHOUT_SYMMETRY, Turn::M180, (6_000_000, 0), true),
    (WITHOUT_SYMMETRY, Turn::M180, (1_000_000, 5_000_000), false),
    (WITHOUT_SYMMETRY, Turn::M180, (-1_000_000, 5_000_000), false),
    (WITHOUT_SYMMETRY, Turn::M180, (5_000_000, 1_000_000), false),
    (WITHOUT_SYMMETRY, Turn::M270, (6_000_000, 0), false),
    (WITHOUT_SYMMETRY, Turn::M270, (1_000_000, 5_000_000), true),
    (WITHOUT_SYMMETRY, Turn::M270, (-1_000_000, 5_000_000), false),
    (WITHOUT_SYMMETRY, Turn::M270, (5_000_000, 1_000_000), true),
    (SLANTING_BAR, Turn::R0, (6_000_000, 8_000_000), true),
    (SLANTING_BAR, Turn::R0, (6_800_000, 7_400_000), true),
    (SLANTING_BAR, Turn::R0, (6_800_001, 7_400_000), false),
    (SLANTING_BAR, Turn::R0, (-1, 0), false),
    (SLANTING_BAR, Turn::R90, (-8_000_000, 6_000_000), true),
    (CLEAR_BESIDE, Turn::R0, (10_000_000, 0), false),
    (CLEAR_BESIDE, Turn::R0, (0, 14_000_000), false),
];

/// An aperture, a turn, and its box in half nm from the flash point: left, below, right, above.
pub(crate) type Boxed = (Text, Turn, [i64; 4]);

pub const BOXES: &[Boxed] = &[
    (
        CIRCLE_WITH_HOLE,
        Turn::R0,
        [-1_000_000, -1_000_000, 1_000_000, 1_000_000],
    ),
    (
        CIRCLE_WITH_HOLE,
        Turn::R90,
        [-1_000_000, -1_000_000, 1_000_000, 1_000_000],
    ),
    (
        CIRCLE,
        Turn::R0,
        [-1_000_000, -1_000_000, 1_000_000, 1_000_000],
    ),
    (
        CIRCLE,
        Turn::R90,
        [-1_000_000, -1_000_000, 1_000_000, 1_000_000],
    ),
    (CIRCLE_OF_NO_SIZE, Turn::R0, [0, 0, 0, 0]),
    (CIRCLE_OF_NO_SIZE, Turn::R90, [0, 0, 0, 0]),
    (
        RECTANGLE_WITH_HOLE,
        Turn::R0,
        [-2_000_000, -1_000_000, 2_000_000, 1_000_000],
    ),
    (
        RECTANGLE_WITH_HOLE,
        Turn::R90,
        [-1_000_000, -2_000_000, 1_000_000, 2_000_000],
    ),
    (
        RECTANGLE_WITH_HOLE,
        Turn::R180,
        [-2_000_000, -1_000_000, 2_000_000, 1_000_000],
    ),
    (
        RECTANGLE_WITH_HOLE,
        Turn::R270,
        [-1_000_000, -2_000_000, 1_000_000, 2_000_000],
    ),
    (
        RECTANGLE_WITH_HOLE,
        Turn::M0,
        [-2_000_000, -1_000_000, 2_000_000, 1_000_000],
    ),
    (
        RECTANGLE_WITH_HOLE,
        Turn::M90,
        [-1_000_000, -2_000_000, 1_000_000, 2_000_000],
    ),
    (
        RECTANGLE_WITH_HOLE,
        Turn::M180,
        [-2_000_000, -1_000_000, 2_000_000, 1_000_000],
    ),
    (
        RECTANGLE_WITH_HOLE,
        Turn::M270,
        [-1_000_000, -2_000_000, 1_000_000, 2_000_000],
    ),
    (
        LYING_OBROUND,
        Turn::R0,
        [-2_000_000, -1_000_000, 2_000_000, 1_000_000],
    ),
    (
        LYING_OBROUND,
        Turn::R90,
        [-1_000_000, -2_000_000, 1_000_000, 2_000_000],
    ),
    (
        STANDING_OBROUND_WITH_HOLE,
        Turn::R0,
        [-1_000_000, -2_000_000, 1_000_000, 2_000_000],
    ),
    (
        STANDING_OBROUND_WITH_HOLE,
        Turn::R90,
        [-2_000_000, -1_000_000, 2_000_000, 1_000_000],
    ),
    (
        ROUND_OBROUND,
        Turn::R0,
        [-1_000_000, -1_000_000, 1_000_000, 1_000_000],
    ),
    (
        ROUND_OBROUND,
        Turn::R90,
        [-1_000_000, -1_000_000, 1_000_000, 1_000_000],
    ),
    (
        DARK_AGAIN,
        Turn::R0,
        [-2_000_000, -2_000_000, 2_000_000, 2_000_000],
    ),
    (
        DARK_AGAIN,
        Turn::R90,
        [-2_000_000, -2_000_000, 2_000_000, 2_000_000],
    ),
    (
        ROUNDED_RECTANGLE,
        Turn::R0,
        [-1_500_000, -1_000_000, 1_500_000, 1_000_000],
    ),
    (
        ROUNDED_RECTANGLE,
        Turn::R90,
        [-1_000_000, -1_500_000, 1_000_000, 1_500_000],
    ),
    (WITHOUT_SYMMETRY, Turn::R0, [0, 0, 6_000_000, 5_000_000]),
    (WITHOUT_SYMMETRY, Turn::R90, [-5_000_000, 0, 0, 6_000_000]),
    (WITHOUT_SYMMETRY, Turn::R180, [-6_000_000, -5_000_000, 0, 0]),
    (WITHOUT_SYMMETRY, Turn::R270, [0, -6_000_000, 5_000_000, 0]),
    (WITHOUT_SYMMETRY, Turn::M0, [-6_000_000, 0, 0, 5_000_000]),
    (WITHOUT_SYMMETRY, Turn::M90, [-5_000_000, -6_000_000, 0, 0]),
    (WITHOUT_SYMMETRY, Turn::M180, [0, -5_000_000, 6_000_000, 0]),
    (WITHOUT_SYMMETRY, Turn::M270, [0, 0, 5_000_000, 6_000_000]),
    (
        CLEAR_BESIDE,
        Turn::R0,
        [-1_000_000, -1_000_000, 11_000_000, 14_000_000],
    ),
    (
        CLEAR_BESIDE,
        Turn::R90,
        [-14_000_000, -1_000_000, 1_000_000, 11_000_000],
    ),
    (
        SLANTING_BAR,
        Turn::R0,
        [-1_000_000, -1_000_000, 7_000_000, 9_000_000],
    ),
    (
        SLANTING_BAR,
        Turn::R90,
        [-9_000_000, -1_000_000, 1_000_000, 7_000_000],
    ),
    (
        SLANTING_BAR,
        Turn::R180,
        [-7_000_000, -9_000_000, 1_000_000, 1_000_000],
    ),
    (
        SLANTING_BAR,
        Turn::R270,
        [-1_000_000, -7_000_000, 9_000_000, 1_000_000],
    ),
    (
        SLANTING_BAR,
        Turn::M0,
        [-7_000_000, -1_000_000, 1_000_000, 9_000_000],
    ),
    (
        SLANTING_BAR,
        Turn::M90,
        [-9_000_000, -7_000_000, 1_000_000, 1_000_000],
    ),
    (
        SLANTING_BAR,
        Turn::M180,
        [-1_000_000, -9_000_000, 7_000_000, 1_000_000],
    ),
    (
        SLANTING_BAR,
        Turn::M270,
        [-1_000_000, -1_000_000, 9_000_000, 7_000_000],
    ),
];

/// An aperture, whether it is a circle without a hole, and whether a rectangle without one.
pub(crate) type Solid = (Text, bool, bool);

pub const SOLID: &[Solid] = &[
    (CIRCLE, true, false),
    (CIRCLE_OF_NO_SIZE, true, false),
    (CIRCLE_WITH_HOLE, false, false),
    (RECTANGLE, false, true),
    (RECTANGLE_WITH_HOLE, false, false),
    (LYING_OBROUND, false, false),
    (DARK_AGAIN, false, false),
    (NOTHING, false, false),
];
