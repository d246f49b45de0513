//! Texts of macros, and what they give: worked out by hand.

use crate::text::Pieces;
use cam_units::{Point, Unit};

/// The number of the fault of a text, 0 where it is a macro, and the text.
pub const TEXTS: &[u8] = b"\
0 A|\
0 A**0,?*1,1,$9999,\t. 5, - -2.x3\r\n*|\
# names|\
3 *|\
3 A,B*1|\
3  1A*1|\
# numbers|\
0 A*1,999999.9999999999|\
29 A*1,1000000|\
29 A*1,.|\
29 A*1,1.2.3|\
# variables|\
0 A*$9999=1|\
29 A*1,1,$10000|\
29 A*$0=1|\
29 A*$1|\
29 A*$1,2|\
29 A*$=1|\
29 A*$1=|\
29 A*1=2|\
# codes|\
29 A*,1|\
29 A*X|\
29 A*-1,1|\
# operands, and what stands behind them|\
29 A*1,|\
29 A*1,?|\
29 A*1,2+|\
29 A*1,x2|\
29 A*1,1?2|\
29 A*1,1(2)|\
29 A*1,$1$2|\
29 A*1,()|\
29 A*1,(1|\
29 A*1,1)|\
29 A*1,(1))";

/// A long text of one part, and the number of its fault.
pub const LONG_TEXTS: &[(Pieces, u8)] = &[
    (&[(b"A*1,", 1), (b"(", 64), (b"1", 1), (b")", 64)], 0),
    (&[(b"A*1,", 1), (b"(", 65), (b"1", 1), (b")", 65)], 29),
    (&[(b"A*1,", 1), (b"-", 1_000), (b"1", 1)], 0),
    (&[(b"A*1,", 1), (b"-", 1_001), (b"1", 1)], 29),
    (&[(b"A*1,", 1), (b"+", 1_001), (b"1", 1)], 29),
    (&[(b"A*1,", 1), (b"-", 500), (b"1", 1), (b"+1", 500)], 0),
    (&[(b"A*1,", 1), (b"-", 500), (b"1", 1), (b"+1", 501)], 29),
    (&[(b"A*1,1", 1), (b"x1", 1_001)], 29),
];

/// The number of the fault of the primitives of a text in mm, 0 where they are sound, and the text.
pub const EXPANSIONS: &[u8] = b"\
0 A|\
# codes|\
12 A*3|\
12 A*22,1,1,1,0,0|\
12 A*10000,1|\
# counts of fields|\
29 A*1|\
29 A*1,1,1,0|\
0 A*1,1,1,0,0|\
0 A*1,1,1,0,0,0|\
29 A*1,1,1,0,0,0,0|\
29 A*20,1,1,0,0,1|\
29 A*20,1,1,0,0,1,1,0,0|\
0 A*2,1,1,0,0,1,1|\
29 A*21,1,1,1,0|\
29 A*21,1,1,1,0,0,0,0|\
# exposures|\
0 A*1,$1,1,0,0|\
29 A*1,.5,1,0,0|\
# rotations|\
0 A*1,1,1,0,0,360|\
0 A*1,1,1,0,0,-450|\
13 A*1,1,1,0,0,45|\
13 A*21,1,1,1,0,0,.000000001|\
# sizes and coordinates, after rounding|\
0 A*1,1,200.0000004,-200,0|\
24 A*1,1,200.0000005,0,0|\
24 A*1,1,1,0,-200.0000005|\
24 A*1,1,-.0000005,0,0|\
24 A*20,1,-1,0,0,1,1,0|\
24 A*21,1,1,-1,0,0,0|\
0 A*4,1,1,0,0,201,0|\
24 A*4,1,1,201,0,0,0|\
# outlines|\
0 A*4,1,1,0,0,0,0|\
0 A*4,1,1,0,0,0,0,90|\
29 A*4,1,1,0,0,0|\
29 A*4,1,1,0,0,0,0,0,0|\
29 A*4,1,2,0,0,1,0,0|\
29 A*4,1,0,0,0|\
29 A*4,1,-1,0,0|\
29 A*4,1,1.5,0,0,0,0|\
29 A*4,1|\
# values|\
29 A*1,1,1/$1,0,0|\
29 A*$2=999999x2/2|\
# the first faulty part, and in it the first in the order of the checks|\
13 A*1,1,1,0,0,45*3|\
13 A*1,1,-1,0,0,45|\
29 A*1,2,1,0,0,45|\
12 A*3,1/0";

/// A text, AD's parameters in 10^-9 mm, and the number of the fault of its primitives, 0 where they are sound.
pub const WITH_PARAMETERS: &[(&[u8], &[i64], u8)] = &[
    // exposures
    (b"A*1,$1,1,0,0", &[1_000_000_000], 0),
    (b"A*1,$1,1,0,0", &[2_000_000_000], 29),
    // values
    (b"A*$2=$1", &[999_999_999_999_999], 0),
    (b"A*$2=$1", &[1_000_000_000_000_000], 29),
];

/// A long text of an outline, and the number of its fault.
pub const LONG_OUTLINES: &[(Pieces, u8)] = &[
    (&[(b"A*4,1,5000", 1), (b",0,0", 5_001)], 0),
    (&[(b"A*4,1,5000", 1), (b",0,0", 5_000)], 29),
    (&[(b"A*4,1,5001", 1), (b",0,0", 5_002)], 29),
];

/// A primitive's shape, in nm.
pub enum Shape {
    /// Centre and diameter.
    Disc(Point, i64),
    /// Ends and width.
    Bar(Point, Point, i64),
    /// Centre, width and height.
    Rect(Point, i64, i64),
    /// Points.
    Outline(&'static [Point]),
}

/// A text, its unit, AD's parameters, and whether and what each primitive paints.
pub struct Row {
    pub text: &'static [u8],
    pub unit: Unit,
    pub params: &'static [i64],
    pub wanted: &'static [(bool, Shape)],
}

pub const PRIMITIVES: &[Row] = &[
    // a rounded rectangle of 1 mm by 0.5 mm with corners of 0.25 mm, as layout programs write it
    Row {
        text: b"RoundRect*0 Rounded*4,1,4,$2,$3,$4,$5,$6,$7,$8,$9,$2,$3,0*\
1,1,$1+$1,$2,$3*1,1,$1+$1,$6,$7*20,1,$1+$1,$2,$3,$4,$5,0*20,1,$1+$1,$4,$5,$6,$7,0",
        unit: Unit::Mm,
        params: &[
            250_000_000,
            -500_000_000,
            -250_000_000,
            -500_000_000,
            250_000_000,
            500_000_000,
            250_000_000,
            500_000_000,
            -250_000_000,
        ],
        wanted: &[
            (
                true,
                Shape::Outline(&[
                    Point {
                        x: -500_000,
                        y: -250_000,
                    },
                    Point {
                        x: -500_000,
                        y: 250_000,
                    },
                    Point {
                        x: 500_000,
                        y: 250_000,
                    },
                    Point {
                        x: 500_000,
                        y: -250_000,
                    },
                ]),
            ),
            (
                true,
                Shape::Disc(
                    Point {
                        x: -500_000,
                        y: -250_000,
                    },
                    500_000,
                ),
            ),
            (
                true,
                Shape::Disc(
                    Point {
                        x: 500_000,
                        y: 250_000,
                    },
                    500_000,
                ),
            ),
            (
                true,
                Shape::Bar(
                    Point {
                        x: -500_000,
                        y: -250_000,
                    },
                    Point {
                        x: -500_000,
                        y: 250_000,
                    },
                    500_000,
                ),
            ),
            (
                true,
                Shape::Bar(
                    Point {
                        x: -500_000,
                        y: 250_000,
                    },
                    Point {
                        x: 500_000,
                        y: 250_000,
                    },
                    500_000,
                ),
            ),
        ],
    },
    // -(1 / 3) x 3 is -0.999999999, 0.000000003 / 2 is a tie, which goes away from zero, and 9 - 2 - 3 x 2 is 1;
    // a variable has its last value before, and 0 where it has none
    Row {
        text: b"A*1,1,-+-(1/3)x3+1,0,0*1,1,100000x(0.000000003/2),0,0*1,1,9-2-3X2,0,0*\
$1=.5*$1=$1+$2*1,0,$1,0,0",
        unit: Unit::Mm,
        params: &[],
        wanted: &[
            (true, Shape::Disc(Point { x: 0, y: 0 }, 2_000_000)),
            (true, Shape::Disc(Point { x: 0, y: 0 }, 200)),
            (true, Shape::Disc(Point { x: 0, y: 0 }, 1_000_000)),
            (false, Shape::Disc(Point { x: 0, y: 0 }, 500_000)),
        ],
    },
    Row {
        text: b"A*1,1,0.1,1,-$1",
        unit: Unit::Inch,
        params: &[1_000_000],
        wanted: &[(
            true,
            Shape::Disc(
                Point {
                    x: 25_400_000,
                    y: -25_400,
                },
                2_540_000,
            ),
        )],
    },
    // a quarter turn counterclockwise, a half turn clockwise, and three quarters of an outline
    Row {
        text: b"A*21,0,4,2,10,1,90*21,1,4,2,10,1,-180*20,1,1,0,0,3,4,90*4,0,2,1,2,3,4,1,2,270",
        unit: Unit::Mm,
        params: &[],
        wanted: &[
            (
                false,
                Shape::Rect(
                    Point {
                        x: -1_000_000,
                        y: 10_000_000,
                    },
                    2_000_000,
                    4_000_000,
                ),
            ),
            (
                true,
                Shape::Rect(
                    Point {
                        x: -10_000_000,
                        y: -1_000_000,
                    },
                    4_000_000,
                    2_000_000,
                ),
            ),
            (
                true,
                Shape::Bar(
                    Point { x: 0, y: 0 },
                    Point {
                        x: -4_000_000,
                        y: 3_000_000,
                    },
                    1_000_000,
                ),
            ),
            (
                false,
                Shape::Outline(&[
                    Point {
                        x: 2_000_000,
                        y: -1_000_000,
                    },
                    Point {
                        x: 4_000_000,
                        y: -3_000_000,
                    },
                ]),
            ),
        ],
    },
];
