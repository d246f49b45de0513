//! Operations, and steps and repeats: worked out by hand.

use Mode::{Clockwise, Counterclockwise, Linear};
use OperationCode::{Flash, Move, Plot};
use Slot::{Malformed, Omitted, Written};
use cam_commands::{Mode, OperationCode, Slot};

/// A text, and its operation: the mode, X, Y, I and J, and the code.
pub type Operated = (
    &'static [u8],
    Option<Mode>,
    [Slot<i64>; 4],
    Option<OperationCode>,
);

pub const OPERATIONS: &[Operated] = &[
    (
        b"X10Y-20I+30J0D01*",
        None,
        [Written(10), Written(-20), Written(30), Written(0)],
        Some(Plot),
    ),
    (
        b"D01*",
        None,
        [Omitted, Omitted, Omitted, Omitted],
        Some(Plot),
    ),
    (
        b"D1*",
        None,
        [Omitted, Omitted, Omitted, Omitted],
        Some(Plot),
    ),
    (
        b"D002*",
        None,
        [Omitted, Omitted, Omitted, Omitted],
        Some(Move),
    ),
    (
        b"D03*",
        None,
        [Omitted, Omitted, Omitted, Omitted],
        Some(Flash),
    ),
    (
        b"X10*",
        None,
        [Written(10), Omitted, Omitted, Omitted],
        None,
    ),
    (b"Y1*", None, [Omitted, Written(1), Omitted, Omitted], None),
    (
        b"I-1*",
        None,
        [Omitted, Omitted, Written(-1), Omitted],
        None,
    ),
    (
        b"J1D02*",
        None,
        [Omitted, Omitted, Omitted, Written(1)],
        Some(Move),
    ),
    (
        b"X1J2D3*",
        None,
        [Written(1), Omitted, Omitted, Written(2)],
        Some(Flash),
    ),
    (
        b"G01X1D01*",
        Some(Linear),
        [Written(1), Omitted, Omitted, Omitted],
        Some(Plot),
    ),
    (
        b"G2Y1*",
        Some(Clockwise),
        [Omitted, Written(1), Omitted, Omitted],
        None,
    ),
    (
        b"G03I1J1*",
        Some(Counterclockwise),
        [Omitted, Omitted, Written(1), Written(1)],
        None,
    ),
    (
        b"G01D03*",
        Some(Linear),
        [Omitted, Omitted, Omitted, Omitted],
        Some(Flash),
    ),
    (
        b"G003D2*",
        Some(Counterclockwise),
        [Omitted, Omitted, Omitted, Omitted],
        Some(Move),
    ),
    (
        b"G1X*",
        Some(Linear),
        [Malformed, Omitted, Omitted, Omitted],
        None,
    ),
    // up to 15 digits
    (
        b"X123456789012345*",
        None,
        [Written(123_456_789_012_345), Omitted, Omitted, Omitted],
        None,
    ),
    (
        b"X-999999999999999*",
        None,
        [Written(-999_999_999_999_999), Omitted, Omitted, Omitted],
        None,
    ),
    (
        b"X000000000000001*",
        None,
        [Written(1), Omitted, Omitted, Omitted],
        None,
    ),
    (
        b"X+0Y-0*",
        None,
        [Written(0), Written(0), Omitted, Omitted],
        None,
    ),
    (
        b"X1234567890123456*",
        None,
        [Malformed, Omitted, Omitted, Omitted],
        None,
    ),
    (
        b"X0000000000000001*",
        None,
        [Malformed, Omitted, Omitted, Omitted],
        None,
    ),
    (
        b"Y-1234567890123456D01*",
        None,
        [Omitted, Malformed, Omitted, Omitted],
        Some(Plot),
    ),
    (
        b"I18446744073709551616*",
        None,
        [Omitted, Omitted, Malformed, Omitted],
        None,
    ),
    // no numbers
    (b"X*", None, [Malformed, Omitted, Omitted, Omitted], None),
    (b"XY*", None, [Malformed, Malformed, Omitted, Omitted], None),
    (
        b"X1YIJ2D01*",
        None,
        [Written(1), Malformed, Malformed, Written(2)],
        Some(Plot),
    ),
    (b"X+*", None, [Malformed, Omitted, Omitted, Omitted], None),
    (b"X1.5*", None, [Malformed, Omitted, Omitted, Omitted], None),
    (b"X1.*", None, [Malformed, Omitted, Omitted, Omitted], None),
    (
        b"J--1D02*",
        None,
        [Omitted, Omitted, Omitted, Malformed],
        Some(Move),
    ),
    (
        b"X1-2Y3*",
        None,
        [Malformed, Written(3), Omitted, Omitted],
        None,
    ),
    (b"X1+*", None, [Malformed, Omitted, Omitted, Omitted], None),
    // bytes that are skipped
    (
        b" X 1 0\r\nD\t0 1*",
        None,
        [Written(10), Omitted, Omitted, Omitted],
        Some(Plot),
    ),
    (
        b"G 0 1\nX\n-\n5\n*",
        Some(Linear),
        [Written(-5), Omitted, Omitted, Omitted],
        None,
    ),
    (
        b"\nX 1 2 3 4 5 6 7 8 9 0 1 2 3 4 5 *",
        None,
        [Written(123_456_789_012_345), Omitted, Omitted, Omitted],
        None,
    ),
];

/// A text, and its step and repeat: the columns and rows, and the steps in 10^-9 of a unit.
pub type Repeated = (&'static [u8], [Slot<u32>; 2], [Slot<i64>; 2]);

pub const REPEATS: &[Repeated] = &[
    (
        b"%SRX2Y3I1.5J-2*%",
        [Written(2), Written(3)],
        [Written(1_500_000_000), Written(-2_000_000_000)],
    ),
    (b"%SRX1*%", [Written(1), Omitted], [Omitted, Omitted]),
    (b"%SRY4*%", [Omitted, Written(4)], [Omitted, Omitted]),
    (
        b"%SRI1*%",
        [Omitted, Omitted],
        [Written(1_000_000_000), Omitted],
    ),
    (
        b"%SRJ.000000001*%",
        [Omitted, Omitted],
        [Omitted, Written(1)],
    ),
    (
        b"%SRX1Y1I0J0*%",
        [Written(1), Written(1)],
        [Written(0), Written(0)],
    ),
    (
        b"%SR X 0 2\nI 1 . 5*%",
        [Written(2), Omitted],
        [Written(1_500_000_000), Omitted],
    ),
    (
        b"%SRX999999999*%",
        [Written(999_999_999), Omitted],
        [Omitted, Omitted],
    ),
    (
        b"%SRY000000001*%",
        [Omitted, Written(1)],
        [Omitted, Omitted],
    ),
    (
        b"%SRX1000000000*%",
        [Malformed, Omitted],
        [Omitted, Omitted],
    ),
    (
        b"%SRY0000000001*%",
        [Omitted, Malformed],
        [Omitted, Omitted],
    ),
    (b"%SRX0Y2*%", [Malformed, Written(2)], [Omitted, Omitted]),
    (b"%SRX2Y0*%", [Written(2), Malformed], [Omitted, Omitted]),
    (b"%SRX*%", [Malformed, Omitted], [Omitted, Omitted]),
    (b"%SRXYIJ*%", [Malformed, Malformed], [Malformed, Malformed]),
    (b"%SRX+2*%", [Malformed, Omitted], [Omitted, Omitted]),
    (b"%SRX-2*%", [Malformed, Omitted], [Omitted, Omitted]),
    (b"%SRY2.*%", [Omitted, Malformed], [Omitted, Omitted]),
    (
        b"%SRI999999.9999999999J-999999.999999999*%",
        [Omitted, Omitted],
        [Written(999_999_999_999_999), Written(-999_999_999_999_999)],
    ),
    (b"%SRI1000000*%", [Omitted, Omitted], [Malformed, Omitted]),
    (
        b"%SRJ-1000000.0*%",
        [Omitted, Omitted],
        [Omitted, Malformed],
    ),
    (b"%SRI.*%", [Omitted, Omitted], [Malformed, Omitted]),
    (
        b"%SRI1.2.3J1*%",
        [Omitted, Omitted],
        [Malformed, Written(1_000_000_000)],
    ),
    (b"%SRX2J+*%", [Written(2), Omitted], [Omitted, Malformed]),
];
