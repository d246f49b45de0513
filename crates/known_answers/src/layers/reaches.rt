//! Items that are refused for where they reach and what they count: worked out by hand.

use crate::layers::dictionaries::{BASE, FULL, TENS};
use crate::layers::rows::{Checked, Drawn, Listed, Side};
use Drawn::{Arc, Draw, Flash, Region, Zigzag};
use ItemFault::{Malformed, OutOfBoard, TooMuch, UnknownAperture, WrongAperture, ZeroRadius};
use Listed::{One, Repeat, Repeats};
use Side::{Curve, Line};
use Turn::{M0, R0, R180, R270};
use cam_objects::ItemFault;
use cam_units::Turn;

pub const REACHES: &[Checked] = &[
    // points outside the board as they stand
    (
        BASE,
        One(Flash(10, (1_000_000_000, 0), R0, true)),
        Err(OutOfBoard),
    ),
    (
        BASE,
        One(Flash(10, (0, -1_000_000_000), R0, true)),
        Err(OutOfBoard),
    ),
    (
        BASE,
        One(Flash(13, (-1_000_000_000, 0), R0, true)),
        Err(OutOfBoard),
    ),
    (
        BASE,
        One(Draw(10, (1_000_000_000, 0), (0, 0), true)),
        Err(OutOfBoard),
    ),
    (
        BASE,
        One(Draw(10, (0, 0), (0, 1_000_000_000), true)),
        Err(OutOfBoard),
    ),
    (
        BASE,
        One(Arc(10, (1_000_000_000, 0), (1, 0), (0, 0), true, true)),
        Err(OutOfBoard),
    ),
    (
        BASE,
        One(Arc(10, (1, 0), (0, -1_000_000_000), (0, 0), true, true)),
        Err(OutOfBoard),
    ),
    (
        BASE,
        One(Arc(10, (1, 0), (0, 1), (0, 1_000_000_000), true, true)),
        Err(OutOfBoard),
    ),
    (
        BASE,
        One(Region((1_000_000_000, 0), &[Line((4, 0)), Line((0, 4))], true)),
        Err(OutOfBoard),
    ),
    (
        BASE,
        One(Region((0, 0), &[Line((1, 0)), Line((0, -1_000_000_000))], true)),
        Err(OutOfBoard),
    ),
    (
        BASE,
        One(Region((1, 0), &[Curve((0, 1_000_000_000), (0, 0), true)], true)),
        Err(OutOfBoard),
    ),
    (
        BASE,
        One(Region((1, 0), &[Curve((0, 1), (-1_000_000_000, 0), true)], true)),
        Err(OutOfBoard),
    ),
    (
        BASE,
        Repeat(2, 2, (0, 0), &[Flash(10, (0, 1_000_000_000), R0, true)]),
        Err(OutOfBoard),
    ),
    // only in a leaf
    (
        BASE,
        One(Flash(13, (999_999_990, 0), R0, true)),
        Err(OutOfBoard),
    ),
    (
        BASE,
        One(Flash(13, (-999_999_990, 0), M0, true)),
        Err(OutOfBoard),
    ),
    (
        BASE,
        One(Flash(13, (999_999_999, -999_999_990), R270, true)),
        Err(OutOfBoard),
    ),
    (
        BASE,
        One(Flash(15, (0, 999_999_970), R0, true)),
        Err(OutOfBoard),
    ),
    (
        BASE,
        One(Flash(15, (0, -999_999_970), R180, true)),
        Err(OutOfBoard),
    ),
    (
        BASE,
        Repeat(
            3,
            1,
            (333_333_333, 0),
            &[Flash(10, (333_333_334, 0), R0, true)],
        ),
        Err(OutOfBoard),
    ),
    (
        BASE,
        Repeat(2, 1, (1, 0), &[Flash(13, (999_999_989, 0), R0, true)]),
        Err(OutOfBoard),
    ),
    (
        BASE,
        Repeat(1, 3, (0, 500_000_000), &[Flash(10, (0, 0), R0, true)]),
        Err(OutOfBoard),
    ),
    (
        BASE,
        Repeat(1, 4_294_967_295, (0, 1), &[Flash(10, (0, 0), R0, true)]),
        Err(OutOfBoard),
    ),
    (
        BASE,
        Repeat(
            4_294_967_295,
            1,
            (-999_999_999, 0),
            &[Flash(10, (0, 0), R0, true)],
        ),
        Err(OutOfBoard),
    ),
    // and steps of a metre
    (
        BASE,
        Repeat(1, 2, (1_000_000_000, 0), &[Flash(10, (0, 0), R0, true)]),
        Err(OutOfBoard),
    ),
    (
        BASE,
        Repeat(2, 1, (0, -1_000_000_000), &[Flash(10, (0, 0), R0, true)]),
        Err(OutOfBoard),
    ),
    (
        BASE,
        Repeat(
            2,
            1,
            (1_000_000_000, 0),
            &[Flash(10, (-999_999_999, 0), R0, true)],
        ),
        Err(OutOfBoard),
    ),
    (
        BASE,
        Repeat(
            1,
            2,
            (9_223_372_036_854_775_807, 0),
            &[Flash(10, (0, 0), R0, true)],
        ),
        Err(OutOfBoard),
    ),
    (
        BASE,
        Repeat(
            2,
            2,
            (-9_223_372_036_854_775_808, 0),
            &[Flash(10, (0, 0), R0, true)],
        ),
        Err(OutOfBoard),
    ),
    // too many copies
    (
        BASE,
        Repeat(2_000, 2_001, (0, 0), &[Flash(10, (0, 0), R0, true)]),
        Err(TooMuch),
    ),
    (
        BASE,
        Repeat(
            1_000,
            2_000,
            (0, 0),
            &[
                Flash(10, (0, 0), R0, true),
                Flash(10, (0, 0), R0, true),
                Flash(12, (0, 0), R0, true),
            ],
        ),
        Err(TooMuch),
    ),
    (
        BASE,
        Repeat(
            4_294_967_295,
            4_294_967_295,
            (0, 0),
            &[Flash(10, (0, 0), R0, true)],
        ),
        Err(TooMuch),
    ),
    (
        BASE,
        Repeat(1, 4_000_001, (0, 0), &[Flash(10, (0, 0), R0, true)]),
        Err(TooMuch),
    ),
    (
        BASE,
        Repeat(2_000_001, 1, (0, 0), &[Flash(13, (0, 0), R0, true)]),
        Err(TooMuch),
    ),
    (
        BASE,
        Repeat(2_000, 2_000, (0, 0), &[Flash(10, (0, 0), R0, true)]),
        Ok(()),
    ),
    (
        BASE,
        Repeat(1, 4_000_000, (0, 0), &[Flash(10, (0, 0), R0, true)]),
        Ok(()),
    ),
    (
        BASE,
        Repeat(2_000_000, 1, (0, 0), &[Flash(13, (0, 0), R0, true)]),
        Ok(()),
    ),
    // the first refusal of several
    (
        BASE,
        Repeat(1, 1, (1_000_000_000, 0), &[Flash(17, (0, 0), R0, true)]),
        Err(Malformed),
    ),
    (
        BASE,
        Repeat(
            4_294_967_295,
            4_294_967_295,
            (0, 0),
            &[
                Draw(16, (0, 0), (0, 0), true),
                Region((1_000_000_000, 0), &[], true),
            ],
        ),
        Err(Malformed),
    ),
    (
        BASE,
        One(Region((1_000_000_000, 0), &[], true)),
        Err(Malformed),
    ),
    (
        BASE,
        Repeat(
            2,
            2,
            (1_000_000_000, 0),
            &[
                Draw(16, (0, 0), (0, 0), true),
                Arc(17, (0, 0), (0, 0), (0, 0), true, true),
            ],
        ),
        Err(UnknownAperture),
    ),
    (
        BASE,
        One(Draw(17, (1_000_000_000, 0), (0, 0), true)),
        Err(UnknownAperture),
    ),
    (
        BASE,
        Repeat(2_000, 2_001, (0, 0), &[Flash(17, (0, 0), R0, true)]),
        Err(UnknownAperture),
    ),
    (
        BASE,
        One(Arc(12, (0, 0), (1_000_000_000, 0), (0, 0), true, true)),
        Err(WrongAperture),
    ),
    (
        BASE,
        One(Draw(16, (1_000_000_000, 0), (0, 0), true)),
        Err(WrongAperture),
    ),
    (
        BASE,
        Repeat(
            2_000,
            2_001,
            (1_000_000_000, 0),
            &[
                Arc(10, (0, 0), (0, 0), (0, 0), true, true),
                Draw(11, (0, 0), (0, 0), true),
            ],
        ),
        Err(WrongAperture),
    ),
    (
        BASE,
        One(Arc(
            10,
            (1_000_000_000, 0),
            (0, 0),
            (1_000_000_000, 0),
            true,
            true,
        )),
        Err(ZeroRadius),
    ),
    (
        BASE,
        One(Region(
            (1_000_000_000, 0),
            &[Curve((0, 0), (1_000_000_000, 0), true)],
            true,
        )),
        Err(ZeroRadius),
    ),
    (
        BASE,
        Repeat(
            2_000,
            2_001,
            (0, 1_000_000_000),
            &[Arc(10, (0, 0), (0, 0), (0, 0), true, true)],
        ),
        Err(ZeroRadius),
    ),
    (
        BASE,
        Repeat(
            3_000,
            3_000,
            (1_000_000_000, 0),
            &[Flash(10, (0, 0), R0, true)],
        ),
        Err(OutOfBoard),
    ),
    (
        BASE,
        Repeat(2_000, 2_001, (1_000_000, 0), &[Flash(10, (0, 0), R0, true)]),
        Err(OutOfBoard),
    ),
    // blocks in blocks: 4,000,000 leaves with the flash, one copy of ten millions, and four of a million
    (FULL, One(Flash(16, (0, 0), R0, true)), Ok(())),
    (
        FULL,
        Repeat(2, 1, (0, 0), &[Flash(16, (0, 0), R0, true)]),
        Err(TooMuch),
    ),
    (
        FULL,
        Repeat(
            1,
            2,
            (0, 0),
            &[Flash(15, (0, 0), R0, true), Flash(15, (0, 0), R0, true)],
        ),
        Err(TooMuch),
    ),
    (TENS, One(Flash(16, (0, 0), R0, true)), Ok(())),
    (
        TENS,
        Repeat(3, 1, (0, 0), &[Flash(16, (0, 0), R0, true)]),
        Ok(()),
    ),
    (
        TENS,
        Repeat(4, 1, (0, 0), &[Flash(16, (0, 0), R0, true)]),
        Err(TooMuch),
    ),
    (
        TENS,
        Repeat(1_000, 1_000, (0, 0), &[Flash(16, (0, 0), R0, true)]),
        Err(TooMuch),
    ),
    // a contour of a million segments, and a repeat of a million objects
    (BASE, One(Zigzag(1_000_000)), Ok(())),
    (
        BASE,
        Repeats(2, 1, (0, 0), 1_000_000, Flash(10, (0, 0), R0, true)),
        Ok(()),
    ),
    (BASE, One(Zigzag(1_000_001)), Err(TooMuch)),
    (
        BASE,
        Repeats(2, 1, (0, 0), 1_000_001, Flash(10, (0, 0), R0, true)),
        Err(TooMuch),
    ),
];
