//! Items that are sound or refused for what they are: worked out by hand.

use crate::layers::dictionaries::BASE;
use crate::layers::rows::{Checked, Drawn, Entered, Listed, Side};
use Drawn::{Arc, Draw, Flash, Region};
use Entered::Rect;
use ItemFault::{Malformed, UnknownAperture, WrongAperture, ZeroRadius};
use Listed::{One, Repeat};
use Side::{Curve, Line};
use Turn::{M0, M90, R0, R180, R270};
use cam_objects::ItemFault;
use cam_units::Turn;

pub const FORMS: &[Checked] = &[
    // sound items, points and steps at the edge of the board
    (
        BASE,
        One(Flash(10, (999_999_999, -999_999_999), R0, true)),
        Ok(()),
    ),
    (
        BASE,
        One(Flash(12, (-999_999_999, 999_999_999), M90, true)),
        Ok(()),
    ),
    (
        BASE,
        One(Draw(
            10,
            (999_999_999, 999_999_999),
            (-999_999_999, -999_999_999),
            true,
        )),
        Ok(()),
    ),
    (BASE, One(Draw(14, (0, 0), (0, 0), true)), Ok(())),
    (
        BASE,
        One(Arc(
            10,
            (999_999_999, 0),
            (0, 999_999_999),
            (-999_999_999, -999_999_999),
            true,
            true,
        )),
        Ok(()),
    ),
    (
        BASE,
        One(Region(
            (999_999_999, 0),
            &[Curve((0, 999_999_999), (-999_999_999, -999_999_999), false)],
            true,
        )),
        Ok(()),
    ),
    (
        BASE,
        Repeat(
            1,
            2,
            (999_999_999, -999_999_999),
            &[Flash(10, (0, 0), R0, true)],
        ),
        Ok(()),
    ),
    (
        BASE,
        Repeat(
            2,
            1,
            (999_999_999, -999_999_999),
            &[Flash(10, (0, 0), R0, true)],
        ),
        Ok(()),
    ),
    (
        BASE,
        Repeat(
            2,
            2,
            (-999_999_999, 999_999_999),
            &[Flash(10, (0, 0), R0, true)],
        ),
        Ok(()),
    ),
    (
        BASE,
        Repeat(2, 1, (0, 0), &[Flash(10, (0, 0), R0, true)]),
        Ok(()),
    ),
    // the points of a block where it is painted
    (BASE, One(Flash(13, (999_999_989, 0), R0, true)), Ok(())),
    (BASE, One(Flash(13, (-999_999_989, 0), M0, true)), Ok(())),
    (
        BASE,
        One(Flash(13, (999_999_999, -999_999_989), R270, true)),
        Ok(()),
    ),
    (BASE, One(Flash(15, (0, 999_999_969), R0, true)), Ok(())),
    (BASE, One(Flash(15, (0, -999_999_969), R180, true)), Ok(())),
    (
        BASE,
        Repeat(
            3,
            1,
            (333_333_333, 0),
            &[Flash(10, (333_333_333, 0), R0, true)],
        ),
        Ok(()),
    ),
    (
        BASE,
        Repeat(
            2,
            2,
            (-1, -1),
            &[Flash(13, (-999_999_998, -999_999_998), R0, true)],
        ),
        Ok(()),
    ),
    (
        BASE,
        Repeat(2, 2, (-1, -1), &[Flash(13, (-999_999_999, 1), R0, true)]),
        Ok(()),
    ),
    // malformed: no column or row, one copy, no object, no segment
    (
        BASE,
        Repeat(0, 2, (0, 0), &[Flash(10, (0, 0), R0, true)]),
        Err(Malformed),
    ),
    (
        BASE,
        Repeat(2, 0, (0, 0), &[Flash(10, (0, 0), R0, true)]),
        Err(Malformed),
    ),
    (
        BASE,
        Repeat(0, 0, (0, 0), &[Flash(10, (0, 0), R0, true)]),
        Err(Malformed),
    ),
    (
        BASE,
        Repeat(1, 1, (0, 0), &[Flash(10, (0, 0), R0, true)]),
        Err(Malformed),
    ),
    (BASE, Repeat(2, 2, (0, 0), &[]), Err(Malformed)),
    (BASE, One(Region((0, 0), &[], true)), Err(Malformed)),
    (
        BASE,
        Repeat(
            2,
            2,
            (0, 0),
            &[Flash(10, (0, 0), R0, true), Region((0, 0), &[], false)],
        ),
        Err(Malformed),
    ),
    // numbers that the dictionary has not
    (BASE, One(Flash(17, (0, 0), R0, true)), Err(UnknownAperture)),
    (
        BASE,
        One(Draw(9, (0, 0), (0, 0), true)),
        Err(UnknownAperture),
    ),
    (
        BASE,
        One(Arc(0, (1, 0), (0, 1), (0, 0), true, true)),
        Err(UnknownAperture),
    ),
    (
        BASE,
        Repeat(
            2,
            2,
            (0, 0),
            &[Flash(10, (0, 0), R0, true), Flash(17, (0, 0), R0, true)],
        ),
        Err(UnknownAperture),
    ),
    (
        BASE,
        One(Flash(4294967295, (0, 0), R0, true)),
        Err(UnknownAperture),
    ),
    // strokes of anything but a solid circle and, along a line, a solid rectangle
    (
        BASE,
        One(Draw(11, (0, 0), (0, 0), true)),
        Err(WrongAperture),
    ),
    (BASE, One(Draw(12, (0, 0), (0, 0), true)), Ok(())),
    (
        &[(10, Rect(8, 4, 2))],
        One(Draw(10, (0, 0), (0, 0), true)),
        Err(WrongAperture),
    ),
    (
        BASE,
        One(Draw(13, (0, 0), (0, 0), true)),
        Err(WrongAperture),
    ),
    (
        BASE,
        One(Draw(16, (0, 0), (0, 0), true)),
        Err(WrongAperture),
    ),
    (
        BASE,
        One(Arc(12, (1, 0), (0, 1), (0, 0), true, true)),
        Err(WrongAperture),
    ),
    (
        BASE,
        One(Arc(11, (1, 0), (0, 1), (0, 0), false, false)),
        Err(WrongAperture),
    ),
    (
        BASE,
        Repeat(
            2,
            2,
            (0, 0),
            &[Flash(12, (0, 0), R0, true), Draw(12, (0, 0), (0, 0), true)],
        ),
        Ok(()),
    ),
    (
        BASE,
        Repeat(
            2,
            2,
            (0, 0),
            &[Flash(16, (0, 0), R0, true), Draw(16, (0, 0), (0, 0), true)],
        ),
        Err(WrongAperture),
    ),
    // arcs that start at their centre
    (
        BASE,
        One(Arc(10, (1, 2), (3, 4), (1, 2), true, true)),
        Err(ZeroRadius),
    ),
    (
        BASE,
        One(Arc(14, (0, 0), (0, 0), (0, 0), false, false)),
        Err(ZeroRadius),
    ),
    (
        BASE,
        One(Region((1, 2), &[Curve((3, 4), (1, 2), true)], true)),
        Err(ZeroRadius),
    ),
    (
        BASE,
        One(Region((1, 2), &[Line((3, 4)), Curve((5, 6), (3, 4), true)], true)),
        Err(ZeroRadius),
    ),
    (
        BASE,
        One(Region(
            (1, 2),
            &[Curve((3, 4), (0, 0), true), Curve((5, 6), (3, 4), false)],
            true,
        )),
        Err(ZeroRadius),
    ),
    (
        BASE,
        Repeat(
            2,
            2,
            (0, 0),
            &[
                Flash(10, (0, 0), R0, true),
                Arc(10, (1, 2), (3, 4), (1, 2), true, true),
            ],
        ),
        Err(ZeroRadius),
    ),
    // but not arcs that end there
    (
        BASE,
        One(Arc(10, (1, 2), (3, 4), (3, 4), true, true)),
        Ok(()),
    ),
    (
        BASE,
        One(Region((1, 2), &[Curve((3, 4), (3, 4), true)], true)),
        Ok(()),
    ),
];
