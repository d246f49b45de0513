//! Lengths, points, turns and boxes. An inch is 25.4 mm.

use crate::tables::each;
use cam_units::{Bounds, Nm, Point, Spot, Turn, Unit, coord_nm, fix9_nm, isqrt};
use std::test::Fail;

/// A coordinate, its decimals and its unit, and its length in nm.
const COORDINATES: &[(i64, u32, Unit, Option<i64>)] = &[
    (0, 6, Unit::Mm, Some(0)),
    (1, 6, Unit::Mm, Some(1)),
    (1, 6, Unit::Inch, Some(25)),
    (2, 6, Unit::Inch, Some(51)),
    (-3, 6, Unit::Inch, Some(-76)),
    (5, 5, Unit::Inch, Some(1_270)),
    (1_234_567, 3, Unit::Mm, Some(1_234_567_000)),
    (-1, 1, Unit::Inch, Some(-2_540_000)),
    (999_999_999_999, 0, Unit::Mm, Some(999_999_999_999_000_000)),
    (1_000_000_000_000, 0, Unit::Mm, None),
    (999_999_999_999_999, 1, Unit::Mm, None),
];

/// A length in 10^-9 of a unit, and in nm.
const FIXED: &[(i64, Unit, i64)] = &[
    (1_499, Unit::Mm, 1),
    (1_500, Unit::Mm, 2),
    (-1_500, Unit::Mm, -2),
    (-1_499, Unit::Mm, -1),
    // 63.5 nm
    (2_500, Unit::Inch, 64),
    (-2_500, Unit::Inch, -64),
    (1_000_000_000, Unit::Inch, 25_400_000),
];

/// A turn, and where it takes the point (2, 1).
const TURNS: &[(Turn, i64, i64)] = &[
    (Turn::R0, 2, 1),
    (Turn::R90, -1, 2),
    (Turn::R180, -2, -1),
    (Turn::R270, 1, -2),
    (Turn::M0, -2, 1),
    (Turn::M90, -1, -2),
    (Turn::M180, 2, -1),
    (Turn::M270, 1, 2),
];

/// A turn, the next one, and both in one.
const PRODUCTS: &[(Turn, Turn, Turn)] = &[
    (Turn::M0, Turn::R90, Turn::M90),
    (Turn::R90, Turn::M0, Turn::M270),
    (Turn::R270, Turn::R180, Turn::R90),
    (Turn::M90, Turn::M90, Turn::R0),
];

/// A number, and the whole part of its square root.
const ROOTS: &[(u128, u64)] = &[(0, 0), (3, 1), (4, 2), (u128::MAX, u64::MAX)];

const LOW: Spot = Spot { x: 0, y: 0 };

const MIDDLE: Spot = Spot { x: 5, y: 5 };

const HIGH: Spot = Spot { x: 9, y: 9 };

const LEFT: Bounds = Bounds::Closed {
    low: LOW,
    high: MIDDLE,
};

const RIGHT: Bounds = Bounds::Closed {
    low: MIDDLE,
    high: HIGH,
};

const CORNER: Bounds = Bounds::Closed {
    low: MIDDLE,
    high: MIDDLE,
};

const ORIGIN: Bounds = Bounds::Closed {
    low: LOW,
    high: LOW,
};

const WHOLE: Bounds = Bounds::Closed {
    low: LOW,
    high: HIGH,
};

/// Two boxes, the least box around both, and the places in both.
const BOXES: &[(Bounds, Bounds, Bounds, Bounds)] = &[
    (LEFT, RIGHT, WHOLE, CORNER),
    (WHOLE, CORNER, WHOLE, CORNER),
    (ORIGIN, RIGHT, WHOLE, Bounds::Empty),
    (LEFT, Bounds::Empty, LEFT, Bounds::Empty),
    (Bounds::Empty, Bounds::Empty, Bounds::Empty, Bounds::Empty),
];

#[test]
fn lengths() -> Result<(), Fail> {
    each(COORDINATES, |&(n, decimals, unit, wanted)| {
        decimals <= 6 && coord_nm(n, decimals, unit) == wanted.map(Nm)
    })?;
    each(FIXED, |&(n, unit, wanted)| fix9_nm(n, unit).0 == wanted)?;
    each(ROOTS, |&(n, wanted)| isqrt(n) == wanted)
}

#[test]
fn turns() -> Result<(), Fail> {
    each(TURNS, |&(turn, x, y)| {
        turn.apply(Point { x: 2, y: 1 }) == Point { x, y }
    })?;
    each(PRODUCTS, |&(first, next, both)| first.then(next) == both)
}

#[test]
fn boxes() -> Result<(), Fail> {
    each(BOXES, |(left, right, joined, clipped)| {
        left.joined(*right) == *joined
            && left.clipped(*right) == *clipped
            && left.meets(*right) != clipped.is_empty()
    })
}
