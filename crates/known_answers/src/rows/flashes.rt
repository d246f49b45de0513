//! Flashes of up to 200 mm at the corners of the board.

use super::small::NEAR;
use super::{Figure, MM, Run, Sheet, TIES};
use crate::shapes::FAR;

/// The leftmost or the lowest centre on the board, where the last one is at a corner, or the first one.
const BEFORE: i64 = 2 * FAR - 3_800 * MM;

const AFTER: i64 = -2 * FAR;

const HEIGHTS: Run = (0, 40 * MM, 96);

/// With a pitch of 100 mm.
pub const FLASHES: Sheet = Sheet {
    figures: &[
        Figure::Flash(200 * MM, 200 * MM),
        Figure::Flash(200 * MM, 120 * MM),
        Figure::Flash(120 * MM, 200 * MM),
        Figure::Flash(200 * MM - 1, 160 * MM),
        Figure::Flash(160 * MM, 1),
        Figure::Flash(1, 160 * MM),
        Figure::Flash(0, 200 * MM),
    ],
    places: &[
        ((FAR, FAR), (BEFORE, BEFORE)),
        ((-FAR, FAR), (AFTER, BEFORE)),
        ((-FAR, -FAR), (AFTER, AFTER)),
        ((FAR, -FAR), (BEFORE, AFTER)),
    ],
    rows: &[
        ((0, 200 * MM, 20), HEIGHTS),
        ((40 * MM, 200 * MM, 19), HEIGHTS),
        ((-40 * MM, 200 * MM, 20), HEIGHTS),
    ],
};

/// With a pitch of 1 nm, where an edge of theirs passes a corner of the board.
pub const FLASH_EDGES: Sheet = Sheet {
    figures: &[
        Figure::Flash(200 * MM, 200 * MM),
        Figure::Flash(200 * MM, 160 * MM),
        Figure::Flash(120 * MM, 200 * MM),
        Figure::Flash(200 * MM, 200 * MM - 1),
    ],
    places: &[
        ((NEAR - 60 * MM, NEAR - 80 * MM), (2 * NEAR, 2 * NEAR)),
        ((80 * MM - NEAR, NEAR - 60 * MM), (-2 * NEAR, 2 * NEAR)),
        ((60 * MM - NEAR, 80 * MM - NEAR), (-2 * NEAR, -2 * NEAR)),
        ((NEAR - 80 * MM, 60 * MM - NEAR), (2 * NEAR, -2 * NEAR)),
        ((NEAR - 100 * MM, NEAR), (2 * NEAR, 2 * NEAR)),
        ((-NEAR, 100 * MM - NEAR), (-2 * NEAR, -2 * NEAR)),
    ],
    rows: TIES,
};
