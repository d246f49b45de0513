//! The cells of the board that boxes reach.

ghost use Rattle.cam_objects.specs.Cells.{IsCell, IsReachOf};

use cam_units::Bounds;

/// Half nm from one side of a cell to the other.
pub(crate) const CELL_SIZE: u64 = 65_536;

/// Half nm from the outer edge of the first cells to the origin.
pub(crate) const TO_ORIGIN: i64 = 2_147_483_648;

/// The cells that a box reaches, from the left to the right column and from the bottom to the top row: 65,536 columns
/// and rows of cells of 65,536 half nm lie about the origin, and what lies outside is in those at the edge.
#[derive(Clone, Copy)]
pub struct Reach {
    pub left: u16,
    pub bottom: u16,
    pub right: u16,
    pub top: u16,
}

/// What is read of an item when all are read: the cells that it reaches, and how many leaves it has.
#[derive(Clone, Copy)]
pub struct Measure {
    pub reach: Reach,
    pub leaves: u64,
}

/// The column of a place, by its distance to the right of the origin, or its row, by that above the origin, in half nm.
#[inline]
pub(crate) fn cell(distance: i64) -> u16
    ensures { IsCell distance result }
{
    if (-TO_ORIGIN..TO_ORIGIN).contains(&distance) {
        return ((distance + TO_ORIGIN) as u64 / CELL_SIZE) as u16;
    }
    if distance < 0 { 0 } else { u16::MAX }
}

impl Reach {
    /// Of a box, in half nm.
    #[inline]
    pub(crate) fn of(bounds: Bounds) -> Reach
        ensures { IsReachOf bounds result }
    {
        match bounds {
            Bounds::Empty => Reach {
                left: u16::MAX,
                bottom: u16::MAX,
                right: 0,
                top: 0,
            },
            Bounds::Closed { low, high } => Reach {
                left: cell(low.x),
                bottom: cell(low.y),
                right: cell(high.x),
                top: cell(high.y),
            },
        }
    }
}
