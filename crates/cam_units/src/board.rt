//! The limits of the board.

ghost use Rattle.std.specs.Prelude.{◌↔◌, IsTrue};
ghost use Rattle.cam_units.specs.Board.{IsOnBoard, IsSize};

use crate::length::Nm;
use crate::point::Point;
use cam_refusals::limits::{BOARD_LIMIT, SIZE_LIMIT};

/// The greatest diameter, side or width, in nm.
const SIZE: i64 = SIZE_LIMIT as i64;

/// Whether both coordinates are under 1,000,000,000 nm in absolute value.
pub fn fits_board(point: Point) -> bool
    ensures { IsTrue result ↔ IsOnBoard point }
{
    point.x.unsigned_abs() < BOARD_LIMIT && point.y.unsigned_abs() < BOARD_LIMIT
}

/// Whether a diameter, side or width is from 0 to 200,000,000 nm.
pub fn fits_size(length: Nm) -> bool
    ensures { IsTrue result ↔ IsSize length.0 }
{
    0 <= length.0 && length.0 <= SIZE
}
