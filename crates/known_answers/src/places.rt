//! Places of the board, and boxes.

ghost use Rattle.std.specs.Prelude.{IfSome};
ghost use Rattle.cam_units.specs.Board.{IsPlace};

use crate::tables::{cut, number_in};
use cam_units::{Bounds, Spot};

/// A point in nm or a place in half nm, as rows write it.
pub(crate) type At = (i64, i64);

/// The place, where it lies on the board.
pub(crate) fn place(at: At) -> Option<Spot>
    ensures { IfSome result IsPlace }
{
    let (x, y) = at;
    if x.unsigned_abs() >= 2_000_000_000 {
        return None;
    }
    if y.unsigned_abs() >= 2_000_000_000 {
        return None;
    }
    Some(Spot { x, y })
}

/// The place `x,y`, where it lies on the board.
pub(crate) fn place_in(text: &[u8]) -> Option<Spot>
    ensures { IfSome result IsPlace }
{
    let (x, y) = cut(text, b',')?;
    place((number_in(x)?, number_in(y)?))
}

/// The box of these sides in half nm: left, below, right, above.
pub(crate) fn box_of([left, below, right, above]: [i64; 4]) -> Bounds {
    Bounds::Closed {
        low: Spot { x: left, y: below },
        high: Spot { x: right, y: above },
    }
}
