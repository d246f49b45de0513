//! Products of more than 64 bits, and what they are compared with.

ghost use Rattle.std.specs.Prelude.{◌≡◌, ◌^◌, ◌<◌, ◌↔◌, ◌*ℤ◌, ◌≤ℤ◌, IsTrue};
ghost use Rattle.std.specs.Int.RustNames.{unsigned_abs};
ghost use Rattle.cam_units.specs.Board.{IsSize};
ghost use Rattle.cam_shapes.specs.Plane.{IsShort, dot, square};

use crate::size::squared;
use crate::vector::Vector;
use cam_units::Nm;

/// The square of a root from here on is above each bound.
const LONG_ROOT: u128 = 0x8000_0000_0000_0000;

/// Whether the square of the root is at most the bound. A long root decides without squaring.
pub fn has_square_within(root: i128, bound: i128) -> bool
    requires { unsigned_abs bound < 2 ^ 126 }
    ensures { IsTrue result ↔ square root ≤ℤ bound }
{
    root.unsigned_abs() < LONG_ROOT && root * root <= bound
}

/// The square of a radius times the square of a length.
pub fn squared_product(radius: Nm, way: Vector) -> i128
    requires radius { IsSize radius.0 }
    requires way { IsShort way }
    ensures value { result ≡ square radius.0 *ℤ dot way way }
    ensures bound { unsigned_abs result < 2 ^ 123 }
{
    squared(radius) * way.dot(way)
}
