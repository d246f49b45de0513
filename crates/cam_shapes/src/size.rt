//! Diameters, sides and widths.

ghost use Rattle.std.specs.Prelude.{◌≡◌, ◌^◌, ◌<◌, ◌↔◌, ◌-ℤ◌, ◌≤ℤ◌, ◌<ℤ◌, IsTrue, pos};
ghost use Rattle.std.specs.Int.RustNames.{unsigned_abs};
ghost use Rattle.cam_units.specs.Board.{IsSize};
ghost use Rattle.cam_shapes.specs.Plane.{square};

use cam_units::Nm;

/// Whether a diameter, side or width is more than 0.
pub fn is_positive(size: Nm) -> bool
    ensures { IsTrue result ↔ pos 0 <ℤ size.0 }
{
    size.0 > 0
}

/// The square of a diameter, side or width.
pub fn squared(size: Nm) -> i128
    requires { IsSize size.0 }
    ensures value { result ≡ square size.0 }
    ensures bound { unsigned_abs result < 2 ^ 56 }
{
    i128::from(size.0) * i128::from(size.0)
}

/// How much longer one size is than another.
pub fn excess(longer: Nm, shorter: Nm) -> Nm
    requires longer { IsSize longer.0 }
    requires shorter { IsSize shorter.0 }
    requires order { shorter.0 ≤ℤ longer.0 }
    ensures value { result.0 ≡ longer.0 -ℤ shorter.0 }
    ensures size { IsSize result.0 }
{
    Nm(longer.0 - shorter.0)
}
