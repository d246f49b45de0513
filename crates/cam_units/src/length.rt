//! Lengths to the nearest nanometre.

ghost use Rattle.std.specs.Prelude.{◌≡◌, ◌^◌, ◌<◌, ◌≤◌, ◌*ℤ◌, ℤ, MatchOption};
ghost use Rattle.std.specs.Int.RustNames.{unsigned_abs};
ghost use Rattle.cam_units.specs.declared.length.Unit.TheVariants.{Inch, Mm};
ghost use Rattle.cam_units.specs.Nearest.{coord_of, fix9_of, nearest_of};

/// A length in nanometres.
#[derive(Clone, Copy, Debug, PartialEq, Eq)]
pub struct Nm(pub i64);

/// The unit of a file: one inch is 25.4 mm (Gerber Layer Format Specification,
/// "Unit (MO)").
#[derive(Clone, Copy, Debug, PartialEq, Eq)]
pub enum Unit {
    Mm,
    Inch,
}

/// The quotient of two whole numbers.
#[derive(Clone, Copy, Debug, PartialEq, Eq)]
pub struct Quotient {
    pub above: i128,
    pub below: u64,
}

impl Quotient {
    /// The nearest whole number, ties away from zero, where `above` is at most 2^126 in absolute
    /// value and `below` more than 0.
    pub fn nearest(self) -> i128
        requires some { 0 < self.below }
        requires short { unsigned_abs self.above ≤ 2 ^ 126 }
        ensures value { result ≡ nearest_of self.above self.below }
        ensures bound { unsigned_abs result ≤ unsigned_abs self.above }
    {
        let below = u128::from(self.below);
        let size = (2 * self.above.unsigned_abs() + below) / (2 * below);
        if self.above < 0 {
            -(size as i128)
        } else {
            size as i128
        }
    }
}

/// The nanometres of a step of the last decimal of a coordinate in millimetres.
fn nm_per_step(decimals: u32) -> i64
    requires { decimals ≤ 6 }
    ensures { (n : ℤ) → coord_of n decimals Mm ≡ n *ℤ result }
{
    match decimals {
        0 => 1_000_000,
        1 => 100_000,
        2 => 10_000,
        3 => 1_000,
        4 => 100,
        5 => 10,
        _ => 1,
    }
}

/// The length of a coordinate in millimetres, which needs no rounding.
fn millimetres(n: i64, decimals: u32) -> Option<Nm>
    requires { decimals ≤ 6 }
    ensures { MatchOption result
        (10 ^ 18 ≤ unsigned_abs (coord_of n decimals Mm))
        (λ length. (length.0 ≡ coord_of n decimals Mm) × (unsigned_abs length.0 < 10 ^ 18)) }
{
    let length = n.checked_mul(nm_per_step(decimals))?;
    if length.unsigned_abs() >= 1_000_000_000_000_000_000 {
        return None;
    }
    Some(Nm(length))
}

/// A coordinate in inches in nanometres, not yet rounded.
#[tactic(auto, using(crate::proofs::NearestLaws::ten_power))]
fn inches(n: i64, decimals: u32) -> Quotient
    requires { decimals ≤ 6 }
    ensures value { nearest_of result.above result.below ≡ coord_of n decimals Inch }
    ensures some { 0 < result.below }
    ensures short { unsigned_abs result.above ≤ 2 ^ 126 }
{
    Quotient {
        above: i128::from(n) * 25_400_000,
        below: 10u64.pow(decimals),
    }
}

/// The length of the coordinate `n` with `decimals` decimals, to the nearest nanometre,
/// ties away from zero; `None` where that is 10^18 nm or more in absolute value.
///
/// (Gerber Layer Format Specification, "Format Specification (FS)".)
pub fn coord_nm(n: i64, decimals: u32, unit: Unit) -> Option<Nm>
    requires { decimals ≤ 6 }
    ensures { MatchOption result
        (10 ^ 18 ≤ unsigned_abs (coord_of n decimals unit))
        (λ length. (length.0 ≡ coord_of n decimals unit) × (unsigned_abs length.0 < 10 ^ 18)) }
{
    match unit {
        Unit::Mm => millimetres(n, decimals),
        Unit::Inch => {
            let length = inches(n, decimals).nearest();
            if length.unsigned_abs() < 1_000_000_000_000_000_000 {
                Some(Nm(length as i64))
            } else {
                None
            }
        }
    }
}

/// So many parts of 10^-9 of a unit in nanometres, not yet rounded.
fn billionths(v: i64, unit: Unit) -> Quotient
    ensures value { nearest_of result.above result.below ≡ fix9_of v unit }
    ensures some { 0 < result.below }
    ensures short { unsigned_abs result.above ≤ 2 ^ 126 }
    ensures length { unsigned_abs (nearest_of result.above result.below) < 2 ^ 63 }
{
    match unit {
        Unit::Mm => Quotient {
            above: i128::from(v),
            below: 1_000,
        },
        Unit::Inch => Quotient {
            above: i128::from(v) * 254,
            below: 10_000,
        },
    }
}

/// The length of `v` parts of 10^-9 of a unit, to the nearest nanometre, ties away from zero.
pub fn fix9_nm(v: i64, unit: Unit) -> Nm
    ensures { result.0 ≡ fix9_of v unit }
{
    Nm(billionths(v, unit).nearest() as i64)
}
