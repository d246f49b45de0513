//! Whole numbers of 10^-9 units.

ghost use Rattle.std.specs.Prelude.{◌≡◌, ◌<◌, ◌≤◌, ◌^◌, ◌*ℤ◌, pos, Some, option_map, unsigned_abs};
ghost use Rattle.cam_units.specs.Nearest.{nearest_of};
ghost use Rattle.cam_macros.specs.Arithmetic.{within, operator_applied, quotient};
ghost use Rattle.cam_macros.specs.Numbers.{billion};

use crate::expression::Operator;
use cam_units::Quotient;

/// 10^6 units, in 10^-9 units: every value is less in absolute value.
const LIMIT: u128 = 1_000_000_000_000_000;

/// One unit, in 10^-9 units.
pub(crate) const BILLION: u64 = 1_000_000_000;

/// A number in 10^-9 units.
#[derive(Clone, Copy)]
pub(crate) struct Fixed {
    pub(crate) billionths: i64,
}

impl Fixed {
    /// The number, where it is less than 10^6 units in absolute value.
    pub(crate) fn within(billionths: i128) -> Option<Fixed>
        ensures { option_map (λ value. value.billionths) result ≡ within billionths }
    {
        if billionths.unsigned_abs() < LIMIT {
            Some(Fixed {
                billionths: billionths as i64,
            })
        } else {
            None
        }
    }

    /// The number times 10^9.
    fn scaled(self) -> i128
        ensures value { result ≡ self.billionths *ℤ pos billion }
        ensures short { unsigned_abs result ≤ 2 ^ 93 }
    {
        i128::from(self.billionths) * i128::from(BILLION)
    }
}

impl Operator {
    /// The answer in 10^-9 units, products and quotients rounded to nearest; `None` where the divisor is 0. It may still
    /// be too large.
    pub(crate) fn applied(self, left: Fixed, right: Fixed) -> Option<i128>
        ensures { result ≡ operator_applied self left.billionths right.billionths }
    {
        let above = i128::from(left.billionths);
        let below = i128::from(right.billionths);
        match self {
            Operator::Add => Some(above + below),
            Operator::Subtract => Some(above - below),
            Operator::Multiply => nearest(above * below, BILLION),
            Operator::Divide => quotient(left, right),
        }
    }
}

/// The quotient, rounded to nearest; `None` where the divisor is 0.
fn quotient(left: Fixed, right: Fixed) -> Option<i128>
    ensures { result ≡ quotient left.billionths right.billionths }
{
    let below = right.billionths.unsigned_abs();
    if below == 0 {
        return None;
    }
    let above = left.scaled();
    if right.billionths < 0 {
        return nearest(-above, below);
    }
    nearest(above, below)
}

/// The whole number nearest to a quotient, ties away from zero.
fn nearest(above: i128, below: u64) -> Option<i128>
    requires some { 0 < below }
    requires short { unsigned_abs above ≤ 2 ^ 126 }
    ensures { result ≡ Some (nearest_of above below) }
{
    Some(Quotient { above, below }.nearest())
}
