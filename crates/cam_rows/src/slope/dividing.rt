//! Where falling numbers cross 0 in the top row, and how that moves, by a division of 128 bits for each.

ghost use Rattle.std.specs.Prelude.{◌^◌, ◌≤◌, ◌↔◌, IfSome, IsTrue};
ghost use Rattle.std.specs.Int.RustNames.{unsigned_abs};
ghost use Rattle.cam_rows.specs.Machinery.Slopes.{AreSteps, AreStepsOf, IsTopOf};

use super::{Crossing, Steps, floor_division};

/// The greatest size of a divisor and of a quotient in 64 bits: so many columns and 2^20 steps fit as well.
const LONGEST: i64 = 1 << 61;

/// The most columns that are stepped over from a row to the next.
const LONGEST_STEP: u128 = 1 << 40;

impl Steps {
    /// The steps of numbers that fall by a divisor from each centre to the next, and change from each row to the next;
    /// none where they may not fit 64 bits.
    pub(crate) fn of(change: i128, divisor: i128) -> Option<Steps>
        requires { unsigned_abs change ≤ 2 ^ 100 }
        ensures { IfSome result (λ t. AreStepsOf t change divisor) }
    {
        if divisor <= 0 || !is_short(divisor) {
            return None;
        }
        let (columns, rest) = floor_division(change, divisor);
        if columns.unsigned_abs() > LONGEST_STEP {
            return None;
        }
        Some(Steps {
            columns: columns as i64,
            rest: rest as i64,
            divisor: divisor as i64,
        })
    }

    /// The crossing of the row that has this number at its leftmost centre; none where it may not fit 64 bits.
    pub(crate) fn crossing(&self, number: i128) -> Option<Crossing>
        requires steps { AreSteps self.now }
        requires number { unsigned_abs number ≤ 2 ^ 101 }
        ensures { IfSome result (λ c. IsTopOf c self.now number) }
    {
        let (last, rest) = floor_division(number, i128::from(self.divisor));
        if !is_short(last) {
            return None;
        }
        Some(Crossing {
            columns: last as i64 + 1,
            rest: rest as i64 - self.divisor,
        })
    }
}

/// Whether a number is at most the greatest one.
fn is_short(number: i128) -> bool
    ensures { IsTrue result ↔ (unsigned_abs number ≤ 2 ^ 61) }
{
    let longest = i128::from(LONGEST);
    -longest <= number && number <= longest
}
