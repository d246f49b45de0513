//! Numbers that fall from each centre of a row to the next, row after row: how many of them are not negative moves by a
//! quotient and a remainder from each row to the next.

mod cutting;
mod dividing;

ghost use Rattle.std.specs.Prelude.{◌≡◌, ◌/◌, ◌+◌, ◌-◌, IsTrue, ◌^◌, ◌<◌, ◌≤◌, ◌↔◌, ℕ, pos, ◌-ℤ◌, ◌+ℤ◌, ◌*ℤ◌, ◌≤ℤ◌, ◌<ℤ◌};
ghost use Rattle.std.specs.Int.RustNames.{unsigned_abs};
ghost use Rattle.cam_rows.specs.Machinery.Slopes.{AreSteps, IsCrossing, IsDivisor, IsRest, IsRestAfter, whole};
ghost use Rattle.cam_rows.specs.Runs.{most_columns};

pub(crate) use cutting::{count_both, count_ends, cut_ends, cut_firsts};

/// How many columns of a row there are up to the last number that is not negative: the number left of the first column
/// is `columns` times the divisor less what the remainder, which is negative, lacks.
#[derive(Clone, Copy)]
pub(crate) struct Crossing {
    pub columns: i64,
    pub rest: i64,
}

/// How it moves from each row to the next: by whole columns, and by a rest of less than the divisor, which is how much
/// the numbers fall from each centre to the next.
#[derive(Clone, Copy)]
pub(crate) struct Steps {
    pub columns: i64,
    pub rest: i64,
    pub divisor: i64,
}

impl Crossing {
    /// How many of the columns before an end they are.
    #[inline]
    pub(crate) fn columns_before(self, end: u32) -> u32
        ensures { (i : ℕ) → (i < result) ↔ ((i < end) × (pos i <ℤ self.columns)) }
    {
        self.columns.max(0).min(i64::from(end)) as u32
    }

    /// Whether it lies in the same column in so many rows, this one the first of them.
    pub(crate) fn stays(self, steps: &Steps, rows: usize) -> bool
        requires steps { AreSteps steps.now }
        requires here { IsCrossing steps.now (2 ^ 61 + 1) self }
        requires some { 0 < rows }
        requires few { rows ≤ 2 ^ 20 }
        ensures { IsTrue result ↔ IsRestAfter (rows - 1) self steps.now }
    {
        let change = i128::from(steps.columns) * i128::from(steps.divisor) + i128::from(steps.rest);
        let last = i128::from(self.rest) + (rows - 1) as i128 * change;
        -i128::from(steps.divisor) <= last && last < 0
    }

    /// The crossing of the next row.
    #[inline]
    pub(crate) fn below(self, steps: &Steps) -> Crossing
        requires steps { AreSteps steps.now }
        requires here { IsCrossing steps.now (2 ^ 62) self }
        ensures lowered { whole result.columns steps.now.divisor result.rest
            ≡ whole self.columns steps.now.divisor self.rest
            +ℤ whole steps.now.columns steps.now.divisor steps.now.rest }
        ensures near { (bound : ℕ) → IsCrossing steps.now bound self → IsCrossing steps.now (bound + 2 ^ 41) result }
    {
        let columns = self.columns + steps.columns;
        // two sums of which one is chosen: a jump about a subtraction would be guessed wrong in many rows
        let rest = self.rest + steps.rest;
        let past = self.rest - (steps.divisor - steps.rest);
        if past < -steps.divisor {
            return Crossing { columns, rest };
        }
        Crossing {
            columns: columns + 1,
            rest: past,
        }
    }
}

/// How many of the columns there are up to the last number that is not negative, where they fall by a divisor.
pub(crate) fn columns_up_to(number: i128, divisor: i128, columns: u32) -> u32
    requires number { unsigned_abs number ≤ 2 ^ 100 }
    requires divisor { IsDivisor divisor }
    requires few { columns ≤ most_columns }
    ensures each { (i : ℕ) → i < columns
        → (i < result) ↔ (pos 0 ≤ℤ (number +ℤ pos i *ℤ (pos 0 -ℤ divisor))) }
    ensures within { result ≤ columns }
{
    let (last, _) = floor_division(number, divisor);
    if last < 0 {
        return 0;
    }
    if last >= i128::from(columns) {
        return columns;
    }
    last as u32 + 1
}

/// The greatest whole number that is at most the quotient, and what is left of the number.
fn floor_division(number: i128, divisor: i128) -> (i128, i128)
    requires number { unsigned_abs number ≤ 2 ^ 101 }
    requires divisor { IsDivisor divisor }
    ensures whole { whole result.0 divisor result.1 ≡ number }
    ensures rest { IsRest result.1 divisor }
{
    let quotient = floor_quotient(number, divisor);
    (quotient, number - quotient * divisor)
}

/// The greatest whole number that is at most the quotient.
fn floor_quotient(number: i128, divisor: i128) -> i128
    requires divisor { IsDivisor divisor }
    ensures least { (result *ℤ divisor) ≤ℤ number }
    ensures greatest { number <ℤ ((result +ℤ pos 1) *ℤ divisor) }
{
    if number < 0 {
        return -1 - quotient((-1 - number) as u128, divisor as u128) as i128;
    }
    quotient(number as u128, divisor as u128) as i128
}

/// The quotient, by a division of 64 bits where both numbers fit them.
fn quotient(number: u128, divisor: u128) -> u128
    requires divisor { 0 < divisor }
    ensures { result ≡ number / divisor }
{
    let longest = u128::from(u64::MAX);
    if number <= longest && divisor <= longest {
        return u128::from(number as u64 / divisor as u64);
    }
    number / divisor
}
