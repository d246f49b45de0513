//! Decimals.

ghost use Rattle.std.specs.Prelude.{◌≡◌, ◌≤◌, ◌<◌, ◌^◌, length, IfSome};
ghost use Rattle.std.specs.List.{before_first, after_first, position_or_len};
ghost use Rattle.cam_numbers.specs.Blanks.{without_blanks};
ghost use Rattle.cam_numbers.specs.Numbers.{is_point, unsigned_decimal, decimal};
ghost use Rattle.cam_numbers.specs.Machinery.Counting.{decimals_of};

use crate::blanks::Blanks;
use crate::whole::{digits_of, read_sign, with_sign};

/// How many decimals a run has, and what they say in 10^-9 of a unit.
#[derive(Clone, Copy)]
struct Decimals {
    count: usize,
    value: u64,
}

/// `None` where the run holds anything but digits.
fn decimals_of(run: &[u8], blanks: Blanks) -> Option<Decimals>
    ensures value { result ≡ decimals_of (without_blanks blanks run.now) }
    ensures bound { IfSome result (λ decimals. decimals.value < 10 ^ 9) }
{
    let mut count = 0;
    let mut value = 0;
    let mut worth = 100_000_000;
    for byte in run {
        if blanks.passes(*byte) {
            continue;
        }
        if !byte.is_ascii_digit() {
            return None;
        }
        count += 1;
        value += u64::from(*byte - b'0') * worth;
        worth /= 10;
    }
    Some(Decimals { count, value })
}

/// The place of the first point, or the run's length where there is none.
fn point_place(run: &[u8]) -> usize
    ensures value { result ≡ position_or_len is_point run.now }
    ensures within { result ≤ length run.now }
{
    run.iter().take_while(|byte| **byte != b'.').count()
}

/// What stands before the first point of a run, and what behind it.
fn split_at_point(run: &[u8], blanks: Blanks) -> (&[u8], &[u8])
    ensures whole { without_blanks blanks result.0.now ≡ before_first is_point (without_blanks blanks run.now) }
    ensures decimals { without_blanks blanks result.1.now ≡ after_first is_point (without_blanks blanks run.now) }
{
    let place = point_place(run);
    if place == run.len() {
        return (run, &[]);
    }
    (&run[..place], &run[place + 1..])
}

/// A decimal without a sign, in 10^-9 of a unit: digits with an optional point, at least one digit, below 10^6.
/// Digits past the ninth decimal are dropped.
pub fn unsigned_decimal(run: &[u8], blanks: Blanks) -> Option<u64>
    ensures value { result ≡ unsigned_decimal (without_blanks blanks run.now) }
    ensures bound { IfSome result (λ n. n < 10 ^ 15) }
{
    let (whole, decimals) = split_at_point(run, blanks);
    let whole = digits_of(whole, blanks)?;
    let decimals = decimals_of(decimals, blanks)?;
    if whole.count == 0 && decimals.count == 0 {
        return None;
    }
    if whole.value >= 1_000_000 {
        return None;
    }
    Some(whole.value * 1_000_000_000 + decimals.value)
}

/// A decimal in 10^-9 of a unit: an optional sign, and behind it a decimal without one. Below 10^6 in absolute value.
pub fn decimal(run: &[u8], blanks: Blanks) -> Option<i64>
    ensures { result ≡ decimal (without_blanks blanks run.now) }
{
    let signed = read_sign(run, blanks);
    let size = unsigned_decimal(signed.size, blanks)?;
    Some(with_sign(signed.is_negative, size))
}
