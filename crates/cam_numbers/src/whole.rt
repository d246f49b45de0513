//! Whole numbers.

ghost use Rattle.std.specs.Prelude.{◌≡◌, ◌≤◌, ◌<◌, ◌^◌, min, IfSome, option_map};
ghost use Rattle.cam_numbers.specs.Blanks.{without_blanks};
ghost use Rattle.cam_numbers.specs.Numbers.{value_limit, natural, natural_within, integer, is_negative, behind_sign};
ghost use Rattle.cam_numbers.specs.Numbers.{with_sign};
ghost use Rattle.cam_numbers.specs.Machinery.Counting.{digits_of};

use crate::blanks::{Blanks, first_kept};

/// Values of digits are told up to this. It is past every number that a file may hold.
const VALUE_LIMIT: u64 = 1_000_000_000_000_000;

/// How many digits a coordinate may have.
pub(crate) const COORDINATE_DIGITS: usize = 15;

/// How many digits a run has, and their value, at most `VALUE_LIMIT`.
#[derive(Clone, Copy)]
pub(crate) struct Digits {
    pub(crate) count: usize,
    pub(crate) value: u64,
}

/// `None` where the run holds anything but digits.
pub(crate) fn digits_of(run: &[u8], blanks: Blanks) -> Option<Digits>
    ensures { result ≡ digits_of (without_blanks blanks run.now) }
{
    let mut count = 0;
    let mut value = 0;
    for byte in run {
        if blanks.passes(*byte) {
            continue;
        }
        if !byte.is_ascii_digit() {
            return None;
        }
        count += 1;
        value = VALUE_LIMIT.min(value * 10 + u64::from(*byte - b'0'));
    }
    Some(Digits { count, value })
}

/// The value of a run of digits, at most 10^15; `None` where it is empty or holds anything else.
pub fn natural(run: &[u8], blanks: Blanks) -> Option<u64>
    ensures { result ≡ option_map (min value_limit) (natural (without_blanks blanks run.now)) }
{
    let digits = digits_of(run, blanks)?;
    if digits.count == 0 {
        return None;
    }
    Some(digits.value)
}

/// The value of 1 to so many digits.
pub fn natural_within(most: usize, run: &[u8], blanks: Blanks) -> Option<u64>
    requires { most ≤ 15 }
    ensures value { result ≡ natural_within most (without_blanks blanks run.now) }
    ensures bound { IfSome result (λ n. n < 10 ^ most) }
{
    let digits = digits_of(run, blanks)?;
    if digits.count == 0 {
        return None;
    }
    if digits.count > most {
        return None;
    }
    Some(digits.value)
}

/// The sign of a run, and what stands behind it.
#[derive(Clone, Copy)]
pub(crate) struct Signed<'a> {
    pub(crate) is_negative: bool,
    pub(crate) size: &'a [u8],
}

pub(crate) fn read_sign(run: &[u8], blanks: Blanks) -> Signed<'_>
    ensures sign { result.is_negative ≡ is_negative (without_blanks blanks run.now) }
    ensures size { without_blanks blanks result.size.now ≡ behind_sign (without_blanks blanks run.now) }
{
    match first_kept(run, blanks) {
        Some((b'-', size)) => Signed {
            is_negative: true,
            size,
        },
        Some((b'+', size)) => Signed {
            is_negative: false,
            size,
        },
        _ => Signed {
            is_negative: false,
            size: run,
        },
    }
}

pub(crate) fn with_sign(is_negative: bool, size: u64) -> i64
    requires { size < 2 ^ 63 }
    ensures { result ≡ with_sign is_negative size }
{
    if is_negative {
        -(size as i64)
    } else {
        size as i64
    }
}

/// A coordinate: an optional sign and 1 to 15 digits.
pub fn integer(run: &[u8], blanks: Blanks) -> Option<i64>
    ensures { result ≡ integer (without_blanks blanks run.now) }
{
    let signed = read_sign(run, blanks);
    let size = natural_within(COORDINATE_DIGITS, signed.size, blanks)?;
    Some(with_sign(signed.is_negative, size))
}
