//! Numbers and lengths, as canonical texts write them.

ghost use Rattle.std.specs.Prelude.{◌≡◌, ◌++◌, decimal, OnOk};
ghost use Rattle.cam_writers.specs.Lengths.{last_digit, mm, unsigned_mm, whole};

use cam_units::Nm;
use itoa::Buffer;
use std::alloc::AllocError;

/// The nanometres of a millimetre.
const MILLIMETRE: u64 = 1_000_000;

/// The last digit of a number.
fn last_digit(number: u64) -> u8
    ensures { result ≡ last_digit number }
{
    b'0' + (number % 10) as u8
}

/// Writes a number at the text's end, without leading zeros.
pub fn push_decimal(text: &mut Vec<u8>, number: u64) -> Result<(), AllocError>
    ensures { OnOk result (text.new.items ≡ text.old.items ++ decimal number) }
{
    let mut buffer = Buffer::new();
    text.extend_from_slice(buffer.format(number).as_bytes())
}

/// Writes so many nm at the text's end, in mm with six decimals.
#[tactic(auto, unfolding(crate::specs::Lengths::unsigned_mm))]
fn push_unsigned_mm(text: &mut Vec<u8>, nm: u64) -> Result<(), AllocError>
    ensures { OnOk result (text.new.items ≡ text.old.items ++ unsigned_mm nm) }
{
    push_decimal(text, nm / MILLIMETRE)?;
    text.extend_from_slice(&[
        b'.',
        last_digit(nm / 100_000),
        last_digit(nm / 10_000),
        last_digit(nm / 1_000),
        last_digit(nm / 100),
        last_digit(nm / 10),
        last_digit(nm),
    ])
}

/// Writes a length at the text's end, in mm with six decimals.
pub fn push_mm(text: &mut Vec<u8>, length: Nm) -> Result<(), AllocError>
    ensures { OnOk result (text.new.items ≡ text.old.items ++ mm length.0) }
{
    if length.0 < 0 {
        text.push(b'-')?;
    }
    push_unsigned_mm(text, length.0.unsigned_abs())
}

/// Writes a length at the text's end, as a whole number of nm.
pub fn push_whole(text: &mut Vec<u8>, length: Nm) -> Result<(), AllocError>
    ensures { OnOk result (text.new.items ≡ text.old.items ++ whole length.0) }
{
    let nm = length.0;
    if nm < 0 {
        text.push(b'-')?;
    }
    push_decimal(text, nm.unsigned_abs())
}
