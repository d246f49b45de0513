//! The coordinate at the front of a text.

ghost use Rattle.std.specs.Prelude.{◌≡◌, ◌≤◌, ◌<◌, ◌^◌, ◌||◌, length, take, true, Some, IfSome};
ghost use Rattle.std.specs.List.{prefix_len};
ghost use Rattle.cam_numbers.specs.Blanks.{is_blank_byte, without_blanks};
ghost use Rattle.cam_numbers.specs.Numbers.{are_digits, integer, is_numeric, value_of};
ghost use Rattle.cam_numbers.specs.Machinery.TextFronts.{IsDigitsFront, IsIntegerFront};
ghost use Rattle.cam_numbers.specs.declared.blanks.Blanks.TheVariants.{Skipped};

use crate::blanks::Blanks;
use crate::runs::is_numeric;
use crate::whole::{COORDINATE_DIGITS, Digits, integer, with_sign};

/// What a text begins with: digits, signs, points, line ends, spaces and tabs.
#[derive(Clone, Copy)]
pub struct Leading {
    /// How many such bytes there are.
    pub len: usize,
    /// The coordinate that they write, if they write one.
    pub value: Option<i64>,
}

/// The digits at the front of a text, up to one more than a coordinate may have.
fn leading_digits(text: &[u8]) -> Digits
    ensures few { result.count ≤ 16 }
    ensures within { result.count ≤ length text.now }
    ensures digits { are_digits (take result.count text.now) ≡ true }
    ensures value { result.value ≡ value_of (take result.count text.now) }
{
    let most = text.len().min(COORDINATE_DIGITS + 1);
    let mut value = 0;
    for place in 0..most {
        let byte = text[place];
        if !byte.is_ascii_digit() {
            return Digits {
                count: place,
                value,
            };
        }
        value = value * 10 + u64::from(byte - b'0');
    }
    Digits { count: most, value }
}

/// The coordinate of 1 to 15 digits that a text begins with, where a letter follows the last of them.
fn digits_before_letter(text: &[u8]) -> Option<Digits>
    ensures { IfSome result (IsDigitsFront text.now) }
{
    let digits = leading_digits(text);
    if digits.count == 0 || digits.count > COORDINATE_DIGITS {
        return None;
    }
    if digits.count == text.len() || text[digits.count] < b'A' {
        return None;
    }
    Some(digits)
}

/// The coordinate of 1 to 15 digits that a text begins with, or of a minus and these, where a letter follows the last
/// of them. Nearly all coordinates of files are written so.
fn plain_integer(text: &[u8]) -> Option<Leading>
    ensures { IfSome result (IsIntegerFront text.now) }
{
    if text.is_empty() {
        return None;
    }
    if text[0] == b'-' {
        let digits = digits_before_letter(&text[1..])?;
        return Some(Leading {
            len: digits.count + 1,
            value: Some(with_sign(true, digits.value)),
        });
    }
    let digits = digits_before_letter(text)?;
    Some(Leading {
        len: digits.count,
        value: Some(with_sign(false, digits.value)),
    })
}

/// How many bytes at the front of a text a number may hold, blanks among them, and the coordinate that they write.
pub fn leading_integer(text: &[u8]) -> Leading
    ensures len { result.len ≡ prefix_len (λ byte. is_numeric byte || is_blank_byte byte) text.now }
    ensures within { result.len ≤ length text.now }
    ensures value { result.value ≡ integer (without_blanks Skipped (take result.len text.now)) }
{
    if let Some(found) = plain_integer(text) {
        return found;
    }
    let len = text
        .iter()
        .take_while(|byte| is_numeric(**byte) || Blanks::Skipped.passes(**byte))
        .count();
    Leading {
        len,
        value: integer(&text[..len], Blanks::Skipped),
    }
}
