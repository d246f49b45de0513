//! The numbers that words write.

ghost use Rattle.std.specs.Prelude.{◌≡◌};
ghost use Rattle.cam_script.specs.Items.{point_read};
ghost use Rattle.cam_script.specs.Words.{numeral_to, count_in, length_in, tool_in};

use crate::pieces::first_byte;
use cam_units::Point;
use std::str;

/// The greatest absolute value of a length, in nanometres.
const MOST_LENGTH: u64 = 4_000_000_000;

/// The number that digits alone write, if it is at most `most`.
fn numeral(digits: &[u8], most: u64) -> Option<u64>
    ensures { result ≡ numeral_to most digits.now }
{
    if first_byte(digits) == b'+' {
        return None;
    }
    let Ok(text) = str::from_utf8(digits) else {
        return None;
    };
    let Ok(value) = text.parse::<u64>() else {
        return None;
    };
    if value > most {
        return None;
    }
    Some(value)
}

/// A place or a count: digits alone, below 2^32.
pub fn count(word: &[u8]) -> Option<u32>
    ensures { result ≡ count_in word.now }
{
    numeral(word, u64::from(u32::MAX)).map(|value| value as u32)
}

/// A place of a list, or how many of its places: as a count.
pub fn place(word: &[u8]) -> Option<usize>
    ensures { result ≡ count_in word.now }
{
    count(word).map(|place| place as usize)
}

/// A length in nanometres: an optional sign and digits, of at most 4,000,000,000 in
/// absolute value.
pub fn length(word: &[u8]) -> Option<i64>
    ensures { result ≡ length_in word.now }
{
    match word.split_first() {
        Some((b'-', digits)) => Some(-(numeral(digits, MOST_LENGTH)? as i64)),
        Some((b'+', digits)) => Some(numeral(digits, MOST_LENGTH)? as i64),
        _ => Some(numeral(word, MOST_LENGTH)? as i64),
    }
}

/// The number of a tool: one past 65,535 is read as 65,535, which no layer has.
pub fn tool(word: &[u8]) -> Option<u16>
    ensures { result ≡ tool_in word.now }
{
    count(word).map(|number| number.min(65_535) as u16)
}

/// A point of two lengths.
pub fn point(words: (&[u8], &[u8])) -> Option<Point>
    ensures { result ≡ point_read words.entry.0.now words.entry.1.now }
{
    let x = length(words.0)?;
    let y = length(words.1)?;
    Some(Point { x, y })
}
