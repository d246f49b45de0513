//! The numbers of variables.

ghost use Rattle.std.specs.Prelude.{◌≡◌};
ghost use Rattle.cam_macros.specs.Scanning.{variable_of};

use cam_numbers::{Blanks, natural};

/// The greatest number of a variable.
const LAST_VARIABLE: u64 = 9_999;

/// The number of a variable, from 1 to 9,999.
pub(crate) fn variable(digits: &[u8]) -> Option<u32>
    ensures { result ≡ variable_of digits.now }
{
    let number = natural(digits, Blanks::Refused)?;
    if number == 0 {
        return None;
    }
    if number > LAST_VARIABLE {
        return None;
    }
    Some(number as u32)
}
