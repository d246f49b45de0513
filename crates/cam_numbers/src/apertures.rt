//! The numbers of apertures.

ghost use Rattle.std.specs.Prelude.{◌≡◌};
ghost use Rattle.cam_numbers.specs.Blanks.{without_blanks};
ghost use Rattle.cam_numbers.specs.Numbers.{within_numbers, defined_number};

use crate::blanks::Blanks;
use crate::whole::natural;

/// The greatest number of an aperture.
const LAST_APERTURE: u64 = 2_147_483_647;

/// The number of an aperture, if it is not past the greatest one.
pub fn within_numbers(n: u64) -> Option<u32>
    ensures { result ≡ within_numbers n }
{
    if n > LAST_APERTURE {
        None
    } else {
        Some(n as u32)
    }
}

/// The number that a definition gives an aperture: 10 to 2,147,483,647.
pub fn defined_number(run: &[u8], blanks: Blanks) -> Option<u32>
    ensures { result ≡ defined_number (without_blanks blanks run.now) }
{
    let number = natural(run, blanks)?;
    if number < 10 {
        return None;
    }
    within_numbers(number)
}
