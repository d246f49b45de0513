//! What some commands ask of their numbers.

ghost use Rattle.std.specs.Prelude.{◌≡◌, ◌==◌, ◌||◌};
ghost use Rattle.std.specs.List.{list_all};
ghost use Rattle.cam_words.specs.Bytes.{is_skipped};
ghost use Rattle.cam_words.specs.Heads.{packed};
ghost use Rattle.cam_commands.specs.Numbers.{count, is_plain};

use cam_numbers::{Blanks, natural_within};
use cam_words::{first_kept, is_skipped};

/// How many digits a count of columns or rows may have.
const COUNT_DIGITS: usize = 9;

/// How many columns or rows a step and repeat has: 1 to 9 digits, and not 0.
#[tactic(auto, unfolding(crate::specs::Numbers::count))]
pub fn count(run: &[u8]) -> Option<u32>
    ensures { result ≡ count (packed run.now) }
{
    let n = natural_within(COUNT_DIGITS, run, Blanks::Skipped)?;
    if n == 0 {
        return None;
    }
    Some(n as u32)
}

fn are_zeros(run: &[u8]) -> bool
    ensures { result ≡ list_all (λ byte. (byte == 48) || is_skipped byte) run.now }
{
    run.iter().all(|byte| *byte == b'0' || is_skipped(*byte))
}

/// Whether the run is this digit, also with a point and zeros behind it.
pub fn is_plain(digit: u8, run: &[u8]) -> bool
    ensures { result ≡ is_plain digit (packed run.now) }
{
    let Some((first, behind)) = first_kept(run) else {
        return false;
    };
    if first != digit {
        return false;
    }
    let Some((point, zeros)) = first_kept(behind) else {
        return true;
    };
    if point != b'.' {
        return false;
    }
    are_zeros(zeros)
}
