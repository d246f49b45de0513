//! The fields of a command, each a letter and its number.

ghost use Rattle.std.specs.Prelude.{◌≡◌, ◌≤◌, ◌||◌, length, option_map};
ghost use Rattle.std.specs.Option.{option_copied};
ghost use Rattle.std.specs.List.{prefix_len};
ghost use Rattle.cam_words.specs.Bytes.{is_skipped};
ghost use Rattle.cam_words.specs.Heads.{packed};
ghost use Rattle.cam_numbers.specs.Numbers.{is_numeric};
ghost use Rattle.cam_commands.specs.Fields.{field, is_run};

use crate::text::is_empty;
use cam_numbers::is_numeric;
use cam_words::{first_kept, is_skipped};

/// What stands behind a letter at the front of a text.
#[derive(Clone, Copy)]
pub struct Field<'a> {
    /// Digits, signs and points, where the letter stands there.
    pub run: Option<&'a [u8]>,
    pub behind: &'a [u8],
}

/// How many digits, signs, points and skipped bytes the text begins with.
fn run_len(text: &[u8]) -> usize
    ensures value { result ≡ prefix_len (λ byte. is_numeric byte || is_skipped byte) text.now }
    ensures within { result ≤ length text.now }
{
    text.iter()
        .take_while(|byte| is_numeric(**byte) || is_skipped(**byte))
        .count()
}

/// Whether the text has nothing but digits, signs and points.
pub fn is_run(text: &[u8]) -> bool
    ensures { result ≡ is_run (packed text.now) }
{
    is_empty(&text[run_len(text)..])
}

/// The field of the letter at the front of a text.
pub fn read_field(letter: u8, text: &[u8]) -> Field<'_>
    ensures run { option_map packed (option_copied result.run) ≡ (field letter (packed text.now)).0 }
    ensures behind { packed result.behind.now ≡ (field letter (packed text.now)).1 }
{
    let absent = Field {
        run: None,
        behind: text,
    };
    let Some((first, rest)) = first_kept(text) else {
        return absent;
    };
    if first != letter {
        return absent;
    }
    let (run, behind) = rest.split_at(run_len(rest));
    Field {
        run: Some(run),
        behind,
    }
}
