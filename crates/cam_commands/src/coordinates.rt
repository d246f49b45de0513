//! The coordinates of an operation.

ghost use Rattle.std.specs.Prelude.{◌≡◌, List, Option, Some, ℕ, is_some};
ghost use Rattle.cam_words.specs.Heads.{packed};
ghost use Rattle.cam_numbers.specs.Numbers.{behind_run, integer, run_of};
ghost use Rattle.cam_commands.specs.Fields.{field};
ghost use Rattle.cam_commands.specs.WordCommands.{slot, written};

use crate::parts::Slot;
use cam_numbers::leading_integer;
use cam_words::first_kept;

/// X, Y, I or J of an operation, and what stands behind it.
#[derive(Clone, Copy)]
pub struct Coordinate<'a> {
    pub slot: Slot<i64>,
    pub behind: &'a [u8],
}

/// The slot of a letter that stands there, by the number behind it.
fn slot_of(number: Option<i64>) -> Slot<i64>
    ensures { result ≡ written number }
{
    match number {
        None => Slot::Malformed,
        Some(n) => Slot::Written(n),
    }
}

/// The coordinate whose letter stands before a text.
fn behind_letter(text: &[u8]) -> Coordinate<'_>
    ensures slot { result.slot ≡ slot integer (Some (run_of (packed text.now))) }
    ensures behind { packed result.behind.now ≡ behind_run (packed text.now) }
{
    let number = leading_integer(text);
    Coordinate {
        slot: slot_of(number.value),
        behind: &text[number.len..],
    }
}

/// The coordinate of the letter at the front of a text.
pub fn read_coordinate(letter: u8, text: &[u8]) -> Coordinate<'_>
    ensures slot { result.slot ≡ slot integer (field letter (packed text.now)).0 }
    ensures behind { packed result.behind.now ≡ (field letter (packed text.now)).1 }
{
    let absent = Coordinate {
        slot: Slot::Omitted,
        behind: text,
    };
    let Some((first, rest)) = first_kept(text) else {
        return absent;
    };
    if first != letter {
        return absent;
    }
    behind_letter(rest)
}

/// Whether the letter stands there.
pub fn is_there(coordinate: Slot<i64>) -> bool
    ensures { (run : Option (List ℕ)) → coordinate ≡ slot integer run → result ≡ is_some run }
{
    !matches!(coordinate, Slot::Omitted)
}
