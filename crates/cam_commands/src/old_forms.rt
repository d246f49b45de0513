//! Old extended commands that say what holds anyway.

ghost use Rattle.std.specs.Prelude.{◌≡◌, option_map};
ghost use Rattle.std.specs.Option.{option_copied};
ghost use Rattle.cam_words.specs.Heads.{packed};
ghost use Rattle.cam_commands.specs.ExtendedCommands.{is_plain_or_missing, is_plain_pair, is_neutral};

use crate::field::read_field;
use crate::names::OldForm;
use crate::numbers::is_plain;
use crate::text::{is_empty, is_text};

fn is_plain_or_missing(digit: u8, run: Option<&[u8]>) -> bool
    ensures { result ≡ is_plain_or_missing digit (option_map packed (option_copied run.entry)) }
{
    match run {
        None => true,
        Some(run) => is_plain(digit, run),
    }
}

/// Whether the text has this digit for A and for B, of which one may be missing.
#[tactic(auto, unfolding(crate::specs::ExtendedCommands::is_plain_pair))]
fn is_plain_pair(digit: u8, text: &[u8]) -> bool
    ensures { result ≡ is_plain_pair digit (packed text.now) }
{
    let a = read_field(b'A', text);
    let b = read_field(b'B', a.behind);
    if !is_empty(b.behind) {
        return false;
    }
    if a.run.is_none() && b.run.is_none() {
        return false;
    }
    is_plain_or_missing(digit, a.run) && is_plain_or_missing(digit, b.run)
}

/// Whether the form changes nothing.
#[tactic(auto, unfolding(crate::specs::ExtendedCommands::is_neutral))]
pub fn is_neutral(form: OldForm, text: &[u8]) -> bool
    ensures { result ≡ is_neutral form (packed text.now) }
{
    match form {
        OldForm::ImagePolarity => is_text(text, b"POS"),
        OldForm::AxesSelect => {
            is_text(text, b"AXBY") || is_text(text, b"AX") || is_text(text, b"BY")
        }
        OldForm::ImageRotation => is_plain(b'0', text),
        OldForm::MirrorImage | OldForm::Offset => is_plain_pair(b'0', text),
        OldForm::ScaleFactor => is_plain_pair(b'1', text),
    }
}
