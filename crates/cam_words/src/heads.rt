//! What the first letters of a command make of it, skipped bytes left out.

ghost use Rattle.std.specs.Prelude.{◌≡◌, length, take, drop, nat_eq, is_some, option_map, IfOk, IfSome, MatchOption, [], ◌∷◌};
ghost use Rattle.std.specs.Option.{option_copied};
ghost use Rattle.std.specs.List.{starts_with, list_any};
ghost use Rattle.cam_words.specs.Bytes.{is_digit};
ghost use Rattle.cam_words.specs.Heads.{packed, behind_kept, behind_head, is_comment, is_free_text};

use crate::bytes::{is_skipped, leading_skipped};
use std::alloc::{AllocError, Global};

/// The text without its skipped bytes; an error where no memory is left for it.
pub fn packed(alloc: Global, text: &[u8]) -> Result<Vec<u8>, AllocError>
    ensures { IfOk result (λ v. v.items ≡ packed text.now) }
{
    text.iter()
        .copied()
        .filter(|byte| !is_skipped(*byte))
        .collect(alloc)
}

/// The first byte that is not skipped, and what stands behind it.
pub fn first_kept(text: &[u8]) -> Option<(u8, &[u8])>
    ensures behind { MatchOption result (behind_kept 1 text.now ≡ []) (λ kept. behind_kept 1 text.now ≡ kept.1.now) }
    ensures kept { MatchOption result (packed text.now ≡ []) (λ kept. packed text.now ≡ kept.0 ∷ packed kept.1.now) }
{
    match &text[leading_skipped(text)..] {
        [] => None,
        [byte, rest @ ..] => Some((*byte, rest)),
    }
}

/// What stands behind the head, if the text begins with it.
pub fn behind_head<'a>(head: &[u8], text: &'a [u8]) -> Option<&'a [u8]>
    ensures behind { option_map packed (option_copied result) ≡ behind_head head.now (packed text.now) }
    ensures begins { is_some result ≡ starts_with nat_eq (packed text.now) head.now }
    ensures rest { IfSome result (λ rest. packed rest.now ≡ drop (length head.now) (packed text.now)) }
{
    let mut rest = text;
    for wanted in head {
        let Some((byte, behind)) = first_kept(rest) else {
            return None;
        };
        if byte != *wanted {
            return None;
        }
        rest = behind;
    }
    Some(rest)
}

fn begins_with(text: &[u8], head: &[u8]) -> bool
    ensures { result ≡ starts_with nat_eq (packed text.now) head.now }
{
    behind_head(head, text).is_some()
}

fn begins_with_digit(text: &[u8]) -> bool
    ensures { result ≡ list_any is_digit (take 1 (packed text.now)) }
{
    match first_kept(text) {
        Some((byte, _)) => byte.is_ascii_digit(),
        None => false,
    }
}

/// Whether a word of this text is a comment: it begins with `G04`, or with `G4` and no digit after it.
pub fn is_comment(text: &[u8]) -> bool
    ensures { result ≡ is_comment text.now }
{
    // Nearly every word begins with another letter.
    if !begins_with(text, b"G") {
        return false;
    }
    if begins_with(text, b"G04") {
        return true;
    }
    match behind_head(b"G4", text) {
        Some(rest) => !begins_with_digit(rest),
        None => false,
    }
}

/// Whether an extended command of this text is an attribute or a name, which may hold any character.
pub fn is_free_text(text: &[u8]) -> bool
    ensures { result ≡ is_free_text text.now }
{
    begins_with(text, b"T") || begins_with(text, b"IN") || begins_with(text, b"LN")
}
