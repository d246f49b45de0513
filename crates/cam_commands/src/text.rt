//! Texts, of which the skipped bytes do not count.

ghost use Rattle.std.specs.Prelude.{◌≡◌, ◌==◌, length};
ghost use Rattle.std.specs.List.{list_any};
ghost use Rattle.std.specs.Str.{bytes_eq};
ghost use Rattle.cam_words.specs.Bytes.{is_star};
ghost use Rattle.cam_words.specs.Heads.{packed};

use cam_words::{behind_head, first_kept};

/// Whether the text has skipped bytes alone.
pub fn is_empty(text: &[u8]) -> bool
    ensures { result ≡ (length (packed text.now) == 0) }
{
    first_kept(text).is_none()
}

/// Whether the text is these bytes.
pub fn is_text(text: &[u8], wanted: &[u8]) -> bool
    ensures { result ≡ bytes_eq (packed text.now) wanted.now }
{
    match behind_head(wanted, text) {
        Some(rest) => is_empty(rest),
        None => false,
    }
}

pub fn holds_star(text: &[u8]) -> bool
    ensures { result ≡ list_any is_star text.now }
{
    text.iter().any(|byte| *byte == b'*')
}
