//! Classes of bytes, and the places of bytes in a line.

ghost use Rattle.std.specs.Prelude.{◌≡◌, ◌≤◌, ◌<◌, length, IfOk};
ghost use Rattle.std.specs.List.{position_or_len, prefix_len, list_any};
ghost use Rattle.cam_xnc.specs.Bytes.{is_line_end, is_line_blank, is_bad, is_blank, code_of, line_packed};
ghost use Rattle.cam_xnc.specs.Machinery.Cutters.{end_len};

use cam_words::len_before;
use std::alloc::{AllocError, Global};

/// Whether the byte is a space or a tab.
fn is_line_blank(byte: u8) -> bool
    ensures { result ≡ is_line_blank byte }
{
    matches!(byte, b' ' | b'\t')
}

/// How many bytes stand before the first line end, or the text's length where there is none.
pub fn line_len(text: &[u8]) -> usize
    ensures value { result ≡ position_or_len is_line_end text.now }
    ensures within { result ≤ length text.now }
{
    text.iter()
        .take_while(|byte| !matches!(**byte, b'\n' | b'\r'))
        .count()
}

/// How many bytes the line end has that stands at the front of a text.
pub fn end_len(text: &[u8]) -> usize
    ensures value { result ≡ end_len text.now }
    ensures within { result ≤ length text.now }
{
    match text {
        [] => 0,
        [b'\r', b'\n', ..] => 2,
        _ => 1,
    }
}

/// The line without its comment.
pub fn code_of(text: &[u8]) -> &[u8]
    ensures value { result.now ≡ code_of text.now }
    ensures within { length result.now ≤ length text.now }
{
    &text[..len_before(b';', text)]
}

/// Whether there is nothing but skipped bytes.
pub fn is_blank(text: &[u8]) -> bool
    ensures { result ≡ is_blank text.now }
{
    text.iter().copied().all(is_line_blank)
}

/// How many skipped bytes the text begins with.
pub fn leading_skipped(text: &[u8]) -> usize
    ensures value { result ≡ prefix_len is_line_blank text.now }
    ensures within { result ≤ length text.now }
{
    text.iter().take_while(|byte| is_line_blank(**byte)).count()
}

/// Whether the text holds a byte that no line holds outside its comment.
pub fn holds_bad_byte(text: &[u8]) -> bool
    ensures { result ≡ list_any is_bad text.now }
{
    text.iter().any(|byte| !is_line_blank(*byte) && !(*byte >= 33 && *byte <= 126))
}

/// Whether the text holds a skipped byte.
pub fn holds_skipped(text: &[u8]) -> bool
    ensures { result ≡ list_any is_line_blank text.now }
{
    text.iter().copied().any(is_line_blank)
}

/// The text without its skipped bytes.
pub fn pack(alloc: Global, text: &[u8]) -> Result<Vec<u8>, AllocError>
    ensures { IfOk result (λ v. v.items ≡ line_packed text.now) }
{
    text.iter()
        .copied()
        .filter(|byte| !is_line_blank(*byte))
        .collect(alloc)
}
