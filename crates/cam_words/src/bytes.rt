//! Classes of bytes, and the places of bytes in a text.

ghost use Rattle.std.specs.Prelude.{◌≡◌, ◌==◌, ◌≤◌, length, take, true};
ghost use Rattle.std.specs.List.{position_or_len, prefix_len, suffix_len, list_all, list_any};
ghost use Rattle.cam_words.specs.Bytes.{is_skipped, is_control, is_forbidden_in_plain, is_forbidden_in_code};
ghost use Rattle.cam_words.specs.Machinery.Ordinary.{is_ordinary};

/// Whether the byte is a line end, a space or a tab.
pub fn is_skipped(byte: u8) -> bool
    ensures { result ≡ is_skipped byte }
{
    // Nearly every byte of a file is greater, and a comparison tells.
    if byte > b' ' {
        return false;
    }
    matches!(byte, b'\r' | b'\n' | b' ' | b'\t')
}

fn is_control(byte: u8) -> bool
    ensures { result ≡ is_control byte }
{
    (byte < 32 || byte == 127) && !is_skipped(byte)
}

fn is_forbidden_in_code(byte: u8) -> bool
    ensures { result ≡ is_forbidden_in_code byte }
{
    is_control(byte) || byte >= 128
}

fn is_forbidden_in_plain(byte: u8) -> bool
    ensures { result ≡ is_forbidden_in_plain byte }
{
    // Nearly every byte of a word is one of these, and a comparison tells.
    if matches!(byte, b'&'..=b'~') {
        return false;
    }
    is_forbidden_in_code(byte) || byte == b'%'
}

/// Whether the text holds a control character other than a skipped byte.
pub fn holds_control(text: &[u8]) -> bool
    ensures { result ≡ list_any is_control text.now }
{
    text.iter().copied().any(is_control)
}

/// Whether the text holds a byte that an extended command without free text may not hold.
pub fn holds_forbidden_in_code(text: &[u8]) -> bool
    ensures { result ≡ list_any is_forbidden_in_code text.now }
{
    text.iter().copied().any(is_forbidden_in_code)
}

/// Whether the text holds a byte that a word other than a comment may not hold.
pub fn holds_forbidden_in_plain(text: &[u8]) -> bool
    ensures { result ≡ list_any is_forbidden_in_plain text.now }
{
    text.iter().copied().any(is_forbidden_in_plain)
}

/// How many skipped bytes the text begins with.
pub fn leading_skipped(text: &[u8]) -> usize
    ensures value { result ≡ prefix_len is_skipped text.now }
    ensures within { result ≤ length text.now }
{
    text.iter().take_while(|byte| is_skipped(**byte)).count()
}

/// Whether any word may hold the byte, and it is no `*`.
fn is_ordinary(byte: u8) -> bool
    ensures { result ≡ is_ordinary byte }
{
    matches!(byte, b'+'..=b'~')
}

/// How many bytes are judged at once, fewer than the word of a flash has (`X1000000Y2000000D03`). By callgrind a word of
/// 15 bytes, each judged alone, is read in 505 instructions, one of 16 in 412, and one of 32 in 438.
const STEP: usize = 16;

/// Whether all bytes are ordinary, told without a branch for each of them.
fn are_ordinary(text: &[u8]) -> bool
    ensures { result ≡ list_all is_ordinary text.now }
{
    let mut all = true;
    for byte in text {
        all &= is_ordinary(*byte);
    }
    all
}

/// How many ordinary bytes the text begins with, in whole steps.
fn ordinary_steps(text: &[u8]) -> usize
    ensures within { result ≤ length text.now }
    ensures each { list_all is_ordinary (take result text.now) ≡ true }
{
    let steps = text.len() / STEP;
    for step in 0..steps {
        let at = STEP * step;
        if !are_ordinary(&text[at..at + STEP]) {
            return at;
        }
    }
    STEP * steps
}

/// How many ordinary bytes the text begins with, one by one.
fn ordinary_front(text: &[u8]) -> usize
    ensures value { result ≡ prefix_len is_ordinary text.now }
    ensures within { result ≤ length text.now }
{
    text.iter().take_while(|byte| is_ordinary(**byte)).count()
}

/// How many bytes the text begins with that any word may hold, and none of which is a `*`.
pub fn ordinary_len(text: &[u8]) -> usize
    ensures value { result ≡ prefix_len is_ordinary text.now }
    ensures within { result ≤ length text.now }
{
    let front = ordinary_steps(text);
    front + ordinary_front(&text[front..])
}

/// How many bytes stand before the first such one: all of them where there is none.
pub fn len_before(wanted: u8, text: &[u8]) -> usize
    ensures value { result ≡ position_or_len (λ byte. byte == wanted) text.now }
    ensures within { result ≤ length text.now }
{
    text.iter().take_while(|byte| **byte != wanted).count()
}

/// How many skipped bytes the text ends with.
pub fn trailing_skipped(text: &[u8]) -> usize
    ensures value { result ≡ suffix_len is_skipped text.now }
    ensures within { result ≤ length text.now }
{
    text.iter()
        .rev()
        .take_while(|byte| is_skipped(**byte))
        .count()
}
