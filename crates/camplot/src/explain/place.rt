//! Lines and columns of places in a file.

ghost use Rattle.std.specs.Prelude.{◌≡◌, ◌≤◌, ◌==◌, not, length, take, count_by};
ghost use Rattle.std.specs.List.{list_any, suffix_len};
ghost use Rattle.camplot.specs.Explanations.{column_at, line_at, line_end};

fn holds_line_feed(text: &[u8]) -> bool
    ensures { result ≡ list_any (λ byte. byte == 10) text.now }
{
    text.iter().any(|byte| *byte == b'\n')
}

/// The byte that ends the lines of a text.
fn line_end(text: &[u8]) -> u8
    ensures { result ≡ line_end text.now }
{
    if holds_line_feed(text) { b'\n' } else { b'\r' }
}

/// How many other bytes stand behind the last such byte.
fn count_behind(end: u8, text: &[u8]) -> usize
    ensures value { result ≡ suffix_len (λ byte. not (byte == end)) text.now }
    ensures within { result ≤ length text.now }
{
    text.iter().rev().take_while(|byte| **byte != end).count()
}

/// The line of a place of a text, from 1.
pub fn line_at(text: &[u8], place: usize) -> usize
    requires { place ≤ length text.now }
    ensures { result ≡ line_at text.now place }
{
    let end = line_end(text);
    1 + text[..place].iter().filter(|byte| **byte == end).count()
}

/// The column of a place of a text, from 1, in bytes.
pub fn column_at(text: &[u8], place: usize) -> usize
    requires { place ≤ length text.now }
    ensures { result ≡ column_at text.now place }
{
    let end = line_end(text);
    1 + count_behind(end, &text[..place])
}
