//! Parts of a list of bytes.

ghost use Rattle.std.specs.Prelude.{◌≡◌, ◌+◌, ◌<◌, drop, take, length, slice_index};
ghost use Rattle.std.specs.Str.{bytes_eq};

/// Whether a word is this keyword.
pub(crate) fn is(word: &[u8], keyword: &[u8]) -> bool
    ensures { result ≡ bytes_eq word.now keyword.now }
{
    word == keyword
}

pub(crate) fn before(bytes: &[u8], at: usize) -> &[u8]
    requires { at < length bytes.now }
    ensures { result.now ≡ take at bytes.now }
{
    &bytes[..at]
}

pub(crate) fn behind(bytes: &[u8], at: usize) -> &[u8]
    requires { at < length bytes.now }
    ensures { result.now ≡ drop (at + 1) bytes.now }
{
    &bytes[at + 1..]
}

/// The first byte, or 0 where there is none.
pub(crate) fn first_byte(bytes: &[u8]) -> u8
    ensures { result ≡ slice_index bytes.now 0 }
{
    match bytes.first() {
        Some(first) => *first,
        None => 0,
    }
}
