//! The bytes of expressions, by their kinds.

ghost use Rattle.std.specs.Prelude.{◌≡◌};
ghost use Rattle.cam_macros.specs.Scanning.{mark_of};

/// The kinds of bytes of an expression.
#[derive(Clone, Copy)]
pub(crate) enum Mark {
    Numeral,
    Dollar,
    Open,
    Close,
    Plus,
    Minus,
    Times,
    Over,
    Other,
}

/// The kind of a byte.
pub(crate) fn mark_of(byte: u8) -> Mark
    ensures { result ≡ mark_of byte }
{
    match byte {
        b'0'..=b'9' | b'.' => Mark::Numeral,
        b'$' => Mark::Dollar,
        b'(' => Mark::Open,
        b')' => Mark::Close,
        b'+' => Mark::Plus,
        b'-' => Mark::Minus,
        b'x' | b'X' => Mark::Times,
        b'/' => Mark::Over,
        _ => Mark::Other,
    }
}
