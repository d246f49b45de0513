use cam_refusals::Refusal;

/// What a word of a Gerber text is.
#[derive(Clone, Copy, Debug, PartialEq, Eq)]
pub enum Kind {
    /// A function code or an operation, as `D10` or `X1Y2D01`.
    Plain,
    /// A `G04` or `G4`, whose text is for people.
    Comment,
    /// An extended command, which stands between two `%`.
    Extended,
}

/// A word of the source, without its delimiters.
#[derive(Clone, Copy, Debug, PartialEq, Eq)]
pub struct Word<'a> {
    /// What the word is.
    pub kind: Kind,
    /// A slice of the source: up to the `*` that ends it, of an extended command from behind its first `%`.
    pub text: &'a [u8],
    /// The place of the first byte of `text` in the source; where `text` is empty, of what follows it.
    pub at: usize,
}

/// Why a text cannot be cut any further.
#[derive(Clone, Copy, Debug, PartialEq, Eq)]
pub struct TextFault {
    /// `BadByte`: the command holds a byte that it may not hold; or `Unterminated`: it holds none, and has no end.
    pub code: Refusal,
    /// The place of the first byte of the command, of an extended one its `%`.
    pub at: usize,
}
