//! A line of a file.

/// A line of a file, without its end.
#[derive(Clone, Copy)]
pub struct Line<'a> {
    pub text: &'a [u8],
    /// The place of its first byte in the file.
    pub at: usize,
}
