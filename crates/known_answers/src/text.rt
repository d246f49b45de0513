//! Texts that are too long to write down.

use std::alloc::{AllocError, Global};

/// Pieces of a text, each so many times.
pub(crate) type Pieces = &'static [(&'static [u8], u32)];

/// The text of these pieces.
pub(crate) fn text_of(alloc: Global, pieces: Pieces) -> Result<Vec<u8>, AllocError> {
    let mut text = Vec::new(alloc);
    for &(piece, times) in pieces {
        for _ in 0..times {
            text.extend_from_slice(piece)?;
        }
    }
    Ok(text)
}
