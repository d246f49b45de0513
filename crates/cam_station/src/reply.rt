//! What an accepted command answers.

use cam_script::Bytes;

/// Up to three numbers.
#[derive(Clone, Copy, Debug, PartialEq, Eq)]
pub enum Numbers {
    One(u64),
    Two(u64, u64),
    Three(u64, u64, u64),
}

/// What an accepted command answers.
#[derive(Drop)]
pub enum Reply {
    Done,
    Numbers(Numbers),
    /// The bytes for a file, and how many tiles of 64 by 64 pixels were drawn for them, none for a text.
    Bytes { bytes: Bytes, drawn: u64 },
}
