//! Where objects come to lie: their places, the copies of a repeat, and moves.

pub(crate) mod copies;
pub(crate) mod place;
pub(crate) mod shifting;
