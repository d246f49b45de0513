//! Parts of a file, and modes of its body.

/// The part of a file that a line stands in.
#[derive(Clone, Copy)]
pub enum Part {
    /// Before M48.
    Start,
    Header,
    Body,
}

/// What coordinates mean, and whether the tool is lowered.
#[derive(Clone, Copy)]
pub enum Mode {
    /// Coordinates are hits.
    Drilling,
    /// In a rout mode, the tool above the board.
    Raised,
    /// In a rout mode, the tool in the board.
    Lowered,
}
