//! How often `--progress` tells how far a plot is.

/// How many tiles a plot draws at least before it is told how far it is.
const LEAST_TOLD: u32 = 1024;

/// In how many parts a plot is told on a terminal.
const PARTS: u32 = 32;

/// And in a log, where each is a line of its own.
const PARTS_IN_LOG: u32 = 4;

/// How many of its dirty tiles a plot draws before it is told how far it is.
pub fn tiles_at_once(dirty: u32, is_terminal: bool) -> u32 {
    let parts = if is_terminal { PARTS } else { PARTS_IN_LOG };
    dirty.div_ceil(parts).max(LEAST_TOLD)
}
