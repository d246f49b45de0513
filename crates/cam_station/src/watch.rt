//! What sees a run.

use crate::fault::Fault;
use crate::reply::Reply;
use crate::station::Station;

/// Sees the lines of a run over such files, and changes nothing of what the run does.
pub trait Watch<F> {
    /// The run of this script begins.
    fn script(&mut self, script: &[u8]);

    /// A line is run next, by its number from 1; it may be empty or a comment.
    fn line(&mut self, number: u64, line: &[u8]);

    /// A plot has this many dirty tiles: how many it draws before the watch sees them. It draws one at least.
    fn tiles_at_once(&self, dirty: u32) -> u32;

    /// A plot has drawn so many of its dirty tiles.
    fn drawn(&mut self, done: u32, dirty: u32);

    /// The reply to that line is said next.
    fn reply(&mut self);

    /// That reply was said.
    fn replied(&mut self, line: &[u8], reply: &Result<Reply, Fault>, station: &Station, files: &F);
}

/// Sees nothing.
#[derive(Drop)]
pub struct Unwatched;

impl<F> Watch<F> for Unwatched {
    fn script(&mut self, _script: &[u8]) {}

    fn line(&mut self, _number: u64, _line: &[u8]) {}

    fn tiles_at_once(&self, dirty: u32) -> u32 {
        dirty
    }

    fn drawn(&mut self, _done: u32, _dirty: u32) {}

    fn reply(&mut self) {}

    fn replied(
        &mut self,
        _line: &[u8],
        _reply: &Result<Reply, Fault>,
        _station: &Station,
        _files: &F,
    ) {}
}
