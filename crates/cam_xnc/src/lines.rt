//! Cuts a file into lines.

ghost use Rattle.std.specs.Prelude.{◌≡◌, ◌+◌, ◌<◌, ◌≤◌, ◌^◌, [], ◌∷◌, length, IfSome, IfNone};
ghost use Rattle.cam_xnc.specs.Lines.{lines_of};
ghost use Rattle.cam_xnc.specs.Machinery.Cutters.{found};

use crate::bytes::{end_len, line_len};
use crate::line::Line;
use std::marker::Model;

/// The lines of a file that are still to come. A line ends with LF, CR or CR LF, the last perhaps
/// with the file.
///
/// A contract sees the list of the lines that `next` has still to give. Takes no memory.
#[derive(Drop)]
pub struct Lines<'a> {
    rest: &'a [u8],
    at: usize,
}

impl<'a> Model for Lines<'a> {
    ghost use Rattle.std.specs.Prelude.{List, ◌+◌, ◌<◌, ◌^◌, length};
    ghost use Rattle.cam_xnc.specs.Lines.{FoundLine};

    ghost Value = { List FoundLine };

    ghost use Rattle.cam_xnc.specs.Machinery.Cutters.{left};

    ghost view = { left };

    ghost invariant = { λ lines. lines.at + length lines.rest.now < 2 ^ 64 };
}

impl<'a> Lines<'a> {
    /// All the lines of a file.
    pub fn new(source: &'a [u8]) -> Self
        ensures { result ≡ lines_of source.now }
    {
        Lines {
            rest: source,
            at: 0,
        }
    }

    /// The next line, blank or not; `None` at the end.
    pub fn next(&mut self) -> Option<Line<'a>>
        ensures none { IfNone result ((self.old ≡ []) × (self.new ≡ [])) }
        ensures some { IfSome result (λ line. self.old ≡ found line ∷ self.new) }
        ensures within { IfSome result (λ line. line.at + length line.text.now < 2 ^ 64) }
    {
        if self.rest.is_empty() {
            return None;
        }
        let len = line_len(self.rest);
        let text = &self.rest[..len];
        let behind = len + end_len(&self.rest[len..]);
        let at = self.at;
        self.rest = &self.rest[behind..];
        self.at = at + behind;
        Some(Line { text, at })
    }
}
