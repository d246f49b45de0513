//! The lines of a script.

ghost use Rattle.std.specs.Prelude.{◌≡◌, ◌==◌, ◌∷◌, [], IfSome, IfNone, position};
ghost use Rattle.std.specs.Str.Lines.{lines, strip_carriage_return};

use crate::pieces::{before, behind};
use std::marker::Model;

fn line_end(bytes: &[u8]) -> Option<usize>
    ensures { result ≡ position (λ b. b == 10) bytes.now }
{
    bytes.iter().position(|b| *b == b'\n')
}

/// The line without one carriage return at its end.
fn without_return(line: &[u8]) -> &[u8]
    ensures { result.now ≡ strip_carriage_return line.now }
{
    match line.split_last() {
        Some((b'\r', front)) => front,
        _ => line,
    }
}

/// The lines that are left, which contracts see as a list: each ends with a line feed, the
/// last also with the script, and one carriage return before a line feed is dropped.
#[derive(Drop)]
pub struct Lines<'a> {
    rest: &'a [u8],
}

impl<'a> Model for Lines<'a> {
    ghost use Rattle.std.specs.Prelude.{ℕ, List};
    ghost use Rattle.std.specs.Str.Lines.{lines};

    ghost Value = { List (List ℕ) };

    ghost view = { λ l. lines l.rest.now };
}

impl<'a> Lines<'a> {
    /// All lines of the script.
    pub fn new(script: &'a [u8]) -> Lines<'a>
        ensures { result ≡ lines script.now }
    {
        Lines { rest: script }
    }

    /// Takes the next line.
    #[tactic(auto, using(crate::proofs::Cutting::lines_by_end))]
    pub fn next(&mut self) -> Option<&'a [u8]>
        ensures some { IfSome result (λ line. self.old ≡ line.now ∷ self.new) }
        ensures none { IfNone result ((self.old ≡ []) × (self.new ≡ [])) }
    {
        if self.rest.is_empty() {
            return None;
        }
        match line_end(self.rest) {
            Some(end) => {
                let line = before(self.rest, end);
                self.rest = behind(self.rest, end);
                Some(without_return(line))
            }
            None => {
                let line = self.rest;
                self.rest = &[];
                Some(line)
            }
        }
    }
}
