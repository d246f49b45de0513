//! The words of a line.

ghost use Rattle.std.specs.Prelude.{◌≡◌, ◌≢◌, ◌^◌, ◌<◌, ◌≤◌, ◌∷◌, [], ◌++◌};
ghost use Rattle.std.specs.Prelude.{IfNone, IfSome, filter, length, position};
ghost use Rattle.cam_script.specs.Words.{is_word_gap, is_filled, words};

use crate::pieces::{before, behind};
use std::marker::Model;

fn piece_end(bytes: &[u8]) -> Option<usize>
    ensures { result ≡ position is_word_gap bytes.now }
{
    bytes.iter().position(|b| *b == b' ' || *b == b'\t')
}

/// The bytes before the first space or tab, and those behind it.
#[tactic(auto, using(crate::proofs::Cutting::words_by_piece))]
fn first_piece(bytes: &[u8]) -> (&[u8], &[u8])
    requires { 0 < length bytes.now }
    ensures words { words bytes.now ≡ filter is_filled (result.0.now ∷ []) ++ words result.1.now }
    ensures shorter { length result.1.now < length bytes.now }
{
    match piece_end(bytes) {
        Some(end) => (before(bytes, end), behind(bytes, end)),
        None => (bytes, &[]),
    }
}

/// The words that are left, which contracts see as a list.
#[derive(Drop)]
pub struct Words<'a> {
    rest: &'a [u8],
}

impl<'a> Model for Words<'a> {
    ghost use Rattle.std.specs.Prelude.{ℕ, List};
    ghost use Rattle.cam_script.specs.Words.{words};

    ghost Value = { List (List ℕ) };

    ghost view = { λ w. words w.rest.now };
}

impl<'a> Words<'a> {
    /// All words of the line.
    pub fn new(line: &'a [u8]) -> Words<'a>
        ensures { result ≡ words line.now }
    {
        Words { rest: line }
    }

    /// Takes the next word.
    pub fn next(&mut self) -> Option<&'a [u8]>
        ensures some { IfSome result (λ word. self.old ≡ word.now ∷ self.new) }
        ensures none { IfNone result ((self.old ≡ []) × (self.new ≡ [])) }
    {
        while !self.rest.is_empty() {
            let (piece, behind) = first_piece(self.rest);
            self.rest = behind;
            if !piece.is_empty() {
                return Some(piece);
            }
        }
        None
    }

    /// Takes the next two words.
    pub fn next_two(&mut self) -> Option<(&'a [u8], &'a [u8])>
        ensures some { IfSome result (λ w. self.old ≡ w.0.now ∷ w.1.now ∷ self.new) }
        ensures none { IfNone result (length self.old < 2) }
        ensures taken { length self.new ≤ length self.old }
    {
        let first = self.next()?;
        let second = self.next()?;
        Some((first, second))
    }

    /// These words, to be read once more.
    #[tactic(auto, using(crate::proofs::Cutting::few_words))]
    pub fn again(&self) -> Words<'a>
        ensures same { result ≡ self.now }
        ensures few { length result < 2 ^ 64 }
    {
        Words { rest: self.rest }
    }

    /// The words that are left, if there is one.
    pub fn one(&mut self) -> Option<&'a [u8]>
        ensures some { IfSome result (λ word. self.old ≡ word.now ∷ []) }
        ensures none { IfNone result (length self.old ≢ 1) }
    {
        let first = self.next()?;
        if self.next().is_some() {
            return None;
        }
        Some(first)
    }

    /// The words that are left, if there are two.
    pub fn two(&mut self) -> Option<(&'a [u8], &'a [u8])>
        ensures some { IfSome result (λ w. self.old ≡ w.0.now ∷ w.1.now ∷ []) }
        ensures none { IfNone result (length self.old ≢ 2) }
    {
        let first = self.next()?;
        let second = self.one()?;
        Some((first, second))
    }

    /// The words that are left, if there are three.
    pub fn three(&mut self) -> Option<(&'a [u8], &'a [u8], &'a [u8])>
        ensures some { IfSome result (λ w. self.old ≡ w.0.now ∷ w.1.now ∷ w.2.now ∷ []) }
        ensures none { IfNone result (length self.old ≢ 3) }
    {
        let first = self.next()?;
        let (second, third) = self.two()?;
        Some((first, second, third))
    }

    /// The words that are left, if there are four.
    pub fn four(&mut self) -> Option<(&'a [u8], &'a [u8], &'a [u8], &'a [u8])>
        ensures some { IfSome result (λ w.
            self.old ≡ w.0.now ∷ w.1.now ∷ w.2.now ∷ w.3.now ∷ []) }
        ensures none { IfNone result (length self.old ≢ 4) }
    {
        let first = self.next()?;
        let (second, third, fourth) = self.three()?;
        Some((first, second, third, fourth))
    }

    /// The words that are left, if there are five.
    pub fn five(&mut self) -> Option<(&'a [u8], &'a [u8], &'a [u8], &'a [u8], &'a [u8])>
        ensures some { IfSome result (λ w.
            self.old ≡ w.0.now ∷ w.1.now ∷ w.2.now ∷ w.3.now ∷ w.4.now ∷ []) }
        ensures none { IfNone result (length self.old ≢ 5) }
    {
        let first = self.next()?;
        let (second, third, fourth, fifth) = self.four()?;
        Some((first, second, third, fourth, fifth))
    }
}
