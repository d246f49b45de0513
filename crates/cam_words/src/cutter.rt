ghost use Rattle.std.specs.Prelude.{◌≡◌, [], ◌∷◌, IfSome, IfNone, IsErr};
ghost use Rattle.std.specs.List.{AllByRecursion};
ghost use Rattle.cam_words.specs.Reading.{IsSliceOf, word_answer, reading};

use crate::bytes::leading_skipped;
use crate::command::front;
use crate::word::{TextFault, Word};
use std::marker::Model;

/// The words of a text that are still to come, and its fault, if it has one.
///
/// A contract sees the list of the answers that `next` has still to give. Takes no memory.
#[derive(Drop)]
pub struct Words<'a> {
    rest: &'a [u8],
    at: usize,
}

impl<'a> Model for Words<'a> {
    ghost use Rattle.std.specs.Prelude.{List, ◌+◌, ◌<◌, ◌^◌, length};
    ghost use Rattle.cam_words.specs.Reading.{WordAnswer, reading};

    ghost Value = { List WordAnswer };

    ghost view = { λ words. reading words.at words.rest.now };

    ghost invariant = { λ words. words.at + length words.rest.now < 2 ^ 64 };
}

impl<'a> Words<'a> {
    /// All the words of a Gerber text. Places are counted from its first byte, which has place 0.
    pub fn new(source: &'a [u8]) -> Self
        ensures reading { result ≡ reading 0 source.now }
        ensures slices { AllByRecursion (IsSliceOf source.now) result }
    {
        Words {
            rest: source,
            at: 0,
        }
    }

    /// The next word, or the fault that ends the text; `None` at the end and after a fault.
    pub fn next(&mut self) -> Option<Result<Word<'a>, TextFault>>
        ensures none { IfNone result ((self.old ≡ []) × (self.new ≡ [])) }
        ensures some { IfSome result (λ answer. self.old ≡ word_answer answer ∷ self.new) }
        ensures after_fault { IfSome result (λ answer. IsErr answer → self.new ≡ []) }
    {
        let skipped = leading_skipped(self.rest);
        let text = &self.rest[skipped..];
        let at = self.at + skipped;
        match front(text) {
            None => {
                self.rest = &[];
                None
            }
            Some(Err(code)) => {
                self.rest = &[];
                Some(Err(TextFault { code, at }))
            }
            Some(Ok(command)) => {
                self.rest = &text[command.len..];
                self.at = at + command.len;
                Some(Ok(Word {
                    kind: command.kind,
                    text: command.text,
                    at: at + command.before,
                }))
            }
        }
    }
}
