//! Cuts the bytes of a Gerber file into words and extended commands.
//!
//! ```rust
//! use cam_refusals::Refusal;
//! use cam_words::{Kind, TextFault, Word, Words};
//!
//! let mut words = Words::new(b"G04 units*\n%MOMM*%D10*%");
//! // a word is a slice of the text, with the place of its first byte
//! assert!(rt; words.next() == Some(Ok(Word { kind: Kind::Comment, text: b"G04 units", at: 0 })));
//! assert!(rt; words.next() == Some(Ok(Word { kind: Kind::Extended, text: b"MOMM", at: 12 })));
//! assert!(rt; words.next() == Some(Ok(Word { kind: Kind::Plain, text: b"D10", at: 18 })));
//! // the last `%` begins a command that has no end
//! assert!(rt; words.next() == Some(Err(TextFault { code: Refusal::Unterminated, at: 22 })));
//! ```
//!
//! The grammar is that of the "Gerber Layer Format Specification", section "Syntax". What a cutting is
//! stands in `specs/Cutting.antt`, and what a text gives word by word in `specs/Reading.antt`; `laws`
//! ties the two.
#![tactic(auto)]

mod bytes;
mod command;
mod cutter;
mod heads;
mod laws;
mod pieces;
mod word;

pub use bytes::{is_skipped, len_before};
pub use cutter::Words;
pub use heads::{behind_head, first_kept, packed};
pub use laws::{at_most_one_cutting, reads_its_words, stops_at_the_longest_front};
pub use pieces::cut;
pub use word::{Kind, TextFault, Word};
