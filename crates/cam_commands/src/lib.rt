//! What the words of a Gerber file say (Ucamco's "Gerber Layer Format Specification").
//!
//! ```rust
//! use cam_commands::{Command, OperationCode, Slot, command_of};
//! use cam_words::Words;
//!
//! let mut words = Words::new(b"X10Y-20D03*");
//! let Some(Ok(word)) = words.next() else {
//!     return Err(Fail::new("it is a word"));
//! };
//! let Command::Operate(operation) = command_of(word) else {
//!     return Err(Fail::new("it is an operation"));
//! };
//! assert!(rt; operation.code == Some(OperationCode::Flash));
//! assert!(rt; operation.x == Slot::Written(10) && operation.y == Slot::Written(-20));
//! assert!(rt; operation.i == Slot::Omitted);
//! ```
//!
//! A command borrows its texts from the word and takes no memory. What a word says stands in `specs/`:
//! `Commands` has the commands as plain data, `Numbers` and `Fields` what they are written with,
//! `WordCommands` and `ExtendedCommands` every form, and `Syntax` puts them together. Where the letters of a
//! command, their order and its separators are those of a form, the form is known, and a number that does not
//! fit its grammar is told as such; any other text is an unknown command.
#![tactic(auto)]

mod command;
mod coordinates;
mod extended;
mod field;
mod laws;
mod names;
mod numbers;
mod old_forms;
mod parts;
mod syntax;
mod text;
mod words;

pub use command::Command;
pub use laws::{names_decide, operations_are_written, words_say_their_parts};
pub use names::FreeText;
pub use parts::{Format, Mirror, Mode, Operation, OperationCode, Polarity, Repeat, Slot, Style};
pub use syntax::{command_of, start_of};
