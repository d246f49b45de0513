//! The lines of a script, and the commands that they say.
//!
//! [`Lines`] cuts a script into its lines, and [`parse_line`] reads what a line says, as `specs/Parsing.antt` has it.
//! [`push_object_words`] and [`push_drill_item_words`] write an item in the words of a line that inserts it
//! (`specs/Spelling.antt`). [`parse_question`] reads a question, in a grammar of its own (`specs/Questions.antt`).
//!
//! ```rust
//! use cam_script::{Command, Line, LineFault, parse_line};
//!
//! let read = parse_line(alloc, b"move top 3 500000 -250000");
//! let is_move = match &read {
//!     Ok(Some(Line::Command(Command::Move { name, k, dx, dy }))) => {
//!         name.as_str() == "top" && *k == 3 && *dx == 500_000 && *dy == -250_000
//!     }
//!     _ => false,
//! };
//! drop(read);
//! assert!(rt; is_move);
//! // a comment says nothing, and a line that lacks words is refused
//! assert!(rt; parse_line(alloc, b"# a comment").is_ok_and(|line| line.is_none()));
//! assert!(rt; parse_line(alloc, b"move top").err() == Some(LineFault::BadLine));
//! ```
#![tactic(auto)]

mod asking;
mod attributes;
mod bytes;
mod command;
mod edits;
mod items;
mod laws;
mod line;
mod lines;
mod marks;
mod names;
mod numbers;
mod parse;
mod path;
mod pieces;
mod question;
mod segments;
mod spelling;
mod words;

pub use asking::parse_question;
pub use bytes::Bytes;
pub use command::{Command, FileKind};
pub use laws::{sound_items_can_be_said, words_read_back};
pub use line::{Line, LineFault};
pub use lines::Lines;
pub use parse::parse_line;
pub use path::FilePath;
pub use question::{Query, Question};
pub use spelling::{push_drill_item_words, push_length, push_number, push_object_words, push_word};
