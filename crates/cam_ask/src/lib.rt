//! Questions to a station, and the texts of their answers.
//!
//! [`ask`] answers a question that a line says, [`answer`] one that was read ([`Question`]). `specs/Texts.antt` has the
//! lines that answers are made of, `specs/Telling.antt` what is told of a layer, `specs/Painted.antt` the boxes by which
//! items lie in a box, and `specs/Answers.antt` what is answered.
//!
//! Over a station with a layer `top` of one flash, as `cam_station` has it on its first page:
//!
//! ```rust
//! use cam_ask::ask;
//!
//! // the topmost item at a place in nm, and the words that insert it
//! let place = ask(alloc, station, b"at top 0 0")?;
//! assert!(rt; place.as_slice() == b"0\n".as_slice());
//! let item = ask(alloc, station, b"item top 0")?;
//! assert!(rt; item.as_slice() == b"flash 10 0 0 r0 dark\n".as_slice());
//! ```
#![tactic(auto)]

mod answers;
mod contents;
mod laws;
mod lines;
mod painted;
mod telling;

pub use answers::{answer, ask};
pub use cam_script::{Query, Question, parse_question};
pub use laws::painted_boxes_hold_what_is_covered;
