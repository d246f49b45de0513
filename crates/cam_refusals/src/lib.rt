//! Why a thing is refused, and the limits past which it is.
//!
//! - [`Refusal`]: each reason, with the number that a reply tells. docs/refusals.md explains them to users.
//! - [`ReadFault`]: why a file is no layer, and [`Stop`]: why a command or a line stops a reader.
//! - [`limits`]: the greatest counts and lengths.
//!
//! `specs/Checks` says what is told where several faults hold: the first of a list of checks, or the one of least
//! number; `specs/FileFaults` what is told of a file with faults at several places. What may be refused, and in which
//! order, is said by the crates above, as such lists.
//!
//! ```rust
//! use cam_refusals::{ReadFault, Refusal};
//!
//! // a command that no file may have, at the byte 20 of a file
//! let fault = ReadFault { code: Refusal::UnknownCommand, at: 20 };
//! // a script is replied `refused 3 20`
//! assert!(rt; fault.code.number() == 3);
//! ```
#![tactic(auto)]

mod laws;
pub mod limits;
mod read_fault;
mod refusal;
mod stop;

pub use laws::{the_first_is_told, the_least_fault_is_told, the_least_is_told};
pub use read_fault::ReadFault;
pub use refusal::Refusal;
pub use stop::Stop;
