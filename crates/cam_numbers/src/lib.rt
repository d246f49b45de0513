//! Reads the numbers of Gerber and of XNC files, each to its exact value.
//!
//! A run is the bytes that stand for one number. Its value is that of its digits, in decimal:
//!
//! - [`natural`], [`natural_within`]: digits, at least one.
//! - [`integer`]: an optional sign and 1 to 15 digits, as coordinates are written.
//! - [`leading_integer`]: the same at the front of a text, and how long its run is.
//! - [`decimal`]: an optional sign and digits with an optional point, in 10^-9 of a unit; [`unsigned_decimal`]: the
//!   same without the sign.
//! - [`defined_number`], [`within_numbers`]: the numbers of apertures.
//! - [`run_len`]: how long the run at the front of a text is.
//!
//! Each gives the value or `None`, and takes no memory. A caller says by [`Blanks`] whether line ends, spaces
//! and tabs may stand among the digits. `specs/Numbers.antt` says what every run stands for.
//!
//! ```rust
//! use cam_numbers::{Blanks, decimal, integer, leading_integer};
//!
//! // a decimal is in 10^-9 of a unit, and exact
//! assert!(rt; decimal(b"-0.25", Blanks::Refused) == Some(-250_000_000));
//! // line ends, spaces and tabs may stand among the digits of a Gerber file
//! assert!(rt; integer(b"12 00", Blanks::Skipped) == Some(1_200));
//! assert!(rt; integer(b"12 00", Blanks::Refused) == None);
//! // the coordinate that a text begins with
//! let leading = leading_integer(b"1500D01");
//! assert!(rt; leading.len == 4 && leading.value == Some(1_500));
//! ```
#![tactic(auto)]

mod apertures;
mod blanks;
mod decimals;
mod leading;
mod runs;
mod whole;

pub use apertures::{defined_number, within_numbers};
pub use blanks::Blanks;
pub use decimals::{decimal, unsigned_decimal};
pub use leading::{Leading, leading_integer};
pub use runs::{is_numeric, run_len};
pub use whole::{integer, natural, natural_within};
