//! Lengths, points, turns and boxes, in exact whole numbers.
//!
//! Points are in nanometres (nm), tested places in half nanometres (hn): a point
//! `(x, y)` is the place `(2x, 2y)`, and a diameter of `d` nm is a radius of `d` hn.
//!
//! ```rust
//! use cam_units::{Nm, Point, Turn, Unit, coord_nm};
//!
//! // 1.5 inches, written with four decimals
//! assert!(rt; coord_nm(15_000, 4, Unit::Inch) == Some(Nm(38_100_000)));
//! // mirrored from left to right, and then turned counterclockwise by 90 degrees
//! let turn = Turn::M0.then(Turn::R90);
//! assert!(rt; turn == Turn::M90);
//! assert!(rt; turn.apply(Point { x: 2, y: 1 }) == Point { x: -1, y: -2 });
//! ```
#![tactic(auto)]

mod board;
mod bounds;
mod items;
mod laws;
mod length;
mod point;
mod root;
mod turn;

pub use board::{fits_board, fits_size};
pub use bounds::Bounds;
pub use items::Items;
pub use laws::{
    nearest_is_nearest, then_is_apply_after_apply, turns_associate, turns_go_by_quarters,
    turns_have_inverses,
};
pub use length::{Nm, Quotient, Unit, coord_nm, fix9_nm};
pub use point::{Point, Spot};
pub use root::isqrt;
pub use turn::Turn;
