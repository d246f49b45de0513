//! Apertures: what a flash paints.
//!
//! Sizes are in nanometres (nm), places in half nanometres (hn) from the flash point: a point
//! `(x, y)` is the place `(2x, 2y)`, and a diameter or side of `d` nm reaches `d` hn to each side.
//! An aperture is a standard one, or the primitives of a macro; it is mirrored and turned about
//! the flash point when it is flashed.
//!
//! - [`Aperture::covers`]: whether an aperture covers a place; [`Aperture::bounds`]: its box. Neither
//!   takes memory. [`Aperture::is_solid_circle`]: whether lines and arcs may be drawn with it;
//!   [`Aperture::is_solid_rect`]: whether straight lines may.
//! - [`turned`]: a box, mirrored and turned; [`has_place`]: whether a place lies in a box.
//! - [`turned_width`], [`turned_height`]: the sides of a shape, once it is turned.
//! - [`Primitives`]: the primitives of a macro, with the box of all of them kept beside them.
//! - [`Macros`]: the macros of a file, each found by its name.
//! - [`parse_ad`]: the aperture that a definition of a Gerber file stands for, or the fault of least
//!   number; [`ad_number`]: its number alone.
//!
//! What an aperture covers stands in `specs/Cover.antt`, its box in `specs/Bounds.antt`, its limits
//! in `specs/Soundness.antt`, and what a definition stands for in `specs/Definition.antt`.
//!
//! ```rust
//! use cam_apertures::{Macros, parse_ad};
//! use cam_units::{Spot, Turn, Unit};
//!
//! let mut macros = Macros::new(alloc);
//! // what stands behind `%AD`: aperture 10 is a rectangle of 2 mm by 1 mm
//! let (number, pad) = parse_ad(alloc, b"D10R,2X1", &mut macros, Unit::Mm)?;
//! assert!(rt; number == 10 && pad.is_sound());
//! // places are in half nm from the flash point; turned by 90 degrees, it stands upright
//! let right = Spot { x: 2_000_000, y: 0 };
//! assert!(rt; pad.covers(right, Turn::R0) && !pad.covers(right, Turn::R90));
//! ```
#![tactic(auto)]

mod aperture;
mod boxes;
mod definition;
mod fault;
mod laws;
mod macros;
mod primitives;
mod shape;
mod sides;

pub use aperture::Aperture;
pub use boxes::{has_place, turned};
pub use definition::{ad_number, parse_ad};
pub use fault::AdFault;
pub use laws::{
    covers_lie_in_their_box, holes_are_not_covered, test_tells_cover, turns_turn_the_cover,
};
pub use macros::Macros;
pub use primitives::Primitives;
pub use sides::{turned_height, turned_width};
