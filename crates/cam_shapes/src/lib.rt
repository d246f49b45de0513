//! Exact tests of places against the shapes of a layer.
//!
//! Points and sizes are in nanometres (nm), places in half nanometres (hn): a point `(x, y)` is
//! the place `(2x, 2y)`, and a diameter, side or width of `d` nm reaches `d` hn to each side. So
//! each test is one of whole numbers, and none of them rounds. Shapes stand where they are
//! painted, turned and moved already; only contours and outlines are turned and moved by their
//! tests.
//!
//! - [`in_disc`], [`in_rect`], [`in_obround`]: the standard apertures, closed, and [`in_hole`]:
//!   the open hole.
//! - [`in_bar`]: a line of a macro; [`in_capsule`], [`in_arc`]: the strokes of a round tool;
//!   [`in_swept`]: the stroke of a rectangle along a line.
//! - [`in_contour`]: a region, by an odd number of [`in_edge`] and [`in_cap`]; [`in_outline`]: an
//!   outline of a macro, by its points.
//! - [`Placing`]: where the points and segments of a contour come to lie, once it is turned and moved.
//! - [`Vector`]: the way from one place to another, and its products; [`low_corner`], [`high_corner`], [`corner_reach`]: how
//!   far the stroke of a rectangle reaches.
//!
//! A shape with a diameter, side or width of 0 covers nothing. No test takes memory.
//!
//! ```rust
//! use cam_shapes::{Disc, in_disc, in_hole};
//! use cam_units::{Nm, Point, Spot};
//!
//! // a disc of 1 mm at (1 mm, 0)
//! let disc = Disc { centre: Point { x: 1_000_000, y: 0 }, diameter: Nm(1_000_000) };
//! // places are in half nm; its edge belongs to a disc, and to no hole
//! let edge = Spot { x: 3_000_000, y: 0 };
//! assert!(rt; in_disc(edge, disc) && !in_hole(edge, disc));
//! assert!(rt; !in_disc(Spot { x: 3_000_001, y: 0 }, disc));
//! ```
#![tactic(auto)]

mod arc;
mod bar;
mod cap;
mod capsule;
mod contour;
mod disc;
mod edge;
mod laws;
mod obround;
mod outline;
mod placing;
mod products;
mod rectangle;
mod segments;
mod shifting;
mod size;
mod swept;
mod vector;

pub use arc::{Arc, in_arc};
pub use bar::{Bar, in_bar};
pub use cap::{Cap, in_cap};
pub use capsule::{Capsule, in_capsule};
pub use contour::{Contour, fits_contour, in_contour};
pub use disc::{Disc, in_disc, in_hole};
pub use edge::in_edge;
pub use laws::{
    arc_is_in_its_square, cap_is_in_its_square, circle_forms_agree, circle_is_near_by_distance,
    contour_is_in_its_box, edge_lies_right, swept_along_an_axis_is_its_box, swept_holds_its_ends,
    swept_is_all_that_is_passed, swept_is_in_its_box, swept_turns, tests_tell_shapes,
};
pub use obround::{Obround, in_obround};
pub use outline::in_outline;
pub use placing::Placing;
pub use rectangle::{Rectangle, in_rect};
pub use segments::{Seg, Segments};
pub use shifting::shifted;
pub use swept::{Swept, corner_reach, high_corner, in_swept, low_corner};
pub use vector::Vector;
