//! Rows of up to 64 pixel centres of a shape, found at once in place of 64 point tests.
//!
//! A shape's row has bit i set exactly where the point test of `cam_shapes` holds at centre i of [`Centres`]; bits
//! behind the last centre are 0. None of them rounds, and no call takes memory.
//!
//! The places of a shape in a row of centres are a few runs of columns side by side, in rows of up to 32,768 centres:
//! that of a disc is a chord, that of a rectangle is between its sides, and each half plane narrows runs at one end, with
//! no work for a column. A bar lies between the lines of its long edges, whose distance is one root, and is narrowed by
//! the half planes across its ends. The stroke of a rectangle is narrowed from the box of its ends by two half planes,
//! with no root; along an axis it is the box. A cap is narrowed from its circle by the side of its chord. An arc is three
//! runs a row and the discs about its ends: a chord of its outer circle, narrowed to a sweep of at most a half turn,
//! without a chord of its inner circle and without what a wider sweep leaves out.
//!
//! Where the line of a half plane crosses the rows moves by a quotient and a remainder from each to the next, and the
//! ends of a chord are found by a walk from those of the row above, outwards or inwards from the circle's middle: with no
//! root and no division for a row. Squares of up to two metres are taken in 64 bits, and greater ones, by the same walk,
//! in 128. A line's top row is divided in 128 bits, and the others follow in 64; only where pixels are narrower than 16
//! nanometres or wider than a quarter of a metre, or the rows are more than a million, may each row take a division.
//!
//! The bits of a row are those of its run. A capsule is a bar and the discs about its ends.
//!
//! - [`disc_row`], [`rect_row`], [`obround_row`], [`hole_row`]: the standard apertures and their holes.
//! - [`bar_row`]: a line of a macro; [`capsule_row`], [`arc_row`]: the strokes of a round tool; [`swept_row`]: that of
//!   a rectangle.
//! - [`edge_row`], [`cap_row`]: parts of a region.
//! - [`bar_runs`], [`rect_runs`], [`obround_runs`], [`swept_runs`]: the same in rows of up to 32,768
//!   centres, a run of columns for each row; [`run_row`]: the bits of a part of it. [`cap_runs`] and
//!   [`edge_runs`] are those of parts of a region: a run of an edge begins at the leftmost column.
//! - [`ring_of`], [`outer_runs`], [`beyond_runs`]: an arc in such rows; [`is_wide_arc`]: whether the last one has any.
//! - [`RunShape`]: all of these shapes alike; [`Hole`] stands for a hole, [`Outer`], [`Hollow`] and [`Beyond`] for the
//!   parts of an arc.
//! - [`or_rows`], [`clear_rows`], [`xor_rows`]: the 64 rows of a tile; [`pbm_bytes`]: a row in a file.
//!
//! What a row is stands in `specs/Rows.antt`, what a run is in `specs/Runs.antt`, the runs of an arc in
//! `specs/ArcRuns.antt`, rows joined lane by lane in `specs/Lanes.antt`.
//!
//! ```rust
//! use cam_rows::{Centres, disc_row, pbm_bytes};
//! use cam_shapes::Disc;
//! use cam_units::{Nm, Point};
//!
//! // eight centres half a millimetre apart, in half nm, from -1.75 mm to 1.75 mm
//! let centres = Centres { x: -3_500_000, y: 0, step: 1_000_000, n: 8 };
//! // a disc of 2 mm at (0.5 mm, 0) covers those from -0.25 mm to 1.25 mm; bit 0 is the leftmost
//! let disc = Disc { centre: Point { x: 500_000, y: 0 }, diameter: Nm(2_000_000) };
//! let row = disc_row(disc, centres);
//! assert!(rt; row == 0b0111_1000);
//! // in a PBM file the leftmost pixel is the highest bit
//! assert!(rt; pbm_bytes(row)[0] == 0b0001_1110);
//! ```
#![tactic(auto)]

mod arc;
mod bar;
mod cap;
mod capsule;
mod centres;
mod chord;
mod circle;
mod disc;
mod edge;
mod half_plane;
mod hole;
mod lanes;
mod laws;
mod obround;
mod rect;
mod ring;
mod rows;
mod run_shape;
mod runs;
mod slope;
mod swept;

pub use arc::{Beyond, Hollow, Outer, arc_row};
pub use bar::bar_row;
pub use cap::cap_row;
pub use capsule::capsule_row;
pub use centres::Centres;
pub use circle::squared_distance;
pub use disc::disc_row;
pub use edge::edge_row;
pub use hole::{Hole, hole_row};
pub use lanes::{clear_rows, or_rows, pbm_bytes, xor_rows};
pub use laws::arc_is_its_runs;
pub use obround::obround_row;
pub use rect::rect_row;
pub use ring::{Ring, ring_of};
pub use run_shape::RunShape;
pub use runs::arc::{beyond_runs, is_wide_arc, outer_runs};
pub use runs::bar::bar_runs;
pub use runs::cap::cap_runs;
pub use runs::edge::edge_runs;
pub use runs::obround::obround_runs;
pub use runs::rect::rect_runs;
pub use runs::run_row;
pub use runs::swept::swept_runs;
pub use swept::swept_row;
