//! Rasters of windows of pixels, in tiles that are drawn where they are dirty, and their raw PBM files (netpbm's
//! pbm(5), "P4").
//!
//! A [`Window`] has its lower left corner and its pitch in nanometres and its sides in pixels; column 0 is at the left,
//! row 0 at the top. A [`Raster`] keeps its tiles of 64 by 64 pixels: [`Raster::touch`] makes those dirty that a box
//! reaches, [`Raster::redraw`] has a [`Painter`] draw as many of them as it may. A [`Source`] paints a layer of either
//! kind: a pixel is black exactly where the layer is black at the pixel's centre.
//!
//! A reader starts with `src/plain.rt`: how one tile is drawn, from the last leaf on and row by row. `src/drawing.rt` draws
//! the dirty tiles of a row of tiles at once, by the runs of shapes in all of them; the tiles are the same.
//!
//! What a picture is stands in `specs/Picture.antt`, its file in `specs/Pbm.antt`, tiles in `specs/Tiles.antt`, what is
//! kept of them in `specs/Tables.antt`, and what boxes touch in `specs/Touched.antt`. The laws in `specs/TileLaws.antt`
//! say that clean tiles show the image, whatever is touched and drawn in between.
//!
//! ```rust
//! use cam_gerber::read_gerber;
//! use cam_tiles::{Raster, Source, Window};
//!
//! let layer = read_gerber(alloc, b"%FSLAX46Y46*%%MOMM*%%ADD10C,1*%D10*X0Y0D03*M02*")?;
//! // three by three pixels of half a millimetre about the disc
//! let window = Window {
//!     x: -750_000,
//!     y: -750_000,
//!     pitch: 500_000,
//!     width: 3,
//!     height: 3,
//! };
//! let mut raster = Raster::new(alloc, window)?;
//! let mut source = Source::gerber(&layer);
//! assert!(rt; raster.redraw(&mut source, u32::MAX) == 1 && raster.pixel(0, 1) == Some(true));
//! let file = raster.to_pbm()?;
//! assert!(rt; file.as_slice() == b"P4\n3 3\n\x40\xe0\x40".as_slice());
//! ```
#![tactic(auto)]

mod drawing;
mod fault;
mod grid;
mod index;
mod lattice;
mod laws;
mod levels;
mod masks;
mod painter;
mod pbm;
mod plain;
mod raster;
mod shown;
mod source;
mod span;
mod touch;
mod window;

pub use fault::RasterFault;
pub use grid::Grid;
pub use laws::{
    acceptance_is_by_all_centres, boxes_touch_their_tiles, clean_tiles_show_the_image,
    dirty_tiles_are_drawn_in_order, one_file_shows_the_image, plots_show_the_image,
};
pub use painter::{Painter, Tile};
pub use raster::Raster;
pub use source::Source;
pub use window::Window;
